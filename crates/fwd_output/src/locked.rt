//! What stands under an output's lock: the output, and how many entries it accepted and settled.

ghost use Rattle.std.specs.Prelude.{
  ◌≡◌,
  ◌≤◌,
  ◌+◌,
  ◌++◌,
  ◌||◌,
  List,
  Err,
  true,
  false,
  None,
  [],
  ◌∷◌,
  length,
  map,
  max,
  All,
  is_some,
  option_map,
  option_to_list,
  IfOk,
  IfErr,
  IfSome,
  IsOk,
  OnOk,
  OnErr,
};
ghost use Rattle.std.specs.Arc.{arc_value};
ghost use Rattle.std.specs.List.Sorted.{IsPermutation};
ghost use Rattle.fwd_chunks.specs.declared.wanted.Wanted.TheVariants as wanted;
ghost use Rattle.fwd_chunks.specs.Live.{
  IsCarried,
  live_closing,
  live_first_closing,
  live_counts,
  live_flushes,
  live_given,
  live_carried_chunk,
  live_looks,
  live_takes,
};
ghost use Rattle.fwd_chunks.specs.Soundness.{IsSound};
ghost use Rattle.fwd_chunks.specs.TagCounts.{AddsUp, IsSnapshot, live_report};
ghost use Rattle.fwd_failover.specs.Doubts.{live_is_doubted, live_trusted};
ghost use Rattle.fwd_session.specs.ServerAcks.{IsServerAck};
ghost use Rattle.fwd_book.specs.Live.{IsSound as IsSoundBook};
ghost use Rattle.fwd_model.specs.Outputs.{
  live_count_at,
  live_loses,
  output_choice,
  output_ends,
  output_looks,
  output_settles,
  returned,
};
ghost use Rattle.fwd_output.specs.OutputEvents.{IsLiveOutput};
ghost use Rattle.fwd_output.specs.Paged.{
  AreGivenAfter,
  Ends,
  Gives,
  HasAcked,
  IsAsked,
  MayEnd,
  MayTake,
  Settles,
  Takes,
};
ghost use Rattle.fwd_output.specs.Tickets.{
  Ticket as AbstractTicket,
  AreGiven,
  IsShown,
  IsRight,
  refusal_at,
  ticket_for,
  ticket_of,
};
ghost use Rattle.fwd_output.specs.Turns.{
  AreCollected,
  origins_of,
  receipts_for,
  is_claimed_at,
  locked_admits,
  locked_claims,
  locked_with,
  locked_releases,
  locked_settles,
  locked_tells,
};

mod closing;
mod looking;

use crate::chunk_starts::ChunkStarts;
use crate::collecting::{Collected, receipts_of, shows};
use crate::leaving::Leaving;
use crate::lost_at::LostAt;
use crate::paged_output::PagedOutput;
use crate::routed_request::RoutedRequest;
use crate::server_order::ServerOrder;
use crate::server_view::ServerView;
use crate::tally::Tally;
use crate::ticket::Ticket;
use crate::unasked_entries::UnaskedEntries;
pub use closing::Closing;
use fwd_book::AdmitRefusal;
use fwd_chunks::{Carried, Counts, FlushKind, Report, Snapshot, Wanted, tags_add_up};
use fwd_modes::Batch;
use fwd_run::{SourcePage, WorkerPage};
use fwd_session::Acked;
use std::alloc::{AllocError, Global};
use std::marker::Model;
use std::sync::Arc;

/// How long a claim on free chunks stands, in milliseconds. Who claims them looks again far sooner.
const CLAIM: u64 = 100;

/// An output with the counters of the entries that it accepted and settled, which are always what
/// the output says.
#[derive(Drop)]
pub struct Locked<A: Tally, S: Tally> {
    state: PagedOutput<A::Run>,
    accepted: A,
    settled: S,
    /// The moment (milliseconds) up to which free chunks are left to a worker that claims them.
    claimed: u64,
    /// When the chunks were begun that are not settled. Where memory is refused for a chunk it does
    /// not stand there.
    begun: ChunkStarts,
    /// Where the chunks were lost that are not settled, the first ones of their sessions.
    lost_at: LostAt,
    /// What the chunks have that are not settled, and nobody sends again.
    unasked: UnaskedEntries,
    /// The output's servers, where they are known. Where they are not, a chunk that was lost goes
    /// where any chunk goes.
    order: Option<ServerOrder>,
}

impl<A: Tally, S: Tally> Model for Locked<A, S> {
    ghost use Rattle.std.specs.Prelude.{◌≡◌};
    ghost use Rattle.fwd_output.specs.Turns.{LockedState};

    ghost Value = { LockedState };

    ghost view = { λ s. record {
      output = s.state;
      accepted = A.total s.accepted;
      settled = S.total s.settled;
      claimed = s.claimed;
    } };

    ghost invariant = { λ s. (A.total s.accepted ≡ s.state.buffer.accepted)
        × (S.total s.settled ≡ s.state.buffer.settled) };
}

impl<A: Tally, S: Tally> Locked<A, S> {
    /// An output and its counters.
    pub fn new(alloc: Global, output: PagedOutput<A::Run>, accepted: A, settled: S) -> Self
        requires accepted { A.total accepted ≡ output.buffer.accepted }
        requires settled { S.total settled ≡ output.buffer.settled }
        ensures { result ≡ record {
          output = output;
          accepted = A.total accepted;
          settled = S.total settled;
          claimed = 0;
        } }
    {
        Locked {
            state: output,
            accepted,
            settled,
            claimed: 0,
            begun: ChunkStarts::new(alloc),
            lost_at: LostAt::new(alloc),
            unasked: UnaskedEntries::new(alloc),
            order: None,
        }
    }

    /// The same, with its servers: a chunk that was lost at one of them goes to another.
    pub fn with_order(self, order: ServerOrder) -> Self
        ensures { result ≡ self }
    {
        let mut locked = self;
        locked.order = Some(order);
        locked
    }

    /// What is true of every output, among it that it is the live part of a history that a run of
    /// its own events reaches; and that its counters' totals are what it accepted and settled.
    pub fn is_sound(&self)
        ensures chunks { IsSound self.now.output.buffer }
        ensures requests { IsSoundBook self.now.output.book }
        ensures reached { IsLiveOutput self.now.output }
        ensures accepted { self.now.accepted ≡ self.now.output.buffer.accepted }
        ensures settled { self.now.settled ≡ self.now.output.buffer.settled }
    {
        self.state.is_sound(); // for the proof
    }

    /// The entries accepted, settled and held, with the bytes held and the chunks that hold them.
    pub fn counts(&self) -> Counts
        ensures counts { result ≡ live_counts self.now.output.buffer }
        ensures sum { result.accepted ≡ result.settled + result.held }
        ensures sound { IsSound self.now.output.buffer }
    {
        self.state.is_sound(); // for the proof
        self.state.now().counts()
    }

    /// The same, and what is held of each tag, the tags in no order: made quickly, while others
    /// wait for the lock. The only error is out of memory.
    pub fn snapshot(&self, alloc: Global) -> Result<Snapshot, AllocError>
        ensures snapshot { IfOk result (λ snapshot.
            IsSnapshot self.now.output.buffer snapshot) }
        ensures sound { IsSound self.now.output.buffer }
    {
        self.state.is_sound(); // for the proof
        self.state.now().snapshot(alloc)
    }

    /// The same with the tags by rising bytes. The only error is out of memory.
    pub fn report(&self, alloc: Global) -> Result<Report, AllocError>
        ensures report { IfOk result (λ report.
            report ≡ live_report self.now.output.buffer) }
        ensures adds_up { IfOk result (λ report. AddsUp report) }
    {
        tags_add_up(); // for the proof
        self.state.is_sound(); // for the proof
        self.state.now().report(alloc)
    }

    /// The output's number.
    pub fn output(&self) -> u16
        ensures { result ≡ self.now.output.book.setting.output }
    {
        self.state.now().output()
    }

    /// How many entries are held of requests that asked for no acknowledgement: nobody sends them
    /// again.
    pub fn unasked(&self) -> u64 {
        self.unasked.count()
    }

    /// When the oldest chunk was begun that is not settled, in milliseconds, if there is one.
    pub fn oldest(&self) -> Option<u64> {
        self.begun.oldest()
    }

    /// Admits a connection's request at a moment (milliseconds), and gives a ticket for it. It is
    /// refused as `NotNow` where the output owes an answer to a request of this connection and
    /// number, then as `Full` where the bytes held would be more than the total limit, then as
    /// `NumbersSpent`. On an error nothing has changed, and the request comes back.
    pub fn admit(
        &mut self,
        alloc: Global,
        seat: &mut A::Seat,
        source: &mut SourcePage<A::Run>,
        request: RoutedRequest,
        now: u64,
    ) -> Result<Ticket, (AdmitRefusal, Batch)>
        requires { IsAsked source.old self.old.output.book.setting.output request.origin
            request.batch }
        ensures refused { IfSome (refusal_at self.old.output request.origin request.batch now)
            (λ why. result ≡ Err (why, request.batch)) }
        ensures ticket { IfOk result (λ t.
            t ≡ ticket_for self.old.output request.origin request.batch now) }
        ensures ok { OnOk result (self.new
            ≡ locked_admits self.old request.origin request.batch now) }
        ensures memory { refusal_at self.old.output request.origin request.batch now ≡ None
            → IfErr result (λ e. e.0 ≡ AdmitRefusal.Memory) }
        ensures back { IfErr result (λ e. e.1 ≡ request.batch) }
        ensures err { OnErr result (self.new ≡ self.old) }
        ensures gives { OnOk result (Gives source.old source.new) }
        ensures stays { OnErr result (source.new ≡ source.old) }
        ensures counted { OnOk result (A.count seat.new
            ≡ A.count seat.old + A.kept (length request.batch.entries)) }
        ensures same { OnErr result (A.count seat.new ≡ A.count seat.old) }
        ensures parts { A.parts seat.new ≡ A.parts seat.old }
    {
        let RoutedRequest {
            output: _,
            origin,
            batch,
        } = request;
        if self.state.now().holds(origin) {
            return Err((AdmitRefusal::NotNow, batch));
        }
        let admitted = match self.state.admit(alloc, source, origin, &batch, now) {
            Ok(admitted) => admitted,
            Err(error) => return Err((AdmitRefusal::from(error), batch)),
        };
        self.state.is_sound(); // for the proof
        self.accepted.add(seat, batch.len() as u64);
        let _ = self.begun.enter(admitted.spans.as_slice(), now);
        self.unasked.enter(&batch, admitted.spans.as_slice());
        let state = self.state.now();
        let (run, output) = (state.run(), state.output());
        Ok(Ticket::new(run, output, origin, batch, admitted))
    }

    /// Receipts for the tickets whose entries are all acknowledged, the other tickets, in their
    /// order, and the history of the run, after which the output gives these receipts. Of two
    /// tickets of one request the second comes back, and so does the ticket of another output. It
    /// costs what is handed in, and no more: who holds many tickets learns from `counts` whether
    /// anything was settled since, and need not hand them in where nothing was. The only error is
    /// out of memory; then nothing has changed, and all tickets come back.
    pub fn collect(
        &mut self,
        alloc: Global,
        tickets: Vec<Ticket>,
    ) -> Result<Collected<A::Run>, (AllocError, Vec<Ticket>)>
        ensures collected { IfOk result (λ p. (told : List AbstractTicket)
            × AreCollected self.old.output.book [] tickets.items told p.1.items
            × (p.0.items ≡ receipts_for self.old.output.book told)
            × (self.new ≡ locked_tells self.old (origins_of told))) }
        ensures each { IfOk result (λ p. IsPermutation tickets.items
            (map (ticket_of self.old.output.book.setting) p.0.items ++ p.1.items)) }
        ensures right { IfOk result (λ p. All (λ r.
            IsRight r (ticket_of self.old.output.book.setting r)) p.0.items) }
        // They are what this output gives at that point of a history of its own events.
        ensures history { IfOk result (λ p.
            AreGiven self.old.output.book.setting p.0.items) }
        // And that is the history of the run, as far as it is reached here.
        ensures reached { IfOk result (λ p.
            AreGivenAfter p.2 self.old.output.book.setting p.0.items) }
        ensures back { IfErr result (λ e. e.1.items ≡ tickets.items) }
        ensures err { OnErr result (self.new ≡ self.old) }
    {
        self.state.is_sound(); // for the proof
        let Ok(due) = receipts_of(self.state.now(), alloc, &tickets) else {
            return Err((AllocError, tickets));
        };
        let Ok(receipts) = Vec::with_capacity(alloc, tickets.len()) else {
            return Err((AllocError, tickets));
        };
        let Ok(back) = Vec::with_capacity(alloc, tickets.len()) else {
            return Err((AllocError, tickets));
        };
        let reached = self.state.reached();
        let (receipts, back) = self.state.hand_out(tickets, due, receipts, back);
        Ok((receipts, back, reached))
    }

    /// Nobody is to be told of the ticket's request any more: it leaves, and its entries stay. The
    /// ticket of a request that the output does not owe an answer to is only spent.
    pub fn abandon(&mut self, ticket: Ticket)
        ensures shown { IsShown self.old.output.book ticket
            → self.new ≡ locked_tells self.old (ticket.origin ∷ []) }
        ensures other { ¬ (IsShown self.old.output.book ticket) → self.new ≡ self.old }
    {
        if shows(self.state.now(), &ticket) {
            self.state.leave_at(ticket.slot(), ticket.origin());
        }
        ticket.spend();
    }

    /// A worker claims the next free chunk from a moment on (milliseconds), for a while. Its
    /// session was sought for a chunk that was lost, which else any worker would take, at the very
    /// moment at which the server that lost it is tried again.
    pub(crate) fn claim(&mut self, now: u64)
        ensures { self.new ≡ locked_claims self.old now }
    {
        self.claimed = now.saturating_add(CLAIM);
    }

    /// A worker that claimed a free chunk took one.
    pub(crate) fn release(&mut self)
        ensures { self.new ≡ locked_releases self.old }
    {
        self.claimed = 0;
    }

    /// Whether free chunks are left to a worker that claims them, at a moment (milliseconds).
    pub(crate) fn is_claimed(&self, now: u64) -> bool
        ensures { result ≡ is_claimed_at self.now now }
    {
        now < self.claimed
    }

    /// Closes the open chunks that a flush closes at a moment (milliseconds), and answers how many.
    pub fn flush(&mut self, now: u64, kind: FlushKind) -> usize
        ensures count { result ≡ length (live_closing self.old.output.buffer now kind) }
        ensures flushed { self.new ≡ locked_with self.old (record (self.old.output) {
          buffer = live_flushes self.old.output.buffer now kind;
        }) }
    {
        self.state.flush(now, kind)
    }

    /// Whether a worker could send a chunk at a moment (milliseconds): one is free, or a flush of
    /// this kind closes one.
    pub fn has_chunk(&self, now: u64, kind: FlushKind) -> bool
        ensures { result ≡ (is_some (live_given (live_looks self.now.output.buffer now))
            || is_some (live_first_closing self.now.output.buffer now kind)) }
    {
        let state = self.state.now();
        state.free_chunk(Wanted::Any, now).is_some() || state.first_closing(now, kind).is_some()
    }

    /// The server that a worker tries at a moment (milliseconds), if one is usable.
    pub fn choose(&mut self, worker: u16, now: u64) -> Option<u16>
        ensures choice { result ≡ output_choice self.old.output worker now }
        ensures looked { self.new ≡ locked_with self.old (output_looks self.old.output now) }
    {
        self.state.choose(worker, now)
    }

    /// Gives a worker the free chunk of the least number at a moment (milliseconds), if there is
    /// one. On an error, out of memory, nothing has changed.
    pub fn take(
        &mut self,
        alloc: Global,
        seat: &mut S::Seat,
        worker: &mut WorkerPage<A::Run>,
        now: u64,
    ) -> Result<Option<Carried>, AllocError>
        requires { MayTake worker.old self.old.output.book.setting.output }
        ensures given { IfOk result (λ carried. carried ≡ option_map
            (live_carried_chunk self.old.output.buffer)
            (live_given (live_looks self.old.output.buffer now))) }
        ensures ok { OnOk result (self.new ≡ locked_with self.old (record (self.old.output) {
          buffer = live_takes self.old.output.buffer worker.old.worker wanted.Any now;
        })) }
        ensures err { OnErr result (self.new ≡ self.old) }
        ensures takes { IfOk result (λ carried. Takes worker.old carried worker.new) }
        ensures stays { OnErr result (worker.new ≡ worker.old) }

        // Where none is free, no memory is taken.
        ensures none { live_given (live_looks self.old.output.buffer now) ≡ None
            → IsOk result }
        ensures same { seat.new ≡ seat.old }
    {
        let _ = seat;
        self.state.take_wanted(alloc, worker, Wanted::Any, now)
    }

    /// A server could not be had for a chunk. If that was lost before, it counts as lost there too.
    pub(crate) fn miss(&mut self, chunk: u64, server: u16)
        ensures { self.new ≡ self.old }
    {
        self.lost_at.miss(chunk, server);
    }

    /// A server may be lost at a moment (milliseconds), with a chunk that was taken for it, and
    /// with those that it owed an acknowledgement, of which the first counts: the others were lost
    /// with that one, since a server takes them in their order.
    fn note_lost(&mut self, leaving: &Leaving, now: u64)
        ensures { self.new ≡ self.old }
    {
        let (Some(order), Some(server)) = (&mut self.order, leaving.server) else {
            return;
        };
        order.lost(server, now);
        if order.is_single() {
            return;
        }
        if let Some(chunk) = &leaving.taken {
            self.lost_at.miss(chunk.number(), server);
        }
        if let Some(chunk) = leaving.loaded.first() {
            self.lost_at.lose(chunk.number(), server);
        }
    }

    /// A server settled so many entries of a chunk: all that it has, or none, where it is not the
    /// output's.
    fn note_settled(&mut self, server: u16, chunk: u64, entries: u64)
        ensures { self.new ≡ self.old }
    {
        if entries == 0 {
            return;
        }
        self.lost_at.settle(chunk);
        if let Some(order) = &mut self.order {
            order.settled(server);
        }
    }

    /// What a worker sees at a moment (milliseconds) before it takes a chunk.
    pub fn server_view(&mut self, worker: u16, now: u64) -> ServerView
        ensures server { result.server ≡ output_choice self.old.output worker now }
        ensures doubted { IfSome result.server (λ server.
            result.is_doubted ≡ live_is_doubted self.new.output.servers server) }
        ensures trusted { result.trusted ≡ live_trusted self.new.output.servers worker }
        ensures claimed { result.is_claimed ≡ is_claimed_at self.old now }
        ensures looked { self.new ≡ locked_with self.old (output_looks self.old.output now) }
    {
        let server = self.state.choose(worker, now);
        let is_doubted = match server {
            None => false,
            Some(server) => self.state.now().is_doubted(server),
        };
        ServerView {
            is_claimed: self.is_claimed(now),
            server,
            is_doubted,
            trusted: self.state.now().trusted(worker),
        }
    }

    /// Whether a server was lost since it last settled a chunk, so that it is not known to work.
    pub fn is_doubted(&self, server: u16) -> bool
        ensures { result ≡ live_is_doubted self.now.output.servers server }
    {
        self.state.now().is_doubted(server)
    }

    /// A server acknowledged the chunk: its entries are settled, and answered is how many they are.
    pub fn settle(
        &mut self,
        seat: &mut S::Seat,
        worker: &mut WorkerPage<A::Run>,
        acked: Arc<Acked>,
        carried: Carried,
    ) -> u64
        requires backed { IsServerAck (arc_value acked) carried }
        requires acked { HasAcked worker.old self.old.output.book.setting.output (arc_value acked)
            carried }
        ensures settled { self.new
            ≡ locked_settles self.old (output_settles self.old.output (arc_value acked)) result }
        ensures count { result ≡ live_count_at carried.number self.old.output }
        ensures most { result ≤ length carried.entries }
        ensures settles { Settles worker.old worker.new }
        ensures counted { S.count seat.new ≡ S.count seat.old + S.kept result }
        ensures parts { S.parts seat.new ≡ S.parts seat.old }
    {
        self.state.is_sound(); // for the proof
        let number = carried.number();
        let server = acked.server();
        let count = self.state.settle(worker, acked, carried) as u64;
        self.state.is_sound(); // for the proof
        self.settled.add(seat, count);
        self.begun.settle(number, count);
        self.unasked.settle(number, count);
        self.note_settled(server, number, count);
        count
    }

    /// A server is lost at a moment (milliseconds) that could not be reached, and no chunk. Answers
    /// whether the output has such a server.
    pub fn lose(&mut self, alloc: Global, server: u16, now: u64) -> bool
        ensures lost { result ≡ true → self.new
            ≡ locked_with self.old (output_ends self.old.output [] (Some server) now) }
        ensures other { result ≡ false → self.new ≡ self.old }
    {
        if let Some(order) = &mut self.order {
            order.lost(server, now);
        }
        self.state.lose(alloc, server, now)
    }

    /// A worker's end at a moment (milliseconds): the chunk that it took and did not load is given
    /// back without a loss, and those that it loaded with a loss each, in their order; and a server
    /// may be lost.
    pub fn end(
        &mut self,
        seat: &mut S::Seat,
        worker: &mut WorkerPage<A::Run>,
        leaving: Leaving,
        now: u64,
    )
        requires { MayEnd worker.old self.old.output.book.setting.output leaving.kind
            leaving.taken leaving.loaded.items leaving.server }
        ensures ended { self.new ≡ locked_with self.old (output_ends self.old.output
            (returned leaving.taken leaving.loaded.items) leaving.server now) }
        ensures ends { Ends worker.old worker.new }
        ensures same { seat.new ≡ seat.old }
    {
        let _ = seat;
        self.note_lost(&leaving, now);
        self.state.end(worker, leaving, now);
    }
}
