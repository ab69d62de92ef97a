//! An output that threads share.

ghost use Rattle.std.specs.Prelude.{
  ◌≡◌,
  ◌≤◌,
  ◌+◌,
  ◌++◌,
  Ok,
  None,
  false,
  length,
  map,
  All,
  IfOk,
  IfErr,
  OnOk,
  OnErr,
};
ghost use Rattle.std.specs.Arc.{arc_value};
ghost use Rattle.std.specs.Sync.Mutex.{mutex_guard_value};
ghost use Rattle.std.specs.List.Sorted.{IsPermutation};
ghost use Rattle.fwd_chunks.specs.Live.{LiveBuffer, live_counts};
ghost use Rattle.fwd_chunks.specs.Soundness.{IsSound};
ghost use Rattle.fwd_chunks.specs.TagCounts.{AddsUp, IsSnapshot, live_report};
ghost use Rattle.fwd_session.specs.ServerAcks.{IsServerAck};
ghost use Rattle.fwd_book.specs.History.{BookSetting};
ghost use Rattle.fwd_output.specs.Looks.{IsForUse, may_look};
ghost use Rattle.fwd_output.specs.Paged.{
  AreGivenAfter,
  Ends,
  Gives,
  HasAcked,
  IsAsked,
  IsReportAfter,
  MayEnd,
  MayTake,
  Settles,
  Takes,
  taken_of,
};
ghost use Rattle.fwd_output.specs.Seats.{parts_of, counts_of};
ghost use Rattle.fwd_output.specs.Tickets.{AreGiven, IsRight, ticket_of};

use crate::collecting::Collected;
use crate::leaving::Leaving;
use crate::locked::{Closing, Locked};
use crate::offer::Found;
use crate::routed_request::RoutedRequest;
use crate::server_view::{ChunkSearch, Look, ServerView};
use crate::tally::{Ledgered, Seat, Tally};
use crate::ticket::Ticket;
use fwd_book::AdmitRefusal;
use fwd_chunks::{Carried, Counts, FlushKind, Report, Snapshot, tags_add_up};
use fwd_history::Run;
use fwd_modes::Batch;
use fwd_run::{EndedPage, SourcePage, WorkerPage};
use fwd_session::Acked;
use std::alloc::{AllocError, Global};
use std::sync::ledger::Ledger;
use std::sync::{Arc, Condvar, Mutex, MutexGuard, Wait};

/// An output under its lock. Each call takes the lock and makes the one call of its name on what
/// stands under it: the lock is held for that call, and never while a link is read or written.
#[derive(Drop)]
pub struct SharedOutput<A: Tally, S: Tally> {
    lock: Mutex<Locked<A, S>>,
    /// Where one waits that finds another output under the lock than its own: nobody does.
    other: Condvar,
}

impl<A: Tally, S: Tally> SharedOutput<A, S> {
    /// An output that threads may share.
    pub fn new(locked: Locked<A, S>) -> Self {
        SharedOutput {
            lock: Mutex::new(locked),
            other: Condvar::new(),
        }
    }

    /// The lock is taken, and the output of this number lies under it. It always does, but no
    /// clause sees that through a lock, so that it is looked at each time. Were it another, this
    /// would wait for ever.
    fn lock_of<R: Wait>(&self, rt: &R, output: u16) -> MutexGuard<'_, Locked<A, S>>
        ensures { (mutex_guard_value result).output.book.setting.output ≡ output }
    {
        self.other
            .wait_while(rt, self.lock.lock(rt), |locked| locked.output() != output)
    }

    /// The entries accepted, settled and held, with the bytes held and the chunks that hold them:
    /// those of what lies under the lock at one moment.
    pub fn counts<R: Wait>(&self, rt: &R) -> Counts
        ensures buffer { (b : LiveBuffer) × IsSound b × (result ≡ live_counts b) }
        ensures sum { result.accepted ≡ result.settled + result.held }
    {
        self.lock.lock(rt).counts()
    }

    /// The same, and what is held of each tag, by rising bytes: the report of what lies under the
    /// lock at one moment. The only error is out of memory. The lock is held while the tags are
    /// written down, and free again while they are put in order.
    pub fn report<R: Wait>(&self, rt: &R, alloc: Global) -> Result<Report, AllocError>
        ensures report { IfOk result (λ report.
            (b : LiveBuffer) × IsSound b × (report ≡ live_report b)) }
        ensures adds_up { IfOk result (λ report. AddsUp report) }
    {
        tags_add_up(); // for the proof
        let snapshot = self.snapshot(rt, alloc)?;
        Ok(snapshot.report(alloc)?)
    }

    /// How many entries are held of requests that asked for no acknowledgement: nobody sends them
    /// again. It is tested, as no clause sees it through the lock.
    pub fn unasked<R: Wait>(&self, rt: &R) -> u64 {
        self.lock.lock(rt).unasked()
    }

    /// When the oldest chunk was begun that is not settled, in milliseconds, if there is one. That
    /// it is that of what lies under the lock no clause can see: it is tested.
    pub fn oldest<R: Wait>(&self, rt: &R) -> Option<u64> {
        self.lock.lock(rt).oldest()
    }

    /// What the output has to do with, the tags in no order.
    fn snapshot<R: Wait>(&self, rt: &R, alloc: Global) -> Result<Snapshot, AllocError>
        ensures { IfOk result (λ snapshot.
            (b : LiveBuffer) × IsSound b × IsSnapshot b snapshot) }
    {
        self.lock.lock(rt).snapshot(alloc)
    }

    /// Admits a connection's request at a moment (milliseconds), the first that waits there, and
    /// gives a ticket for it. It is refused as `NotNow`, `Full` or `NumbersSpent`, or when out of
    /// memory, and then comes back.
    pub fn admit<R: Wait>(
        &self,
        rt: &R,
        alloc: Global,
        seat: &mut A::Seat,
        source: &mut SourcePage<A::Run>,
        request: RoutedRequest,
        now: u64,
    ) -> Result<Ticket, (AdmitRefusal, Batch)>
        requires { IsAsked source.old request.output request.origin request.batch }
        ensures ticket { IfOk result (λ t.
            (t.origin ≡ request.origin) × (t.batch ≡ request.batch)
            × (t.setting.output ≡ request.output)) }
        ensures back { IfErr result (λ e. e.1 ≡ request.batch) }
        ensures gives { OnOk result (Gives source.old source.new) }
        ensures stays { OnErr result (source.new ≡ source.old) }
        ensures counted { OnOk result (A.count seat.new
            ≡ A.count seat.old + A.kept (length request.batch.entries)) }
        ensures same { OnErr result (A.count seat.new ≡ A.count seat.old) }
        ensures parts { A.parts seat.new ≡ A.parts seat.old }
    {
        self.lock_of(rt, request.output)
            .admit(alloc, seat, source, request, now)
    }

    /// Receipts for the tickets whose entries are all acknowledged, the other tickets, and the
    /// history of the run, after which the output gives these receipts. It costs what is handed in,
    /// and no more: who holds many tickets learns from `counts` whether anything was settled since,
    /// and need not hand them in where nothing was. The only error is out of memory, and then all
    /// tickets come back.
    pub fn collect<R: Wait>(
        &self,
        rt: &R,
        alloc: Global,
        tickets: Vec<Ticket>,
    ) -> Result<Collected<A::Run>, (AllocError, Vec<Ticket>)>
        ensures right { IfOk result (λ p. (setting : BookSetting)
            × IsPermutation tickets.items (map (ticket_of setting) p.0.items ++ p.1.items)
            × All (λ r. IsRight r (ticket_of setting r)) p.0.items) }
        // There is such a history: a run of the output's own events reaches it, and at its end the
        // output gives just these receipts.
        ensures history { IfOk result (λ p. (setting : BookSetting)
            × IsPermutation tickets.items (map (ticket_of setting) p.0.items ++ p.1.items)
            × AreGiven setting p.0.items) }
        // And that is the history of the run, as far as it is reached then.
        ensures reached { IfOk result (λ p. (setting : BookSetting)
            × IsPermutation tickets.items (map (ticket_of setting) p.0.items ++ p.1.items)
            × AreGivenAfter p.2 setting p.0.items) }
        ensures back { IfErr result (λ e. e.1.items ≡ tickets.items) }
    {
        self.lock.lock(rt).collect(alloc, tickets)
    }

    /// Nobody is to be told of the ticket's request any more; its entries stay.
    pub fn abandon<R: Wait>(&self, rt: &R, ticket: Ticket) {
        self.lock.lock(rt).abandon(ticket);
    }

    /// Closes the open chunks that a flush closes at a moment (milliseconds), and answers how many.
    pub fn flush<R: Wait>(&self, rt: &R, now: u64, kind: FlushKind) -> usize {
        self.lock.lock(rt).flush(now, kind)
    }

    /// Whether a worker could send a chunk at a moment (milliseconds): one is free, or may be closed.
    pub fn has_chunk<R: Wait>(&self, rt: &R, now: u64, kind: FlushKind) -> bool {
        self.lock.lock(rt).has_chunk(now, kind)
    }

    /// The server that a worker tries at a moment (milliseconds), if one is usable.
    pub fn choose<R: Wait>(&self, rt: &R, worker: u16, now: u64) -> Option<u16> {
        self.lock.lock(rt).choose(worker, now)
    }

    /// Gives a worker the free chunk of the least number at a moment (milliseconds), if there is
    /// one. The only error is out of memory.
    pub fn take<R: Wait>(
        &self,
        rt: &R,
        alloc: Global,
        seat: &mut S::Seat,
        worker: &mut WorkerPage<A::Run>,
        now: u64,
    ) -> Result<Option<Carried>, AllocError>
        requires { MayTake worker.old worker.old.output }
        ensures takes { IfOk result (λ carried. Takes worker.old carried worker.new) }
        ensures stays { OnErr result (worker.new ≡ worker.old) }
        ensures same { seat.new ≡ seat.old }
    {
        self.lock_of(rt, worker.output())
            .take(alloc, seat, worker, now)
    }

    /// What a worker sees at a moment (milliseconds); and if it looks for a chunk for its use, it
    /// takes the one that it is offered, if that is for this use: a free one, or the first open one
    /// that may be closed, and only then are any closed. The only error is out of memory.
    pub fn look_for<R: Wait>(
        &self,
        rt: &R,
        alloc: Global,
        seat: &mut S::Seat,
        worker: &mut WorkerPage<A::Run>,
        search: ChunkSearch,
        now: u64,
    ) -> Look
        requires may { MayTake worker.old worker.old.output }
        requires own { search.worker ≡ worker.old.worker }
        ensures leaves { may_look result.view search.chunk_use ≡ false
            → result.found ≡ Ok Found.Nothing }
        ensures fits { IfOk result.found (λ found.
            IsForUse found result.view search.chunk_use) }
        ensures takes { IfOk result.found (λ found.
            Takes worker.old (taken_of found) worker.new) }
        ensures stays { OnErr result.found (worker.new ≡ worker.old) }
        ensures same { seat.new ≡ seat.old }
    {
        self.lock_of(rt, worker.output())
            .look_for(alloc, seat, worker, search, now)
    }

    /// What a worker sees at a moment (milliseconds) before it takes a chunk.
    pub fn server_view<R: Wait>(&self, rt: &R, worker: u16, now: u64) -> ServerView {
        self.lock.lock(rt).server_view(worker, now)
    }

    /// Whether a server was lost since it last settled a chunk, so that it is not known to work.
    pub fn is_doubted<R: Wait>(&self, rt: &R, server: u16) -> bool {
        self.lock.lock(rt).is_doubted(server)
    }

    /// A worker claims the next free chunk from a moment on (milliseconds), for a while.
    pub fn claim<R: Wait>(&self, rt: &R, now: u64) {
        self.lock.lock(rt).claim(now);
    }

    /// A worker that claimed a free chunk took one.
    pub fn release<R: Wait>(&self, rt: &R) {
        self.lock.lock(rt).release();
    }

    /// A server could not be had for a chunk. If that was lost before, it counts as lost there too.
    pub fn miss<R: Wait>(&self, rt: &R, chunk: u64, server: u16) {
        self.lock.lock(rt).miss(chunk, server);
    }

    /// A server acknowledged the chunk: its entries are settled, and answered is how many they are,
    /// no more than the chunk has.
    pub fn settle<R: Wait>(
        &self,
        rt: &R,
        seat: &mut S::Seat,
        worker: &mut WorkerPage<A::Run>,
        acked: Arc<Acked>,
        carried: Carried,
    ) -> u64
        requires backed { IsServerAck (arc_value acked) carried }
        requires acked { HasAcked worker.old worker.old.output (arc_value acked) carried }
        ensures settles { Settles worker.old worker.new }
        ensures most { result ≤ length carried.entries }
        ensures counted { S.count seat.new ≡ S.count seat.old + S.kept result }
        ensures parts { S.parts seat.new ≡ S.parts seat.old }
    {
        self.lock_of(rt, worker.output())
            .settle(seat, worker, acked, carried)
    }

    /// A server is lost at a moment (milliseconds) that could not be reached, and no chunk. Answers
    /// whether the output has such a server.
    pub fn lose<R: Wait>(&self, rt: &R, alloc: Global, server: u16, now: u64) -> bool {
        self.lock.lock(rt).lose(alloc, server, now)
    }

    /// A worker's end at a moment (milliseconds): the chunk that it took and did not load is given
    /// back without a loss, and those that it loaded with a loss each; and a server may be lost.
    pub fn end<R: Wait>(
        &self,
        rt: &R,
        seat: &mut S::Seat,
        worker: &mut WorkerPage<A::Run>,
        leaving: Leaving,
        now: u64,
    )
        requires { MayEnd worker.old worker.old.output leaving.kind leaving.taken
            leaving.loaded.items leaving.server }
        ensures ends { Ends worker.old worker.new }
        ensures same { seat.new ≡ seat.old }
    {
        self.lock_of(rt, worker.output())
            .end(seat, worker, leaving, now);
    }
}

impl<L: Ledger + Run, M: Ledger + Run> SharedOutput<Ledgered<L>, Ledgered<M>> {
    /// With all seats handed in, what they added is what the output accepted and settled.
    pub fn close(self, admit_seats: Vec<Seat<L>>, work_seats: Vec<Seat<M>>) -> Closing
        requires admitting { parts_of admit_seats.items ≡ L.parts }
        requires working { parts_of work_seats.items ≡ M.parts }
        ensures accepted { result.accepted ≡ counts_of admit_seats.items }
        ensures settled { result.settled ≡ counts_of work_seats.items }
        ensures left { result.accepted ≡ result.settled + result.left }
    {
        let SharedOutput { lock, other: _ } = self;
        lock.into_inner().close(admit_seats, work_seats)
    }
}

impl<A: Tally + Drop, S: Tally + Drop> SharedOutput<A, S> {
    /// Nobody shares the output any more: its report, and its page, by which it is what that
    /// reports. The only error is out of memory.
    pub fn last_report(self, alloc: Global) -> Result<(Report, EndedPage<A::Run>), AllocError>
        ensures report { IfOk result (λ last. IsReportAfter last.1.past last.1.output last.0) }
        ensures adds_up { IfOk result (λ last. AddsUp last.0) }
    {
        let SharedOutput { lock, other: _ } = self;
        let locked = lock.into_inner();
        let report = locked.report(alloc)?;
        Ok((report, locked.ends()))
    }
}
