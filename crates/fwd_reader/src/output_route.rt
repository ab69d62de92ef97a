//! An output as the loop sees it.

ghost use Rattle.std.specs.Prelude.{◌≡◌, ℕ, List, Some, true, false, IfErr, IfOk, OnOk, OnErr};
ghost use Rattle.fwd_modes.specs.Requests.{Request};
ghost use Rattle.fwd_modes.specs.declared.origin.Origin.{Origin};
ghost use Rattle.fwd_history.specs.Histories.{Comes};
ghost use Rattle.fwd_run.specs.Runs.{routes_at};
ghost use Rattle.fwd_peers.specs.Costs.{upkeep};
ghost use Rattle.fwd_peers.specs.Peers.{Gives, first_route};
ghost use Rattle.fwd_reader.specs.Admissions.{IsTurnedAway, KeepsTicketOf, silent_entries};
ghost use Rattle.fwd_reader.specs.OpenTickets.{AreSame};
ghost use Rattle.fwd_reader.specs.Answering.{AnswersSome};
ghost use Rattle.fwd_reader.specs.Owing.{upkeep_of};
ghost use Rattle.fwd_reader.specs.OpenConnections.{sources_in};
ghost use Rattle.fwd_reader.specs.Collections.{Collects, CollectsInPart, CollectsWhole};
ghost use Rattle.fwd_reader.specs.Promises.{HoldsRouted, TellsPromised};

use crate::connections::Connections;
use crate::flush_timer::FlushTimer;
use crate::open_tickets::{Backlog, OpenTickets};
use crate::output::Output;
use fwd_book::{AdmitRefusal, Receipt};
use fwd_history::Run;
use fwd_modes::Batch;
use fwd_monitors::Accepted;
use fwd_output::{Entrance, Ticket};
use fwd_peers::{SourcePeer, upkeep};
use fwd_run::ReachedHistory;
use std::alloc::{AllocError, Global};
use std::mem;
use std::sync::Wait;

/// The most blocks of tickets that are handed in to an output at a time: some hundred tickets.
const BLOCKS: u16 = 16;

/// What requests take beside their entries that are answered by these receipts, in bytes.
fn upkeep_of(receipts: &[Receipt]) -> u64
    ensures { result ≡ upkeep_of receipts.now }
{
    let mut bytes: u64 = 0;
    for receipt in receipts {
        let one = upkeep(receipt.tag(), receipt.chunk());
        bytes = bytes.saturating_add(one as u64);
    }
    bytes
}

/// How many entries a request has, where its source asks for no acknowledgement of them, and else
/// none.
fn silent_entries(batch: &Batch) -> u64
    ensures { result ≡ silent_entries batch.now }
{
    match batch.chunk() {
        None => batch.len() as u64,
        Some(_) => 0,
    }
}

/// An output, the tickets that it gave, and when a worker is woken for what is due. It must be spent:
/// by `close`.
pub(crate) struct OutputRoute<'a, J: Run> {
    alloc: Global,
    output: &'a Output<J>,
    pub open_tickets: OpenTickets,
    pub timer: &'a mut FlushTimer,
    /// The greatest number of a chunk that requests went to.
    newest: Option<u64>,
    /// What was accepted since that was last asked for.
    accepted: Accepted,
}

impl<'a, J: Run> OutputRoute<'a, J> {
    /// An output that gave no tickets yet.
    pub fn new(
        alloc: Global,
        output: &'a Output<J>,
        timer: &'a mut FlushTimer,
    ) -> OutputRoute<'a, J>
        ensures { (routes : List (List (List ℕ))) → HoldsRouted routes result.open_tickets }
    {
        OutputRoute {
            alloc,
            output,
            open_tickets: OpenTickets::new(alloc),
            timer,
            newest: None,
            accepted: Accepted::NOTHING,
        }
    }

    /// Admits the first request that waits at a connection at a moment (milliseconds), as the output
    /// of this number, to which the routes lead it by the run's history, and keeps its ticket. How
    /// many bytes it takes beside its entries. Where memory is refused for keeping the ticket, the
    /// entries stay, and it is as if the request was not admitted.
    pub fn admit<R: Wait>(
        &mut self,
        rt: &R,
        number: u16,
        source: &mut SourcePeer<J>,
        reached: &ReachedHistory<J>,
        now: u64,
    ) -> Result<u64, AdmitRefusal>
        requires { (routes : List (List (List ℕ))) × (routes_at reached.now ≡ Some routes)
            × (first_route routes source.old ≡ Some number) }
        ensures kept { IfOk result (λ owed. (asked : Origin × Request)
            × Gives source.old (Some asked) source.new
            × KeepsTicketOf number self.old.open_tickets asked self.new.open_tickets
            × (owed ≡ upkeep asked.1.tag asked.1.chunk)) }
        ensures refused { IfErr result (λ reason. IsTurnedAway source.old reason source.new) }
        ensures same { OnErr result (AreSame self.old.open_tickets self.new.open_tickets) }
        ensures flush { OnOk result
            (self.new.timer.now ≡ record self.old.timer.now { is_fresh = true }) }
    {
        let output = &self.output.shared;
        let backlog = Backlog::of(source);
        let entrance = Entrance {
            output,
            number,
            reached,
        };
        let ticket = source.enter(rt, self.alloc, entrance, now)?;
        self.timer.admitted();
        self.count(ticket.batch());
        let owed = upkeep(ticket.batch().tag(), ticket.batch().chunk()) as u64;
        self.wake_for(rt, &ticket);
        match self.open_tickets.keep(backlog, ticket) {
            Ok(()) => Ok(owed),
            Err(ticket) => {
                output.abandon(rt, ticket);
                Err(AdmitRefusal::Memory)
            }
        }
    }

    /// A request is accepted.
    fn count(&mut self, batch: &Batch)
        ensures tickets { self.new.open_tickets ≡ self.old.open_tickets }
        ensures timer { self.new.timer ≡ self.old.timer }
    {
        let silent = silent_entries(batch);
        let bytes = batch.entries().len() as u64;
        self.accepted = Accepted {
            without_ack: self.accepted.without_ack.saturating_add(silent),
            bytes: self.accepted.bytes.saturating_add(bytes),
        };
    }

    /// Wakes a worker where a request may have closed a chunk by its size. That happens only where
    /// the next chunk of a tag is opened, which has a greater number than all before it, and where
    /// the output holds more than a chunk. Each chunk wakes at most once here.
    fn wake_for<R: Wait>(&mut self, rt: &R, ticket: &Ticket)
        ensures tickets { self.new.open_tickets ≡ self.old.open_tickets }
        ensures timer { self.new.timer ≡ self.old.timer }
    {
        let Some(last) = ticket.spans().last() else {
            return;
        };
        let is_new = match self.newest {
            None => true,
            Some(newest) => newest < last.number,
        };
        if is_new {
            self.newest = Some(last.number);
            if self.output.has_more_than_a_chunk(rt) {
                self.output.wake();
            }
        }
    }

    /// Wakes a worker if one looks for a chunk, and could send one at a moment (milliseconds) after
    /// all admissions. The worker closes what it takes, so that chunks go on growing while no worker
    /// can send them. If all are at work, the first to look finds what is due. If one is at work, the
    /// others are woken a little later. If it is urgent, since sources wait or the relay drains, a
    /// worker is woken once in a millisecond: if its servers are away, it can send nothing.
    pub fn wake_due<R: Wait>(&mut self, rt: &R, now: u64, is_urgent: bool)
        ensures { self.new.open_tickets ≡ self.old.open_tickets }
    {
        let is_due = self.is_due(now, is_urgent);
        let is_again = is_urgent && self.timer.is_rested(now);
        if !self.output.is_awaited() || !(is_due || is_again) {
            if is_urgent {
                self.timer.hasten(now);
            }
            return;
        }
        if is_urgent {
            self.timer.rest(now);
        }
        if self.output.has_chunk(rt, now, is_urgent) {
            self.output.wake();
        }
    }

    /// Whether chunks may be due at a moment (milliseconds), which is noted.
    fn is_due(&mut self, now: u64, is_urgent: bool) -> bool
        ensures { self.new.open_tickets ≡ self.old.open_tickets }
    {
        let moment = now.saturating_sub(self.gathers(is_urgent));
        self.timer.look(now);
        let is_due = self.timer.is_due(moment);
        if is_due {
            self.timer.handled(moment);
        }
        if moment < now {
            self.timer.rest(now);
        }
        is_due
    }

    /// For how long no worker is woken for what is due, in milliseconds.
    fn gathers(&self, is_urgent: bool) -> u64 {
        if is_urgent || !self.output.is_awaited() {
            0
        } else {
            self.output.gathers()
        }
    }

    /// Hands in tickets that are due, block by block, and tells the sources of their receipts: some
    /// hundred, the others when it is called again. It is added up what the requests took beside
    /// their entries that are answered, in bytes, and what is known of the run's history goes on to
    /// where the output gave them. The only error is out of memory, and then those that were last
    /// handed in are to be handed in still.
    #[tactic(auto, using(crate::proofs::Told::nothing, crate::proofs::Told::no_round))]
    pub fn collect<R: Wait>(
        &mut self,
        rt: &R,
        connections: &mut Connections<J>,
        answered: &mut u64,
        reached: &mut ReachedHistory<J>,
    ) -> Result<(), AllocError>
        ensures each { OnOk result (Collects
            self.old.open_tickets (sources_in connections.old)
            self.new.open_tickets (sources_in connections.new)) }
        ensures whole { OnOk result (CollectsWhole BLOCKS
            self.old.open_tickets (sources_in connections.old)
            self.new.open_tickets (sources_in connections.new)) }
        ensures part { OnErr result (CollectsInPart
            self.old.open_tickets (sources_in connections.old)
            self.new.open_tickets (sources_in connections.new)) }
        ensures answers { AnswersSome
            self.old.open_tickets (sources_in connections.old) answered.old
            self.new.open_tickets (sources_in connections.new) answered.new }
        ensures routed { (routes : List (List (List ℕ))) → HoldsRouted routes self.old.open_tickets
            → HoldsRouted routes self.new.open_tickets }
        ensures promised { (routes : List (List (List ℕ)))
            → HoldsRouted routes self.old.open_tickets
            → TellsPromised routes reached.new
            (sources_in connections.old) (sources_in connections.new) }
        ensures onward { Comes reached.old reached.new }
    {
        for _ in 0..BLOCKS {
            if !self.open_tickets.is_due() {
                break;
            }
            let handed = self.open_tickets.hand_in(rt, self.alloc, self.output)?;
            let (receipts, given) = handed;
            connections.tell_all(&receipts, &given, reached);
            *answered = answered.saturating_add(upkeep_of(&receipts));
        }
        Ok(())
    }

    /// What was accepted since the last call.
    pub fn take_accepted(&mut self) -> Accepted
        ensures { self.new.open_tickets ≡ self.old.open_tickets }
    {
        mem::replace(&mut self.accepted, Accepted::NOTHING)
    }

    /// The tickets that are left are abandoned.
    pub fn close<R: Wait>(self, rt: &R) {
        let OutputRoute {
            alloc: _,
            output,
            open_tickets,
            timer: _,
            newest: _,
            accepted: _,
        } = self;
        open_tickets.close(rt, output);
    }
}
