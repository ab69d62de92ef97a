//! The outputs as a reader sees them, and which tags go to which.

ghost use Rattle.std.specs.Prelude.{
  ◌≡◌,
  ◌≢◌,
  ◌⊎◌,
  ◌<◌,
  ℕ,
  Some,
  true,
  false,
  map,
  length,
  All,
  IfOk,
  IfErr,
  OnOk,
  OnErr,
};
ghost use Rattle.fwd_modes.specs.Requests.{Request};
ghost use Rattle.fwd_modes.specs.declared.origin.Origin.{Origin};
ghost use Rattle.fwd_run.specs.Runs.{routes_at};
ghost use Rattle.fwd_peers.specs.Costs.{upkeep};
ghost use Rattle.fwd_peers.specs.Peers.{Gives, first_route};
ghost use Rattle.fwd_reader.specs.Admissions.{
  Admits,
  AdmitsAndRefuses,
  AdmitsAndWaits,
  AdmitsEach,
  Enters,
  IsDeclined,
  Refuses,
};
ghost use Rattle.fwd_reader.specs.OpenTickets.{AreAllSame, all_due, due_at};
ghost use Rattle.fwd_reader.specs.Owing.{owes_more};
ghost use Rattle.fwd_reader.specs.Settlements.{Hears, HearsOf, SettlesAt};

mod collecting;

use crate::admission::Admission;
use crate::flush_timer::FlushTimer;
use crate::output::{Output, sized};
use crate::output_route::OutputRoute;
use fwd_environment::WorkerEvent;
use fwd_history::Run;
use fwd_links::Notices;
use fwd_match::Routes;
use fwd_monitors::{Accepted, Observer, SharedTally};
use fwd_peers::{CloseReason, SourcePeer};
use fwd_run::ReachedHistory;
use std::alloc::{AllocError, AllocFailed, Global};
use std::marker::Model;
use std::sync::Wait;

/// How many bytes are kept in reserve for collecting receipts: what is settled is given back only
/// once they are collected. Without this reserve a relay whose memory the sources have used up
/// would stand still with all its entries settled.
const RESERVE: usize = 1 << 20;

/// Why a source's first request that waits is not admitted.
#[derive(Clone, Copy)]
enum NotAdmitted {
    /// It ends the source.
    Ends(CloseReason),
    /// It waits until something was answered, or settled.
    Waits,
}

/// The outputs, in the settings' order, and which tags go to which. They must be spent: by `close`.
pub struct Router<'a, J: Run> {
    alloc: Global,
    routes: &'a Routes,
    /// Who may enter each output, and who waits.
    admission: Admission<'a, J>,
    all: Vec<OutputRoute<'a, J>>,
    /// Nothing is ever put into it: where memory is refused for receipts it is given back.
    reserve: Vec<u8>,
    /// The history of the run as far as it is known here, for the proof.
    reached: ReachedHistory<J>,
}

impl<'a, J: Run> Model for Router<'a, J> {
    ghost use Rattle.std.specs.Prelude.{◌≡◌, All, Some};
    ghost use Rattle.fwd_run.specs.Runs.{routes_at};
    ghost use Rattle.fwd_reader.specs.Owing.{owed_at_each};
    ghost use Rattle.fwd_reader.specs.Routers.{RouterShown, stores_of};
    ghost use Rattle.fwd_reader.specs.Promises.{HoldsRouted};

    ghost Value = { RouterShown };

    ghost view = { λ o. record {
      routes = o.routes.now;
      stores = stores_of o.all.items;
      owed = owed_at_each o.admission;
      reached = o.reached;
    } };

    ghost invariant = { λ o. All (HoldsRouted o.routes.now) (stores_of o.all.items)
        × (routes_at o.reached ≡ Some o.routes.now) };
}

/// The outputs' tickets are abandoned.
fn close_all<J: Run, R: Wait>(rt: &R, router: Vec<OutputRoute<'_, J>>) {
    let mut rest = router.into_iter();
    while let Some(output_route) = rest.next() {
        output_route.close(rt);
    }
    rest.destroy_empty();
}

/// What a router is made of: the number of its reader, where requests go, the timer of each output,
/// and the history of the run as far as it is known.
#[derive(Drop)]
pub struct RouterParts<'a, J: Run> {
    pub reader: usize,
    pub routes: &'a Routes,
    pub outputs: &'a [Output<J>],
    pub timers: &'a mut [FlushTimer],
    pub reached: ReachedHistory<J>,
}

impl<'a, J: Run> Router<'a, J> {
    /// The outputs as a reader sees them, where no ticket is out. The only error is out of memory.
    pub fn new<R: Wait>(
        rt: &R,
        alloc: Global,
        parts: RouterParts<'a, J>,
    ) -> Result<Router<'a, J>, AllocError>
        requires { routes_at parts.reached ≡ Some parts.routes.now }
        ensures routes { IfOk result (λ router. router.routes ≡ parts.entry.routes.now) }
        ensures owed { IfOk result (λ router.
            router.owed ≡ map (λ output. 0) parts.entry.outputs.now) }
        ensures reached { IfOk result (λ router. router.reached ≡ parts.entry.reached) }
    {
        let RouterParts {
            reader,
            routes,
            outputs,
            timers,
            reached,
        } = parts;
        let admission = Admission::new(alloc, outputs, reader)?;
        let mut all = Vec::new(alloc);
        for (output, timer) in outputs.iter().zip(timers) {
            let output_route = OutputRoute::new(alloc, output, timer);
            if let Err(
                AllocFailed {
                    value: output_route,
                },
            ) = all.push(output_route)
            {
                output_route.close(rt);
                close_all(rt, all);
                return Err(AllocError);
            }
        }
        let mut reserve = Vec::new(alloc);
        let _ = reserve.reserve(RESERVE);
        Ok(Router {
            alloc,
            routes,
            admission,
            all,
            reserve,
            reached,
        })
    }

    /// Admits the requests that wait at a source at a moment (milliseconds), and says whether some
    /// have to wait longer. A request that is refused ends the source, and what waits behind it is
    /// not looked at.
    pub fn admit_all<R: Wait>(&mut self, rt: &R, source: &mut SourcePeer<J>, now: u64) -> bool
        ensures waits { result ≡ true → AdmitsAndWaits self.old source.old self.new source.new }
        ensures done { result ≡ false → AdmitsEach self.old source.old self.new source.new
            ⊎ AdmitsAndRefuses self.old source.old self.new source.new }
        ensures routes { self.new.routes ≡ self.old.routes }
    {
        for _ in 0..source.waiting() {
            let bytes = source.asked_bytes() as u64;
            match self.admit(rt, source, now) {
                Ok(()) => {}
                Err(NotAdmitted::Waits) => return true,
                Err(NotAdmitted::Ends(why)) => {
                    source.refuse(sized(self.admission.outputs, why, bytes));
                    return false;
                }
            }
        }
        false
    }

    /// Admits the first request that waits, at the first output whose pattern matches its tag. Or
    /// it waits longer, and then nothing has changed.
    fn admit<R: Wait>(
        &mut self,
        rt: &R,
        source: &mut SourcePeer<J>,
        now: u64,
    ) -> Result<(), NotAdmitted>
        ensures admitted { OnOk result (Admits self.old source.old self.new source.new) }
        ensures waits { IfErr result (λ why. why ≡ NotAdmitted.Waits
            → (self.new ≡ self.old) × (source.new ≡ source.old)) }
        ensures named { IfErr result (λ why. why ≡ NotAdmitted.Waits
            → (number : ℕ) × (first_route self.old.routes source.old ≡ Some number)) }
        ensures refused { IfErr result (λ why. (reason : CloseReason)
            → why ≡ NotAdmitted.Ends reason
            → Refuses self.old source.old reason self.new source.new) }
        ensures routes { self.new.routes ≡ self.old.routes }
    {
        let Some(output) = source.route(self.routes) else {
            return Err(NotAdmitted::Ends(CloseReason::NoRoute));
        };
        if !self.may_enter(rt, output, source) {
            return Err(NotAdmitted::Waits);
        }
        let bytes = source.asked_bytes() as u64;
        let entered = self.enter(rt, output, source, now);
        self.admission.release(rt, output, bytes);
        let owed = entered?;
        self.owes(output, owed);
        Ok(())
    }

    /// Whether the first request that waits at a source may enter the output of this number. Where
    /// it may not, it waits there from now on.
    fn may_enter<R: Wait>(&mut self, rt: &R, output: u16, source: &mut SourcePeer<J>) -> bool
        ensures this { self.new ≡ self.old }
        ensures source { source.new ≡ source.old }
    {
        self.admission.ask(rt, output, source)
    }

    /// The output of this number owes an answer to a request more, which takes so many bytes beside
    /// its entries.
    fn owes(&mut self, output: u16, bytes: u64)
        ensures { self.new ≡ record self.old { owed = owes_more output bytes self.old.owed } }
    {
        self.admission.owes(output, bytes);
    }

    /// Enters the first request that waits at a source at a moment (milliseconds) at the output of
    /// this number, which the routes name first for its tag: that output keeps its ticket. How many
    /// bytes it takes beside its entries.
    fn enter<R: Wait>(
        &mut self,
        rt: &R,
        output: u16,
        source: &mut SourcePeer<J>,
        now: u64,
    ) -> Result<u64, NotAdmitted>
        requires { first_route self.old.routes source.old ≡ Some output }
        ensures entered { IfOk result (λ owed. (asked : Origin × Request)
            × Gives source.old (Some asked) source.new
            × Enters self.old.stores output asked self.new.stores
            × (owed ≡ upkeep asked.1.tag asked.1.chunk)) }
        ensures ends { IfErr result (λ why. why ≢ NotAdmitted.Waits) }
        ensures declined { IfErr result (λ why. (reason : CloseReason)
            → why ≡ NotAdmitted.Ends reason
            → IsDeclined self.old.stores output source.old reason source.new) }
        ensures same { OnErr result (AreAllSame self.old.stores self.new.stores) }
        ensures routes { self.new.routes ≡ self.old.routes }
        ensures owed { self.new.owed ≡ self.old.owed }
    {
        let Some(output_route) = self.all.get_mut(output as usize) else {
            return Err(NotAdmitted::Ends(CloseReason::NoRoute));
        };
        let owed = match output_route.admit(rt, output, source, &self.reached, now) {
            Ok(owed) => owed,
            Err(refusal) => {
                return Err(NotAdmitted::Ends(CloseReason::Refused(output, refusal)));
            }
        };
        Ok(owed)
    }

    /// A source goes: it waits at no output any more, and whoever is next in line may be admitted.
    pub fn leave<R: Wait>(&mut self, rt: &R, source: &mut SourcePeer<J>)
        ensures this { self.new ≡ self.old }
        ensures source { source.new ≡ source.old }
    {
        self.admission.leave(rt, source);
    }

    /// Whether something was settled or answered since the last call: requests that wait may be
    /// admitted now.
    pub fn has_moved(&mut self) -> bool
        ensures { self.new ≡ self.old }
    {
        self.admission.take_moved()
    }

    /// Whether a source that waits has its turn now by other readers, which is looked at again; and
    /// an observer is told at which outputs sources wait, at a moment (milliseconds).
    pub fn tend<R: Wait, W: Observer>(&mut self, rt: &R, observer: &mut W, now: u64)
        ensures { self.new ≡ self.old }
    {
        self.admission.tend(rt, observer, now);
    }

    /// Whether another reader has its turn at an output from now on: then all are to be called.
    pub fn passes_on(&self) -> bool {
        self.admission.passes_on()
    }

    /// The reader is about to sleep: where an output owes it nothing and none of its sources waits
    /// for room, it need not hear of what is settled.
    pub fn rest(&self) {
        self.admission.rest();
    }

    /// How long the loop may wait from a moment on, at most so long: until the next flush (all in
    /// milliseconds).
    pub fn patience(&self, now: u64, longest: u64) -> u64 {
        if self.admission.is_moved() {
            return 0;
        }
        let mut wait = longest;
        for output_route in &self.all {
            if output_route.open_tickets.is_due() {
                return 0;
            }
            if let Some(due) = output_route.timer.next_look() {
                wait = wait.min(due.saturating_sub(now));
            }
        }
        wait
    }

    /// Wakes workers that could send a chunk at a moment (milliseconds) after all admissions: one
    /// that is due; or any, if sources wait at its output, or the relay drains.
    pub fn wake_due<R: Wait>(&mut self, rt: &R, now: u64, is_draining: bool)
        ensures { self.new ≡ self.old }
    {
        for place in 0..self.all.len() {
            self.wake_due_at(rt, place, now, is_draining);
        }
    }

    /// Wakes one of the output at a place.
    fn wake_due_at<R: Wait>(&mut self, rt: &R, place: usize, now: u64, is_draining: bool)
        ensures { self.new ≡ self.old }
    {
        let has_waiting = self.admission.has_waiting(place);
        let Some(output_route) = self.all.get_mut(place) else {
            return;
        };
        output_route.wake_due(rt, now, has_waiting | is_draining);
    }

    /// Counts what was accepted since the last call.
    pub fn count<R: Wait>(&mut self, rt: &R, tally: &SharedTally)
        ensures { self.new ≡ self.old }
    {
        for number in 0..u16::MAX {
            if self.all.len() <= number as usize {
                break;
            }
            if let Some(accepted) = self.take_accepted(number) {
                tally.accept(rt, number, accepted);
            }
        }
    }

    /// What the output of this number accepted since the last call.
    fn take_accepted(&mut self, number: u16) -> Option<Accepted>
        ensures { self.new ≡ self.old }
    {
        let Some(output_route) = self.all.get_mut(number as usize) else {
            return None;
        };
        Some(output_route.take_accepted())
    }

    /// Something was settled: requests that wait may be admitted now.
    fn note_moved(&mut self)
        ensures { self.new ≡ self.old }
    {
        self.admission.note_moved();
    }

    /// Workers settled chunks: the tickets that waited for those are to be handed in.
    pub fn hear(&mut self, notices: &Notices)
        ensures heard { Hears notices.now self.old.stores self.new.stores }
        ensures routes { self.new.routes ≡ self.old.routes }
        ensures owed { self.new.owed ≡ self.old.owed }
    {
        if notices.missed {
            self.settle_all();
        }
        for notice in &notices.all {
            self.hear_of(notice.output, notice.event);
        }
    }

    /// A worker of the output of this number told something.
    fn hear_of(&mut self, output: u16, event: WorkerEvent)
        ensures heard { HearsOf output event self.old.stores self.new.stores }
        ensures routes { self.new.routes ≡ self.old.routes }
        ensures owed { self.new.owed ≡ self.old.owed }
    {
        if let WorkerEvent::Settled { number, server: _ } = event {
            self.note_moved();
            self.settle(output as usize, number);
        }
    }

    /// A chunk of the output at a place is settled.
    fn settle(&mut self, place: usize, chunk: u64)
        ensures settled { SettlesAt self.old.stores place chunk self.new.stores }
        ensures routes { self.new.routes ≡ self.old.routes }
        ensures owed { self.new.owed ≡ self.old.owed }
    {
        let Some(output_route) = self.all.get_mut(place) else {
            return;
        };
        output_route.open_tickets.settle(chunk);
    }

    /// All tickets are to be handed in.
    pub(crate) fn settle_all(&mut self)
        ensures due { self.new.stores ≡ map all_due self.old.stores }
        ensures routes { self.new.routes ≡ self.old.routes }
        ensures owed { self.new.owed ≡ self.old.owed }
        ensures reached { self.new.reached ≡ self.old.reached }
    {
        self.note_moved();
        for place in 0..self.all.len() {
            self.settle_at(place);
        }
    }

    /// All tickets of the output at a place are to be handed in.
    fn settle_at(&mut self, place: usize)
        ensures due { self.new.stores ≡ due_at place self.old.stores }
        ensures routes { self.new.routes ≡ self.old.routes }
        ensures owed { self.new.owed ≡ self.old.owed }
        ensures reached { self.new.reached ≡ self.old.reached }
    {
        let Some(output_route) = self.all.get_mut(place) else {
            return;
        };
        output_route.open_tickets.settle_all();
    }

    /// The tickets that are left are abandoned.
    pub fn close<R: Wait>(self, rt: &R) {
        let Router {
            alloc: _,
            routes: _,
            admission: _,
            all,
            reserve: _,
            reached: _,
        } = self;
        close_all(rt, all);
    }
}
