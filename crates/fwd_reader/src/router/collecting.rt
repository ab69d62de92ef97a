//! Receipts are collected at the outputs, sources are told of them, and what was answered is owed
//! no more.

ghost use Rattle.std.specs.Prelude.{
  ◌≡◌,
  ◌<◌,
  ℕ,
  true,
  false,
  length,
  All,
  IfOk,
  OnErr,
};
ghost use Rattle.fwd_history.specs.Histories.{Comes};
ghost use Rattle.fwd_reader.specs.Answering.{AnswersAll, AnswersEach, AnswersSome};
ghost use Rattle.fwd_reader.specs.Collections.{CollectsInPart, CollectsWhole};
ghost use Rattle.fwd_reader.specs.OpenConnections.{sources_in};
ghost use Rattle.fwd_reader.specs.OpenTickets.{AreQuiet, TellsDue};
ghost use Rattle.fwd_reader.specs.Owing.{owes_less};
ghost use Rattle.fwd_reader.specs.Promises.{TellsPromised};
ghost use Rattle.fwd_reader.specs.Rounds.{
  ChangesAt,
  CollectsAll,
  CollectsEach,
  CollectsOnce,
  most_rounds,
};

use super::{RESERVE, Router};
use crate::connections::Connections;
use fwd_history::Run;
use fwd_monitors::{JournalEvent, MemoryFor, Observer};
use std::alloc::AllocError;
use std::sync::Wait;

/// The most rounds of collecting at the end of a run.
const ROUNDS: u32 = 1 << 20;

impl<'a, J: Run> Router<'a, J> {
    /// Hands in tickets that are due, each at its output, and tells the sources of their receipts:
    /// of each output some hundred. Where memory is refused for them what is kept in reserve is
    /// given back, and they are collected again. It says whether more are due, but for those that
    /// memory was refused for.
    #[tactic(auto, using(crate::proofs::Told::nothing, crate::proofs::Told::on))]
    pub fn collect<R: Wait, W: Observer>(
        &mut self,
        rt: &R,
        connections: &mut Connections<J>,
        observer: &mut W,
    ) -> bool
        ensures promised { TellsPromised self.old.routes self.new.reached
            (sources_in connections.old) (sources_in connections.new) }
        ensures onward { Comes self.old.reached self.new.reached }
        ensures each { CollectsEach self.old.stores (sources_in connections.old) result
            self.new.stores (sources_in connections.new) }
        ensures answers { AnswersEach self.old (sources_in connections.old)
            self.new (sources_in connections.new) }
        ensures routes { self.new.routes ≡ self.old.routes }
    {
        self.refill();
        let mut is_more = false;
        for number in 0..u16::MAX {
            if self.all.len() <= number as usize {
                break;
            }
            let mut answered = 0;
            is_more = self.collect_at(rt, number, connections, observer, &mut answered) || is_more;
            self.note_answered(number, answered);
        }
        is_more
    }

    /// Memory is taken into reserve where none is there.
    fn refill(&mut self)
        ensures { self.new ≡ self.old }
    {
        if self.reserve.capacity() > 0 {
            return;
        }
        let _ = self.reserve.reserve(RESERVE);
    }

    /// The same of the output of this number, if there is one. It is added up what the requests
    /// took beside their entries that are answered, in bytes.
    #[tactic(auto, using(crate::proofs::Told::on, crate::proofs::Told::further))]
    fn collect_at<R: Wait, W: Observer>(
        &mut self,
        rt: &R,
        number: u16,
        connections: &mut Connections<J>,
        observer: &mut W,
        answered: &mut u64,
    ) -> bool
        ensures promised { TellsPromised self.old.routes self.new.reached
            (sources_in connections.old) (sources_in connections.new) }
        ensures onward { Comes self.old.reached self.new.reached }
        ensures once { number < length self.old.stores → ChangesAt
            (λ s t. CollectsOnce s (sources_in connections.old) result
            t (sources_in connections.new))
            self.old.stores number self.new.stores }
        ensures answers { number < length self.old.stores → ChangesAt
            (λ s t. AnswersSome s (sources_in connections.old) answered.old
            t (sources_in connections.new) answered.new)
            self.old.stores number self.new.stores }
        ensures routes { self.new.routes ≡ self.old.routes }
        ensures owed { self.new.owed ≡ self.old.owed }
    {
        if let Ok(is_more) = self.try_collect(rt, number, connections, answered) {
            return is_more;
        }
        self.reserve = Vec::new(self.alloc);
        match self.try_collect(rt, number, connections, answered) {
            Ok(is_more) => is_more,
            Err(_) => {
                observer.observe(JournalEvent::Memory(MemoryFor::Output(number)));
                false
            }
        }
    }

    /// The same, with the memory that is to be had. The only error is out of memory.
    #[tactic(auto, using(crate::proofs::Told::nothing, crate::proofs::Told::no_further))]
    fn try_collect<R: Wait>(
        &mut self,
        rt: &R,
        number: u16,
        connections: &mut Connections<J>,
        answered: &mut u64,
    ) -> Result<bool, AllocError>
        ensures promised { TellsPromised self.old.routes self.new.reached
            (sources_in connections.old) (sources_in connections.new) }
        ensures onward { Comes self.old.reached self.new.reached }
        ensures whole { number < length self.old.stores → IfOk result (λ more. ChangesAt
            (λ s t. CollectsWhole most_rounds s (sources_in connections.old)
            t (sources_in connections.new) × TellsDue more t)
            self.old.stores number self.new.stores) }
        ensures part { number < length self.old.stores → OnErr result (ChangesAt
            (λ s t. CollectsInPart s (sources_in connections.old)
            t (sources_in connections.new))
            self.old.stores number self.new.stores) }
        ensures answers { number < length self.old.stores → ChangesAt
            (λ s t. AnswersSome s (sources_in connections.old) answered.old
            t (sources_in connections.new) answered.new)
            self.old.stores number self.new.stores }
        ensures routes { self.new.routes ≡ self.old.routes }
        ensures owed { self.new.owed ≡ self.old.owed }
    {
        let Some(output_route) = self.all.get_mut(number as usize) else {
            return Ok(false);
        };
        output_route.collect(rt, connections, answered, &mut self.reached)?;
        Ok(output_route.open_tickets.is_due())
    }

    /// The output of this number answered requests, if any, that took so many bytes beside their
    /// entries: these are owed no more.
    fn note_answered(&mut self, number: u16, bytes: u64)
        ensures { self.new ≡ record self.old { owed = owes_less number bytes self.old.owed } }
    {
        self.admission.answered(number, bytes);
    }

    /// Hands in all tickets, and tells the sources of their receipts.
    #[tactic(auto, using(crate::proofs::Told::nothing, crate::proofs::Told::on))]
    pub fn collect_all<R: Wait, W: Observer>(
        &mut self,
        rt: &R,
        connections: &mut Connections<J>,
        observer: &mut W,
    )
        ensures promised { TellsPromised self.old.routes self.new.reached
            (sources_in connections.old) (sources_in connections.new) }
        ensures onward { Comes self.old.reached self.new.reached }
        ensures all { CollectsAll ROUNDS self.old.stores (sources_in connections.old)
            self.new.stores (sources_in connections.new) }
        ensures answers { AnswersAll self.old (sources_in connections.old)
            self.new (sources_in connections.new) }
        ensures routes { self.new.routes ≡ self.old.routes }
    {
        self.settle_all();
        for _ in 0..ROUNDS {
            if !self.is_due() {
                return;
            }
            self.collect(rt, connections, observer);
        }
    }

    /// Whether there are tickets to be handed in.
    fn is_due(&self) -> bool
        ensures quiet { result ≡ false → All AreQuiet self.now.stores }
        ensures due { result ≡ true → ¬ (All AreQuiet self.now.stores) }
    {
        for output_route in &self.all {
            if output_route.open_tickets.is_due() {
                return true;
            }
        }
        false
    }
}
