//! The relay: one step at a time, and over lists of events.

ghost use Rattle.std.specs.Prelude.{
  ◌≡◌,
  ◌≢◌,
  ◌++◌,
  ◌∷◌,
  ℕ,
  List,
  true,
  IfOk,
  IfErr,
  OnErr,
  Some,
  length,
  slice_get,
};
ghost use Rattle.fwd_model.specs.History.{
  opening,
  History,
  histories,
  counts as counts_of,
  reports as reports_of,
  IsReached,
};
ghost use Rattle.fwd_model.specs.Live.{live, live_relay_counts, live_relay_reports, lives};
ghost use Rattle.fwd_model.specs.declared.config.Config.{Config as Settings};
ghost use Rattle.fwd_core.specs.Runs.{
  told,
  kept,
  takes_none,
  is_free,
  IsAtFault,
  NeedsNone,
  AreStepsOf,
};
ghost use Rattle.fwd_model.specs.declared.event.Event.{Event as AbstractEvent};
ghost use Rattle.fwd_model.specs.Delivered.{IsDelivered, IsToldAmong, reached};
ghost use Rattle.fwd_model.specs.Outcome.{answer_of, state_of};
ghost use Rattle.fwd_model.specs.Step.{step, answers as answers_to, after};

use crate::state::State;
use fwd_chunks::{Counts, Report};
use fwd_model::{
    Answer, Config, Event, live_follows, live_run_follows, refusal_changes_nothing,
    told_among_is_delivered, waiting_is_new,
};
use std::alloc::{AllocError, AllocFailed, Global};
use std::marker::Model;

/// A relay that one thread owns. What it shows is always the live part of a history that a run
/// reaches.
#[derive(Drop)]
pub struct Relay {
    state: State,
}

impl Model for Relay {
    ghost use Rattle.fwd_model.specs.Live.{LiveRelay};
    ghost use Rattle.fwd_core.specs.Standing.{IsStanding};

    ghost Value = { LiveRelay };

    ghost view = { λ r. r.state };

    ghost invariant = { λ r. IsStanding r.state };
}

impl Relay {
    /// A relay before its first event. The only error is out of memory, and then the configuration
    /// comes back.
    pub fn new(alloc: Global, config: Config) -> Result<Self, AllocFailed<Config>>
        ensures ok { IfOk result (λ r. r ≡ live (opening config)) }
        ensures err { IfErr result (λ failed. failed.value ≡ config) }
    {
        let state = State::new(alloc, config)?;
        Ok(Relay { state })
    }

    /// What an event does, and what is answered. It is the live step of the abstract relay, or
    /// out of memory, and then nothing has changed. It is never that where the event takes no
    /// memory, where what it comes to takes none, and where its bytes are at fault before anything
    /// has to grow.
    pub fn step(&mut self, alloc: Global, event: &Event) -> Answer
        ensures answer { result ≢ Answer.Memory
            → result ≡ answer_of (step lives self.old event.now) }
        ensures next { result ≢ Answer.Memory
            → self.new ≡ state_of self.old (step lives self.old event.now) }
        ensures memory { result ≡ Answer.Memory → self.new ≡ self.old }
        ensures none { takes_none event.now ≡ true → result ≢ Answer.Memory }
        ensures sure { is_free (answer_of (step lives self.old event.now)) ≡ true
            → result ≢ Answer.Memory }
        ensures fault { IsAtFault self.old event.now → result ≢ Answer.Memory }
    {
        refusal_changes_nothing(); // for the proof
        live_follows(); // for the proof
        waiting_is_new();
        self.state.try_step(alloc, event).unwrap_or(Answer::Memory)
    }

    /// Steps through events, and answers each, as `step` does. Over the events that are not
    /// answered out of memory, the answers and the state are the abstract relay's, from any history
    /// that a run reaches and whose live part this relay is. Where the room for the answers is
    /// refused, nothing has changed.
    pub fn run(&mut self, alloc: Global, events: &[Event]) -> Result<Vec<Answer>, AllocError>
        ensures count { IfOk result (λ answers. length answers.items ≡ length events.now) }
        ensures steps { IfOk result (λ answers.
            AreStepsOf self.old events.now answers.items self.new) }
        // However little memory is left, an event that needs none is answered as it should be.
        ensures sure { IfOk result (λ answers. (before later : List AbstractEvent)
            (e : AbstractEvent) → events.now ≡ before ++ e ∷ later →
            NeedsNone (after lives self.old (kept before answers.items)) e →
            slice_get answers.items (length before) ≡ Some
            (answer_of (step lives (after lives self.old (kept before answers.items)) e))) }
        ensures answers { IfOk result (λ answers.
            told answers.items ≡ answers_to lives self.old (kept events.now answers.items)) }
        ensures state { IfOk result (λ answers.
            self.new ≡ after lives self.old (kept events.now answers.items)) }
        ensures history { IfOk result (λ answers. (config : Settings) (h : History)
            → IsReached config h → self.old ≡ live h →
            (told answers.items ≡ answers_to histories h (kept events.now answers.items))
            × (self.new ≡ live (after histories h (kept events.now answers.items)))) }
        // Whoever is told was delivered, by what came before.
        ensures delivered { IfOk result (λ answers.
            (config : Settings) (es : List AbstractEvent) →
            self.old ≡ live (reached config es) → (id r o : ℕ)
            (t : IsToldAmong (kept events.now answers.items) (told answers.items) id r o) →
            IsDelivered config (es ++ t.before) id r o) }
        ensures err { OnErr result (self.new ≡ self.old) }
    {
        live_run_follows(); // for the proof
        told_among_is_delivered(); // for the proof
        let mut answers = Vec::with_capacity(alloc, events.len())?;
        for event in events {
            let answer = self.step(alloc, event);
            answers.push(answer).unwrap();
        }
        Ok(answers)
    }

    /// The entries accepted, settled and held, with the bytes held and the chunks that hold them,
    /// of each output.
    pub fn counts(&self, alloc: Global) -> Result<Vec<Counts>, AllocError>
        ensures live { IfOk result (λ counts. counts.items ≡ live_relay_counts self.now) }
        // They are those of any history whose live part this relay is.
        ensures history { IfOk result (λ counts. (h : History) → self.now ≡ live h
            → counts.items ≡ counts_of h) }
    {
        live_follows(); // for the proof
        self.state.counts(alloc)
    }

    /// The same, and what is held of each tag, by rising bytes.
    pub fn reports(&self, alloc: Global) -> Result<Vec<Report>, AllocError>
        ensures live { IfOk result (λ reports. reports.items ≡ live_relay_reports self.now) }
        // They are those of any history that a run reaches and whose live part this relay is.
        ensures history { IfOk result (λ reports. (config : Settings) (h : History)
            → IsReached config h → self.now ≡ live h → reports.items ≡ reports_of h) }
    {
        live_follows(); // for the proof
        self.state.reports(alloc)
    }
}
