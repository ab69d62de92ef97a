//! The abstract relay: what a reader has to believe. Events and answers, the history that keeps
//! everything, its step, its live part, and the laws between them. What an event comes to is a type
//! (`Outcome`), by whose form a refusal changes nothing. The step is written over records of what
//! is asked of each layer and what changes in it; the history and the live state are two instances
//! of these.
#![tactic(auto)]

mod answer;
mod config;
mod event;
mod fault;
mod laws;
mod numbers;

pub use answer::Answer;
pub use config::{Config, OutputConfig};
pub use event::{EndKind, Event};
pub use fault::Refusal;
pub use fwd_chunks::{BufferLimits, Counts, FlushKind, Span, Wanted};
pub use fwd_session::{AckTerms, OwnedSalt, SessionFault};
pub use fwd_source::{Origin, SourceFault};
pub use laws::{
    acknowledgement_before_fault_stands, collect_tells_what_is_due, early_reply_settles_nothing,
    end_gives_back_all, live_follows, live_run_follows, marked_is_told, refusal_changes_nothing,
    session_begins_once, told_among_is_delivered, told_is_delivered, told_without_entries,
    unrelated_events_commute, waiting_is_new, window_is_kept,
};
pub use numbers::Numbers;
