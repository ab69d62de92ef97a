//! What happens in a run, in one history, and what each part of the relay is after it.
//!
//! The parts of a run are its outputs, the workers of those, its connections, and what gives
//! connections their ids. An event names one of them, or two. Whoever knows a part after a history
//! knows it after each longer one in which the part had no further part, whatever the others did.
#![tactic(auto)]

mod ended_page;
mod laws;
mod opening;
mod output_page;
mod run_event;
mod source_ids;
mod source_page;
mod step;
mod worker_page;

pub use ended_page::EndedPage;
pub use laws::{empty_output_has_delivered, parts_stay, run_delivers, run_is_the_relays};
pub use opening::{open_run, skip};
pub use output_page::OutputPage;
pub use run_event::{OpenedRun, ReachedHistory, RunEvent, RunLaw, RunPage, RunPages};
pub use source_ids::SourceIds;
pub use source_page::{IdPage, SourcePage};
pub use worker_page::WorkerPage;
