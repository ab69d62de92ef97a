//! The whole program: `forward_relay run CONFIG [TURNS] | stop CONFIG [SECONDS] | check CONFIG |
//! replay | version | help`.
#![tactic(auto)]

mod asked;
mod asked_stop;
mod errors;
mod process;
mod process_observer;
mod program;
mod running;
mod showing;
mod stopping;

pub use errors::Errors;
pub use fwd_journal::{Journal, Log, asked_log};
pub use fwd_monitor::VERSION;
pub use program::{Invocation, run_all};
pub use stopping::Progress;
