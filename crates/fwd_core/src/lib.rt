//! The relay that runs: `step` and `run` over packed state, proved to be the abstract relay.
#![tactic(auto)]

mod connection;
mod due_answers;
mod lane;
mod lane_config;
mod relay;
mod returned_numbers;
mod state;
mod worker;

pub use fwd_chunks::{AdmitError, BufferLimits, Carried, Counts};
pub use fwd_model::{
    AckTerms, Answer, Config, EndKind, Event, FlushKind, Numbers, Origin, OutputConfig, OwnedSalt,
    Refusal, SessionFault, SourceFault, Wanted, unrelated_events_commute,
};
pub use fwd_output::{Leaving, OutputState, leave};
pub use relay::Relay;
