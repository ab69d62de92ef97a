//! The workers that send the chunks of outputs to servers.
#![tactic(auto)]

mod denial;
mod doubts;
mod ending;
mod gating;
mod laws;
mod next_chunk;
mod own_session;
mod placed_worker;
mod refused;
mod serve;
mod turn_context;
mod upstream;
mod upstream_end;
mod upstream_turn;
mod worker;

pub use fwd_environment::{
    Calls, Clock, Denial, Gate, Hub, Link, LinkFault, LossReason, Pass, Place, Read, Refused,
    TextFront, WorkerEvent,
};
pub use fwd_output::{
    AdmitRefusal, Closing, Ledgered, Locked, Plain, Seat, ServerOrder, SharedOutput, Tally, Ticket,
    open,
};
pub use laws::served_bytes_are_the_links;
pub use placed_worker::PlacedWorker;
pub use serve::{Served, serve_gathered, serve_turn};
pub use worker::{SessionTerms, WorkerEnd};
