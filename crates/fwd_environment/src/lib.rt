//! What a worker asks of its environment, links to servers, moments, and leave to go on; and what
//! it tells there.
#![tactic(auto)]

mod calls;
mod denial;
mod link;
mod refused;

pub use calls::Calls;
pub use denial::Denial;
pub use link::{Clock, Gate, Hub, Link, LinkFault, LossReason, Pass, Place, Read, WorkerEvent};
pub use refused::{Refused, TextFront};
