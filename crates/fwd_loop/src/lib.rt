//! The relay over sockets: a loop over its sources and monitors, and its workers, each in a thread
//! of its own, over TCP. What is proved here is that the code is safe; that its loops end; and that
//! a run counts each output once and so that it adds up. The turns of readers stand in `fwd_turns`,
//! what the one in front listens at in `fwd_listeners`, and the workers in `fwd_pools`. All other
//! meaning stands below these: where a request goes and who is told of receipts in `fwd_reader`.
#![tactic(auto)]

mod address;
mod files;
mod opening;
mod outcome;
mod platform;
mod relay_loop;
mod serving;
mod set_parts;
mod threads;

pub use fwd_listeners::{ControlAnswer, Ending, Left};
pub use fwd_monitors::{JournalEvent, ListenerKind, MemoryFor, Observer, StartFault};
pub use fwd_peers::{CloseReason, PeerAddress, SocketPath};
pub use fwd_turns::{FrontTurns, Turns, close_all};
pub use opening::Opened;
pub use outcome::Outcome;
pub use platform::Platform;
pub use relay_loop::Loop;
pub use threads::{Beside, Started};
