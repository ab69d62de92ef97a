//! The turns of a relay's readers: each waits for its connections, reads and writes them, and tells
//! sources what workers settled; the one in front accepts, too, and goes on with a stop that was
//! asked for. What is proved here is that the code is safe, that its loops end, and what is decided
//! when the relay drains and behind a visit. All other meaning stands in the crates below: where a
//! request goes and who is told of receipts in `fwd_reader`.
#![tactic(auto)]

mod acceptor;
mod draining;
mod event_loop;
mod event_queue;
mod front_reader;
mod leaving;
mod loop_memory;
mod lost_servers;
mod places;
mod reader;
mod turns;
mod visiting;
mod visitor;

pub use acceptor::{ListenConfig, MONITORS, SourceSetup};
pub use draining::DrainSeen;
pub use event_loop::{EventLoop, ReaderLimits};
pub use event_queue::EventQueue;
pub use front_reader::{FrontReader, PageMaker};
pub use reader::{ReaderParts, Surroundings};
pub use turns::{FrontTurns, Turns, close_all};
