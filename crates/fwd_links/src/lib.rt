//! What a worker's thread has: a link over TCP, how it waits and is woken, and the mailbox by which
//! it tells the loop of itself. Nothing can be proved of what a socket gives or takes: what is
//! proved here is that the code is safe, that its loops end, and that what a link tells that it
//! took and gave goes on by just what it answers.
#![tactic(auto)]

mod fault;
mod link;
mod link_answer;
mod mailbox;
mod reserve;
mod run_clock;
mod shared_flags;
mod system_limits;
mod unconnected;
mod waiting;
mod wire;

pub use fault::WaitFault;
pub use link::TcpHub;
pub use mailbox::{DeniedLogin, Mailbox, Notices, RefusedChunk, WorkerNotice};
pub use run_clock::{RunClock, unix_seconds};
pub use shared_flags::{SharedFlags, Tightness};
pub use system_limits::lacks_descriptors;
pub use waiting::{SharedWait, WaitMode, WorkerWait, WorkerWaker};
