//! The outputs of a relay with their workers, each of which works in a thread of its own over TCP,
//! and the random numbers of a run. What is proved here is that the code is safe, that its loops
//! end, and that each output is made of its own settings.
#![tactic(auto)]

mod next_hops;
mod random_streams;
mod worker_pools;
mod worker_thread;

pub use next_hops::{NextHop, next_hops_of};
pub use random_streams::RandomStreams;
pub use worker_pools::{RunOrigin, WorkerPools, pools_of};
pub use worker_thread::{WorkerSurroundings, WorkerThread};
