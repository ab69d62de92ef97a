//! The monitors: what a run tells of itself, also where it cannot start; what is counted of that,
//! and the pages that monitors are sent. What the outputs hold comes from whoever has them, by
//! `PageSource`. What is proved here is that each reason is counted under its own name, and that a
//! load balancer is told whether the relay drains.
#![tactic(auto)]

mod counting;
mod made_page;
mod monitor_peer;
mod observer;
mod page_queue;
mod page_source;
mod sending;
mod shared_tally;
mod start_fault;

pub use fwd_monitor::{Figures, ProcessFigures};
pub use made_page::MadePage;
pub use monitor_peer::{MonitorPeer, MonitorVisit};
pub use observer::{JournalEvent, ListenerKind, MemoryFor, Observer};
pub use page_queue::PageQueue;
pub use page_source::PageSource;
pub use shared_tally::{Accepted, SharedTally, TallyObserver, add_output, nothing_counted};
pub use start_fault::StartFault;
