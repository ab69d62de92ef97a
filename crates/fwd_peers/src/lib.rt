//! A source's connection over its stream, and why the relay ends it. Nothing can be proved of what
//! a socket gives or takes: what is proved here is what becomes of the source behind it.
#![tactic(auto)]

mod calls;
mod close_reason;
mod leave_stage;
mod limits;
mod peer_address;
mod peer_socket;
mod peer_state;
mod peer_stream;
mod request_cost;
mod source_peer;
mod waiting_place;

pub use close_reason::{CloseReason, PeerEnd};
pub use leave_stage::{LastReading, LeaveStage};
pub use peer_address::{PeerAddress, SocketPath};
pub use peer_socket::PeerSocket;
pub use peer_stream::{PeerStream, Stream, Visit};
pub use request_cost::upkeep;
pub use source_peer::SourcePeer;
pub use waiting_place::WaitingPlace;
