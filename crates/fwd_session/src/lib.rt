//! A worker's session with a server: the client's side of the handshake, some chunks at a time, and
//! what the server acknowledged.
#![tactic(auto)]

mod acked;
mod fault;
mod frame;
mod handshake;
mod hearing;
mod in_flight;
mod laws;
mod limits;
mod listening;
mod load;
mod outbox;
mod salt;
mod session;
mod terms;
mod told;
mod unacked;
mod verdict;
mod writing;
mod written;

pub use acked::Acked;
pub use fault::{NotUp, SessionFault};
pub use handshake::Handshake;
pub use laws::{
    accepts_handed_on, faults_put_down, live_follows, pieces_are_one, reply_limits, said_by_front,
    stays_framed, stays_sane,
};
pub use limits::{REPLY_LIMIT, REPLY_LIMITS, REPLY_NESTING, WINDOW_LIMIT};
pub use load::LoadFailed;
pub use salt::OwnedSalt;
pub use session::Session;
pub use terms::AckTerms;
pub use told::{SessionHeard, SessionTold};
pub use writing::frame_of;
