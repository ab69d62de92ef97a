//! What a relay listens at: the listeners of sources and monitors, the control socket, and what
//! whoever asked for a stop is told. What is proved here is that the code is safe; that its loops
//! end; which lines ask the relay to stop, and within how long; that a line is read as an answer
//! only where it is that answer's; and that a run ends as delivered where it was asked to stop and
//! nothing is left, and nowhere else.
#![tactic(auto)]

mod control;
mod control_text;
mod ending;
mod left;
mod listener;
mod socket_file;
pub mod tokens;

pub use control::Control;
pub use control_text::ControlAnswer;
pub use ending::{Ending, ending_of};
pub use left::Left;
pub use listener::{Arrival, Listener};
pub use socket_file::{SocketFile, listen_at, remove_socket};
