//! Which server of an output a worker tries: the primaries round from the worker's own place, then
//! the standbys (Fluentd's documentation on the output `forward`, `standby` of a server), and none
//! before its wait after a loss is over (its documentation on buffers, the exponential backoff of
//! retries). Moments and waits are in milliseconds.
#![tactic(auto)]

mod laws;
mod servers;

pub use laws::{choice_by_live_part, choice_is_usable, live_follows, order_goes_round};
pub use servers::{Servers, with_loss};
