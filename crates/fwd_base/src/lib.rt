//! Lists, byte strings and texts that contracts see as lists; what is counted of an output, for its
//! buffer, which counts it, and the monitor's page, which shows it; and how long a chunk or a
//! server that was lost is left alone: the exponential backoff of retries, as Fluentd's
//! documentation on buffers has it. Moments and waits are in milliseconds.
#![tactic(auto)]

mod counts;
mod laws;
mod losses;
mod report;
mod retry;
mod seq;
mod tag_count;
mod text;

pub use counts::Counts;
pub use laws::wait_settles;
pub use losses::Losses;
pub use report::Report;
pub use retry::Retry;
pub use seq::{Bytes, Seq};
pub use tag_count::TagCount;
pub use text::Text;
