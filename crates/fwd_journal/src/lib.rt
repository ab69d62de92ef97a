//! What a run writes of itself: its lines, how many of a kind are written, and how it ended. What
//! is proved here is how many lines of a subject a second has room for, which subject a line counts
//! for and which is told of what was left out, which bytes of a peer stand there as they are, and
//! what each end exits with.
#![tactic(auto)]

mod ending;
mod journal;
mod journal_line;
mod line_limit;
mod line_limits;
mod shown_text;

pub use ending::RunEnd;
pub use journal::{Journal, Log, asked_log};
