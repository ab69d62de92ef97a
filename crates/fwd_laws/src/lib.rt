//! Laws of layers that stand side by side: which lists of the relay's events lead to one history;
//! and how a session and a source that hear each other's bytes come to terms.
#![tactic(auto)]

mod laws;
mod meeting;

pub use laws::{parts_have_one_history, unrelated_lists_merge};
pub use meeting::agreed_sides_meet;
