//! Match patterns and routes: which output an event goes to,
//! by its tag (Fluentd's documentation on match patterns).
#![tactic(auto)]

mod braces;
mod counting;
mod fault;
mod fields;
mod limits;
mod matching;
mod pattern;
mod routes;
mod spelling;
mod stars;

pub use fault::PatternFault;
pub use pattern::Pattern;
pub use routes::Routes;
