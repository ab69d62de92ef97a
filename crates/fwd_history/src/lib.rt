//! One history of all that the threads of a run do, in proofs alone: it takes no memory and no time
//! when the run goes on. Whoever owns a part of the run, a component, has its page. With the page
//! he alone adds the component's events, so he knows the component after the whole history.
#![tactic(auto)]

mod entry;
mod page;

pub use entry::{Meaning, note};
pub use page::{Blank, Deed, HistoryRule, Law, Opened, Page, Pages, Reached, Run};
