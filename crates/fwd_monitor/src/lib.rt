//! The monitor's page, which has a line for each output and each of its tags, and what a connection
//! that asks for it over HTTP/1.x (RFC 9112) is told, by the bytes that it has sent. Sizes are in
//! bytes.
#![tactic(auto)]

mod answering;
mod figures;
mod judging;
mod labels;
mod laws;
mod limits;
mod measure;
mod metrics;
mod pages;
mod reply;
mod samples;
mod status;
mod tallies;
mod tally;
mod version;

pub use answering::{answer, metrics_reply};
pub use figures::{Figures, OutputFigures, ProcessFigures};
pub use judging::{wants_metrics, wants_page};
pub use laws::{head_limits, one_head, one_reply};
pub use limits::HEAD_LIMIT;
pub use pages::page;
pub use reply::Reply;
pub use tally::{
    MemoryRefused, OutputTally, OverLimit, RelayTally, RequestsRefused, ServerTally, SessionsLost,
    SourcesClosed,
};
pub use version::VERSION;
