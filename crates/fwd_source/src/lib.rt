//! One connection: its bytes, the requests that they ask
//! for, and the bytes that wait to be sent to it.
#![tactic(auto)]

mod fault;
mod greeting;
mod hearing;
mod laws;
mod piece;
mod room;
mod source;
mod spanning;
mod taking;

pub use fault::SourceFault;
pub use fwd_modes::Origin;
pub use laws::{
    answers_fit, faults_close, judged_by_front, live_source_follows, pieces_are_one,
    requests_are_values, source_stays_sane,
};
pub use piece::Piece;
pub use source::{AnswerError, Source};
