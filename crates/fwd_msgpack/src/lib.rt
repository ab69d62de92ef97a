//! MessagePack values as bytes: heads, whole values, and the first fault of a stream.
#![tactic(auto)]

mod counting;
mod cutting;
mod fault;
mod flat;
mod front;
mod head;
mod laws;
mod limits;
mod members;
mod plain;
mod scan;
mod scan_state;
mod scanner;
mod stack;
mod stream;
mod value;
mod writing;

pub use cutting::cut;
pub use fault::ScanFault;
pub use flat::{Shape, flat_map, flat_pair};
pub use head::{Head, HeadRead, read_head};
pub use laws::{
    answer_is_first, elements_are_members, first_is_first, no_prefix, one_verdict,
    pairs_are_members, pieces_are_joined, read_back, split_continues, split_is_stream,
    whole_is_value, written_is_shortest,
};
pub use limits::{Limits, MAX_DEPTH};
pub use members::{Members, Pairs};
pub use scanner::{Fed, Scanner};
pub use stream::{Next, next_value};
pub use value::{Cut, Value};
pub use writing::{write_head, write_text};
