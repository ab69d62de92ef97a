//! Requests of the Forward Protocol as values, and the
//! frames and acknowledgements that answer them.
#![tactic(auto)]

mod ack;
mod batch;
mod borrowed_entries;
mod contents;
mod entries;
mod entry;
mod envelope;
mod fault;
mod frame;
mod front_request;
mod kept_entries;
mod laws;
mod limits;
mod lists;
mod options;
mod origin;
mod packed_request;
mod request;
mod request_fields;
mod short_option;
mod taking;
mod time;
mod value_kind;

pub use ack::{NoAck, read_ack, write_ack};
pub use batch::Batch;
pub use entries::Entries;
pub use fault::InputFault;
pub use frame::{chunk_name, write_chunk, write_chunk_head, write_chunk_tail};
pub use front_request::{FrontRequest, read_front};
pub use laws::{
    entries_are_kept, frame_is_joined, frame_is_value, frame_reads_back, frames_differ,
    only_its_frame, request_limits,
};
pub use limits::TAG_LIMIT;
pub use origin::Origin;
pub use request::{Reading, read_request};
pub use taking::take_request;
pub use time::EventTime;
