//! The buffer of one output: entries are joined into chunks by their tag (Fluentd's documentation
//! on buffers), and workers take chunks, which are settled or given back. Sizes are in bytes,
//! moments and waits in milliseconds.
#![tactic(auto)]

mod body;
mod body_parts;
mod buffer;
mod carried;
mod chunk;
mod chunk_index;
mod chunk_slab;
mod chunk_state;
mod entering;
mod entries;
mod entry_range;
mod entry_slice;
mod entry_slices;
mod fault;
mod flush;
mod free_chunk;
mod laws;
mod limits;
mod min_tree;
mod plan;
mod ready_index;
mod send_cursor;
mod snapshot;
mod span;
mod spans;
mod tag_entry;
mod tag_list;
mod tags;
mod wanted;
mod write_slices;

pub use body::Body;
pub use body_parts::{BodyParts, EntryEnds};
pub use buffer::Buffer;
pub use carried::Carried;
pub use fault::AdmitError;
pub use flush::FlushKind;
pub use free_chunk::FreeChunk;
pub use fwd_base::{Counts, Report, TagCount};
pub use laws::{
    closed_is_given, given_is_least, held_stays, live_answers, live_follows, live_given_is_least,
    live_given_is_wanted, numbers_rise, reached_is_sound, spans_are_held, tags_add_up,
};
pub use limits::BufferLimits;
pub use send_cursor::SendCursor;
pub use snapshot::Snapshot;
pub use span::Span;
pub use spans::Spans;
pub use wanted::Wanted;
pub use write_slices::{PIECE_LIMIT, WriteSlices};
