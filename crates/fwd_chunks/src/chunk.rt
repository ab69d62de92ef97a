ghost use Rattle.std.specs.Prelude.{◌≡◌};
ghost use Rattle.fwd_chunks.specs.Live.{is_taken, is_open_of, times_lost};

use crate::body::Body;
use crate::chunk_state::ChunkState;
use fwd_base::{Bytes, Losses};

/// A chunk that is not settled. Moments are in milliseconds.
#[derive(Drop)]
pub(crate) struct Chunk {
    pub(crate) number: u64,
    pub(crate) tag: Bytes,
    /// Its entries, in order.
    pub(crate) entries: Body,
    /// The moment of its first entry.
    pub(crate) since: u64,
    /// Where it stands.
    pub(crate) stage: ChunkState,
    /// How often it was lost, and when last; nothing where it was not.
    pub(crate) losses: Option<Losses>,
}

impl Chunk {
    /// Whether a worker has the chunk.
    pub(crate) fn is_taken(&self) -> bool
        ensures { result ≡ is_taken self.now.stage }
    {
        matches!(self.stage, ChunkState::Taken(_))
    }

    /// How often the chunk was lost, where 65 stands for every greater count.
    pub(crate) fn times_lost(&self) -> u8
        ensures { result ≡ times_lost self.now.losses }
    {
        self.losses.map_or(0, |losses| losses.count)
    }

    /// Whether the chunk is open, and of the tag.
    pub(crate) fn is_open_of(&self, tag: &[u8]) -> bool
        ensures { result ≡ is_open_of tag.now self.now }
    {
        matches!(self.stage, ChunkState::Open) && self.tag.as_slice() == tag
    }
}
