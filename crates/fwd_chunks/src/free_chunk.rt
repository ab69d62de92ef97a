//! What is told of a chunk that is free.

/// A chunk that a worker may have.
#[derive(Clone, Copy)]
pub struct FreeChunk {
    /// The number of the chunk.
    pub number: u64,
    /// How often the chunk was lost, where 65 stands for every greater count.
    pub losses: u8,
}
