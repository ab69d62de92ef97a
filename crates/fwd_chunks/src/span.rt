/// A run of a request's entries in one chunk: `count` of them, the first of which is the chunk's
/// entry at place `from`, counted from 0.
#[derive(Clone, Copy, Debug, PartialEq, Eq)]
pub struct Span {
    /// The number of the chunk.
    pub number: u64,
    pub from: u64,
    pub count: u64,
}
