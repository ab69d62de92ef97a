//! Where a source waits.

/// A source's first request waits at an output: it has no room there, or its source is owed too
/// much. So its source is not read.
#[derive(Clone, Copy)]
pub struct WaitingPlace {
    /// The number of the output.
    pub output: u16,
    /// How many bytes the entries of the request have.
    pub bytes: u64,
    /// The source stands in the output's line for room.
    pub is_in_line: bool,
}
