use crate::entry_range::EntryRange;

/// How a request's entries go into chunks: the first of them to the open chunk of their tag, if
/// it has one, and the others to new chunks.
#[derive(Clone, Copy)]
pub(crate) struct Plan<'a> {
    /// The number of the tag's open chunk.
    pub(crate) joins: Option<u64>,
    /// Where that chunk lies mostly.
    pub(crate) key: usize,
    pub(crate) front: EntryRange<'a>,
    pub(crate) back: EntryRange<'a>,
    /// How many new chunks there are.
    pub(crate) needed: u64,
}
