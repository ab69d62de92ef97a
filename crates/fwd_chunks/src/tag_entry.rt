ghost use Rattle.std.specs.Prelude.{◌≡◌, ◌<◌, ◌+◌, ◌^◌};
ghost use Rattle.fwd_chunks.specs.Newest.{raised};

/// What is kept for a tag that has entries.
#[derive(Clone, Copy)]
pub(crate) struct TagEntry {
    /// The number of the tag's newest chunk.
    pub(crate) newest: u64,
    /// Where that chunk lies, if it is there.
    pub(crate) key: usize,
    /// The tag's entries that are not settled.
    pub(crate) held: u64,
    /// The bytes of these entries.
    pub(crate) bytes: u64,
}

impl TagEntry {
    /// The same with so many entries and bytes more, and another newest chunk, if there is one,
    /// which lies at the key.
    pub(crate) fn raised(&self, number: Option<u64>, key: usize, count: u64, size: u64) -> TagEntry
        requires held { self.now.held + count < 2 ^ 64 }
        requires bytes { self.now.bytes + size < 2 ^ 64 }
        ensures { result ≡ raised number key count size self.now }
    {
        TagEntry {
            newest: number.unwrap_or(self.newest),
            key: if number.is_some() { key } else { self.key },
            held: self.held + count,
            bytes: self.bytes + size,
        }
    }
}
