//! The entries of a chunk, one by one.

ghost use Rattle.std.specs.Prelude.{◌≡◌, ◌↔◌, IsTrue};
ghost use Rattle.fwd_chunks.specs.Rows.{joined};

use crate::entry_range::EntryRange;
use crate::entry_slice::EntrySlice;

/// The entries of a chunk, one by one, each as it is kept.
#[derive(Clone, Copy)]
pub struct BodyEntries<'a> {
    /// Those of a slice that was begun.
    part: Option<EntryRange<'a>>,
    slices: &'a [EntrySlice],
}

impl<'a> BodyEntries<'a> {
    ghost use Rattle.fwd_chunks.specs.Pieces.{body_entries_left};

    /// The entries of these slices.
    pub(crate) fn new(slices: &'a [EntrySlice]) -> Self
        ensures { body_entries_left result ≡ joined slices.now }
    {
        BodyEntries { part: None, slices }
    }

    /// Whether the entries that are left are the same.
    pub(crate) fn is(self, other: BodyEntries<'_>) -> bool
        ensures { IsTrue result
            ↔ (body_entries_left self.entry ≡ body_entries_left other.entry) }
    {
        let mut theirs = other;
        for entry in self {
            match theirs.next() {
                Some(their) if entry == their => {}
                _ => return false,
            }
        }
        theirs.next().is_none()
    }
}

impl<'a> Iterator for BodyEntries<'a> {
    type Item = &'a [u8];

    ghost use Rattle.std.specs.Iterator.{YieldsFirstBy, item_count};
    ghost use Rattle.fwd_chunks.specs.Pieces.{body_entries_left};

    ghost next_gives = { YieldsFirstBy (λ e. e.now) body_entries_left };

    ghost remaining = { item_count body_entries_left };

    fn next(&mut self) -> Option<&'a [u8]> {
        if let Some(part) = &mut self.part {
            if let Some(entry) = part.next() {
                return Some(entry);
            }
        }
        let (slice, slices) = self.slices.split_first()?;
        let mut part = slice.part();
        let entry = part.next();
        *self = BodyEntries {
            part: Some(part),
            slices,
        };
        entry
    }
}
