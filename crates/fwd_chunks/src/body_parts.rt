//! The pieces that a chunk's bytes lie in, and where its entries end.

ghost use Rattle.std.specs.Prelude.{◌≡◌, ◌+◌, ◌<◌, ◌^◌};
ghost use Rattle.std.proofs.Props.{props};
ghost use Rattle.fwd_modes.specs.Entries.{ends_of};
ghost use Rattle.fwd_chunks.specs.Cells.{size_of};
ghost use Rattle.fwd_chunks.specs.Rows.{bytes_each};
ghost use Rattle.fwd_chunks.specs.Pieces.{body_entries_left};

use crate::entries::BodyEntries;
use crate::entry_slice::EntrySlice;

/// The pieces that the bytes of a chunk's entries lie in, in order. Each has a byte.
#[derive(Clone, Copy)]
pub struct BodyParts<'a> {
    slices: &'a [EntrySlice],
}

impl<'a> BodyParts<'a> {
    ghost use Rattle.fwd_chunks.specs.Pieces.{parts_left};

    /// The pieces of these slices.
    pub(crate) fn new(slices: &'a [EntrySlice]) -> Self
        ensures { parts_left result ≡ bytes_each slices.now }
    {
        BodyParts { slices }
    }
}

impl<'a> Iterator for BodyParts<'a> {
    type Item = &'a [u8];

    ghost use Rattle.std.specs.Iterator.{YieldsFirstBy, item_count};
    ghost use Rattle.fwd_chunks.specs.Pieces.{parts_left};

    ghost next_gives = { YieldsFirstBy (λ p. p.now) parts_left };

    ghost remaining = { item_count parts_left };

    fn next(&mut self) -> Option<&'a [u8]> {
        let (slice, slices) = self.slices.split_first()?;
        self.slices = slices;
        Some(slice.part().bytes())
    }
}

/// Where the entries of a chunk end, in bytes from the front of the first.
#[derive(Clone, Copy)]
pub struct EntryEnds<'a> {
    entries: BodyEntries<'a>,
    /// Where the last one ended.
    place: u32,
    ghost bound: { place + size_of (body_entries_left entries) < 2 ^ 32 } by { Prim.hlevel props },
}

impl<'a> EntryEnds<'a> {
    ghost use Rattle.fwd_chunks.specs.Endings.{ends_left};

    /// The ends of these entries.
    pub(crate) fn new(entries: BodyEntries<'a>) -> Self
        requires { size_of (body_entries_left entries) < 2 ^ 32 }
        ensures { ends_left result ≡ ends_of (body_entries_left entries.entry) }
    {
        EntryEnds { entries, place: 0 }
    }
}

impl<'a> Iterator for EntryEnds<'a> {
    type Item = u32;

    ghost use Rattle.std.specs.Iterator.{YieldsFirstBy, item_count};
    ghost use Rattle.fwd_chunks.specs.Endings.{ends_left};

    ghost next_gives = { YieldsFirstBy (λ e. e) ends_left };

    ghost remaining = { item_count ends_left };

    fn next(&mut self) -> Option<u32> {
        let mut entries = self.entries;
        let entry = entries.next()?;
        let place = self.place + entry.len() as u32;
        *self = EntryEnds { entries, place };
        Some(place)
    }
}
