//! The slices of a chunk, one behind the other.

ghost use Rattle.std.specs.Prelude.{
  ◌≡◌,
  ◌+◌,
  ◌<◌,
  ◌^◌,
  [],
  ◌++◌,
  ◌↔◌,
  IsTrue,
  length,
  OnOk,
  OnErr,
};
ghost use Rattle.fwd_chunks.specs.Cells.{size_of};
ghost use Rattle.fwd_chunks.specs.Parts.{entries_in};
ghost use Rattle.fwd_chunks.specs.Rows.{joined, AreLong};
ghost use Rattle.fwd_chunks.specs.Pieces.{body_entries_left};

use crate::entries::BodyEntries;
use crate::entry_range::EntryRange;
use crate::entry_slice::EntrySlice;
use std::alloc::{AllocError, Global};
use std::marker::Model;

/// Slices, one behind the other, of less than 2^32 bytes together.
#[derive(Drop)]
pub(crate) struct EntrySlices {
    slices: Vec<EntrySlice>,
    /// How many bytes the entries have.
    size: u32,
    /// How many entries there are.
    count: u32,
}

impl Model for EntrySlices {
    ghost use Rattle.std.specs.Prelude.{List, ℕ, ◌≡◌, ◌≤◌, length};
    ghost use Rattle.fwd_chunks.specs.Cells.{size_of};
    ghost use Rattle.fwd_chunks.specs.Rows.{joined, AreLong};

    ghost Value = { List (List (List ℕ)) };

    ghost view = { λ s. s.slices.items };

    ghost invariant = { λ s. (s.size ≡ size_of (joined s.slices.items))
        × (s.count ≡ length (joined s.slices.items))
        × (s.count ≤ s.size)
        × AreLong s.slices.items };
}

impl Clone for EntrySlices {
    ghost is_clone = { λ slices copy. copy ≡ slices };

    fn clone(&self) -> Result<Self, AllocError> {
        Ok(EntrySlices {
            slices: self.slices.clone()?,
            size: self.size,
            count: self.count,
        })
    }
}

/// Whether slices have the same bytes at the same places of their requests, each of them. If so,
/// they have the same entries.
fn are_alike(left: &[EntrySlice], right: &[EntrySlice]) -> bool
    ensures { IsTrue result → left.now ≡ right.now }
{
    let mut left = left;
    let mut right = right;
    while let Some((first, others)) = left.split_first() {
        let Some((second, rest)) = right.split_first() else {
            return false;
        };
        if !first.part().is_alike(second.part()) {
            return false;
        }
        left = others;
        right = rest;
    }
    right.is_empty()
}

impl EntrySlices {
    /// No slices.
    pub(crate) fn new(alloc: Global) -> Self
        ensures { result ≡ [] }
    {
        EntrySlices {
            slices: Vec::new(alloc),
            size: 0,
            count: 0,
        }
    }

    /// The slices in order. Each has a byte.
    pub(crate) fn as_slice(&self) -> &[EntrySlice]
        ensures value { result.now ≡ self.now }
        ensures long { AreLong self.now }
    {
        &self.slices
    }

    /// The entries one by one.
    pub(crate) fn iter(&self) -> BodyEntries<'_>
        ensures { body_entries_left result ≡ joined self.now }
    {
        BodyEntries::new(&self.slices)
    }

    /// How many entries there are.
    pub(crate) fn len(&self) -> usize
        ensures { result ≡ length (joined self.now) }
    {
        self.count as usize
    }

    /// The bytes of the entries.
    pub(crate) fn size(&self) -> u64
        ensures value { result ≡ size_of (joined self.now) }
        ensures bound { result < 2 ^ 32 }
    {
        u64::from(self.size)
    }

    /// Adds entries at the end, or changes nothing.
    pub(crate) fn extend(&mut self, part: EntryRange<'_>) -> Result<(), AllocError>
        requires { size_of (joined self.old) + size_of (entries_in part) < 2 ^ 32 }
        ensures ok { OnOk result (joined self.new ≡ joined self.old ++ entries_in part.entry) }
        ensures err { OnErr result (self.new ≡ self.old) }
    {
        if part.is_empty() {
            return Ok(());
        }
        self.slices.push(EntrySlice::of(part)?)?;
        self.size += part.size() as u32;
        self.count += part.len() as u32;
        Ok(())
    }

    /// Whether the entries are the same, whatever their slices are.
    pub(crate) fn is(&self, other: &EntrySlices) -> bool
        ensures { IsTrue result ↔ (joined self.now ≡ joined other.now) }
    {
        are_alike(&self.slices, &other.slices) || self.iter().is(other.iter())
    }
}
