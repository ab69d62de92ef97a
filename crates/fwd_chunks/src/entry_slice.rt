//! Entries that stand in a row, in memory that their request shares.

ghost use Rattle.std.specs.Prelude.{◌≡◌, ◌<◌, IfOk, length};
ghost use Rattle.fwd_chunks.specs.Parts.{entries_in};

use crate::entry_range::EntryRange;
use fwd_modes::Batch;
use std::alloc::AllocError;
use std::marker::Model;

/// Entries of a request that stand in a row, at least one of them, in memory that the request
/// shares.
#[derive(Drop)]
pub(crate) struct EntrySlice {
    batch: Batch,
    first: u32,
    count: u32,
}

impl Model for EntrySlice {
    ghost use Rattle.std.specs.Prelude.{List, ℕ, ◌+◌, ◌<◌, ◌≤◌, ◌^◌, length, take, drop};

    ghost Value = { List (List ℕ) };

    ghost view = { λ s. take s.count (drop s.first s.batch.entries) };

    ghost invariant = { λ s. (0 < s.count)
        × (s.first + s.count ≤ length s.batch.entries)
        × (s.first + s.count < 2 ^ 32) };
}

impl Clone for EntrySlice {
    ghost is_clone = { λ slice copy. copy ≡ slice };

    fn clone(&self) -> Result<Self, AllocError> {
        EntrySlice::of(self.part())
    }
}

impl EntrySlice {
    /// These entries. The only error is out of memory, and it is answered only where there are more
    /// owners than can be counted.
    pub(crate) fn of(part: EntryRange<'_>) -> Result<Self, AllocError>
        requires { 0 < length (entries_in part) }
        ensures { IfOk result (λ slice. slice ≡ entries_in part.entry) }
    {
        Ok(EntrySlice {
            batch: part.batch.share()?,
            first: part.first,
            count: part.count,
        })
    }

    /// The entries.
    pub(crate) fn part(&self) -> EntryRange<'_>
        ensures value { entries_in result ≡ self.now }
        ensures some { 0 < length self.now }
    {
        EntryRange {
            batch: &self.batch,
            first: self.first,
            count: self.count,
        }
    }
}
