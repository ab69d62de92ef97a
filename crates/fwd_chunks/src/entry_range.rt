//! Entries of a request that stand in a row.

ghost use Rattle.std.specs.Prelude.{◌≡◌, ◌+◌, ◌≤◌, ◌<◌, ◌^◌, ◌==◌, IsTrue, length, take, drop};
ghost use Rattle.std.specs.List.{concat};
ghost use Rattle.std.proofs.Props.{props};
ghost use Rattle.fwd_modes.specs.Entries.{ends_from};
ghost use Rattle.fwd_chunks.specs.Cells.{size_of};
ghost use Rattle.fwd_chunks.specs.Filling.{fitting, cut_count, needed};

use fwd_modes::Batch;

/// Entries of a request that stand in a row: so many of them, behind so many others.
#[derive(Clone, Copy)]
pub(crate) struct EntryRange<'a> {
    pub(crate) batch: &'a Batch,
    pub(crate) first: u32,
    pub(crate) count: u32,
    ghost within: { first + count ≤ length batch.now.entries } by { Prim.hlevel props },
    ghost bound: { first + count < 2 ^ 32 } by { Prim.hlevel props },
}

/// Where the first entries of a request end, so many of them, in bytes from the front of the first.
fn end_of(batch: &Batch, count: u32) -> usize
    requires { count ≤ length batch.now.entries }
    ensures { result ≡ size_of (take count batch.now.entries) }
{
    if count == 0 {
        0
    } else {
        batch.ends()[count as usize - 1] as usize
    }
}

impl<'a> EntryRange<'a> {
    ghost use Rattle.fwd_chunks.specs.Parts.{entries_in};

    /// The entries of a request.
    pub(crate) fn whole(batch: &'a Batch) -> Self
        ensures value { entries_in result ≡ batch.now.entries }
        ensures bound { size_of (entries_in result) < 2 ^ 32 }
    {
        let _bytes = batch.entries(); // for the proof
        EntryRange {
            batch,
            first: 0,
            count: batch.len() as u32,
        }
    }

    /// How many entries there are.
    pub(crate) fn len(self) -> usize
        ensures { result ≡ length (entries_in self.entry) }
    {
        self.count as usize
    }

    /// Whether there is no entry.
    pub(crate) fn is_empty(self) -> bool
        ensures { result ≡ (length (entries_in self.entry) == 0) }
    {
        self.count == 0
    }

    /// The bytes of the entries, one after the other. Each entry has one.
    pub(crate) fn bytes(self) -> &'a [u8]
        ensures value { result.now ≡ concat (entries_in self.entry) }
        ensures some { 0 < length (entries_in self.entry) → 0 < length result.now }
    {
        let start = end_of(self.batch, self.first);
        let end = end_of(self.batch, self.first + self.count);
        let (_, behind) = self.batch.entries().split_at(start);
        behind.split_at(end - start).0
    }

    /// Where each of the entries ends, in bytes from the front of the request's first.
    fn ends(self) -> &'a [u32]
        ensures { result.now ≡ ends_from
            (size_of (take self.entry.first self.entry.batch.now.entries)) (entries_in self.entry) }
    {
        let (_, behind) = self.batch.ends().split_at(self.first as usize);
        behind.split_at(self.count as usize).0
    }

    /// Whether the entries have the same bytes, at the same places of their requests. If so, they
    /// are the same.
    pub(crate) fn is_alike(self, other: EntryRange<'_>) -> bool
        ensures { IsTrue result → entries_in self.entry ≡ entries_in other.entry }
    {
        if end_of(self.batch, self.first) != end_of(other.batch, other.first) {
            return false;
        }
        if self.ends() != other.ends() {
            return false;
        }
        self.bytes() == other.bytes()
    }

    /// The bytes of the entries: at least one for each.
    pub(crate) fn size(self) -> u64
        ensures value { result ≡ size_of (entries_in self.entry) }
        ensures each { length (entries_in self.entry) ≤ result }
    {
        let _bytes = self.batch.entries(); // for the proof
        let end = end_of(self.batch, self.first + self.count);
        (end - end_of(self.batch, self.first)) as u64
    }

    /// The first entries, so many of them, and the others.
    pub(crate) fn split_at(self, count: usize) -> (EntryRange<'a>, EntryRange<'a>)
        requires { count ≤ length (entries_in self) }
        ensures front { entries_in result.0 ≡ take count (entries_in self.entry) }
        ensures back { entries_in result.1 ≡ drop count (entries_in self.entry) }
    {
        let count = count as u32;
        let front = EntryRange {
            batch: self.batch,
            first: self.first,
            count,
        };
        let back = EntryRange {
            batch: self.batch,
            first: self.first + count,
            count: self.count - count,
        };
        (front, back)
    }

    /// How many of the entries fit into a limit, one after the other, where so many bytes of it
    /// are used, and not all of them do.
    fn fitting_each(self, limit: u64, used: u64) -> usize
        ensures { result ≡ fitting limit used (entries_in self.entry) }
    {
        let Some(mut room) = limit.checked_sub(used) else {
            return 0;
        };
        let mut count: usize = 0;
        for entry in self {
            let Some(left) = room.checked_sub(entry.len() as u64) else {
                break;
            };
            room = left;
            count += 1;
        }
        count
    }

    /// How many of the entries fit into a limit, one after the other, where so many bytes of it
    /// are used.
    pub(crate) fn fitting(self, limit: u64, used: u64) -> usize
        ensures { result ≡ fitting limit used (entries_in self.entry) }
    {
        match limit.checked_sub(used) {
            Some(room) if self.size() <= room => self.len(),
            _ => self.fitting_each(limit, used),
        }
    }
}

impl<'a> EntryRange<'a> {
    ghost use Rattle.fwd_chunks.specs.Parts.{entries_in};

    /// The entries of the next chunk within a limit, of which there is at least one, and the
    /// others.
    pub(crate) fn cut(self, limit: u64) -> (EntryRange<'a>, EntryRange<'a>)
        requires { 0 < length (entries_in self) }
        ensures front { entries_in result.0
            ≡ take (cut_count limit (entries_in self.entry)) (entries_in self.entry) }
        ensures back { entries_in result.1
            ≡ drop (cut_count limit (entries_in self.entry)) (entries_in self.entry) }
    {
        let count = self.fitting(limit, 0).max(1);
        self.split_at(count)
    }

    /// How many chunks within a limit the entries need.
    pub(crate) fn needed(self, limit: u64) -> u64
        ensures value { result ≡ needed limit (entries_in self.entry) }
        ensures within { result ≤ length (entries_in self.entry) }
    {
        let mut rest = self;
        let mut count = 0;
        while !rest.is_empty() {
            rest = rest.cut(limit).1;
            count += 1;
        }
        count
    }
}

impl<'a> Iterator for EntryRange<'a> {
    type Item = &'a [u8];

    ghost use Rattle.std.specs.Iterator.{YieldsFirstBy, item_count};
    ghost use Rattle.fwd_chunks.specs.Parts.{entries_in};

    ghost next_gives = { YieldsFirstBy (λ e. e.now) entries_in };

    ghost remaining = { item_count entries_in };

    fn next(&mut self) -> Option<&'a [u8]> {
        if self.is_empty() {
            return None;
        }
        let (front, others) = self.split_at(1);
        *self = others;
        Some(front.bytes())
    }
}
