//! Entries as they are kept: `92`, the time and the fields as they were spelled.

ghost use Rattle.std.specs.Prelude.{
  ◌≡◌,
  ◌+◌,
  ◌<◌,
  ◌^◌,
  [],
  ◌∷◌,
  ◌++◌,
  length,
  take,
  IfOk,
  OnOk,
  OnErr,
};
ghost use Rattle.std.specs.List.{concat};
ghost use Rattle.fwd_modes.specs.Entries.{AreCut, AreFull, cut_at, kept_entry, ends_of};
ghost use Rattle.fwd_modes.specs.Readings.{kept};

use crate::entry::Entry;
use smallvec::SmallVec;
use std::alloc::{AllocError, Global};
use std::marker::Model;

/// Entries as they are kept, one after the other, and where each of them ends.
#[derive(Drop)]
pub(crate) struct KeptEntries {
    bytes: Vec<u8>,
    ends: SmallVec<u32, 2>,
}

impl Model for KeptEntries {
    ghost use Rattle.std.specs.Prelude.{List, ℕ, ◌<◌, ◌^◌, length};
    ghost use Rattle.fwd_modes.specs.Entries.{cut_at, AreCut, AreFull};

    ghost Value = { List (List ℕ) };

    ghost view = { λ k. cut_at 0 k.ends.items k.bytes.items };

    ghost invariant = { λ k.
        AreCut 0 k.ends.items k.bytes.items × (length k.bytes.items < 2 ^ 32)
        × AreFull (cut_at 0 k.ends.items k.bytes.items) };
}

/// Adds an entry to the bytes, or changes nothing.
fn append(bytes: &mut Vec<u8>, entry: Entry<'_>) -> Result<(), AllocError>
    ensures ok { OnOk result (bytes.new.items ≡ bytes.old.items ++ kept entry.entry) }
    ensures err { OnErr result (bytes.new.items ≡ bytes.old.items) }
{
    let len = bytes.len();
    let added = append_all(bytes, entry);
    if added.is_err() {
        bytes.truncate(len);
    }
    added
}

#[tactic(auto, using(crate::proofs::EntryLemmas::take_front))]
fn append_all(bytes: &mut Vec<u8>, entry: Entry<'_>) -> Result<(), AllocError>
    ensures ok { OnOk result (bytes.new.items ≡ bytes.old.items ++ kept entry.entry) }
    ensures front { take (length bytes.old.items) bytes.new.items ≡ bytes.old.items }
{
    bytes.reserve(entry.size())?;
    bytes.push(0x92)?;
    bytes.extend_from_slice(entry.time)?;
    bytes.extend_from_slice(entry.fields)
}

/// A copy of bytes, and room behind it for so many more.
pub(crate) fn copied(alloc: Global, bytes: &[u8], more: usize) -> Result<Vec<u8>, AllocError>
    ensures { IfOk result (λ copy. copy.items ≡ bytes.now) }
{
    let mut copy = Vec::with_capacity(alloc, bytes.len().saturating_add(more))?;
    copy.extend_from_slice(bytes)?;
    Ok(copy)
}

impl KeptEntries {
    /// No entries, and room for so many bytes.
    pub(crate) fn with_room(alloc: Global, bytes: usize) -> Result<Self, AllocError>
        ensures { IfOk result (λ kept. kept ≡ []) }
    {
        Ok(KeptEntries {
            bytes: Vec::with_capacity(alloc, bytes)?,
            ends: SmallVec::new(alloc),
        })
    }

    /// Entries that stand one after the other as they are kept, and where each of them ends.
    pub(crate) fn of(bytes: Vec<u8>, ends: SmallVec<u32, 2>) -> Self
        requires cut { AreCut 0 ends.items bytes.items }
        requires bound { length bytes.items < 2 ^ 32 }
        requires full { AreFull (cut_at 0 ends.items bytes.items) }
        ensures { result ≡ cut_at 0 ends.items bytes.items }
    {
        KeptEntries { bytes, ends }
    }

    /// Adds an entry at the end, or changes nothing.
    pub(crate) fn push(&mut self, entry: Entry<'_>) -> Result<(), AllocError>
        requires { length (concat self.old) + length (kept entry) < 2 ^ 32 }
        ensures ok { OnOk result (self.new ≡ self.old ++ kept entry.entry ∷ []) }
        ensures err { OnErr result (self.new ≡ self.old) }
    {
        self.ends.reserve(1)?;
        append(&mut self.bytes, entry)?;
        self.ends.push_reserved(self.bytes.len() as u32);
        Ok(())
    }

    /// The entries, one after the other, and where each of them ends.
    pub(crate) fn into_parts(self) -> (Vec<u8>, SmallVec<u32, 2>)
        ensures bytes { result.0.items ≡ concat self }
        ensures ends { result.1.items ≡ ends_of self }
        ensures bound { length (concat self) < 2 ^ 32 }
        ensures full { AreFull self }
    {
        let KeptEntries { bytes, ends } = self;
        (bytes, ends)
    }
}
