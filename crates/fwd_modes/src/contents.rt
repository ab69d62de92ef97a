//! What a request has.

ghost use Rattle.std.specs.Prelude.{
  ◌≡◌,
  ◌<◌,
  ◌≤◌,
  ◌^◌,
  ◌+◌,
  ◌↔◌,
  IsTrue,
  IfOk,
  IfSome,
  length,
  vec_len,
  vec_capacity,
};
ghost use Rattle.std.specs.List.{concat};
ghost use Rattle.std.specs.Option.{option_copied, ForSome};
ghost use Rattle.fwd_modes.specs.Entries.{AreFull, ends_of};
ghost use Rattle.fwd_modes.specs.Readings.{entries_left};
ghost use Rattle.fwd_modes.specs.Moved.{AreWithin, found_in};

use crate::entries::Entries;
use crate::kept_entries::KeptEntries;
use crate::limits::{CHUNK_LIMIT, TAG_LIMIT};
use crate::packed_request::Found;
use smallvec::SmallVec;
use std::alloc::{AllocError, Global};
use std::marker::Model;

/// What a request has. Its bytes lie in one piece of memory: the entries, the tag behind them, and
/// the chunk behind the tag, if there is one. In front of the entries are the first bytes of the
/// request's value, where it was put together in that memory.
#[derive(Drop)]
pub(crate) struct Contents {
    bytes: Vec<u8>,
    /// Where each entry ends, in bytes from the front of the first.
    ends: SmallVec<u32, 2>,
    /// Where the first entry begins.
    first: u32,
    /// How many bytes the entries have.
    size: u32,
    /// How many bytes the tag has.
    tag: u16,
    has_chunk: bool,
}

impl Model for Contents {
    ghost use Rattle.std.specs.Prelude.{◌+◌, Some, None, take, drop, if◌then◌else◌};
    ghost use Rattle.fwd_modes.specs.Entries.{cut_at};
    ghost use Rattle.fwd_modes.specs.Requests.{Request};

    ghost Value = { Request };

    ghost view = { λ c. record {
      tag = take c.tag (drop (c.first + c.size) c.bytes.items);
      entries = cut_at 0 c.ends.items (take c.size (drop c.first c.bytes.items));
      chunk = if c.has_chunk
          then Some (drop c.tag (drop (c.first + c.size) c.bytes.items))
          else None;
    } };

    ghost use Rattle.std.specs.Prelude.{◌≤◌, length};
    ghost use Rattle.fwd_modes.specs.Entries.{AreCut, AreFull};
    ghost use Rattle.fwd_modes.specs.declared.limits.TheConstants.{CHUNK_LIMIT, TAG_LIMIT};

    ghost invariant = { λ c.
        AreCut 0 c.ends.items (take c.size (drop c.first c.bytes.items))
        × AreFull (cut_at 0 c.ends.items (take c.size (drop c.first c.bytes.items)))
        × (c.tag ≤ TAG_LIMIT)
        × (c.first + c.size + c.tag ≤ length c.bytes.items)
        × (length c.bytes.items ≤ c.first + c.size + c.tag + (CHUNK_LIMIT + 5)) };
}

/// Whether bytes are the same, or there are none on either side.
fn is_same(left: Option<&[u8]>, right: Option<&[u8]>) -> bool
    ensures { IsTrue result ↔ (option_copied left.entry ≡ option_copied right.entry) }
{
    match (left, right) {
        (Some(left), Some(right)) => left == right,
        (None, None) => true,
        _ => false,
    }
}

/// Whether entries are the same: they have the same bytes, and end at the same places.
fn are_same(left: &Contents, right: &Contents) -> bool
    ensures { IsTrue result ↔ (left.now.entries ≡ right.now.entries) }
{
    left.entries() == right.entries() && left.ends() == right.ends()
}

impl Contents {
    /// What a request of these entries has. It takes no memory where there is room for the tag and
    /// the chunk behind the entries.
    pub(crate) fn new(
        tag: &[u8],
        entries: KeptEntries,
        chunk: Option<&[u8]>,
    ) -> Result<Self, AllocError>
        requires tag_fits { length tag.now ≤ TAG_LIMIT }
        requires chunk_fits { ForSome chunk (λ bytes. length bytes.now ≤ CHUNK_LIMIT + 5) }
        ensures { IfOk result (λ c.
            c
            ≡ record { tag = tag.now; entries = entries; chunk = option_copied chunk.entry }) }
    {
        let (mut bytes, ends) = entries.into_parts();
        let size = bytes.len() as u32;
        bytes.extend_from_slice(tag)?;
        bytes.extend_from_slice(chunk.unwrap_or(&[]))?;
        Ok(Contents {
            bytes,
            ends,
            first: 0,
            size,
            tag: tag.len() as u16,
            has_chunk: chunk.is_some(),
        })
    }

    /// Nothing yet.
    pub(crate) fn empty(alloc: Global) -> Self {
        Contents {
            bytes: Vec::new(alloc),
            ends: SmallVec::new(alloc),
            first: 0,
            size: 0,
            tag: 0,
            has_chunk: false,
        }
    }

    /// What the request has that was found in these bytes: they become its own. They have room for
    /// the tag and the chunk, and what room is left then is given back: a request whose option is
    /// long keeps none of it.
    pub(crate) fn within(mut bytes: Vec<u8>, found: Found) -> Self
        requires places { AreWithin bytes.items found }
        requires room { vec_len bytes + length found.names.items ≤ vec_capacity bytes }
        ensures { result ≡ found_in bytes.items found }
    {
        let Found {
            first,
            size,
            ends,
            names,
            tag,
            has_chunk,
        } = found;
        bytes.truncate(first as usize + size as usize);
        bytes.extend_from_slice(&names).unwrap();
        bytes.shrink_to_fit();
        Contents {
            bytes,
            ends,
            first,
            size,
            tag,
            has_chunk,
        }
    }

    /// Whether they are the same.
    pub(crate) fn is(&self, other: &Contents) -> bool
        ensures { IsTrue result ↔ (self.now ≡ other.now) }
    {
        self.tag() == other.tag() && are_same(self, other) && is_same(self.chunk(), other.chunk())
    }

    /// The tag's bytes.
    pub(crate) fn tag(&self) -> &[u8]
        ensures value { result.now ≡ self.now.tag }
        ensures bound { length result.now ≤ TAG_LIMIT }
    {
        let end = self.first as usize + self.size as usize;
        let (_, behind) = self.bytes.split_at(end);
        behind.split_at(usize::from(self.tag)).0
    }

    /// The entries, one after the other. Each has a byte.
    pub(crate) fn entries(&self) -> &[u8]
        ensures value { result.now ≡ concat self.now.entries }
        ensures bound { length (concat self.now.entries) < 2 ^ 32 }
        ensures full { AreFull self.now.entries }
    {
        let (_, behind) = self.bytes.split_at(self.first as usize);
        behind.split_at(self.size as usize).0
    }

    /// Where each entry ends.
    pub(crate) fn ends(&self) -> &[u32]
        ensures { result.now ≡ ends_of self.now.entries }
    {
        self.ends.as_slice()
    }

    /// The entries one by one.
    pub(crate) fn iter(&self) -> Entries<'_>
        ensures { entries_left result ≡ self.now.entries }
    {
        Entries::new(self.entries(), self.ends.as_slice())
    }

    /// The bytes of the option's `chunk` value, if there is one.
    pub(crate) fn chunk(&self) -> Option<&[u8]>
        ensures value { option_copied result ≡ self.now.chunk }
        ensures bound { IfSome result (λ chunk. length chunk.now ≤ CHUNK_LIMIT + 5) }
    {
        if !self.has_chunk {
            return None;
        }
        let end = self.first as usize + self.size as usize;
        let (_, behind) = self.bytes.split_at(end);
        Some(behind.split_at(usize::from(self.tag)).1)
    }
}
