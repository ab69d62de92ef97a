ghost use Rattle.std.specs.Prelude.{
  ◌≡◌,
  ◌<◌,
  ◌≤◌,
  ◌^◌,
  ◌+◌,
  ◌==◌,
  ◌↔◌,
  IsTrue,
  IfOk,
  IfSome,
  OnErr,
  length,
};
ghost use Rattle.std.specs.List.{concat};
ghost use Rattle.std.specs.Option.{option_copied, ForSome};
ghost use Rattle.fwd_modes.specs.Entries.{AreFull, ends_of};
ghost use Rattle.fwd_modes.specs.Readings.{entries_left};
ghost use Rattle.fwd_modes.specs.Moved.{AreWithin, found_in};

use crate::contents::Contents;
use crate::entries::Entries;
use crate::kept_entries::KeptEntries;
use crate::limits::{CHUNK_LIMIT, TAG_LIMIT};
use crate::packed_request::Found;
use std::alloc::{AllocError, Global};
use std::marker::Model;
use std::mem;
use std::sync::Arc;

/// A request of a source: a tag, the entries as they are kept (`92`, the time's bytes, the fields'
/// bytes), and the value that the acknowledgement is to carry, if there is one. Its copies share
/// all of it. So the book and a receipt keep no entry twice.
#[derive(Drop)]
pub struct Batch {
    contents: Arc<Contents>,
}

impl Model for Batch {
    ghost use Rattle.fwd_modes.specs.Requests.{Request};
    ghost use Rattle.std.specs.Arc.{arc_value};

    ghost Value = { Request };

    ghost view = { λ b. arc_value b.contents };
}

impl Batch {
    /// A request of these entries.
    pub(crate) fn new(
        alloc: Global,
        tag: &[u8],
        entries: KeptEntries,
        chunk: Option<&[u8]>,
    ) -> Result<Self, AllocError>
        requires tag_fits { length tag.now ≤ TAG_LIMIT }
        requires chunk_fits { ForSome chunk (λ bytes. length bytes.now ≤ CHUNK_LIMIT + 5) }
        ensures { IfOk result (λ b.
            b
            ≡ record { tag = tag.now; entries = entries; chunk = option_copied chunk.entry }) }
    {
        let contents = Contents::new(tag, entries, chunk)?;
        match Arc::new(alloc, contents) {
            Ok(contents) => Ok(Batch { contents }),
            Err(_) => Err(AllocError),
        }
    }

    /// The request that was found in these bytes, which become its own. On an error they are as
    /// they were.
    pub(crate) fn within(
        alloc: Global,
        bytes: &mut Vec<u8>,
        found: Found,
    ) -> Result<Self, AllocError>
        requires { AreWithin bytes.old.items found }
        ensures ok { IfOk result (λ b. b ≡ found_in bytes.old.items found) }
        ensures err { OnErr result (bytes.new.items ≡ bytes.old.items) }
    {
        bytes.reserve_exact(found.names.len())?;
        let Ok(mut contents) = Arc::new(alloc, Contents::empty(alloc)) else {
            return Err(AllocError);
        };
        let Some(place) = Arc::get_mut(&mut contents) else {
            return Err(AllocError);
        };
        *place = Contents::within(mem::replace(bytes, Vec::new(alloc)), found);
        Ok(Batch { contents })
    }

    /// A copy, which shares all of it. The only error is out of memory, and it is answered only
    /// where there are more copies than can be counted.
    pub fn share(&self) -> Result<Self, AllocError>
        ensures { IfOk result (λ copy. copy ≡ self.now) }
    {
        Ok(Batch {
            contents: Arc::try_clone(&self.contents)?,
        })
    }

    /// Whether it is the same request.
    pub fn is(&self, other: &Batch) -> bool
        ensures { IsTrue result ↔ (self.now ≡ other.now) }
    {
        self.contents.is(&other.contents)
    }

    /// The tag's bytes.
    pub fn tag(&self) -> &[u8]
        ensures value { result.now ≡ self.now.tag }
        ensures bound { length result.now ≤ TAG_LIMIT }
    {
        self.contents.tag()
    }

    /// The entries as they are kept, one after the other: less than 2^32 bytes. Each has a byte. So
    /// 32 bits count them, and no run of entries is without bytes.
    pub fn entries(&self) -> &[u8]
        ensures value { result.now ≡ concat self.now.entries }
        ensures bound { length (concat self.now.entries) < 2 ^ 32 }
        ensures full { AreFull self.now.entries }
    {
        self.contents.entries()
    }

    /// Where each entry ends, in bytes from the front of the first.
    pub fn ends(&self) -> &[u32]
        ensures { result.now ≡ ends_of self.now.entries }
    {
        self.contents.ends()
    }

    /// The entries one by one, in order.
    pub fn iter(&self) -> Entries<'_>
        ensures { entries_left result ≡ self.now.entries }
    {
        self.contents.iter()
    }

    /// How many entries there are. Together they have less than 2^32 bytes.
    #[tactic(auto, using(crate::proofs::EntryLemmas::length_ends))]
    pub fn len(&self) -> usize
        ensures value { result ≡ length self.now.entries }
        ensures bound { length (concat self.now.entries) < 2 ^ 32 }
    {
        let _entries = self.contents.entries(); // for the proof
        self.contents.ends().len()
    }

    /// Whether there is no entry.
    #[tactic(auto, using(crate::proofs::EntryLemmas::length_ends))]
    pub fn is_empty(&self) -> bool
        ensures { result ≡ (length self.now.entries == 0) }
    {
        self.contents.ends().is_empty()
    }

    /// The bytes of the option's `chunk` value, head included, if there is one: at most 5
    /// more than `CHUNK_LIMIT`.
    pub fn chunk(&self) -> Option<&[u8]>
        ensures value { option_copied result ≡ self.now.chunk }
        ensures bound { IfSome result (λ chunk. length chunk.now ≤ CHUNK_LIMIT + 5) }
    {
        self.contents.chunk()
    }
}
