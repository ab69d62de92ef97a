ghost use Rattle.std.specs.Prelude.{◌≡◌, ◌≤◌, ◌↔◌, IsTrue, length};
ghost use Rattle.std.specs.List.{concat};
ghost use Rattle.fwd_modes.specs.Entries.{AreFull, ends_of};
ghost use Rattle.fwd_chunks.specs.Pieces.{parts_left};
ghost use Rattle.fwd_chunks.specs.Endings.{ends_left};

use crate::body::Body;
use crate::body_parts::{BodyParts, EntryEnds};
use crate::chunk::Chunk;
use fwd_base::Bytes;
use fwd_modes::TAG_LIMIT;
use std::marker::Model;

/// A chunk that a worker has: its number, its tag, its entries and its name. It must be spent:
/// settled, or given back. It has its entries, since a session reads nothing under its output's
/// lock.
pub struct Carried {
    number: u64,
    /// Where the chunk lies in its buffer.
    key: usize,
    tag: Bytes,
    entries: Body,
    name: [u8; 24],
}

impl Model for Carried {
    ghost use Rattle.fwd_chunks.specs.History.{CarriedChunk};

    ghost Value = { CarriedChunk };

    ghost use Rattle.std.specs.Prelude.{◌≤◌, length};
    ghost use Rattle.fwd_modes.specs.declared.limits.TheConstants.{TAG_LIMIT};

    ghost view = { λ c.
        record { number = c.number; tag = c.tag; entries = c.entries; name = c.name } };

    ghost invariant = { λ c. (length c.tag ≤ TAG_LIMIT) };
}

impl Carried {
    /// A chunk of a buffer, which alone makes them.
    pub(crate) fn new(number: u64, key: usize, tag: Bytes, entries: Body, name: [u8; 24]) -> Self
        requires { length tag ≤ TAG_LIMIT }
        ensures { result ≡ record { number = number; tag = tag; entries = entries; name = name } }
    {
        Carried {
            number,
            key,
            tag,
            entries,
            name,
        }
    }

    /// The tag's bytes: at most `TAG_LIMIT`.
    pub fn tag(&self) -> &[u8]
        ensures value { result.now ≡ self.now.tag }
        ensures bound { length result.now ≤ TAG_LIMIT }
    {
        self.tag.as_slice()
    }

    /// The entries, in memory that the buffer shares.
    pub fn body(&self) -> &Body
        ensures { result.now ≡ self.now.entries }
    {
        &self.entries
    }

    /// The entries as they are kept, one after the other, in the pieces that they lie in: less than
    /// 2^32 bytes, and each piece has one.
    pub fn parts(&self) -> BodyParts<'_>
        ensures joined { concat (parts_left result) ≡ concat self.now.entries }
        ensures full { AreFull (parts_left result) }
    {
        self.entries.parts()
    }

    /// Where each entry ends, in bytes from the front of the first.
    pub fn ends(&self) -> EntryEnds<'_>
        ensures { ends_left result ≡ ends_of self.now.entries }
    {
        self.entries.ends()
    }

    /// How many entries there are.
    pub fn count(&self) -> usize
        ensures { result ≡ length self.now.entries }
    {
        self.entries.len()
    }

    /// The number of the chunk at its output.
    pub fn number(&self) -> u64
        ensures { result ≡ self.now.number }
    {
        self.number
    }

    /// Where the chunk lies in its buffer. Another buffer may hold another chunk there, or none.
    pub(crate) fn key(&self) -> usize {
        self.key
    }

    /// The chunk's name: 24 bytes of Base64.
    pub fn name(&self) -> &[u8]
        ensures value { result.now ≡ self.now.name }
        ensures bound { length result.now ≡ 24 }
    {
        &self.name
    }

    /// Whether it is the chunk of this number, tag, entries and name.
    pub(crate) fn is(&self, chunk: &Chunk, name: &[u8; 24]) -> bool
        ensures { IsTrue result ↔ (self.now ≡ record {
          number = chunk.now.number;
          tag = chunk.now.tag;
          entries = chunk.now.entries;
          name = name.now;
        }) }
    {
        self.number == chunk.number
            && self.tag.as_slice() == chunk.tag.as_slice()
            && self.entries.is(&chunk.entries)
            && self.name == *name
    }

    /// The chunk is no more: its buffer settled it or has it back, or another one was handed it.
    pub(crate) fn spend(self) {
        let Carried {
            number: _,
            key: _,
            tag: _,
            entries: _,
            name: _,
        } = self;
    }
}
