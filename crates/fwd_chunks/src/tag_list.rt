//! What is held of each tag, at a moment.

ghost use Rattle.std.specs.Prelude.{◌≡◌, ◌++◌, ◌∷◌, [], List, OnOk, OnErr, IfOk};
ghost use Rattle.fwd_chunks.specs.TagCounts.{Tagged, tag_counts, AreTagCounts};

use fwd_base::{Bytes, Seq, TagCount};
use std::alloc::{AllocError, Global};
use std::marker::Model;

/// A tag's entries and their bytes.
#[derive(Clone, Copy)]
pub(crate) struct TagRow {
    /// How many bytes the tag has.
    pub(crate) len: usize,
    pub(crate) held: u64,
    pub(crate) bytes: u64,
}

impl TagRow {
    /// What is held of the tag, whose bytes these are.
    fn count(&self, alloc: Global, tag: &[u8]) -> Result<TagCount, AllocError>
        ensures { IfOk result (λ count. count
            ≡ record { tag = tag.now; held = self.now.held; bytes = self.now.bytes }) }
    {
        Ok(TagCount {
            tag: Bytes::from_slice(alloc, tag)?,
            held: self.held,
            bytes: self.bytes,
        })
    }
}

/// What is held of each tag, in two pieces of memory: so it is made quickly, while an output is
/// locked.
#[derive(Drop)]
pub(crate) struct TagList {
    /// The tags, one after the other.
    names: Vec<u8>,
    rows: Vec<TagRow>,
}

impl Model for TagList {
    ghost use Rattle.std.specs.Prelude.{◌≡◌, List, length};
    ghost use Rattle.fwd_base.specs.declared.tag_count.TagCount.{TagCount};
    ghost use Rattle.fwd_chunks.specs.Listing.{unpacked, names_len};

    ghost Value = { List TagCount };

    ghost view = { λ l. unpacked l.rows.items l.names.items };

    ghost invariant = { λ l. names_len l.rows.items ≡ length l.names.items };
}

impl TagList {
    /// No tags.
    pub(crate) fn new(alloc: Global) -> Self
        ensures { result ≡ [] }
    {
        TagList {
            names: Vec::new(alloc),
            rows: Vec::new(alloc),
        }
    }

    /// A tag comes behind the others. On an error nothing has changed.
    pub(crate) fn push(&mut self, tag: &[u8], held: u64, bytes: u64) -> Result<(), AllocError>
        ensures ok { OnOk result (self.new ≡ self.old
            ++ record { tag = tag.now; held = held; bytes = bytes } ∷ []) }
        ensures err { OnErr result (self.new ≡ self.old) }
    {
        self.rows.reserve(1)?;
        self.names.extend_from_slice(tag)?;
        self.rows.push_reserved(TagRow {
            len: tag.len(),
            held,
            bytes,
        });
        Ok(())
    }

    /// The tags, each in memory of its own.
    fn unpacked(&self, alloc: Global) -> Result<Vec<TagCount>, AllocError>
        ensures { IfOk result (λ counts. counts.items ≡ self.now) }
    {
        let mut counts = Vec::with_capacity(alloc, self.rows.len())?;
        let mut names = self.names.as_slice();
        for row in &self.rows {
            let (tag, behind) = names.split_at(row.len);
            counts.push(row.count(alloc, tag)?)?;
            names = behind;
        }
        Ok(counts)
    }

    /// The tags by rising bytes. The only error is out of memory.
    pub(crate) fn sorted(&self, alloc: Global) -> Result<Seq<TagCount>, AllocError>
        ensures { (held : List Tagged) → AreTagCounts held self.now
            → IfOk result (λ tags. tags ≡ tag_counts held) }
    {
        let mut counts = self.unpacked(alloc)?;
        counts.sort_unstable_by(|a, b| a.tag.as_slice().cmp(b.tag.as_slice()));
        Ok(Seq::from_vec(counts))
    }
}
