//! The entries of a chunk, in memory that their requests share. No entry is copied into a chunk or
//! out of it, and a request's memory stays while one of its entries is held.

ghost use Rattle.std.specs.Prelude.{
  ◌≡◌,
  ◌+◌,
  ◌<◌,
  ◌^◌,
  ◌++◌,
  ◌↔◌,
  IsTrue,
  length,
  IfOk,
  OnOk,
  OnErr,
};
ghost use Rattle.std.specs.List.{concat};
ghost use Rattle.fwd_modes.specs.Entries.{AreFull, ends_of};
ghost use Rattle.fwd_chunks.specs.Cells.{size_of};
ghost use Rattle.fwd_chunks.specs.Parts.{entries_in};
ghost use Rattle.fwd_chunks.specs.Pieces.{parts_left};
ghost use Rattle.fwd_chunks.specs.Endings.{ends_left};

use crate::body_parts::{BodyParts, EntryEnds};
use crate::entry_range::EntryRange;
use crate::entry_slices::EntrySlices;
use crate::send_cursor::SendCursor;
use std::alloc::{AllocError, Global};
use std::marker::Model;
use std::sync::Arc;

/// The entries of a chunk. They are slices of what the requests keep, and the buffer, a worker and
/// what was acknowledged share the list of them, so that none of them copies an entry.
#[derive(Drop)]
pub struct Body {
    slices: Arc<EntrySlices>,
}

impl Model for Body {
    ghost use Rattle.std.specs.Prelude.{List, ℕ};
    ghost use Rattle.std.specs.Arc.{arc_value};
    ghost use Rattle.fwd_chunks.specs.Rows.{joined};

    ghost Value = { List (List ℕ) };

    ghost view = { λ b. joined (arc_value b.slices) };
}

impl Body {
    /// These entries.
    pub(crate) fn of(alloc: Global, part: EntryRange<'_>) -> Result<Self, AllocError>
        requires { size_of (entries_in part) < 2 ^ 32 }
        ensures { IfOk result (λ body. body ≡ entries_in part.entry) }
    {
        let mut slices = EntrySlices::new(alloc);
        slices.extend(part)?;
        match Arc::new(alloc, slices) {
            Ok(slices) => Ok(Body { slices }),
            Err(_) => Err(AllocError),
        }
    }

    /// The entries' bytes, in the pieces that they lie in, in order. Joined they are less than 2^32
    /// bytes, and each piece has one.
    pub fn parts(&self) -> BodyParts<'_>
        ensures joined { concat (parts_left result) ≡ concat self.now }
        ensures full { AreFull (parts_left result) }
    {
        BodyParts::new(self.slices.as_slice())
    }

    /// Where each entry ends, in bytes from the front of the first.
    pub fn ends(&self) -> EntryEnds<'_>
        ensures { ends_left result ≡ ends_of self.now }
    {
        let _size = self.slices.size(); // for the proof
        EntryEnds::new(self.slices.iter())
    }

    /// All its bytes, to be sent. The only error is out of memory, and it is answered only where
    /// there are more owners than can be counted.
    pub fn unsent(&self) -> Result<SendCursor, AllocError>
        ensures { IfOk result (λ unsent. unsent ≡ concat self.now) }
    {
        Ok(SendCursor::new(Arc::try_clone(&self.slices)?))
    }

    /// How many entries there are.
    pub fn len(&self) -> usize
        ensures { result ≡ length self.now }
    {
        self.slices.len()
    }

    /// The bytes of the entries.
    pub fn size(&self) -> u64
        ensures value { result ≡ size_of self.now }
        ensures bound { result < 2 ^ 32 }
    {
        self.slices.size()
    }

    /// Adds entries at the end, or changes nothing. Other owners do not see them.
    pub(crate) fn extend(&mut self, part: EntryRange<'_>) -> Result<(), AllocError>
        requires { size_of self.old + size_of (entries_in part) < 2 ^ 32 }
        ensures ok { OnOk result (self.new ≡ self.old ++ entries_in part.entry) }
        ensures err { OnErr result (self.new ≡ self.old) }
    {
        Arc::make_mut(&mut self.slices)?.extend(part)
    }

    /// Whether the entries are the same. Their bytes are compared, since no contract of the kit
    /// tells two owners of one value from owners of two equal values. `Arc` has no `ptr_eq`, that
    /// of `Rc` has no clause, and pointers may be compared only where one is null or both point
    /// into one block. A number in each request would tell only if no number were given out twice,
    /// and to say so takes a type parameter in everything that holds a request.
    pub(crate) fn is(&self, other: &Body) -> bool
        ensures { IsTrue result ↔ (self.now ≡ other.now) }
    {
        self.slices.is(&other.slices)
    }

    /// The same entries, for one owner more.
    pub fn share(&self) -> Result<Self, AllocError>
        ensures { IfOk result (λ body. body ≡ self.now) }
    {
        Ok(Body {
            slices: Arc::try_clone(&self.slices)?,
        })
    }
}
