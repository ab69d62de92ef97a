//! The entries of a request where they lie in its bytes.

ghost use Rattle.std.specs.Prelude.{◌<◌, ◌^◌, length};
ghost use Rattle.std.proofs.Props.{props};
ghost use Rattle.fwd_modes.specs.Entries.{AreCut, AreFull, cut_at};

use crate::entry::Entry;
use smallvec::SmallVec;

/// Entries one after the other, each spelled as it is kept, and where each of them ends.
#[derive(Drop)]
pub(crate) struct Row<'a> {
    pub(crate) bytes: &'a [u8],
    pub(crate) ends: SmallVec<u32, 2>,
    ghost cut: { AreCut 0 ends.items bytes.now } by { Prim.hlevel props },
    ghost fits: { length bytes.now < 2 ^ 32 },
    ghost full: { AreFull (cut_at 0 ends.items bytes.now) } by { Prim.hlevel props },
}

/// The entries of a request where they lie.
#[derive(Drop)]
pub(crate) enum Laid<'a> {
    /// A time and fields.
    One(Entry<'a>),
    /// Members of an array.
    Row(Row<'a>),
}
