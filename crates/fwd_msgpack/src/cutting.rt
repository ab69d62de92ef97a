//! The first value of some bytes.

ghost use Rattle.std.specs.Prelude.{◌≡◌};
ghost use Rattle.fwd_msgpack.specs.Scans.{first_of};
ghost use Rattle.fwd_msgpack.specs.Cuts.{seen, IsFront, IsExtent};

use crate::limits::Limits;
use crate::scan::{Extent, extent_of};
use crate::value::{Cut, Value};

/// The value at the front of the bytes, or the first fault
/// (MessagePack specification, "Formats"). It takes no memory.
#[inline(always)]
pub fn cut(bytes: &[u8], limits: Limits) -> Cut<'_>
    ensures verdict { seen result ≡ first_of limits.bytes limits.depth bytes.now }
    ensures front { IsFront bytes.now result }
    ensures extent { IsExtent bytes.now result }
{
    match extent_of(bytes, limits) {
        Extent::Whole(used) => Cut::Whole(
            Value {
                bytes: &bytes[..used],
            },
            used,
        ),
        Extent::Short => Cut::Short,
        Extent::Bad(fault) => Cut::Bad(fault),
    }
}
