//! A walk over the values of a stream, one at a time.

ghost use Rattle.std.specs.Prelude.{◌≡◌};
ghost use Rattle.fwd_msgpack.specs.Scans.{split_of};
ghost use Rattle.fwd_msgpack.specs.Walks.{split_by, AreParts};

use crate::cutting::cut;
use crate::fault::ScanFault;
use crate::limits::Limits;
use crate::value::{Cut, Value};

/// What comes next in a stream.
#[derive(Clone, Copy)]
pub enum Next<'a> {
    /// Less than a value, and no fault.
    Unfinished,
    /// A fault: no value within the limits begins so.
    Fault(ScanFault),
    /// A whole value, and the bytes behind it.
    Value(Value<'a>, &'a [u8]),
}

/// What comes next in a stream: one step of a walk over its values. A loop that goes on with the
/// bytes behind each value goes over the stream's values, in order. It takes no memory.
pub fn next_value(bytes: &[u8], limits: Limits) -> Next<'_>
    ensures split { split_of limits.bytes limits.depth bytes.now
        ≡ split_by limits.bytes limits.depth bytes.now result }
    ensures parts { AreParts bytes.now result }
{
    match cut(bytes, limits) {
        Cut::Whole(value, used) => Next::Value(value, &bytes[used..]),
        Cut::Short => Next::Unfinished,
        Cut::Bad(fault) => Next::Fault(fault),
    }
}
