//! A request that becomes of the buffer in which its value was put together.

ghost use Rattle.std.specs.Prelude.{◌≡◌, length, IfOk, OnErr};
ghost use Rattle.fwd_msgpack.specs.Scans.{Whole, first_of};
ghost use Rattle.fwd_msgpack.specs.Values.{bytes_of};
ghost use Rattle.fwd_modes.specs.Requests.{request_of};
ghost use Rattle.fwd_modes.specs.Readings.{shown};

use crate::batch::Batch;
use crate::packed_request::find;
use crate::request::{Reading, read_request};
use fwd_msgpack::{Cut, Limits, Value, cut};
use std::alloc::{AllocError, Global};

/// The value that bytes are, all of them.
fn value_of(bytes: &[u8], limits: Limits) -> Value<'_>
    requires { first_of limits.bytes limits.depth bytes.now ≡ Whole (length bytes.now) }
    ensures { bytes_of result ≡ bytes.now }
{
    match cut(bytes, limits) {
        Cut::Whole(value, _) => value,
        _ => unreachable!(),
    }
}

/// As `read_request` of the value that the bytes are. Where it is one in PackedForward mode, and
/// its entries are spelled as they are kept, they are not copied: the bytes become the request's,
/// and others are left in their place. On an error they are as they were.
pub fn take_request(
    alloc: Global,
    bytes: &mut Vec<u8>,
    limits: Limits,
) -> Result<Reading, AllocError>
    requires { first_of limits.bytes limits.depth bytes.old.items
        ≡ Whole (length bytes.old.items) }
    ensures value { IfOk result (λ r. shown r ≡ request_of limits.depth bytes.old.items) }
    ensures err { OnErr result (bytes.new.items ≡ bytes.old.items) }
{
    match find(alloc, value_of(bytes, limits), limits.depth)? {
        Some(found) => Ok(Reading::Asks(Batch::within(alloc, bytes, found)?)),
        None => read_request(alloc, value_of(bytes, limits), limits),
    }
}
