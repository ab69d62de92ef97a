//! The bytes of a request, and what they ask.

use fwd_modes::{Batch, Reading, read_request};
use fwd_msgpack::{Cut, Head, Limits, cut, write_head};
use std::alloc::{AllocError, Global};

/// The limits of a request's bytes.
const LIMITS: Limits = Limits {
    bytes: 4_000_000_000,
    depth: 64,
};

/// Appends a Forward request's bytes before its entries, of which there are so many.
pub fn put_front(out: &mut Vec<u8>, tag: &[u8], count: u32) -> Result<(), AllocError> {
    let length = u32::try_from(tag.len()).unwrap_or(u32::MAX);
    write_head(out, Head::Arr(2))?;
    write_head(out, Head::Str(length))?;
    out.extend_from_slice(tag)?;
    write_head(out, Head::Arr(count))
}

/// What the bytes of a request ask.
pub fn batch_of(alloc: Global, bytes: &[u8]) -> Option<Batch> {
    let Cut::Whole(value, _) = cut(bytes, LIMITS) else {
        return None;
    };
    match read_request(alloc, value, LIMITS) {
        Ok(Reading::Asks(batch)) => Some(batch),
        _ => None,
    }
}
