//! The requests that are joined, two after one another.

use crate::requests::{batch_of, put_front};
use fwd_modes::Batch;
use std::alloc::Global;

/// Entries of three, four and five bytes: a time and an empty record.
const ENTRIES: &[&[u8]] = &[
    b"\x92\x01\x80",
    b"\x92\xcc\x80\x80",
    b"\x92\xcd\x01\x00\x80",
];

/// The most entries of a request.
const MOST: u32 = 4;

/// A request, as it is admitted and as the table sees it.
#[derive(Drop)]
pub struct Request {
    pub tag: u8,
    /// The bytes of each entry.
    pub sizes: Vec<u64>,
    pub batch: Batch,
}

/// The Forward request of a number among those with so many entries: which entries it has say the
/// number's digits to the base of three.
fn request_of(alloc: Global, tag: u8, count: u32, number: u32) -> Option<Request> {
    let mut bytes = Vec::new(alloc);
    let mut sizes = Vec::new(alloc);
    let mut rest = number;
    put_front(&mut bytes, &[tag], count).ok()?;
    for _ in 0..count {
        let entry = ENTRIES.get((rest % 3) as usize).copied().unwrap_or(b"");
        bytes.extend_from_slice(entry).ok()?;
        sizes.push(entry.len() as u64).ok()?;
        rest /= 3;
    }
    let batch = batch_of(alloc, &bytes)?;
    Some(Request { tag, sizes, batch })
}

/// Every request of up to four entries of three to five bytes, of the tags `a` and `b`.
pub fn requests(alloc: Global) -> Option<Vec<Request>> {
    let mut all = Vec::new(alloc);
    for count in 0..MOST + 1 {
        for number in 0..3u32.saturating_pow(count) {
            all.push(request_of(alloc, b'a', count, number)?).ok()?;
            all.push(request_of(alloc, b'b', count, number)?).ok()?;
        }
    }
    Some(all)
}
