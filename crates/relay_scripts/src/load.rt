//! What a buffer has to do: its requests.

use crate::next_number;
use crate::requests::{batch_of, put_front};
use fwd_modes::Batch;
use fwd_msgpack::{Head, write_head};
use std::alloc::{AllocError, Global};
use std::env::Args;

/// What a buffer has to do.
#[derive(Clone, Copy)]
pub struct Load {
    /// The entries in all.
    pub entries: u32,
    /// The tags that requests go round.
    pub tags: u32,
    /// The bytes of an entry.
    pub size: u32,
    /// The entries of a request.
    pub request: u32,
}

impl Load {
    /// The requests in all.
    pub fn requests(self) -> u32 {
        self.entries.checked_div(self.request).unwrap_or(0)
    }
}

/// The load of the next four words.
pub fn next_load(words: &mut Args) -> Option<Load> {
    Some(Load {
        entries: next_number(words)?,
        tags: next_number(words)?,
        size: next_number(words)?,
        request: next_number(words)?,
    })
}

/// The bytes of an entry before its text: two members, the time 1, a map of one key `k`.
const FRONT: &[u8] = b"\x92\x01\x81\xa1k";

/// Appends an entry of so many bytes, which is at least 9.
fn put_entry(out: &mut Vec<u8>, size: u32) -> Result<(), AllocError> {
    out.extend_from_slice(FRONT)?;
    let rest = size.saturating_sub(5);
    let text = if rest <= 32 {
        rest.saturating_sub(1)
    } else if rest <= 257 {
        rest.saturating_sub(2)
    } else {
        rest.saturating_sub(3)
    };
    write_head(out, Head::Str(text))?;
    for _ in 0..text {
        out.push(b'x')?;
    }
    Ok(())
}

/// The bytes of a Forward request of a load for the tag of a number.
fn request_bytes(alloc: Global, tag: u32, load: Load) -> Result<Vec<u8>, AllocError> {
    let tag = format!(in alloc; "tag.{tag:07}")?;
    let mut bytes = Vec::new(alloc);
    put_front(&mut bytes, tag.as_bytes(), load.request)?;
    for _ in 0..load.request {
        put_entry(&mut bytes, load.size)?;
    }
    Ok(bytes)
}

/// A request for each tag, but no more than are admitted in all.
pub fn batches(alloc: Global, load: Load) -> Option<Vec<Batch>> {
    let mut batches = Vec::new(alloc);
    for tag in 0..load.tags.min(load.requests()) {
        let bytes = request_bytes(alloc, tag, load).ok()?;
        batches.push(batch_of(alloc, &bytes)?).ok()?;
    }
    Some(batches)
}
