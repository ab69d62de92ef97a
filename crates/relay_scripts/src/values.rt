//! The loops over the values of a stream, which are measured.

use crate::pieces::{feed_pieces, hear_pieces};
use crate::watch::Watch;
use fwd_modes::{Reading, read_request};
use fwd_msgpack::{Cut, Limits, Value, cut};
use std::alloc::{AllocError, Global};
use std::rt::Runtime;
use std::time::Duration;

/// The limits of a value from a source, as the relay has them.
pub const LIMITS: Limits = Limits {
    bytes: 16_777_216,
    depth: 64,
};

/// What is done with each value.
#[derive(Clone, Copy)]
pub enum Measure {
    /// It is cut, and no more.
    Cut,
    /// It is cut and read as a request.
    Requests,
    /// The stream is fed to a scanner in pieces of so many bytes.
    Feed(usize),
    /// A connection hears the stream in pieces of so many bytes.
    Hear(usize),
}

/// What one turn over a stream found.
#[derive(Clone, Copy, Default)]
pub struct Found {
    /// How many values the stream begins with.
    pub values: u64,
    /// How many of them were read as requests.
    pub requests: u64,
    /// How many entries these have together.
    pub entries: u64,
    /// How many bytes stand behind the values.
    pub rest: usize,
}

/// Cuts each value.
#[inline(never)]
fn cut_values(stream: &[u8]) -> Found {
    let mut found = Found::default();
    let mut rest = stream;
    while let Cut::Whole(_, used) = cut(rest, LIMITS) {
        found.values = found.values.saturating_add(1);
        rest = &rest[used..];
    }
    found.rest = rest.len();
    found
}

/// The values that the stream begins with.
fn values_of(alloc: Global, stream: &[u8]) -> Result<Vec<Value<'_>>, AllocError> {
    let mut values = Vec::new(alloc);
    let mut rest = stream;
    while let Cut::Whole(value, used) = cut(rest, LIMITS) {
        values.push(value)?;
        rest = &rest[used..];
    }
    Ok(values)
}

/// Reads each value as a request: how many are one, and how many entries these have together.
#[inline(never)]
fn read_requests(alloc: Global, values: &[Value<'_>]) -> Result<(u64, u64), AllocError> {
    let mut requests: u64 = 0;
    let mut entries: u64 = 0;
    for value in values {
        if let Reading::Asks(batch) = read_request(alloc, *value, LIMITS)? {
            requests = requests.saturating_add(1);
            entries = entries.saturating_add(batch.len() as u64);
        }
    }
    Ok((requests, entries))
}

/// What a turn finds, and how long the fastest one took. Where requests are measured, the values
/// were cut beforehand.
pub fn fastest<R: Runtime + AllocGlobal>(
    rt: &R,
    measure: Measure,
    turns: u32,
    stream: &[u8],
) -> Option<(Found, Duration)> {
    let mut found = cut_values(stream);
    let values = values_of(rt.alloc(), stream).ok()?;
    let mut least = Duration::MAX;
    for _ in 0..turns {
        let watch = Watch::start(rt);
        match measure {
            Measure::Cut => found = cut_values(stream),
            Measure::Requests => {
                (found.requests, found.entries) = read_requests(rt.alloc(), &values).ok()?;
            }
            Measure::Feed(size) => found = feed_pieces(stream, size),
            Measure::Hear(size) => found = hear_pieces(rt.alloc(), stream, size).ok()?,
        }
        least = least.min(watch.took(rt));
    }
    Some((found, least))
}
