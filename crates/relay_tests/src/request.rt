//! A request, read, and the times of its entries.

use fwd_modes::{Batch, EventTime, Reading, read_request};
use fwd_msgpack::{Cut, Limits, Value, cut};
use std::alloc::Global;

/// How long and how deep a value of a source may be, where settings name no limits: 16,777,216
/// bytes, and 64 arrays and maps one in another.
pub const SOURCE_LIMITS: Limits = Limits {
    bytes: 16_777_216,
    depth: 64,
};

/// The one whole value of the bytes.
fn value(bytes: &[u8]) -> Option<Value<'_>> {
    match cut(bytes, SOURCE_LIMITS) {
        Cut::Whole(value, _) => Some(value),
        _ => None,
    }
}

/// The request of these bytes.
pub fn batch(alloc: Global, bytes: &[u8]) -> Option<Batch> {
    match read_request(alloc, value(bytes)?, SOURCE_LIMITS) {
        Ok(Reading::Asks(batch)) => Some(batch),
        _ => None,
    }
}

/// An EventTime in its fixed spelling and in its three sized ones, from the format's page in the
/// standard, and what is none: its seconds and nanoseconds.
const TIMES: &[(&[u8], Option<(u32, u32)>)] = &[
    (b"\xd7\x00\x00\x00\x00\x01\x00\x00\x00\x02", Some((1, 2))),
    (
        b"\xc7\x08\x00\x00\x00\x00\x01\x00\x00\x00\x02",
        Some((1, 2)),
    ),
    (
        b"\xc8\x00\x08\x00\x00\x00\x00\x01\x00\x00\x00\x02",
        Some((1, 2)),
    ),
    (
        b"\xc9\x00\x00\x00\x08\x00\x00\x00\x00\x01\x00\x00\x00\x02",
        Some((1, 2)),
    ),
    (b"\xd7\x01\x00\x00\x00\x01\x00\x00\x00\x02", None),
    (b"\xd6\x00\x00\x00\x00\x01", None),
    (b"\x01", None),
];

/// The seconds and nanoseconds of the EventTime that the bytes are.
fn time_of(bytes: &[u8]) -> Option<(u32, u32)> {
    let time = EventTime::read(value(bytes)?)?;
    Some((time.sec(), time.nanos()))
}

#[test]
fn event_times_are_read(rt: HostRuntime) {
    for (bytes, time) in TIMES {
        assert!(rt; time_of(bytes) == *time);
    }
}
