//! The times of entries (Forward Protocol Specification v1, "EventTime Ext Format").

ghost use Rattle.std.specs.Prelude.{◌≡◌, ◌≤◌, true, length, take};
ghost use Rattle.std.specs.Int.{w32, from_be_bytes};
ghost use Rattle.fwd_msgpack.specs.Values.{bytes_of};
ghost use Rattle.fwd_modes.specs.Times.{event_time_of, is_time};

use fwd_msgpack::{Head, Value};
use std::marker::Model;

/// A time with nanoseconds: an extension of type 0 with 8 bytes, however its head is spelled.
#[derive(Clone, Copy)]
pub struct EventTime {
    sec: u32,
    nanos: u32,
}

impl Model for EventTime {
    ghost use Rattle.fwd_modes.specs.Times.{Moment};

    ghost Value = { Moment };

    ghost view = { λ t. record { sec = t.sec; nanos = t.nanos } };

    ghost inverse = { λ m. record { sec = m.sec; nanos = m.nanos } };
}

/// The number that four bytes spell, big-endian.
fn u32_of(bytes: &[u8]) -> u32
    requires { length bytes.now ≡ 4 }
    ensures { result ≡ from_be_bytes w32 bytes.now }
{
    u32::from_be_bytes([bytes[0], bytes[1], bytes[2], bytes[3]])
}

impl EventTime {
    /// The time that a value is, or nothing where it is no
    /// EventTime. Any number of nanoseconds is taken.
    #[inline(always)]
    pub fn read(value: Value<'_>) -> Option<EventTime>
        ensures { result ≡ event_time_of (bytes_of value.entry) }
    {
        let (kind, body) = value.ext()?;
        if kind != 0 || body.len() != 8 {
            return None;
        }
        let (sec, nanos) = body.split_at(4);
        Some(EventTime {
            sec: u32_of(sec),
            nanos: u32_of(nanos),
        })
    }

    /// The seconds since the Unix epoch.
    pub fn sec(self) -> u32
        ensures { result ≡ self.sec }
    {
        self.sec
    }

    /// The nanoseconds on top of the seconds, as they were given.
    pub fn nanos(self) -> u32
        ensures { result ≡ self.nanos }
    {
        self.nanos
    }
}

/// Whether bytes are a time as most are spelled: seconds of 32 bits, or an EventTime of a fixed
/// length.
#[inline(always)]
fn is_usual(bytes: &[u8]) -> bool
    ensures { result ≡ true → is_time bytes.now ≡ true }
{
    match bytes.len() {
        5 => bytes[0] == 0xce,
        10 => bytes[0] == 0xd7 && bytes[1] == 0,
        _ => false,
    }
}

/// Whether a value is a time, by its head.
#[inline(never)]
fn has_head_of_time(value: Value<'_>) -> bool
    ensures { result ≡ is_time (bytes_of value.entry) }
{
    match value.head() {
        Head::Int { .. } => true,
        Head::Ext { .. } => EventTime::read(value).is_some(),
        _ => false,
    }
}

/// Whether a value is a time: an integer or an EventTime. Negative integers are times too.
#[inline(always)]
pub(crate) fn is_time(value: Value<'_>) -> bool
    ensures { result ≡ is_time (bytes_of value.entry) }
{
    is_usual(value.bytes()) || has_head_of_time(value)
}
