//! One entry of a request (Forward Protocol Specification v1, "Message Modes").

ghost use Rattle.std.specs.Prelude.{◌≡◌, ◌+◌, ◌≤◌, ◌<◌, ◌^◌, IfSome, Some, true, length};
ghost use Rattle.fwd_modes.specs.Entries.{entry_of};
ghost use Rattle.std.specs.Option.{option_map};
ghost use Rattle.fwd_msgpack.specs.Values.{bytes_of};

use crate::time::is_time;
use crate::value_kind::is_map;
use fwd_msgpack::Value;

/// The time and the fields of an entry, as they are spelled.
#[derive(Clone, Copy)]
pub(crate) struct Entry<'a> {
    pub(crate) time: &'a [u8],
    pub(crate) fields: &'a [u8],
    ghost fits: { 1 + length time.now + length fields.now < 2 ^ 32 },
}

impl<'a> Entry<'a> {
    ghost use Rattle.fwd_modes.specs.Entries.{entry_of, kept_if};
    ghost use Rattle.fwd_modes.specs.Kinds.{is_map};
    ghost use Rattle.fwd_modes.specs.Readings.{kept};

    /// A time and fields, if they are a time and a map.
    #[inline(always)]
    pub(crate) fn new(time: Value<'a>, fields: Value<'a>) -> Option<Entry<'a>>
        requires { 1 + length (bytes_of time) + length (bytes_of fields) < 2 ^ 32 }
        ensures value { option_map kept result
            ≡ kept_if (bytes_of time.entry) (bytes_of fields.entry) }
        ensures same { IfSome result (λ e.
            length e.time.now + length e.fields.now
            ≡ length (bytes_of time.entry) + length (bytes_of fields.entry)) }
    {
        if !is_time(time) || !is_map(fields) {
            return None;
        }
        Some(Entry {
            time: time.bytes(),
            fields: fields.bytes(),
        })
    }

    /// The same of fields that are a map.
    #[inline(always)]
    pub(crate) fn of_map(time: Value<'a>, fields: &'a [u8]) -> Option<Entry<'a>>
        requires short { 1 + length (bytes_of time) + length fields.now < 2 ^ 32 }
        requires map { is_map fields.now ≡ true }
        ensures { option_map kept result ≡ kept_if (bytes_of time.entry) fields.entry.now }
    {
        if !is_time(time) {
            return None;
        }
        let time = time.bytes();
        Some(Entry { time, fields })
    }

    /// How many bytes it has as it is kept.
    pub(crate) fn size(&self) -> usize
        ensures { result ≡ length (kept self.now) }
    {
        1 + self.time.len() + self.fields.len()
    }

    /// The entry that a value is: an array of exactly two, a time and a map.
    #[tactic(auto, unfolding(crate::specs::Entries::entry_of))]
    #[inline(always)]
    pub(crate) fn read(value: Value<'a>) -> Option<Entry<'a>>
        ensures value { option_map kept result ≡ entry_of (bytes_of value.entry) }
        ensures fits { IfSome result (λ e.
            1 + length e.time.now + length e.fields.now ≤ length (bytes_of value.entry)) }
    {
        let mut members = value.items()?;
        let time = members.next()?;
        let fields = members.next()?;
        if members.next().is_some() {
            return None;
        }
        Entry::new(time, fields)
    }
}

/// Whether a value is an entry that is spelled as it is kept.
#[inline(always)]
pub(crate) fn is_kept(value: Value<'_>) -> bool
    ensures { result ≡ true → entry_of (bytes_of value.entry) ≡ Some (bytes_of value.entry) }
{
    let Some((first, _)) = value.bytes().split_first() else {
        return false;
    };
    *first == 0x92 && Entry::read(value).is_some()
}
