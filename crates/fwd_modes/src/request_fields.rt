//! A request in parts, by its mode (Forward Protocol Specification v1, "Message Modes").

ghost use Rattle.std.specs.Prelude.{◌≡◌, ℕ, option_and_then};
ghost use Rattle.std.specs.Option.{option_map};
ghost use Rattle.fwd_msgpack.specs.Scans.{elements_of};
ghost use Rattle.fwd_msgpack.specs.Values.{bytes_of};
ghost use Rattle.fwd_modes.specs.Requests.{parts_in};
ghost use Rattle.fwd_modes.specs.Readings.{parts_shown};

use crate::entry::Entry;
use fwd_msgpack::{Head, Value};

/// Where the entries of a request stand.
#[derive(Clone, Copy)]
pub(crate) enum EntriesForm<'a> {
    /// A time and fields, if they are an entry.
    One(Option<Entry<'a>>),
    /// The members of an array.
    List(Value<'a>),
    /// Packed in a str or a bin.
    Packed(Value<'a>),
}

/// The values of a request.
#[derive(Clone, Copy)]
pub(crate) struct RequestFields<'a> {
    pub(crate) tag: Value<'a>,
    pub(crate) entries: EntriesForm<'a>,
    pub(crate) option: Option<Value<'a>>,
}

impl<'a> RequestFields<'a> {
    /// The parts of an array by the kind of its second
    /// value, or nothing where it has another shape. An extension in the second place tells Message
    /// mode even if it is no EventTime: the entry is at fault then, not the shape.
    pub(crate) fn of(value: Value<'a>) -> Option<RequestFields<'a>>
        ensures { (deep : ℕ)
            → option_map (parts_shown deep) result
            ≡ option_and_then (parts_in deep) (elements_of (bytes_of value.entry)) }
    {
        let mut members = value.items()?;
        let tag = members.next()?;
        let second = members.next()?;
        let entries = match second.head() {
            Head::Int { .. } | Head::Ext { .. } => EntriesForm::One(Entry::new(
                second,
                members.next()?,
            )),
            Head::Arr(_) => EntriesForm::List(second),
            Head::Str(_) | Head::Bin(_) => EntriesForm::Packed(second),
            _ => return None,
        };
        let option = members.next();
        if members.next().is_some() {
            return None;
        }
        Some(RequestFields {
            tag,
            entries,
            option,
        })
    }
}
