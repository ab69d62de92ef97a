//! The values in an array or a map, one after the other.

ghost use Rattle.std.specs.Prelude.{◌≡◌, ◌<◌, length};
ghost use Rattle.fwd_msgpack.specs.Scans.{Whole, IsRow, row_of_values, first_of, most_bytes, most_deep};
ghost use Rattle.std.proofs.Props.{props};

use crate::cutting::cut;
use crate::limits::Limits;
use crate::plain::plain_item;
use crate::value::{Cut, Value};

/// The values that stand in a row, from the first.
#[derive(Clone, Copy)]
pub struct Members<'a> {
    pub(crate) rest: &'a [u8],
    pub(crate) left: u64,
    ghost count: { left ≡ length (row_of_values rest.now) },
    ghost row: { IsRow rest.now } by { Prim.hlevel props },
}

impl<'a> Members<'a> {
    ghost use Rattle.std.specs.List.{concat};
    ghost use Rattle.fwd_msgpack.specs.Values.{members_left};

    /// The bytes of the values that are still to come, one after the other.
    pub fn bytes(self) -> &'a [u8]
        ensures { result.now ≡ concat (members_left self.entry) }
    {
        self.rest
    }
}

impl<'a> Iterator for Members<'a> {
    type Item = Value<'a>;

    ghost use Rattle.std.specs.Iterator.{YieldsFirstBy, item_count};
    ghost use Rattle.fwd_msgpack.specs.Values.{bytes_of, members_left};

    ghost next_gives = { YieldsFirstBy bytes_of members_left };

    ghost remaining = { item_count members_left };

    #[inline(always)]
    fn next(&mut self) -> Option<Value<'a>> {
        if self.left == 0 {
            return None;
        }
        let used = first_len(self.rest, self.left);
        let (bytes, rest) = self.rest.split_at(used);
        self.rest = rest;
        self.left -= 1;
        Some(Value { bytes })
    }
}

/// How many bytes the first of so many values in a row takes.
/// The last one is all that is left, and is not scanned again.
#[inline(always)]
fn first_len(row: &[u8], values: u64) -> usize
    requires row { IsRow row.now }
    requires count { values ≡ length (row_of_values row.now) }
    requires some { 0 < values }
    ensures { first_of most_bytes most_deep row.now ≡ Whole result }
{
    if values == 1 {
        return row.len();
    }
    if let Some(size) = plain_item(row, row.len().min(u32::MAX as usize)) {
        return size;
    }
    cut_len(row)
}

/// The same, where the first value may be a container.
#[inline(never)]
fn cut_len(row: &[u8]) -> usize
    requires row { IsRow row.now }
    requires some { 0 < length (row_of_values row.now) }
    ensures { first_of most_bytes most_deep row.now ≡ Whole result }
{
    match cut(row, Limits::WIDEST) {
        Cut::Whole(_, used) => used,
        _ => unreachable!(),
    }
}

/// The pairs of a map, from the first.
#[derive(Clone, Copy)]
pub struct Pairs<'a> {
    pub(crate) members: Members<'a>,
}

impl<'a> Pairs<'a> {
    ghost use Rattle.std.specs.Option.{option_map};
    ghost use Rattle.fwd_msgpack.specs.Texts.{last_under};
    ghost use Rattle.fwd_msgpack.specs.Values.{bytes_of, pairs_left};

    /// The value under a key, which is a str or a bin of these
    /// bytes: of a key that is given more than once the last counts.
    pub fn last_under(self, key: &[u8]) -> Option<Value<'a>>
        ensures { option_map bytes_of result ≡ last_under key.now (pairs_left self.entry) }
    {
        let mut last = None;
        for (name, value) in self {
            if name.is_text(key) {
                last = Some(value);
            }
        }
        last
    }

    /// The values under two keys, each as by `last_under`, in one walk.
    pub fn last_under_each(self, one: &[u8], other: &[u8]) -> (Option<Value<'a>>, Option<Value<'a>>)
        ensures one { option_map bytes_of result.0 ≡ last_under one.now (pairs_left self.entry) }
        ensures other { option_map bytes_of result.1
            ≡ last_under other.now (pairs_left self.entry) }
    {
        let mut under_one = None;
        let mut under_other = None;
        for (name, value) in self {
            if name.is_text(one) {
                under_one = Some(value);
            }
            if name.is_text(other) {
                under_other = Some(value);
            }
        }
        (under_one, under_other)
    }
}

impl<'a> Iterator for Pairs<'a> {
    type Item = (Value<'a>, Value<'a>);

    ghost use Rattle.std.specs.Iterator.{YieldsFirstBy, item_count};
    ghost use Rattle.fwd_msgpack.specs.Values.{bytes_of, pairs_left};

    ghost next_gives = { YieldsFirstBy (λ p. (bytes_of p.0, bytes_of p.1)) pairs_left };

    ghost remaining = { item_count pairs_left };

    fn next(&mut self) -> Option<(Value<'a>, Value<'a>)> {
        let key = self.members.next()?;
        let value = self.members.next()?;
        Some((key, value))
    }
}
