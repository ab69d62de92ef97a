//! A request at the front of some bytes, read in one walk. What this walk does not know it leaves
//! to `cut` and `read_request`.

ghost use Rattle.std.specs.Prelude.{◌≡◌, ◌≤◌, ◌<◌, ◌∷◌, ◌-◌, [], true, Some, IfSome, length, take};
ghost use Rattle.fwd_msgpack.specs.Scans.{Whole, first_of, head_of};
ghost use Rattle.fwd_msgpack.specs.Values.{bytes_of};
ghost use Rattle.fwd_modes.specs.Fronts.{AreKeptInARow, HoldEntries, HoldWithin, StandAt, laid_shown};
ghost use Rattle.fwd_modes.specs.Kinds.{is_map};
ghost use Rattle.fwd_modes.specs.Moved.{optional};
ghost use Rattle.fwd_modes.specs.Requests.{Message, mode_by, request_of};
ghost use Rattle.fwd_modes.specs.Requests.Reading.{Asks as asks};

use crate::batch::Batch;
use crate::borrowed_entries::{Laid, Row};
use crate::entry::Entry;
use crate::kept_entries::{KeptEntries, copied};
use crate::lists::{ends_of_kept, kept_len};
use crate::request::{judge, read_one};
use crate::value_kind::is_map;
use fwd_msgpack::{Cut, Head, HeadRead, Limits, Shape, Value, cut, flat_map, read_head};
use smallvec::SmallVec;
use std::alloc::Global;

/// The most entries for whose ends room is made before they are read.
const MOST_AHEAD: usize = 256;

/// A request, and how many bytes its value takes.
#[derive(Drop)]
pub struct FrontRequest {
    pub request: Batch,
    pub len: usize,
}

/// A member of an array, and where it ends.
#[derive(Clone, Copy)]
struct Member<'a> {
    value: Value<'a>,
    end: usize,
}

/// A map that is a member of an array, and where it ends.
#[derive(Clone, Copy)]
struct MapMember<'a> {
    bytes: &'a [u8],
    end: usize,
}

/// Members of an array that are a request's entries: how many, and where the last of them ends.
#[derive(Drop)]
struct Entered<'a> {
    laid: Laid<'a>,
    members: u32,
    end: usize,
}

/// What stands behind the entries, and where it ends.
#[derive(Clone, Copy)]
struct Behind<'a> {
    option: Option<Value<'a>>,
    end: usize,
}

/// The value at a place.
fn member_at<'a>(bytes: &'a [u8], at: usize, limits: Limits) -> Option<Member<'a>>
    requires { at ≤ length bytes.now }
    ensures { IfSome result (λ m. StandAt limits.depth bytes.now at m.end (bytes_of m.value ∷ [])) }
{
    let Cut::Whole(value, len) = cut(&bytes[at..], limits) else {
        return None;
    };
    Some(Member {
        value,
        end: at + len,
    })
}

/// The map at a place, with a guess at its keys.
#[inline(always)]
fn map_at<'a>(
    bytes: &'a [u8],
    at: usize,
    limits: Limits,
    shape: &mut Shape,
) -> Option<MapMember<'a>>
    requires { at ≤ length bytes.now }
    ensures stand { IfSome result (λ m.
        StandAt limits.depth bytes.now at m.end (m.bytes.now ∷ [])) }
    ensures map { IfSome result (λ m. is_map m.bytes.now ≡ true) }
{
    let rest = &bytes[at..];
    if let Some(len) = flat_map(rest, limits, shape) {
        return Some(MapMember {
            bytes: &rest[..len],
            end: at + len,
        });
    }
    let member = member_at(bytes, at, limits)?;
    if !is_map(member.value) {
        return None;
    }
    Some(MapMember {
        bytes: member.value.bytes(),
        end: member.end,
    })
}

/// Whether a value that stands behind a tag is the time of a Message, by its kind.
fn tells_message(second: Value<'_>) -> bool
    ensures { result ≡ true → mode_by (head_of (bytes_of second.entry)) ≡ Some Message }
{
    matches!(second.head(), Head::Int { .. } | Head::Ext { .. })
}

/// A time and fields at a place.
fn one_at<'a>(bytes: &'a [u8], at: usize, limits: Limits, shape: &mut Shape) -> Option<Entered<'a>>
    requires inside { at ≤ length bytes.now }
    requires behind { 0 < at }
    ensures { IfSome result (λ e.
        HoldEntries limits.depth bytes.now at e.end e.members (laid_shown e.laid)) }
{
    let time = member_at(bytes, at, limits)?;
    if !tells_message(time.value) {
        return None;
    }
    let fields = map_at(bytes, time.end, limits, shape)?;
    if fields.end > limits.bytes as usize {
        return None;
    }
    Some(Entered {
        laid: Laid::One(Entry::of_map(time.value, fields.bytes)?),
        members: 2,
        end: fields.end,
    })
}

/// Where so many entries end that begin the bytes, each spelled as it is kept, and where the last
/// one does. Nothing also where there is no memory for that.
fn ends_of_many(
    alloc: Global,
    bytes: &[u8],
    count: u32,
    limits: Limits,
    shape: &mut Shape,
) -> Option<(SmallVec<u32, 2>, usize)>
    ensures row { IfSome result (λ r.
        AreKeptInARow limits.depth count bytes.now r.0.items r.1) }
    ensures fits { IfSome result (λ r. r.1 ≤ limits.bytes) }
{
    let mut ends = SmallVec::new(alloc);
    ends.reserve((count as usize).min(MOST_AHEAD)).ok()?;
    let mut used = 0;
    for place in 0..count {
        let len = kept_len(&bytes[used..], limits, shape)?;
        used += len;
        if used > limits.bytes as usize {
            return None;
        }
        ends.push(used as u32).ok()?;
    }
    Some((ends, used))
}

/// An array of entries at a place, each spelled as it is kept.
fn row_at<'a>(
    alloc: Global,
    bytes: &'a [u8],
    at: usize,
    limits: Limits,
    shape: &mut Shape,
) -> Option<Entered<'a>>
    requires { at ≤ length bytes.now }
    ensures { IfSome result (λ e.
        HoldEntries limits.depth bytes.now at e.end e.members (laid_shown e.laid)) }
{
    let HeadRead::Whole(Head::Arr(count), size) = read_head(&bytes[at..]) else {
        return None;
    };
    if limits.depth == 0 {
        return None;
    }
    let inner = Limits {
        bytes: limits.bytes,
        depth: limits.depth - 1,
    };
    let rest = &bytes[at + size..];
    let (ends, used) = ends_of_many(alloc, rest, count, inner, shape)?;
    if size + used > limits.bytes as usize {
        return None;
    }
    Some(Entered {
        laid: Laid::Row(Row {
            bytes: &rest[..used],
            ends,
        }),
        members: 1,
        end: at + size + used,
    })
}

/// Entries that are packed in a str or a bin at a place, each spelled as it is kept. The limits are
/// those of the request, and of each entry.
fn packed_at<'a>(
    alloc: Global,
    bytes: &'a [u8],
    at: usize,
    limits: Limits,
    shape: &mut Shape,
) -> Option<Entered<'a>>
    requires inside { at ≤ length bytes.now }
    requires deep { 0 < limits.depth }
    ensures { IfSome result (λ e. HoldWithin limits.depth (limits.depth - 1) bytes.now at e.end
        e.members (laid_shown e.laid)) }
{
    let inner = Limits {
        bytes: limits.bytes,
        depth: limits.depth - 1,
    };
    let packed = member_at(bytes, at, inner)?;
    let text = packed.value.text()?;
    let Ok(Some(ends)) = ends_of_kept(alloc, text, limits.depth, shape) else {
        return None;
    };
    Some(Entered {
        laid: Laid::Row(Row { bytes: text, ends }),
        members: 1,
        end: packed.end,
    })
}

/// The entries of a request at a place in its array, whose limits these are.
fn entries_at<'a>(
    alloc: Global,
    bytes: &'a [u8],
    at: usize,
    limits: Limits,
    shape: &mut Shape,
) -> Option<Entered<'a>>
    requires inside { at ≤ length bytes.now }
    requires behind { 0 < at }
    requires deep { 0 < limits.depth }
    ensures { IfSome result (λ e. HoldWithin limits.depth (limits.depth - 1) bytes.now at e.end
        e.members (laid_shown e.laid)) }
{
    let inner = Limits {
        bytes: limits.bytes,
        depth: limits.depth - 1,
    };
    match bytes.get(at) {
        Some(0x90..=0x9f | 0xdc | 0xdd) => row_at(alloc, bytes, at, inner, shape),
        Some(0xa0..=0xbf | 0xc4..=0xc6 | 0xd9..=0xdb) => {
            packed_at(alloc, bytes, at, limits, shape)
        }
        _ => one_at(bytes, at, inner, shape),
    }
}

/// The option at a place, where one member of the array is left.
fn option_at(bytes: &[u8], at: usize, left: u32, limits: Limits) -> Option<Behind<'_>>
    requires { at ≤ length bytes.now }
    ensures stand { IfSome result (λ b.
        StandAt limits.depth bytes.now at b.end (optional b.option)) }
    ensures count { IfSome result (λ b. length (optional b.option) ≡ left) }
{
    match left {
        0 => Some(Behind {
            option: None,
            end: at,
        }),
        1 => {
            let member = member_at(bytes, at, limits)?;
            Some(Behind {
                option: Some(member.value),
                end: member.end,
            })
        }
        _ => None,
    }
}

/// The entries in a memory of their own, and room behind them for so many bytes more. Nothing
/// where there is no memory for that.
fn keep(alloc: Global, laid: Laid<'_>, more: usize) -> Option<KeptEntries>
    ensures { IfSome result (λ kept. kept ≡ laid_shown laid.entry) }
{
    match laid {
        Laid::One(entry) => read_one(alloc, Some(entry), more).ok()?,
        Laid::Row(row) => {
            let bytes = copied(alloc, row.bytes, more).ok()?;
            Some(KeptEntries::of(bytes, row.ends))
        }
    }
}

/// The request at the front of some bytes, where its entries are spelled as they are kept, all of
/// it is there and within the limits, and there is memory for it. Otherwise nothing, which is never
/// wrong. What requests before had as keys is guessed of this one's.
pub fn read_front(
    alloc: Global,
    bytes: &[u8],
    limits: Limits,
    shape: &mut Shape,
) -> Option<FrontRequest>
    ensures whole { IfSome result (λ front.
        first_of limits.bytes limits.depth bytes.now ≡ Whole front.len) }
    ensures asks { IfSome result (λ front.
        request_of limits.depth (take front.len bytes.now) ≡ asks front.request) }
    ensures some { IfSome result (λ front. 0 < front.len) }
    ensures within { IfSome result (λ front. front.len ≤ length bytes.now) }
{
    let HeadRead::Whole(Head::Arr(count), at) = read_head(bytes) else {
        return None;
    };
    if limits.depth == 0 {
        return None;
    }
    let inner = Limits {
        bytes: limits.bytes,
        depth: limits.depth - 1,
    };
    shape.renew();
    let tag = member_at(bytes, at, inner)?;
    let Entered { laid, members, end } = entries_at(alloc, bytes, tag.end, limits, shape)?;
    let left = count.checked_sub(1)?.checked_sub(members)?;
    let Behind { option, end } = option_at(bytes, end, left, inner)?;
    if end > limits.bytes as usize {
        return None;
    }
    let asked = judge(tag.value, option).ok()?;
    let kept = keep(alloc, laid, asked.size())?;
    let request = Batch::new(alloc, asked.tag, kept, asked.chunk).ok()?;
    Some(FrontRequest { request, len: end })
}
