//! The entries of a request that has many (Forward Protocol
//! Specification v1, "Forward Mode" and "PackedForward Mode").

ghost use Rattle.std.specs.Prelude.{◌≡◌, ◌<◌, ◌≤◌, ◌^◌, [], ◌∷◌, ◌++◌, Some, length, IfOk, IfSome, OnOk};
ghost use Rattle.fwd_msgpack.specs.Values.{bytes_of};
ghost use Rattle.fwd_modes.specs.Entries.{AreCut, BeginsKept, cut_at, listed_entries, packed_entries};

use crate::entry::{Entry, is_kept};
use crate::kept_entries::{KeptEntries, copied};
use crate::time::is_time;
use fwd_msgpack::{Cut, Limits, MAX_DEPTH, Shape, Value, cut, flat_pair};
use smallvec::SmallVec;
use std::alloc::{AllocError, Global};

/// The most entries for whose ends room is made before they are known. A request whose first entry
/// is short then keeps at most 1 KiB that it does not need.
const MOST_AHEAD: usize = 256;

/// How many bytes the value at the front takes, if it is an entry that is spelled as it is kept.
fn cut_kept(bytes: &[u8], limits: Limits) -> Option<usize>
    ensures { IfSome result (λ len. BeginsKept limits.bytes limits.depth bytes.now len) }
{
    let Cut::Whole(value, len) = cut(bytes, limits) else {
        return None;
    };
    if is_kept(value) { Some(len) } else { None }
}

/// The same, with a guess at the entry's keys. It is not read twice where it is as most are.
#[inline(always)]
pub(crate) fn kept_len(bytes: &[u8], limits: Limits, shape: &mut Shape) -> Option<usize>
    ensures { IfSome result (λ len. BeginsKept limits.bytes limits.depth bytes.now len) }
{
    match flat_pair(bytes, limits, shape) {
        Some(pair) if is_time(pair.first) => Some(pair.len),
        _ => cut_kept(bytes, limits),
    }
}

/// Adds where an entry ends. With the first comes room for as many as there are if all are as long
/// as this one, of so many bytes.
#[inline(always)]
fn add_end(ends: &mut SmallVec<u32, 2>, end: u32, all: usize) -> Result<(), AllocError>
    requires { 0 < end }
    ensures { OnOk result (ends.new.items ≡ ends.old.items ++ end ∷ []) }
{
    if ends.is_empty() {
        ends.reserve((all / end as usize).min(MOST_AHEAD))?;
    }
    ends.push(end)?;
    Ok(())
}

/// The same, entry by entry: where some are not spelled as they are kept.
#[tactic(auto, unfolding(crate::specs::Entries::listed_entries))]
fn list_each(alloc: Global, list: Value<'_>, more: usize) -> Result<Option<KeptEntries>, AllocError>
    ensures { IfOk result (λ kept. kept ≡ listed_entries (bytes_of list.entry)) }
{
    let Some(members) = list.items() else {
        return Ok(None);
    };
    let mut kept = KeptEntries::with_room(alloc, list.bytes().len().saturating_add(more))?;
    for member in members {
        let Some(entry) = Entry::read(member) else {
            return Ok(None);
        };
        kept.push(entry)?;
    }
    Ok(Some(kept))
}

/// The members of an array, if each is an entry. Where all are spelled as they are kept, their
/// bytes are copied in one. Behind them is room for so many bytes more.
#[tactic(auto, unfolding(crate::specs::Entries::listed_entries))]
pub(crate) fn read_list(
    alloc: Global,
    list: Value<'_>,
    more: usize,
) -> Result<Option<KeptEntries>, AllocError>
    ensures { IfOk result (λ kept. kept ≡ listed_entries (bytes_of list.entry)) }
{
    let Some(members) = list.items() else {
        return Ok(None);
    };
    let packed = members.bytes();
    let Some(ends) = ends_of_kept(alloc, packed, MAX_DEPTH, &mut Shape::new())? else {
        return list_each(alloc, list, more);
    };
    let bytes = copied(alloc, packed, more)?;
    Ok(Some(KeptEntries::of(bytes, ends)))
}

/// Where the entries end that stand one after the other to the last byte, each at most so deep, if
/// each is spelled as it is kept.
pub(crate) fn ends_of_kept(
    alloc: Global,
    packed: &[u8],
    depth: u8,
    shape: &mut Shape,
) -> Result<Option<SmallVec<u32, 2>>, AllocError>
    requires shallow { depth ≤ 128 }
    requires fits { length packed.now < 2 ^ 32 }
    ensures cut { IfOk result (λ found. IfSome found (λ ends. AreCut 0 ends.items packed.now)) }
    ensures entries { IfOk result (λ found. IfSome found (λ ends.
        packed_entries depth packed.now ≡ Some (cut_at 0 ends.items packed.now))) }
{
    let limits = Limits {
        bytes: u32::MAX,
        depth,
    };
    let mut ends = SmallVec::new(alloc);
    let mut used = 0;
    'entries: while used < packed.len() {
        let Some(len) = kept_len(&packed[used..], limits, shape) else {
            return Ok(None);
        };
        used += len;
        add_end(&mut ends, used as u32, packed.len())?;
    }
    Ok(Some(ends))
}

/// The same, entry by entry: where some are not spelled as they are kept.
fn read_each(
    alloc: Global,
    packed: &[u8],
    depth: u8,
    more: usize,
) -> Result<Option<KeptEntries>, AllocError>
    requires shallow { depth ≤ 128 }
    requires fits { length packed.now < 2 ^ 32 }
    ensures { IfOk result (λ kept. kept ≡ packed_entries depth packed.now) }
{
    let limits = Limits {
        bytes: u32::MAX,
        depth,
    };
    let mut kept = KeptEntries::with_room(alloc, packed.len().saturating_add(more))?;
    let mut rest = packed;
    'entries: while !rest.is_empty() {
        let Cut::Whole(value, used) = cut(rest, limits) else {
            return Ok(None);
        };
        let Some(entry) = Entry::read(value) else {
            return Ok(None);
        };
        kept.push(entry)?;
        rest = &rest[used..];
    }
    Ok(Some(kept))
}

/// The entries that stand one after the other to the last byte, each at most so deep. Where all
/// are spelled as they are kept, their bytes are copied in one. Behind them is room for so many
/// bytes more.
pub(crate) fn read_packed(
    alloc: Global,
    packed: &[u8],
    depth: u8,
    more: usize,
) -> Result<Option<KeptEntries>, AllocError>
    requires shallow { depth ≤ 128 }
    requires fits { length packed.now < 2 ^ 32 }
    ensures { IfOk result (λ kept. kept ≡ packed_entries depth packed.now) }
{
    match ends_of_kept(alloc, packed, depth, &mut Shape::new())? {
        Some(ends) => {
            let bytes = copied(alloc, packed, more)?;
            Ok(Some(KeptEntries::of(bytes, ends)))
        }
        None => read_each(alloc, packed, depth, more),
    }
}
