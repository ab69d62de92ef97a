//! Options as most sources write them, known by their bytes: a short `chunk`, alone or beside
//! `size`.

ghost use Rattle.std.specs.Prelude.{◌≡◌, ◌++◌, true, length, IfSome};
ghost use Rattle.fwd_msgpack.specs.Scans.{Whole, first_of, most_bytes, most_deep};
ghost use Rattle.fwd_msgpack.specs.Values.{bytes_of};
ghost use Rattle.fwd_modes.specs.ShortOptions.{
  HasChunk,
  IsChunkAlone,
  IsChunkBehindSize,
  IsChunkBeforeSize,
  IsShortText,
};

use crate::limits::CHUNK_LIMIT;
use fwd_msgpack::{Cut, Limits, Value, cut};

/// The bytes behind a key, if the pairs begin with it.
#[inline(always)]
fn behind<'a>(pairs: &'a [u8], key: &[u8]) -> Option<&'a [u8]>
    ensures { IfSome result (λ rest. pairs.entry.now ≡ key.now ++ rest.now) }
{
    if pairs.len() < key.len() {
        return None;
    }
    let (front, rest) = pairs.split_at(key.len());
    if front == key { Some(rest) } else { None }
}

/// The value at the front, and what is behind it.
#[inline(always)]
fn first_value(row: &[u8]) -> Option<(&[u8], &[u8])>
    ensures parts { IfSome result (λ r. row.entry.now ≡ r.0.now ++ r.1.now) }
    ensures first { IfSome result (λ r.
        first_of most_bytes most_deep row.entry.now ≡ Whole (length r.0.now)) }
{
    let Cut::Whole(value, len) = cut(row, Limits::WIDEST) else {
        return None;
    };
    Some((value.bytes(), &row[len..]))
}

/// Whether a value is a str whose head is one byte.
#[inline(always)]
fn is_short(value: &[u8]) -> bool
    ensures { result ≡ true → IsShortText value.now }
{
    let Some((first, _)) = value.split_first() else {
        return false;
    };
    matches!(*first, 0xa0..=0xbf) && value.len() <= CHUNK_LIMIT
}

/// The chunk, where the one pair is that.
#[inline(always)]
fn chunk_alone(pairs: &[u8]) -> Option<&[u8]>
    ensures { IfSome result (λ chunk. IsChunkAlone pairs.entry.now chunk.now) }
{
    let chunk = behind(pairs, b"\xa5chunk")?;
    if is_short(chunk) { Some(chunk) } else { None }
}

/// The chunk, where it stands behind the size.
#[inline(always)]
fn chunk_behind_size(pairs: &[u8]) -> Option<&[u8]>
    ensures { IfSome result (λ chunk. IsChunkBehindSize pairs.entry.now chunk.now) }
{
    let (_, rest) = first_value(behind(pairs, b"\xa4size")?)?;
    let chunk = behind(rest, b"\xa5chunk")?;
    if is_short(chunk) { Some(chunk) } else { None }
}

/// The chunk, where it stands before the size.
#[inline(always)]
fn chunk_before_size(pairs: &[u8]) -> Option<&[u8]>
    ensures { IfSome result (λ chunk. IsChunkBeforeSize pairs.entry.now chunk.now) }
{
    let (chunk, rest) = first_value(behind(pairs, b"\xa5chunk")?)?;
    behind(rest, b"\xa4size")?;
    if is_short(chunk) { Some(chunk) } else { None }
}

/// The chunk of an option that has it alone or beside a size, and whose chunk is a str of up to 31
/// bytes. Otherwise nothing, which is never wrong.
pub(crate) fn short_chunk(option: Value<'_>) -> Option<&[u8]>
    ensures { IfSome result (λ chunk. HasChunk (bytes_of option.entry) chunk.now) }
{
    let (head, pairs) = option.bytes().split_first()?;
    match *head {
        0x81 => chunk_alone(pairs),
        0x82 => match chunk_behind_size(pairs) {
            Some(chunk) => Some(chunk),
            None => chunk_before_size(pairs),
        },
        _ => None,
    }
}
