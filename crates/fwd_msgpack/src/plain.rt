//! Items whose size stands in their first byte or two, read without their heads.

ghost use Rattle.std.specs.Prelude.{◌≡◌, ◌≤◌, ◌<◌, ◌+◌, ◌∷◌, List, ℕ, length, drop, Some, IfSome};
ghost use Rattle.fwd_msgpack.specs.Heads.{reading_of};
ghost use Rattle.fwd_msgpack.specs.Plain.{plain_len, AreMembers, IsSmallOpening};

use crate::head::u8_at;

/// How many bytes an item takes, by its first byte, where that says it: a nil, a
/// bool, a number, a text of up to 31 bytes, or an extension of a fixed length.
/// Otherwise 0, which is never wrong: the item's head is then read. The table is
/// a constant, which the proof sees, and which the compiler keeps as 256 bytes.
const SIZES: [u8; 256] = [
    // 00 to 7f: numbers from 0 to 127
    1, 1, 1, 1, 1, 1, 1, 1, 1, 1, 1, 1, 1, 1, 1, 1, 1, 1, 1, 1, 1, 1, 1, 1, 1, 1, 1, 1, 1, 1, 1, 1,
    1, 1, 1, 1, 1, 1, 1, 1, 1, 1, 1, 1, 1, 1, 1, 1, 1, 1, 1, 1, 1, 1, 1, 1, 1, 1, 1, 1, 1, 1, 1, 1,
    1, 1, 1, 1, 1, 1, 1, 1, 1, 1, 1, 1, 1, 1, 1, 1, 1, 1, 1, 1, 1, 1, 1, 1, 1, 1, 1, 1, 1, 1, 1, 1,
    1, 1, 1, 1, 1, 1, 1, 1, 1, 1, 1, 1, 1, 1, 1, 1, 1, 1, 1, 1, 1, 1, 1, 1, 1, 1, 1, 1, 1, 1, 1, 1,
    // 80 to 9f: maps and arrays
    0, 0, 0, 0, 0, 0, 0, 0, 0, 0, 0, 0, 0, 0, 0, 0, 0, 0, 0, 0, 0, 0, 0, 0, 0, 0, 0, 0, 0, 0, 0, 0,
    // a0 to af: texts of up to 15 bytes
    1, 2, 3, 4, 5, 6, 7, 8, 9, 10, 11, 12, 13, 14, 15, 16,
    // b0 to bf: texts of 16 to 31 bytes
    17, 18, 19, 20, 21, 22, 23, 24, 25, 26, 27, 28, 29, 30, 31, 32,
    // c0 to c3: nil, no item at all, false and true
    1, 0, 1, 1,
    // c4 to c9: bins, and extensions of any length
    0, 0, 0, 0, 0, 0,
    // ca to d3: floats and other numbers
    5, 9, 2, 3, 5, 9, 2, 3, 5, 9,
    // d4 to d8: extensions of a fixed length
    3, 4, 6, 10, 18,
    // d9 to df: longer texts, arrays and maps
    0, 0, 0, 0, 0, 0, 0,
    // e0 to ff: numbers from -32 to -1
    1, 1, 1, 1, 1, 1, 1, 1, 1, 1, 1, 1, 1, 1, 1, 1, 1, 1, 1, 1, 1, 1, 1, 1, 1, 1, 1, 1, 1, 1, 1, 1,
];

/// How many bytes the item behind the first `at` takes, where its first byte
/// says it, or the second, of a text of up to 255 bytes. A text's size is
/// computed, though that of a short one stands in the table too: that takes
/// less time than to look it up.
#[inline(always)]
pub fn plain_size(bytes: &[u8], at: usize) -> Option<usize>
    requires { at < length bytes.now }
    ensures plain { IfSome result (λ size. at + size ≤ length bytes.now
        → plain_len (reading_of (drop at bytes.now)) ≡ Some size) }
    ensures some { IfSome result (λ size. 0 < size) }
    ensures small { IfSome result (λ size. size < 258) }
{
    let first = bytes[at];
    if matches!(first, 0xa0..=0xbf) {
        return Some(usize::from(first) - 0x9f);
    }
    if first == 0xd9 {
        let len = u8_at(&bytes[at + 1..])?;
        return Some(usize::from(len) + 2);
    }
    match SIZES[usize::from(first)] {
        0 => None,
        size => Some(usize::from(size)),
    }
}

/// How many bytes the item at the front takes, where its
/// first bytes say it, and it has at most `room` bytes.
#[inline(always)]
pub fn plain_item(bytes: &[u8], room: usize) -> Option<usize>
    requires { room ≤ length bytes.now }
    ensures plain { IfSome result (λ size. plain_len (reading_of bytes.now) ≡ Some size) }
    ensures some { IfSome result (λ size. 0 < size) }
    ensures fits { IfSome result (λ size. size ≤ room) }
{
    if bytes.is_empty() {
        return None;
    }
    let size = plain_size(bytes, 0)?;
    if size <= room { Some(size) } else { None }
}

/// Goes over the items at the front whose first bytes say their sizes and that have bytes behind
/// them, at most so many. How many they are, and how many bytes they take. For each item one
/// comparison says both that it lies within the bytes and that another one follows.
#[inline(always)]
pub fn plain_items(bytes: &[u8], most: u32) -> (u32, usize)
    ensures members { AreMembers bytes.now result.0 result.1 }
    ensures most { result.0 ≤ most }
    ensures none { result.0 ≡ 0 → result.1 ≡ 0 }
    ensures fits { result.1 ≤ length bytes.now }
{
    if bytes.is_empty() {
        return (0, 0);
    }
    let mut left = most;
    let mut used = 0;
    while left > 0 {
        let Some(size) = plain_size(bytes, used) else {
            break;
        };
        let next = used + size;
        if next >= bytes.len() {
            break;
        }
        used = next;
        left -= 1;
    }
    (most - left, used)
}

/// How many members a container has whose head is this byte alone: none
/// where it is no such head, or that of a container with no members.
#[inline(always)]
#[tactic(auto, using(crate::proofs::Sizes::map_told, crate::proofs::Sizes::array_told))]
pub fn small_members(first: u8) -> u32
    ensures opens { 0 < result
        → (rest : List ℕ) → IsSmallOpening (reading_of (first ∷ rest)) result }
    ensures small { result ≤ 30 }
{
    match first {
        0x81..=0x8f => 2 * u32::from(first - 0x80),
        0x91..=0x9f => u32::from(first - 0x90),
        _ => 0,
    }
}
