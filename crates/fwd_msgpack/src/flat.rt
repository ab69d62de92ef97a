//! A small map with short keys, as most records are, and an array of two whose second value is one,
//! as most entries are: read in one walk. What this walk does not know it leaves to `cut`.

ghost use Rattle.std.specs.Prelude.{◌≡◌, ◌≤◌, ◌<◌, ◌+◌, ◌-◌, ◌*◌, ◌^◌, IfSome, length, take, drop};
ghost use Rattle.fwd_msgpack.specs.Flat.{AreInARow, BeginsWithMap, BeginsWithPair};
ghost use Rattle.fwd_msgpack.specs.Values.{IsValue, bytes_of};

use crate::limits::Limits;
use crate::plain::plain_size;
use crate::scan::{Extent, extent_of};
use crate::value::Value;

/// The most pairs of a map whose head is one byte.
const MOST_PAIRS: usize = 15;

/// How many keys that were not guessed are borne, where none are guessed in between.
const PATIENCE: u8 = 64;

/// What a value costs of it that is no such array.
const COST: u8 = 16;

/// A text of up to 31 bytes: its first byte, and how many bytes it takes. The size is stored beside
/// the byte: if it were computed from it, the place of the next value would wait for the byte
/// again.
#[derive(Clone, Copy)]
struct ShortText {
    head: u8,
    size: u8,
    ghost low: { 0xa0 ≤ head },
    ghost high: { head < 0xc0 },
    ghost is: { size ≡ head - 0x9f },
}

impl ShortText {
    ghost use Rattle.std.specs.Prelude.{◌≡◌, ◌-◌, ◌≤◌, ◌<◌, IfSome};

    /// The text that begins with this byte, if it is one.
    fn new(head: u8) -> Option<ShortText>
        ensures { IfSome result (λ text. text.head ≡ head) }
    {
        if !matches!(head, 0xa0..=0xbf) {
            return None;
        }
        Some(ShortText {
            head,
            size: head - 0x9f,
        })
    }
}

/// What the keys of the maps before began with, each at its place: a guess at those of the next
/// map. A key's size is then known before its first byte is there. Whatever was guessed, the
/// answers are the same. Where keys differ from map to map, guessing is soon given up, until it is
/// renewed for the next request.
#[derive(Drop)]
pub struct Shape {
    keys: [ShortText; MOST_PAIRS],
    patience: u8,
}

impl Shape {
    /// A guess at nothing: that all keys are empty.
    pub fn new() -> Self {
        Shape {
            keys: [ShortText {
                head: 0xa0,
                size: 1,
            }; MOST_PAIRS],
            patience: PATIENCE,
        }
    }

    /// Guesses again, if that was given up.
    #[inline(always)]
    pub fn renew(&mut self) {
        self.patience = PATIENCE;
    }

    /// How many bytes the key at a place takes, by its first byte, if it is a text of up to 31
    /// bytes.
    #[inline(always)]
    fn key_size(&mut self, place: usize, first: u8) -> Option<usize>
        requires { place < MOST_PAIRS }
        ensures { IfSome result (λ size. (0xa0 ≤ first) × (first < 0xc0) × (size ≡ first - 0x9f)) }
    {
        let guess = self.keys[place];
        if first == guess.head {
            return Some(usize::from(guess.size));
        }
        self.learn(place, first)
    }

    /// The same, where it is not as guessed. It is the next guess.
    fn learn(&mut self, place: usize, first: u8) -> Option<usize>
        requires { place < MOST_PAIRS }
        ensures { IfSome result (λ size. (0xa0 ≤ first) × (first < 0xc0) × (size ≡ first - 0x9f)) }
    {
        let key = ShortText::new(first)?;
        self.keys[place] = key;
        self.patience = self.patience.saturating_sub(1);
        Some(usize::from(key.size))
    }

    /// Takes note of a walk before which there was so much patience: whether it came to its end.
    fn judge(&mut self, before: u8, ended: bool) {
        if !ended {
            self.patience = self.patience.saturating_sub(COST);
        } else if self.patience == before {
            self.patience = PATIENCE;
        }
    }
}

/// An array of two at the front of some bytes, whose second value is a map.
#[derive(Clone, Copy)]
pub struct FlatPair<'a> {
    /// The first value: an item that opens nothing.
    pub first: Value<'a>,
    /// How many bytes the array takes.
    pub len: usize,
}

/// How many bytes the value at the front takes, if it is whole.
#[inline(never)]
fn whole_len(bytes: &[u8], limits: Limits) -> Option<usize>
    ensures value { IfSome result (λ len. IsValue limits.depth (take len bytes.now)) }
    ensures within { IfSome result (λ len. len ≤ length bytes.now) }
{
    match extent_of(bytes, limits) {
        Extent::Whole(len) => Some(len),
        Extent::Short | Extent::Bad(_) => None,
    }
}

/// How many bytes the value behind the first `at` takes. Where its first bytes say that, they may
/// not all be there.
#[inline(always)]
fn value_len(bytes: &[u8], at: usize, limits: Limits) -> Option<usize>
    requires { at < length bytes.now }
    ensures value { IfSome result (λ len. at + len ≤ length bytes.now
        → IsValue limits.depth (take len (drop at bytes.now))) }
    ensures near { IfSome result (λ len. at + len < length bytes.now + 258) }
{
    match plain_size(bytes, at) {
        Some(len) => Some(len),
        None => whole_len(&bytes[at..], limits),
    }
}

/// Where so many pairs end that begin at a place, each a text of up to 31 bytes and a value within
/// the limits.
#[inline(always)]
fn pairs_end(
    bytes: &[u8],
    from: usize,
    pairs: usize,
    limits: Limits,
    shape: &mut Shape,
) -> Option<usize>
    requires inside { from ≤ length bytes.now }
    requires few { pairs ≤ MOST_PAIRS }
    ensures row { IfSome result (λ end. AreInARow limits.depth (2 * pairs) bytes.now from end) }
    ensures inside { IfSome result (λ end. end ≤ length bytes.now) }
{
    let mut used = from;
    for place in 0..pairs {
        if used >= bytes.len() {
            return None;
        }
        let value = used + shape.key_size(place, bytes[used])?;
        if value >= bytes.len() {
            return None;
        }
        used = value + value_len(bytes, value, limits)?;
    }
    if used <= bytes.len() {
        Some(used)
    } else {
        None
    }
}

/// How many pairs a map has, by its first byte, if that is its head.
#[inline(always)]
fn small_pairs(first: u8) -> Option<usize>
    ensures few { IfSome result (λ pairs. pairs ≤ MOST_PAIRS) }
    ensures same { IfSome result (λ pairs. first ≡ 0x80 + pairs) }
{
    match first {
        0x80..=0x8f => Some(usize::from(first - 0x80)),
        _ => None,
    }
}

/// The same as `flat_pair`, whatever was learnt of the shape.
#[inline(always)]
fn read_pair<'a>(bytes: &'a [u8], limits: Limits, shape: &mut Shape) -> Option<FlatPair<'a>>
    requires { 2 ≤ limits.depth }
    ensures { IfSome result (λ pair.
        BeginsWithPair limits.bytes limits.depth bytes.now (bytes_of pair.first) pair.len) }
{
    if bytes.len() < 2 || bytes[0] != 0x92 {
        return None;
    }
    let at = 1 + plain_size(bytes, 1)?;
    if at >= bytes.len() {
        return None;
    }
    let pairs = small_pairs(bytes[at])?;
    let inner = Limits {
        bytes: limits.bytes,
        depth: limits.depth - 2,
    };
    let len = pairs_end(bytes, at + 1, pairs, inner, shape)?;
    if len > limits.bytes as usize {
        return None;
    }
    let first = Value {
        bytes: &bytes[1..at],
    };
    Some(FlatPair { first, len })
}

/// The array at the front of some bytes, where it is `92`, an item that says its size in its first
/// bytes, and a map of up to 15 pairs whose keys are texts of up to 31 bytes. Otherwise nothing,
/// which is never wrong, also where too few of the keys were as guessed.
#[inline(always)]
pub fn flat_pair<'a>(bytes: &'a [u8], limits: Limits, shape: &mut Shape) -> Option<FlatPair<'a>>
    ensures { IfSome result (λ pair.
        BeginsWithPair limits.bytes limits.depth bytes.now (bytes_of pair.first) pair.len) }
{
    if limits.depth < 2 || shape.patience == 0 {
        return None;
    }
    let before = shape.patience;
    let found = read_pair(bytes, limits, shape);
    shape.judge(before, found.is_some());
    found
}

/// The same as `flat_map`, whatever was learnt of the shape.
#[inline(always)]
fn read_map(bytes: &[u8], limits: Limits, shape: &mut Shape) -> Option<usize>
    requires { 1 ≤ limits.depth }
    ensures { IfSome result (λ len. BeginsWithMap limits.depth bytes.now len) }
{
    if bytes.is_empty() {
        return None;
    }
    let pairs = small_pairs(bytes[0])?;
    let inner = Limits {
        bytes: limits.bytes,
        depth: limits.depth - 1,
    };
    let end = pairs_end(bytes, 1, pairs, inner, shape)?;
    Some(end)
}

/// How many bytes the map at the front of some bytes takes, where it has up to 15 pairs whose keys
/// are texts of up to 31 bytes. Otherwise nothing, which is never wrong, also where too few of the
/// keys were as guessed. The limit of bytes is not looked at.
#[inline(always)]
pub fn flat_map(bytes: &[u8], limits: Limits, shape: &mut Shape) -> Option<usize>
    ensures { IfSome result (λ len. BeginsWithMap limits.depth bytes.now len) }
{
    if limits.depth == 0 || shape.patience == 0 {
        return None;
    }
    let before = shape.patience;
    let found = read_map(bytes, limits, shape);
    shape.judge(before, found.is_some());
    found
}
