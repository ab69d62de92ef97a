//! Requests of random entries: `entries COUNT`. Each of so many requests is written twice: with
//! entries that are spelled as they are kept, and with the same entries behind a longer head, which
//! are read one by one. It is printed whether some were good and some not, and how many of the two
//! were read otherwise.

use crate::next_number;
use fwd_modes::{Reading, read_request};
use fwd_msgpack::{Cut, Limits, cut};
use rand_chacha::ChaCha20Rng;
use rand_core::{Rng, SeedableRng};
use std::alloc::{AllocError, Global};
use std::env::Args;
use std::rt::Runtime;

/// Bytes to choose from.
type Texts = &'static [&'static [u8]];

/// Times, some of which are none.
const TIMES: Texts = &[
    b"\x01",
    b"\xce\x65\0\0\0",
    b"\xcf\0\0\0\0\x65\0\0\0",
    b"\xd3\xff\xff\xff\xff\xff\xff\xff\xfe",
    b"\xd7\0\0\0\0\x01\0\0\0\x02",
    b"\xd7\0\0\0\0\x01\xff\xff\xff\xff",
    b"\xc7\x08\0\0\0\0\x01\0\0\0\x02",
    b"\xff",
    b"\xd7\x01\0\0\0\x01\0\0\0\x02",
    b"\xd6\0\0\0\0\x01",
    b"\xa1\x01",
    b"\xc0",
    b"\xcb\0\0\0\0\0\0\0\0",
    b"\x90",
];

/// How many of the times stand in most entries.
const GOOD_TIMES: u32 = 8;

/// The keys of most maps, each at its place.
const KEYS: Texts = &[
    b"\xa3key",
    b"\xa1k",
    b"\xa0",
    b"\xbf0123456789012345678901234567890",
    b"\xa6method",
    b"\xa4path",
    b"\xa5level",
    b"\xa2id",
];

/// Keys that stand in some: other texts, one of 32 bytes, and what is no text.
const OTHER_KEYS: Texts = &[
    b"\xa4keys",
    b"\xd9\x0201",
    b"\xd9\x2001234567890123456789012345678901",
    b"\xda\0\x01k",
    b"\xc4\x01k",
    b"\x07",
    b"\xc0",
    b"\x91\x01",
];

/// Values: the first ones say their size in their first bytes, and the last ones are none.
const VALUES: Texts = &[
    b"\x07",
    b"\xa0",
    b"\xa5value",
    b"\xd9\x0501234",
    b"\xd9\0",
    b"\xc3",
    b"\xc0",
    b"\xcb\x40\0\0\0\0\0\0\0",
    b"\xcd\x01\0",
    b"\xd8\0\0\0\0\0\0\0\0\0\0\0\0\0\0\0\0\0",
    b"\xda\0\x02no",
    b"\xc4\x03bin",
    b"\x80",
    b"\x81\xa1k\x82\xa1k\x01\x02\x03",
    b"\x93\x01\x92\xa1k\x90\xc2",
    b"\x91\x91\x91\x91\x01",
    b"\xde\0\x01\xa1k\x01",
    b"\xc1",
    b"\xdf\xff\xff\xff\xff",
];

/// How many of the values are whole.
const GOOD_VALUES: u32 = 17;

/// The head of an entry as it is kept, and a longer one.
const HEADS: [&[u8]; 2] = [b"\x92", b"\xdc\0\x02"];

/// What was found.
#[derive(Clone, Copy, Default)]
struct Found {
    good: bool,
    bad: bool,
    otherwise: u64,
}

/// A number below another.
fn below(rng: &mut ChaCha20Rng, most: u32) -> u32 {
    rng.next_u32().checked_rem(most).unwrap_or(0)
}

/// The same, of a byte.
fn byte_below(rng: &mut ChaCha20Rng, most: u8) -> u8 {
    let [byte, _, _, _] = rng.next_u32().to_le_bytes();
    byte.checked_rem(most).unwrap_or(0)
}

/// How many there are, where 32 bits count them.
fn counted(len: usize) -> u32 {
    u32::try_from(len).unwrap_or(0)
}

/// Whether it happens that seldom.
fn happens(rng: &mut ChaCha20Rng, seldom: u32) -> bool {
    below(rng, seldom) == 0
}

/// One of the first so many texts.
fn one_of(rng: &mut ChaCha20Rng, texts: Texts, first: u32) -> &'static [u8] {
    texts
        .get(below(rng, first) as usize)
        .copied()
        .unwrap_or(b"")
}

/// One of the texts, seldom one behind the first so many.
fn mostly(rng: &mut ChaCha20Rng, texts: Texts, first: u32) -> &'static [u8] {
    if happens(rng, 200) {
        return one_of(rng, texts, counted(texts.len()));
    }
    one_of(rng, texts, first)
}

/// The key at a place, seldom another one.
fn key_at(rng: &mut ChaCha20Rng, place: u32) -> &'static [u8] {
    if happens(rng, 40) {
        return one_of(rng, OTHER_KEYS, 8);
    }
    KEYS.get((place % 8) as usize).copied().unwrap_or(b"")
}

/// A map of so many pairs, seldom with one behind it.
fn add_fields(rng: &mut ChaCha20Rng, bytes: &mut Vec<u8>, pairs: u8) -> Result<(), AllocError> {
    if pairs < 16 {
        bytes.push(0x80 | pairs)?;
    } else {
        bytes.extend_from_slice(&[0xde, 0, pairs])?;
    }
    let more = u32::from(happens(rng, 400));
    for place in 0..u32::from(pairs).saturating_add(more) {
        bytes.extend_from_slice(key_at(rng, place))?;
        bytes.extend_from_slice(mostly(rng, VALUES, GOOD_VALUES))?;
    }
    Ok(())
}

/// The time and the fields of an entry: of as many pairs as most have, or of any number.
fn add_entry(rng: &mut ChaCha20Rng, bytes: &mut Vec<u8>, usual: u8) -> Result<(), AllocError> {
    bytes.extend_from_slice(mostly(rng, TIMES, GOOD_TIMES))?;
    if happens(rng, 500) {
        return bytes.extend_from_slice(one_of(rng, VALUES, GOOD_VALUES));
    }
    let pairs = if happens(rng, 10) {
        byte_below(rng, 20)
    } else {
        usual
    };
    add_fields(rng, bytes, pairs)
}

/// Cuts the last entry off anywhere.
fn cut_last(rng: &mut ChaCha20Rng, entries: &mut Vec<Vec<u8>>) {
    if let Some(last) = entries.last_mut() {
        last.truncate(below(rng, counted(last.len())) as usize);
    }
}

/// Puts entries, each behind this head, into a request: in a bin, or in an array.
fn request_of(
    alloc: Global,
    entries: &[Vec<u8>],
    head: &[u8],
    packed: bool,
) -> Result<Vec<u8>, AllocError> {
    let mut all = Vec::new(alloc);
    for entry in entries {
        all.extend_from_slice(head)?;
        all.extend_from_slice(entry)?;
    }
    let (kind, count) = if packed {
        (0xc6, all.len())
    } else {
        (0xdd, entries.len())
    };
    let mut request = Vec::from_slice(alloc, &[0x92, 0xa1, b'a', kind])?;
    request.extend_from_slice(&counted(count).to_be_bytes())?;
    request.extend_from_slice(&all)?;
    Ok(request)
}

/// What a request is read as.
fn reading_of(alloc: Global, request: &[u8], depth: u8) -> Result<Option<Reading>, AllocError> {
    let limits = Limits {
        bytes: 16_777_216,
        depth: depth.min(64),
    };
    match cut(request, limits) {
        Cut::Whole(value, _) => Ok(Some(read_request(alloc, value, limits)?)),
        _ => Ok(None),
    }
}

/// Takes note of what the two spellings were read as.
fn compare(kept: &Option<Reading>, longer: &Option<Reading>, found: &mut Found) {
    let same = match (kept, longer) {
        (Some(Reading::Asks(one)), Some(Reading::Asks(other))) => {
            found.good = true;
            one.is(other)
        }
        (Some(Reading::Fails(one)), Some(Reading::Fails(other))) => {
            found.bad = true;
            *one as u8 == *other as u8
        }
        (None, None) => true,
        _ => false,
    };
    if !same {
        found.otherwise = found.otherwise.saturating_add(1);
    }
}

/// Writes and reads a request of up to 30 entries in both spellings.
fn judge_one(alloc: Global, rng: &mut ChaCha20Rng, found: &mut Found) -> Result<(), AllocError> {
    let mut entries = Vec::new(alloc);
    let usual = byte_below(rng, 16);
    for _ in 0..below(rng, 30) {
        let mut entry = Vec::new(alloc);
        add_entry(rng, &mut entry, usual)?;
        entries.push(entry)?;
    }
    if happens(rng, 20) {
        cut_last(rng, &mut entries);
    }
    let packed = happens(rng, 2);
    let depth = byte_below(rng, 8).saturating_add(2);
    let kept = request_of(alloc, &entries, HEADS[0], packed)?;
    let longer = request_of(alloc, &entries, HEADS[1], packed)?;
    let kept = reading_of(alloc, &kept, depth)?;
    let longer = reading_of(alloc, &longer, depth)?;
    compare(&kept, &longer, found);
    Ok(())
}

/// Reads as many requests as the next word says.
pub fn count<R: Runtime + AllocGlobal>(rt: &R, words: &mut Args) -> Option<()> {
    let requests = next_number(words)?;
    let mut rng = ChaCha20Rng::from_seed([71; 32]);
    let mut found = Found::default();
    for _ in 0..requests {
        judge_one(rt.alloc(), &mut rng, &mut found).ok()?;
    }
    let Found {
        good,
        bad,
        otherwise,
    } = found;
    let _ = println!(rt; "{requests} requests, good: {good}, bad: {bad}, {otherwise} otherwise");
    Some(())
}
