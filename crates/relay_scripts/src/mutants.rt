//! Requests of which a few bytes are changed: `mutants COUNT`. Of so many strings of bytes,
//! under small limits, it is printed whether some are heard as a request and some as each kind of
//! fault, and how many are judged otherwise: by a connection, which feeds its scanner, whole and in
//! pieces, than by the requests that the values are which `cut` cuts.

use crate::next_number;
use crate::pieces::{NONCES, security};
use fwd_modes::{Reading, read_request};
use fwd_msgpack::{Cut, Limits, Value, cut};
use fwd_source::{Piece, Source};
use rand_chacha::ChaCha20Rng;
use rand_core::{Rng, SeedableRng};
use std::alloc::{AllocError, Global};
use std::env::Args;
use std::rt::Runtime;

/// Requests of each mode, with and without an option, one that is compressed, and two in a row.
const GOOD: &[&[u8]] = &[
    b"\x93\xa1a\x01\x80",
    b"\x94\xa1a\x01\x80\x81\xa5chunk\xa1x",
    b"\x94\xa1a\xd7\x00\0\0\0\x01\0\0\0\x02\x81\xa1k\x91\xcb\0\0\0\0\0\0\0\0\xc0",
    b"\x93\xa1a\x92\x92\x01\x80\x92\xcc\x80\x81\xa1k\xc3\x82\xa4size\x02\xa5chunk\xc4\x01x",
    b"\x92\xc4\x01a\x91\x92\xc7\x08\0\0\0\0\x01\0\0\0\x02\x80",
    b"\x93\xa1a\xc4\x06\x92\x01\x80\x92\xff\x80\x81\xaacompressed\xa4gzip",
    b"\x92\xa1a\xa3\x92\x01\x80",
    b"\xc0\x93\xa1a\x01\x80\x93\xa1b\xcd\x01\0\xde\0\x01\xa1k\x90",
];

/// The greatest limits.
const BYTES: u32 = 80;

const DEPTH: u32 = 6;

/// What bytes are heard as.
#[derive(Clone, Copy, Default, PartialEq, Eq)]
struct Heard {
    requests: usize,
    /// The number of the fault behind them, or 0.
    fault: u8,
}

/// How many strings there were, by the fault that they are heard with, and how many were judged
/// otherwise.
#[derive(Clone, Copy, Default)]
struct Tally {
    faults: [bool; 9],
    otherwise: u64,
}

/// A number below another.
fn below(rng: &mut ChaCha20Rng, most: u32) -> u32 {
    rng.next_u32().checked_rem(most).unwrap_or(0)
}

/// A place in the bytes, if they have any.
fn place(rng: &mut ChaCha20Rng, bytes: &Vec<u8>) -> usize {
    below(rng, u32::try_from(bytes.len()).unwrap_or(0)) as usize
}

/// A bit is flipped, the rest is cut off, the rest is there twice, or two bytes are swapped.
fn change(alloc: Global, rng: &mut ChaCha20Rng, bytes: &mut Vec<u8>) -> Result<(), AllocError> {
    let from = place(rng, bytes);
    let to = place(rng, bytes);
    match below(rng, 4) {
        0 => {
            if let Some(byte) = bytes.get_mut(from) {
                *byte ^= [1, 2, 4, 8, 16, 32, 64, 128][to % 8];
            }
        }
        1 => bytes.truncate(from),
        2 => {
            let rest = Vec::from_slice(alloc, bytes.get(from..).unwrap_or(&[]))?;
            bytes.extend_from_slice(&rest)?;
        }
        _ => {
            if from < bytes.len() && to < bytes.len() {
                bytes.swap(from, to);
            }
        }
    }
    Ok(())
}

/// A request that is changed up to three times.
fn mutant(alloc: Global, rng: &mut ChaCha20Rng) -> Result<Vec<u8>, AllocError> {
    let good = GOOD.get(below(rng, 8) as usize).copied().unwrap_or(b"");
    let mut bytes = Vec::from_slice(alloc, good)?;
    for _ in 0..below(rng, 4) {
        change(alloc, rng, &mut bytes)?;
    }
    Ok(bytes)
}

/// Random limits, the greatest ones in half of the cases.
fn random_limits(rng: &mut ChaCha20Rng) -> Limits {
    if below(rng, 2) == 0 {
        return Limits {
            bytes: BYTES,
            depth: DEPTH as u8,
        };
    }
    let bytes = below(rng, BYTES);
    let depth = below(rng, DEPTH).min(DEPTH) as u8;
    Limits { bytes, depth }
}

/// Hears one value as a request: whether no fault came.
fn hear_value(
    alloc: Global,
    value: Value<'_>,
    limits: Limits,
    heard: &mut Heard,
) -> Result<bool, AllocError> {
    match read_request(alloc, value, limits)? {
        Reading::Heartbeat => {}
        Reading::Asks(_) => heard.requests = heard.requests.saturating_add(1),
        Reading::Fails(fault) => heard.fault = fault as u8,
    }
    Ok(heard.fault == 0)
}

/// What bytes are heard as, value by value.
fn heard_by_values(alloc: Global, bytes: &[u8], limits: Limits) -> Result<Heard, AllocError> {
    let mut heard = Heard::default();
    let mut rest = bytes;
    while let Cut::Whole(value, used) = cut(rest, limits) {
        if !hear_value(alloc, value, limits, &mut heard)? {
            return Ok(heard);
        }
        rest = &rest[used..];
    }
    if let Cut::Bad(fault) = cut(rest, limits) {
        heard.fault = fault as u8;
    }
    Ok(heard)
}

/// What a connection hears the bytes as, in pieces of at most so many.
fn heard_in_pieces(
    alloc: Global,
    bytes: &[u8],
    limits: Limits,
    size: usize,
) -> Result<Heard, AllocError> {
    let mut source = Source::new(alloc, 1, security(alloc)?, NONCES, limits)?;
    let mut heard = Heard::default();
    for piece in bytes.chunks(size.max(1)) {
        if let Piece::Fault(fault) = source.piece(alloc, piece)?.piece {
            heard.fault = fault.number();
        }
    }
    heard.requests = source.waiting();
    Ok(heard)
}

/// Judges a mutant in each way.
fn judge_one(alloc: Global, rng: &mut ChaCha20Rng, tally: &mut Tally) -> Result<(), AllocError> {
    let bytes = mutant(alloc, rng)?;
    let limits = random_limits(rng);
    let heard = heard_by_values(alloc, &bytes, limits)?;
    for size in [bytes.len(), below(rng, 8) as usize] {
        if heard_in_pieces(alloc, &bytes, limits, size)? != heard {
            tally.otherwise = tally.otherwise.saturating_add(1);
        }
    }
    if let Some(met) = tally.faults.get_mut(heard.fault as usize) {
        *met = true;
    }
    Ok(())
}

/// Judges as many mutants as the next word says.
pub fn count<R: Runtime + AllocGlobal>(rt: &R, words: &mut Args) -> Option<()> {
    let mutants = next_number(words)?;
    let mut rng = ChaCha20Rng::from_seed([55; 32]);
    let mut tally = Tally::default();
    for _ in 0..mutants {
        judge_one(rt.alloc(), &mut rng, &mut tally).ok()?;
    }
    let all = tally.faults == [true; 9];
    let otherwise = tally.otherwise;
    let _ = println!(rt; "{mutants} mutants, each fault: {all}, {otherwise} judged otherwise");
    Some(())
}
