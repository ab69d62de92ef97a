//! Sources of large requests, of random bytes, and of requests whose answers they do not read.

use crate::peer_connection::PeerConnection;
use anyhow::{Result, anyhow};
use std::alloc::Global;
use std::io::{Read, Write};
use std::time::Duration;

/// A Message under the tag `a` that asks to be acknowledged as `y`: its front, whose record has a
/// bin of so many bytes, and its back.
const FRONT: &[u8] = b"\x94\xa1a\x02\x81\xa1k\xc6\x00\x7a\x12\x00";

const SIZE: usize = 8_000_000;

const BACK: &[u8] = b"\x81\xa5chunk\xa1y";

/// How many bytes are sent of the bin at a time.
const PIECE: usize = 8_000;

/// How many random bytes a source sends.
const BYTES: usize = 4_096;

/// A generator's factor and summand (D. Knuth's for 64 bits).
const FACTOR: u64 = 6_364_136_223_846_793_005;

const SUMMAND: u64 = 1_442_695_040_888_963_407;

/// How long a write waits before a source takes it that it is not read, in milliseconds.
const PATIENCE: u64 = 1_000;

/// A request of no entries that asks to be acknowledged by a str of 256 bytes: its front.
const ASKING: &[u8] = b"\x93\xa1a\x90\x81\xa5chunk\xda\x01\x00";

const NAME: [u8; 256] = [b'x'; 256];

/// How many bytes such a request has, and its acknowledgement.
const REQUEST: usize = 270;

const ACKED: usize = 264;

/// How many such requests are sent at a time, and the most writes.
const REQUESTS: usize = 256;

const WRITES: u32 = 1_000;

/// A source sends the large request.
pub fn send_large(source: &PeerConnection) -> Result<()> {
    source.send(FRONT)?;
    let piece = [b'z'; PIECE];
    for _ in 0..SIZE / PIECE {
        source.send(&piece)?;
    }
    source.send(BACK)
}

/// Random bytes.
pub fn random_bytes(seed: u64) -> [u8; BYTES] {
    let mut bytes = [0; BYTES];
    let mut state = seed;
    for byte in &mut bytes {
        state = state.wrapping_mul(FACTOR).wrapping_add(SUMMAND);
        *byte = state.to_be_bytes()[0];
    }
    bytes
}

/// Requests that ask to be told.
fn asking(alloc: Global) -> Result<Vec<u8>> {
    let mut all = Vec::new(alloc);
    for _ in 0..REQUESTS {
        all.extend_from_slice(ASKING)?;
        all.extend_from_slice(&NAME)?;
    }
    Ok(all)
}

/// A source sends requests and reads nothing: how many bytes it sent until the relay took no more.
/// A source that does not take what it is told is not read, so that no more than 65,536 bytes and
/// what is told of the requests that were read before are kept for it.
pub fn flood(alloc: Global, source: &PeerConnection) -> Result<usize> {
    let mut writer = &source.stream;
    writer.set_write_timeout(Some(Duration::from_millis(PATIENCE)))?;
    let requests = asking(alloc)?;
    let mut sent = 0_usize;
    for _ in 0..WRITES {
        let from = sent % (REQUEST * REQUESTS);
        match writer.write(requests.get(from..).unwrap_or(&[])) {
            Ok(count) => sent = sent.saturating_add(count),
            Err(_) => return Ok(sent),
        }
    }
    Err(anyhow!("the relay takes all"))
}

/// Whether a source that begins to read is told of all its requests. It sent so many bytes of them.
pub fn is_drained(source: &PeerConnection, sent: usize) -> Result<bool> {
    let due = sent / REQUEST * ACKED;
    let mut told = 0_usize;
    let mut room = [0; 16_384];
    let mut reader = &source.stream;
    for _ in 0..due {
        if told >= due {
            break;
        }
        told = told.saturating_add(reader.read(&mut room)?);
    }
    Ok(told == due)
}
