//! The loops over a stream in pieces, which are measured.

ghost use Rattle.std.specs.Prelude.{◌≡◌, None};
ghost use Rattle.fwd_msgpack.specs.Scans.{verdict_of, whole_len};

use crate::values::{Found, LIMITS};
use fwd_base::{Bytes, Seq};
use fwd_handshake::{Nonces, Security};
use fwd_msgpack::{Fed, Scanner};
use fwd_source::Source;
use std::alloc::{AllocError, Global};
use std::sync::Arc;

/// What a connection without a handshake has no use for.
pub const NONCES: Nonces = Nonces {
    nonce: [0; 16],
    auth: [0; 16],
};

/// Feeds a piece, and the scanner anew behind each value: how many values end in it.
fn feed_piece(scanner: &mut Scanner, piece: &[u8]) -> u64
    requires { whole_len (verdict_of scanner.old.state) ≡ None }
    ensures { whole_len (verdict_of scanner.new.state) ≡ None }
{
    let mut values: u64 = 0;
    let mut rest = piece;
    'values: while !rest.is_empty() {
        let Fed::End(used) = scanner.feed(rest) else {
            break;
        };
        scanner.restart();
        values = values.saturating_add(1);
        rest = &rest[used..];
    }
    values
}

/// Feeds a scanner the stream in pieces of so many bytes: how many values it has.
#[inline(never)]
pub fn feed_pieces(stream: &[u8], size: usize) -> Found {
    let mut found = Found::default();
    let mut scanner = Scanner::new(LIMITS);
    let mut rest = stream;
    'pieces: while !rest.is_empty() {
        let (piece, behind) = rest.split_at(size.clamp(1, rest.len()));
        found.values = found.values.saturating_add(feed_piece(&mut scanner, piece));
        rest = behind;
    }
    found
}

/// The side of a relay without a shared key.
pub fn security(alloc: Global) -> Result<Arc<Security>, AllocError> {
    let security = Security {
        hostname: Bytes::from_slice(alloc, b"relay")?,
        shared_key: None,
        users: Seq::new(alloc),
    };
    Ok(Arc::new(alloc, security)?)
}

/// A connection of a relay without a shared key.
fn open_source(alloc: Global) -> Result<Source, AllocError> {
    Ok(Source::new(alloc, 1, security(alloc)?, NONCES, LIMITS)?)
}

/// A connection hears a piece, and its requests are made and dropped.
fn hear_piece(
    alloc: Global,
    source: &mut Source,
    piece: &[u8],
    found: &mut Found,
) -> Result<(), AllocError> {
    source.piece(alloc, piece)?;
    for _ in 0..source.waiting() {
        if let Some((_, batch)) = source.next() {
            found.requests = found.requests.saturating_add(1);
            found.entries = found.entries.saturating_add(batch.len() as u64);
        }
    }
    Ok(())
}

/// A connection hears the stream in pieces of so many bytes: its requests, and their entries.
#[inline(never)]
pub fn hear_pieces(alloc: Global, stream: &[u8], size: usize) -> Result<Found, AllocError> {
    let mut found = Found::default();
    let mut source = open_source(alloc)?;
    let mut rest = stream;
    'pieces: while !rest.is_empty() {
        let (piece, behind) = rest.split_at(size.clamp(1, rest.len()));
        hear_piece(alloc, &mut source, piece, &mut found)?;
        rest = behind;
    }
    Ok(found)
}
