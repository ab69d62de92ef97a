//! One connection, by pieces that no script has.

use crate::request::SOURCE_LIMITS;
use fwd_base::{Bytes, Seq};
use fwd_handshake::{Nonces, Security};
use fwd_source::{Piece, Source};
use std::alloc::Global;
use std::sync::Arc;

const NONCES: Nonces = Nonces {
    nonce: [0; 16],
    auth: [0; 16],
};

/// The side of a server without a key.
fn security(alloc: Global) -> Option<Arc<Security>> {
    let security = Security {
        hostname: Bytes::new(alloc),
        shared_key: None,
        users: Seq::new(alloc),
    };
    Arc::new(alloc, security).ok()
}

/// How many requests wait at a connection once it has heard these pieces, if no fault comes.
fn waiting_after(alloc: Global, pieces: &[&[u8]]) -> Option<usize> {
    let mut source = Source::new(alloc, 7, security(alloc)?, NONCES, SOURCE_LIMITS).ok()?;
    for piece in pieces {
        if !matches!(source.piece(alloc, piece).ok()?.piece, Piece::Waiting(_)) {
            return None;
        }
    }
    Some(source.waiting())
}

/// The pieces of one request that the worked texts of the formats accept.
const ACCEPTED: &[&[u8]] = &[
    b"\x93\xa1a\x01\x80",
    b"\x94\xa1a\x01\x80\x81\xa5chunk\xa1x",
    b"\x94\xa1a\x01\x80\x82\xa5chunk\xa1x\xa5chunk\xc0",
    b"\x93\xa1a\x90\x81\xa5chunk\xa1x",
    b"\x93\xa1a\x93\x92\x01\x80\x92\x01\x80\x92\x01\x80\x81\xa5chunk\xa1x",
    b"\x93\xa1a\xcc\x80\x80",
    b"\x93\xa1a\xc4\x03\x92\x01\x80\x81\xaacompressed\xa4text",
    b"\x93\xa1a\xc4\x03\x92\x01\x80\x81\xaacompressed\xc0",
    b"\x92\xa1a\x91\x92\xd7\x00\x00\x00\x00\x01\x00\x00\x00\x02\x80",
    b"\x92\xa1a\x91\x92\xc7\x08\x00\x00\x00\x00\x01\x00\x00\x00\x02\x80",
    b"\x92\xa1a\x91\x92\xff\x80",
    b"\x92\xa1a\xa3\x92\x01\x80",
    b"\x92\xa1a\xc4\x03\x92\x01\x80",
    b"\x92\xa1a\xc4\x05\xdc\x00\x02\x01\x80",
];

/// The first front of these bytes that is told otherwise than as no request and no fault yet, or as
/// one request where it is all of them.
fn first_other_front(alloc: Global, bytes: &[u8]) -> Option<usize> {
    for count in 0..bytes.len() {
        if waiting_after(alloc, &[&bytes[..count]]) != Some(0) {
            return Some(count);
        }
    }
    if waiting_after(alloc, &[bytes]) == Some(1) {
        return None;
    }
    Some(bytes.len())
}

#[test]
fn a_front_of_a_request_is_no_request_and_no_fault(rt: HostRuntime) {
    for bytes in ACCEPTED {
        assert_eq!(rt; first_other_front(rt.alloc(), bytes), None);
    }
}

/// How many requests wait once two pieces have come, if no fault did.
fn waiting_behind<'a>(alloc: Global, first: &'a [u8], second: &'a [u8]) -> Option<usize> {
    waiting_after(alloc, &[first, second])
}

/// How many requests wait once 100,000 have come in one piece, and one more behind them.
fn many_waiting(alloc: Global) -> Option<usize> {
    let mut many = Vec::new(alloc);
    for _ in 0..100_000 {
        many.extend_from_slice(ACCEPTED[0]).ok()?;
    }
    waiting_behind(alloc, &many, ACCEPTED[0])
}

#[test]
fn many_requests_wait(rt: HostRuntime) {
    assert_eq!(rt; many_waiting(rt.alloc()), Some(100_001));
}
