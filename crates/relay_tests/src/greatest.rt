//! A request of the greatest size goes through the relay: 100,000 entries of 160 bytes, nearly as
//! long as a value of a source may be, and as long as a chunk may be.

use crate::relay::{ACCEPT, answers_with, relay_of};
use fwd_base::Bytes;
use fwd_core::Relay;
use fwd_model::{Answer, Event};
use fwd_modes::{chunk_name, write_chunk};
use std::alloc::{AllocError, Global};

/// An output whose limits the request's entries just fit.
const SETTINGS: &str = "[[output]]\nmatch = \"**\"\nchunk_limit = 16000000\n\
    total_limit = 16000000\n[[output.server]]\naddress = \"127.0.0.1:1\"\n";

/// 100,000 entries one after the other: each a time and a map of one str of 153 bytes.
fn many_entries(alloc: Global) -> Result<Vec<u8>, AllocError> {
    let mut entry = vec![in alloc; b'x'; 160]?;
    for (to, from) in entry.iter_mut().zip(b"\x92\x01\x81\xa1k\xd9\x99") {
        *to = *from;
    }
    let mut entries = Vec::new(alloc);
    for _ in 0..100_000 {
        entries.extend_from_slice(&entry)?;
    }
    Ok(entries)
}

/// The request for these entries, under the tag `a`.
fn request_of(alloc: Global, entries: &[u8]) -> Result<Vec<u8>, AllocError> {
    let mut request = Vec::from_slice(alloc, b"\x92\xa1a\xdd\x00\x01\x86\xa0")?;
    request.extend_from_slice(entries)?;
    Ok(request)
}

/// The frame of these entries, under the tag `a`, in the chunk with number 1 of run 0 at output 0.
fn frame_of(alloc: Global, entries: &[u8]) -> Result<Vec<u8>, AllocError> {
    let mut frame = Vec::from_slice(alloc, b"\x93\xa1a\xc6\x00\xf4\x24\x00")?;
    frame.extend_from_slice(entries)?;
    frame.extend_from_slice(b"\x82\xa4size\xce\x00\x01\x86\xa0")?;
    frame.extend_from_slice(b"\xa5chunk\xb8AAAAAAAAAAAAAAAAAAAAAQ==")?;
    Ok(frame)
}

/// How many requests wait once a piece was heard.
fn hear(alloc: Global, relay: &mut Relay, piece: &[u8]) -> Option<usize> {
    let bytes = Bytes::from_slice(alloc, piece).ok()?;
    match relay.step(alloc, &Event::Piece { conn: 1, bytes }) {
        Answer::Requests { waiting, .. } => Some(waiting),
        _ => None,
    }
}

/// How many requests wait once these bytes were heard, in pieces of 65,536.
fn hear_all(alloc: Global, relay: &mut Relay, bytes: &[u8]) -> Option<usize> {
    let mut waiting = None;
    for piece in bytes.chunks(65_536) {
        waiting = hear(alloc, relay, piece);
    }
    waiting
}

/// Whether the frame of the chunk that is loaded is this one.
fn loads(alloc: Global, relay: &mut Relay, frame: &[u8]) -> bool {
    let load = Event::Load {
        output: 0,
        worker: 0,
        now: 0,
    };
    match relay.step(alloc, &load) {
        Answer::Frame { out } => out.as_slice() == frame,
        _ => false,
    }
}

/// From a source's bytes to the acknowledged frame.
const THERE: &str = "admit 1 0 0\nflush 0 0 all\nup 0 0 0 - 0\ntake 0 0 0\n";

const ANSWERS_THERE: &str = "admitted 1 entries 100000\nclosed 1\ndone\ntook 1 entries 100000\n";

const BACK: &str = "wrote 0 0 16000050\n\
    heard 0 0 81a361636bb8414141414141414141414141414141414141414141513d3d\nsettle 0 0\n\
    collect 1 0\n";

const ANSWERS_BACK: &str = "done\nacked out -\nsettled 100000\ntold 1 out -\n";

/// Whether the relay takes the request in pieces, sends the frame, and tells of its end.
fn goes_through(alloc: Global, relay: &mut Relay, request: &[u8], frame: &[u8]) -> bool {
    answers_with(alloc, relay, ACCEPT, "accepted out -\n")
        && hear_all(alloc, relay, request) == Some(1)
        && answers_with(alloc, relay, THERE, ANSWERS_THERE)
        && loads(alloc, relay, frame)
        && answers_with(alloc, relay, BACK, ANSWERS_BACK)
}

/// The same of a relay of its own.
fn is_carried(alloc: Global) -> Option<bool> {
    let entries = many_entries(alloc).ok()?;
    let request = request_of(alloc, &entries).ok()?;
    let frame = frame_of(alloc, &entries).ok()?;
    let mut relay = relay_of(alloc, SETTINGS)?;
    Some(goes_through(alloc, &mut relay, &request, &frame))
}

#[test]
fn a_request_of_the_greatest_size_goes_through(rt: HostRuntime) {
    assert!(rt; is_carried(rt.alloc()) == Some(true));
}

/// Whether the frame is written so in one piece.
fn is_written(alloc: Global) -> Option<bool> {
    let entries = many_entries(alloc).ok()?;
    let frame = frame_of(alloc, &entries).ok()?;
    let name = chunk_name(&[0; 6], 0, 1);
    if entries.len() != 16_000_000 {
        return None;
    }
    Some(write_chunk(alloc, b"a", &entries, 100_000, &name).ok()? == frame)
}

#[test]
fn a_frame_of_the_greatest_size_is_written(rt: HostRuntime) {
    assert!(rt; is_written(rt.alloc()) == Some(true));
}
