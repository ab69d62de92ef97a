//! The requests that are admitted, and what their chunks and sessions are.

ghost use Rattle.std.specs.Prelude.{◌≡◌, IfOk};
ghost use Rattle.std.specs.Arc.{arc_value};

use anyhow::{Result, bail};
use fwd_base::Bytes;
use fwd_chunks::{Buffer, Carried};
use fwd_handshake::Login;
use fwd_model::BufferLimits;
use fwd_modes::{Batch, Reading, read_request};
use fwd_msgpack::{Cut, Limits, cut};
use fwd_session::{AckTerms, Session};
use std::alloc::Global;
use std::sync::Arc;

/// A Message of the tag `a` with the time 1 and an empty record, which asks for an acknowledgement.
pub const MESSAGE: &[u8] = b"\x94\xa1a\x01\x80\x81\xa5chunk\xa1x";

/// The same with the time 128: its entry is one byte longer.
pub const LONGER: &[u8] = b"\x94\xa1a\xcc\x80\x80\x81\xa5chunk\xa1x";

/// A Message of the tag `b`, which asks for none.
pub const OTHER: &[u8] = b"\x93\xa1b\x01\x80";

/// Three entries of the tag `a`, of three bytes each.
pub const THREE: &[u8] = b"\x93\xa1a\x93\x92\x01\x80\x92\x01\x80\x92\x01\x80\x81\xa5chunk\xa1x";

/// The frame of the chunk with number 1 of run 0 at output 0, with the Message's entry.
pub const FRAME: &[u8] =
    b"\x93\xa1a\xc4\x03\x92\x01\x80\x82\xa4size\x01\xa5chunk\xb8AAAAAAAAAAAAAAAAAAAAAQ==";

/// The frame of the chunk with number 2, with the same entry.
pub const SECOND: &[u8] =
    b"\x93\xa1a\xc4\x03\x92\x01\x80\x82\xa4size\x01\xa5chunk\xb8AAAAAAAAAAAAAAAAAAAAAg==";

/// The frames of those with the numbers 3 and 4.
pub const THIRD: &[u8] =
    b"\x93\xa1a\xc4\x03\x92\x01\x80\x82\xa4size\x01\xa5chunk\xb8AAAAAAAAAAAAAAAAAAAAAw==";

pub const FOURTH: &[u8] =
    b"\x93\xa1a\xc4\x03\x92\x01\x80\x82\xa4size\x01\xa5chunk\xb8AAAAAAAAAAAAAAAAAAAABA==";

/// The frame of the chunk with number 1 of run 0 at output 1, with the same entry.
pub const OTHER_OUTPUT: &[u8] =
    b"\x93\xa1a\xc4\x03\x92\x01\x80\x82\xa4size\x01\xa5chunk\xb8AAAAAAAAAAEAAAAAAAAAAQ==";

/// The acknowledgement of `FRAME`.
pub const ACK: &[u8] = b"\x81\xa3ack\xb8AAAAAAAAAAAAAAAAAAAAAQ==";

/// Limits that nothing here comes near, but for those that are named.
pub fn limits(chunk: u32, total: u64) -> BufferLimits {
    BufferLimits {
        chunk,
        total,
        interval: 1000,
        retry_wait: 500,
        retry_max: 4000,
        first: 1,
    }
}

/// The request of these bytes.
pub fn batch(alloc: Global, bytes: &[u8]) -> Result<Batch> {
    let Cut::Whole(value, _) = cut(bytes, Limits::WIDEST) else {
        bail!("no value");
    };
    match read_request(alloc, value, Limits::WIDEST)? {
        Reading::Asks(batch) => Ok(batch),
        _ => bail!("no request"),
    }
}

/// The acknowledgement of a chunk.
pub fn ack_of(chunk: &Carried) -> [u8; 30] {
    let mut reply = [0; 30];
    reply[..6].copy_from_slice(b"\x81\xa3ack\xb8");
    reply[6..].copy_from_slice(chunk.name());
    reply
}

/// The chunk is no more: a buffer that did not give it only spends it.
pub fn drop_chunk(alloc: Global, chunk: Carried) {
    let mut buffer = Buffer::new(alloc, limits(1000, 100_000), [0; 6], 0);
    buffer.free(chunk, None);
}

/// The chunks are no more.
fn drop_chunks(alloc: Global, chunks: Vec<Carried>) {
    let mut rest = chunks.into_iter();
    while let Some(chunk) = rest.next() {
        drop_chunk(alloc, chunk);
    }
    rest.destroy_empty();
}

/// The session is no more, and neither are its chunks.
pub fn drop_session(alloc: Global, session: Session) {
    let mut session = session;
    while let Some((_, chunk)) = session.acked() {
        drop_chunk(alloc, chunk);
    }
    drop_chunks(alloc, session.end());
}

/// A chunk as its worker leaves it: taken, or loaded where it is said to be lost.
pub fn left_as(alloc: Global, chunk: Carried, is_lost: bool) -> (Option<Carried>, Vec<Carried>) {
    if !is_lost {
        return (Some(chunk), Vec::new(alloc));
    }
    match Vec::with_capacity(alloc, 1) {
        Ok(mut loaded) => {
            loaded.push_reserved(chunk);
            (None, loaded)
        }
        Err(_) => (Some(chunk), Vec::new(alloc)),
    }
}

/// A window of so many chunks, and 10 s for what a server owes.
pub fn terms(window: u8) -> AckTerms {
    terms_of(window, 10_000)
}

/// A window of so many chunks, and so long (milliseconds) for what a server owes.
pub fn terms_of(window: u8, ack_wait: u64) -> AckTerms {
    AckTerms {
        window: window.clamp(1, 8),
        ack_wait,
    }
}

/// The login of a worker without a shared key.
pub fn login(alloc: Global) -> Result<Arc<Login>> {
    shared(alloc, login_with(alloc, None)?)
}

/// What a worker proves to servers, which have to know a key, if there is one.
pub fn login_with(alloc: Global, key: Option<&[u8]>) -> Result<Login> {
    let shared_key = match key {
        Some(key) => Some(Bytes::from_slice(alloc, key)?),
        None => None,
    };
    Ok(Login {
        hostname: Bytes::from_slice(alloc, b"relay")?,
        shared_key,
        username: Bytes::new(alloc),
        password: Bytes::new(alloc),
    })
}

/// A value that many may share.
pub fn shared<T: Drop>(alloc: Global, value: T) -> Result<Arc<T>>
    ensures { IfOk result (λ shared. arc_value shared ≡ value) }
{
    match Arc::new(alloc, value) {
        Ok(shared) => Ok(shared),
        Err(_) => bail!("no memory"),
    }
}
