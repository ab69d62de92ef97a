//! A frame on its way out: its parts, one by one, and in how many pieces the rest is lent.

ghost use Rattle.std.specs.Prelude.{◌≡◌};

use crate::request::batch;
use fwd_base::Bytes;
use fwd_chunks::{Buffer, BufferLimits, Carried, FlushKind};
use fwd_handshake::Login;
use fwd_modes::Origin;
use fwd_session::{AckTerms, LoadFailed, OwnedSalt, Session};
use std::alloc::Global;
use std::sync::Arc;

const LIMITS: BufferLimits = BufferLimits {
    chunk: 1000,
    total: 100_000,
    interval: 1000,
    retry_wait: 500,
    retry_max: 4000,
    first: 1,
};

const ORIGIN: Origin = Origin {
    conn: 1,
    request: 1,
};

/// A Message of the tag `a` whose kept entry has three bytes, and a Forward of two such entries.
const ONE: &[u8] = b"\x93\xa1a\x01\x80";

const TWO: &[u8] = b"\x92\xa1a\x92\x92\x01\x80\x92\x01\x80";

/// The chunk of these requests' entries.
fn chunk_of(alloc: Global, requests: &[&[u8]]) -> Option<Carried> {
    let mut buffer = Buffer::new(alloc, LIMITS, [0; 6], 0);
    for bytes in requests {
        buffer.admit(alloc, ORIGIN, &batch(alloc, bytes)?, 0).ok()?;
    }
    buffer.flush(0, FlushKind::All);
    buffer.take(alloc, 0, 0).ok()?
}

/// The chunk is no more: a buffer that did not give it only spends it.
fn drop_chunk(alloc: Global, chunk: Carried) {
    Buffer::new(alloc, LIMITS, [0; 6], 0).free(chunk, None);
}

/// The session is no more, and neither are its chunks.
fn drop_session(alloc: Global, session: Session) {
    let mut session = session;
    while let Some((_, chunk)) = session.acked() {
        drop_chunk(alloc, chunk);
    }
    drop_chunks(alloc, session.end());
}

/// These chunks are no more.
fn drop_chunks(alloc: Global, chunks: Vec<Carried>) {
    let mut rest = chunks.into_iter();
    while let Some(chunk) = rest.next() {
        drop_chunk(alloc, chunk);
    }
    rest.destroy_empty();
}

/// A login without a key.
fn login(alloc: Global) -> Option<Arc<Login>> {
    let login = Login {
        hostname: Bytes::new(alloc),
        shared_key: None,
        username: Bytes::new(alloc),
        password: Bytes::new(alloc),
    };
    Arc::new(alloc, login).ok()
}

/// A session that takes chunks at once, one at a time.
fn session(alloc: Global) -> Option<Session> {
    let salt = OwnedSalt::new(Bytes::new(alloc))?;
    let terms = AckTerms {
        window: 1,
        ack_wait: 10_000,
    };
    Session::up(alloc, 0, login(alloc)?, salt, terms, 0).ok()
}

/// Loads a chunk, if the session has room for it and there is memory for its frame.
fn load(alloc: Global, session: &mut Session, chunk: Carried) {
    if session.room() == 0 {
        drop_chunk(alloc, chunk);
    } else if let Err(LoadFailed { chunk, error: _ }) = session.load(alloc, chunk, 0) {
        drop_chunk(alloc, chunk);
    }
}

/// How many bytes each part has that the session sends, and in how many pieces all is lent that
/// waits then: five at most, and zeros behind them.
fn send_parts(session: &mut Session) -> [(usize, usize); 5] {
    let mut parts = [(0, 0); 5];
    for part in &mut parts {
        let len = session.out().len().min(session.waiting() as usize);
        *part = (len, session.pieces().as_slice().len());
        session.wrote(len);
    }
    parts
}

/// The same of the frame of these requests' entries.
fn parts_of(alloc: Global, requests: &[&[u8]]) -> Option<[(usize, usize); 5]> {
    let mut session = session(alloc)?;
    if let Some(chunk) = chunk_of(alloc, requests) {
        load(alloc, &mut session, chunk);
    }
    let parts = send_parts(&mut session);
    drop_session(alloc, session);
    Some(parts)
}

/// Consecutive entries of one request are one part.
#[test]
fn a_frame_goes_out_in_its_parts(rt: HostRuntime) {
    for (requests, parts) in [
        ([ONE].as_slice(), [(5, 3), (3, 2), (38, 1), (0, 0), (0, 0)]),
        (&[ONE, ONE], [(5, 4), (3, 3), (3, 2), (38, 1), (0, 0)]),
        (&[TWO], [(5, 3), (6, 2), (38, 1), (0, 0), (0, 0)]),
    ] {
        assert!(rt; parts_of(rt.alloc(), requests) == Some(parts));
    }
}
