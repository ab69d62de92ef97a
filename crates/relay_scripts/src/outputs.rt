//! The same through an output, which also keeps who is owed an answer.

use crate::load::Load;
use crate::turns::{LIMITS, Rounds};
use crate::watch::{Watch, print_part};
use fwd_base::Bytes;
use fwd_chunks::{Buffer, Carried, FlushKind};
use fwd_core::OutputState;
use fwd_handshake::Login;
use fwd_modes::{Batch, Origin};
use fwd_session::{AckTerms, LoadFailed, OwnedSalt, Session};
use std::alloc::{AllocError, Global};
use std::rt::Runtime;
use std::sync::Arc;
use std::time::Duration;

/// The front of a reply before the chunk's name of 24 bytes (Forward Protocol Specification v1,
/// "Response").
const REPLY: &[u8; 6] = b"\x81\xa3ack\xb8";

/// How many requests are handed in at once.
const HAND: usize = 100;

/// The chunk is no more: a buffer that did not give it only spends it.
pub fn drop_chunk(alloc: Global, chunk: Carried) {
    Buffer::new(alloc, LIMITS, [0; 6], 0).free(chunk, None);
}

/// These chunks are no more.
fn drop_chunks(alloc: Global, chunks: Vec<Carried>) {
    let mut rest = chunks.into_iter();
    while let Some(chunk) = rest.next() {
        drop_chunk(alloc, chunk);
    }
    rest.destroy_empty();
}

/// The session is no more, and neither are its chunks.
pub fn drop_session(alloc: Global, session: Session) {
    let mut session = session;
    while let Some((_, chunk)) = session.acked() {
        drop_chunk(alloc, chunk);
    }
    drop_chunks(alloc, session.end());
}

/// A login without a key.
fn keyless(alloc: Global) -> Option<Arc<Login>> {
    let login = Login {
        hostname: Bytes::new(alloc),
        shared_key: None,
        username: Bytes::new(alloc),
        password: Bytes::new(alloc),
    };
    Arc::new(alloc, login).ok()
}

/// A session of a login, with a server that waits for a chunk's acknowledgement 10 seconds.
pub fn begin(alloc: Global, login: Arc<Login>, salt: &[u8]) -> Option<Session> {
    let salt = OwnedSalt::new(Bytes::from_slice(alloc, salt).ok()?)?;
    let terms = AckTerms {
        window: 1,
        ack_wait: 10_000,
    };
    Session::up(alloc, 0, login, salt, terms, 0).ok()
}

/// A server's reply to a chunk.
fn reply_to(chunk: &Carried) -> [u8; 30] {
    let mut reply = [0; 30];
    for (to, from) in reply.iter_mut().zip(REPLY.iter().chain(chunk.name())) {
        *to = *from;
    }
    reply
}

/// Loads a chunk: it comes back where it is not loaded.
pub fn load_once(alloc: Global, session: &mut Session, chunk: Carried) -> Option<Carried> {
    if session.room() == 0 {
        return Some(chunk);
    }
    match session.load(alloc, chunk, 0) {
        Ok(()) => None,
        Err(LoadFailed { chunk, error: _ }) => Some(chunk),
    }
}

/// The chunk goes through the session, if that has none: it is sent whole, and its reply is heard.
fn send(alloc: Global, session: &mut Session, chunk: Carried) {
    let reply = reply_to(&chunk);
    if let Some(chunk) = load_once(alloc, session, chunk) {
        drop_chunk(alloc, chunk);
    }
    session.wrote(session.waiting() as usize);
    let _told = session.heard(alloc, &reply);
}

/// Settles the chunk that the session sent, if it is acknowledged: how long that took.
fn settle_one<R: Runtime + AllocGlobal>(
    rt: &R,
    output: &mut OutputState,
    session: &mut Session,
) -> Option<Duration> {
    let (acked, chunk) = session.acked()?;
    let watch = Watch::start(rt);
    output.settle(acked, chunk);
    Some(watch.took(rt))
}

/// Takes, sends and settles each chunk, up to one that is not acknowledged.
#[inline(never)]
fn settle_all<R: Runtime + AllocGlobal>(
    rt: &R,
    output: &mut OutputState,
    session: &mut Session,
) -> Rounds {
    let mut rounds = Rounds::default();
    for _ in 0..u64::MAX {
        let watch = Watch::start(rt);
        let Ok(Some(chunk)) = output.take(rt.alloc(), 0, 0) else {
            break;
        };
        let take = watch.took(rt);
        send(rt.alloc(), session, chunk);
        let Some(give) = settle_one(rt, output, session) else {
            break;
        };
        rounds = rounds.more(take, give);
    }
    rounds
}

/// Admits the requests in turn, until there are so many.
#[inline(never)]
fn admit_all(
    alloc: Global,
    output: &mut OutputState,
    batches: &Vec<Batch>,
    origins: &[Origin],
) -> Option<()> {
    let mut place: usize = 0;
    for origin in origins {
        if let Some(batch) = batches.get(place)
            && !output.holds(*origin)
        {
            let _spans = output.admit(alloc, *origin, batch, 0).ok()?;
        }
        place = place.saturating_add(1);
        if place >= batches.len() {
            place = 0;
        }
    }
    Some(())
}

/// Collects the receipts of all requests, so many at a time: how many.
#[inline(never)]
fn collect_all(
    alloc: Global,
    output: &mut OutputState,
    origins: &[Origin],
) -> Result<u64, AllocError> {
    let mut told: u64 = 0;
    for hand in origins.chunks(HAND) {
        told = told.saturating_add(output.collect(alloc, hand)?.len() as u64);
    }
    Ok(told)
}

/// The origins of so many requests of one connection.
fn origins_of(alloc: Global, requests: u32) -> Result<Vec<Origin>, AllocError> {
    let mut origins = Vec::new(alloc);
    for request in 0..u64::from(requests) {
        origins.push(Origin { conn: 1, request })?;
    }
    Ok(origins)
}

/// Takes, sends and settles each chunk, through a session of its own.
fn settle_through<R: Runtime + AllocGlobal>(rt: &R, output: &mut OutputState) -> Option<Rounds> {
    let mut session = begin(rt.alloc(), keyless(rt.alloc())?, b"salt")?;
    let rounds = settle_all(rt, output, &mut session);
    drop_session(rt.alloc(), session);
    Some(rounds)
}

/// Admits all, closes it, takes, sends and settles each chunk, and collects. It is printed how many
/// were told, and how long each part took.
fn turn_through<R: Runtime + AllocGlobal>(
    rt: &R,
    output: &mut OutputState,
    batches: &Vec<Batch>,
    origins: &[Origin],
) -> Option<()> {
    let watch = Watch::start(rt);
    admit_all(rt.alloc(), output, batches, origins)?;
    let admit = watch.took(rt);
    output.flush(0, FlushKind::All);
    let rounds = settle_through(rt, output)?;
    let watch = Watch::start(rt);
    let told = collect_all(rt.alloc(), output, origins).ok()?;
    let collect = watch.took(rt);
    let chunks = rounds.chunks;
    let _ = println!(rt; "told {told} chunks {chunks}");
    print_part(rt, "admit", admit, told, "a request");
    rounds.print(rt);
    print_part(rt, "collect", collect, told, "a request");
    Some(())
}

/// Does all of it with an output of its own.
pub fn output_turn<R: Runtime + AllocGlobal>(
    rt: &R,
    load: Load,
    batches: &Vec<Batch>,
) -> Option<()> {
    let origins = origins_of(rt.alloc(), load.requests()).ok()?;
    let mut output = OutputState::new(rt.alloc(), LIMITS, [0; 6], 0, &[false]).ok()?;
    turn_through(rt, &mut output, batches, &origins)
}
