//! What a server's bytes say: how far the handshake came, which chunks are acknowledged, the first
//! fault, and the bytes of an unfinished value. How far the handshake came is judged over all bytes
//! heard. An acknowledgement is judged when its last byte comes: one that began before the link
//! took the last byte of the frame, and ends after that, is not early. Replies have some 30 bytes,
//! so what is unfinished is cut again with each piece, without a scanner.

ghost use Rattle.std.specs.Prelude.{
  ◌≡◌,
  [],
  None,
  Some,
  true,
  false,
  remove,
  unwrap_or,
  IfOk,
  IsOk,
};
ghost use Rattle.std.specs.Arc.{arc_value};
ghost use Rattle.fwd_handshake.specs.Shown.{salt_bytes};
ghost use Rattle.fwd_msgpack.specs.Values.{bytes_of};
ghost use Rattle.fwd_session.specs.Said.{
  AsksForNothing,
  helo_word,
  pong_word,
  ack_word,
  word_of,
  said_in,
  reply_stream,
  rest_of,
};
ghost use Rattle.fwd_handshake.specs.Verdicts.{helo_answer, pong_verdict};
ghost use Rattle.fwd_handshake.specs.declared.verdict.HeloAnswer.TheVariants.{NotHelo};
ghost use Rattle.fwd_modes.specs.Acks.{ack_name};
ghost use Rattle.fwd_session.specs.History.{is_done};
ghost use Rattle.fwd_session.specs.Flights.{awaited_of};
ghost use Rattle.fwd_session.specs.Hearing.{
  word_in,
  shown,
  is_greeting,
  IsOver,
  IsAckedAt,
  IsAckOf,
  AreAcksOf,
  GreetsInSilence,
  Points,
};

use crate::acked::Acked;
use crate::fault::SessionFault;
use crate::handshake::Handshake;
use crate::limits::REPLY_LIMITS;
use crate::unacked::Unacked;
use crate::verdict::Verdict;
use fwd_base::Bytes;
use fwd_handshake::{HeloAnswer, Login, PongVerdict, Salt, answer_helo, judge_pong};
use fwd_modes::read_ack;
use fwd_msgpack::{Next, Value, next_value};
use std::alloc::{AllocError, Global};
use std::sync::Arc;

/// The server that is heard, by its place in the output's list, and what proves the session to it.
#[derive(Clone, Copy)]
pub(crate) struct Peer<'a> {
    pub(crate) server: u16,
    pub(crate) login: &'a Login,
    pub(crate) salt: Salt<'a>,
}

/// A chunk is acknowledged.
#[derive(Drop)]
pub(crate) struct Ack {
    /// The chunk's place among those that the acknowledgements before this one left.
    pub(crate) place: usize,
    /// What is kept of it.
    pub(crate) acked: Arc<Acked>,
}

/// What was heard from a server.
#[derive(Drop)]
pub(crate) struct Hearing<'a> {
    /// How far the handshake came, if it went on.
    pub(crate) handshake: Option<Handshake>,
    /// What is sent for it.
    pub(crate) out: Vec<u8>,
    /// The acknowledgements, in their order.
    pub(crate) acks: Vec<Ack>,
    pub(crate) fault: Option<SessionFault>,
    /// The bytes of an unfinished value.
    pub(crate) rest: &'a [u8],
}

/// What a value says where HELO is awaited.
fn helo_verdict(alloc: Global, peer: &Peer<'_>, value: Value<'_>) -> Result<Verdict, AllocError>
    ensures word { IfOk result (λ verdict. word_in verdict ≡ helo_word
        (helo_answer peer.now.login.now (salt_bytes peer.now.salt) (bytes_of value.entry))) }
    ensures other { helo_answer peer.now.login.now (salt_bytes peer.now.salt)
        (bytes_of value.entry) ≡ NotHelo → IsOk result }
{
    match answer_helo(alloc, value, peer.login, peer.salt)? {
        HeloAnswer::NotHelo => Ok(Verdict::Fails(SessionFault::NotHelo)),
        HeloAnswer::Ping {
            bytes,
            nonce,
            keepalive,
        } => Ok(Verdict::Greets {
            out: bytes,
            next: Handshake::AwaitsPong { nonce, keepalive },
        }),
    }
}

/// What a PONG says, by the verdict on it.
fn pong_verdict(alloc: Global, keepalive: bool, verdict: PongVerdict) -> Verdict
    ensures { word_in result ≡ pong_word keepalive verdict }
{
    match verdict {
        PongVerdict::Pass => Verdict::Greets {
            out: Bytes::new(alloc),
            next: Handshake::Done { keepalive },
        },
        PongVerdict::NotPong => Verdict::Fails(SessionFault::BadReply),
        PongVerdict::Denied => Verdict::Fails(SessionFault::Denied),
        PongVerdict::BadDigest => Verdict::Fails(SessionFault::BadDigest),
    }
}

/// What a value says where these chunks are awaited.
fn ack_verdict(unacked: &Unacked<'_>, value: Value<'_>) -> Verdict
    ensures word { word_in result
        ≡ ack_word (awaited_of unacked.now) (ack_name (bytes_of value.entry)) }
    ensures points { Points unacked.now (bytes_of value.entry) result }
{
    let Ok(name) = read_ack(value) else {
        return Verdict::Fails(SessionFault::BadReply);
    };
    if !unacked.any_handed_on() {
        return Verdict::Fails(SessionFault::EarlyAck);
    }
    match unacked.find(name) {
        None => Verdict::Fails(SessionFault::WrongAck),
        Some(place) if unacked.is_handed_on(place) => Verdict::Acks { place },
        Some(_) => Verdict::Fails(SessionFault::EarlyAck),
    }
}

/// What a value says, by how far the handshake came and the chunks that are awaited.
#[tactic(auto, unfolding(crate::specs::Said::word_of))]
fn verdict_on(
    alloc: Global,
    peer: &Peer<'_>,
    at: &Handshake,
    unacked: &Unacked<'_>,
    value: Value<'_>,
) -> Result<Verdict, AllocError>
    ensures word { IfOk result (λ verdict. word_in verdict
        ≡ word_of peer.now.login.now (salt_bytes peer.now.salt) at.now (awaited_of unacked.now)
        (bytes_of value.entry)) }
    ensures points { IfOk result (λ verdict.
        Points unacked.now (bytes_of value.entry) verdict) }
    ensures sure { is_done at.now ≡ true → IsOk result }
    ensures quiet { GreetsInSilence (word_of peer.now.login.now (salt_bytes peer.now.salt) at.now
        (awaited_of unacked.now) (bytes_of value.entry)) → IsOk result }
    ensures done { is_done at.now ≡ true → IfOk result (λ verdict. is_greeting verdict ≡ false) }
{
    if value.is_nil() {
        return Ok(Verdict::Skipped);
    }
    match at {
        Handshake::AwaitsHelo => helo_verdict(alloc, peer, value),
        Handshake::AwaitsPong { nonce, keepalive } => {
            let verdict = judge_pong(value, peer.login, peer.salt.bytes(), nonce.as_slice());
            Ok(pong_verdict(alloc, *keepalive, verdict))
        }
        Handshake::Done { keepalive: _ } => Ok(ack_verdict(unacked, value)),
    }
}

/// How far the handshake came: as far as before where it did not go on.
fn reached<'a>(next: &'a Option<Handshake>, before: &'a Handshake) -> &'a Handshake
    ensures { result.now ≡ unwrap_or next.now before.now }
{
    match next {
        None => before,
        Some(next) => next,
    }
}

/// The chunk at a place is acknowledged by a value, and leaves those that are awaited. The only
/// error is out of memory.
fn accept(
    alloc: Global,
    server: u16,
    unacked: &mut Unacked<'_>,
    place: usize,
    value: &[u8],
) -> Result<Ack, AllocError>
    requires { IsAckedAt unacked.old value.now place }
    ensures ack { IfOk result (λ ack. IsAckOf server unacked.old ack) }
    ensures place { IfOk result (λ ack. ack.place ≡ place) }
    ensures reply { IfOk result (λ ack. (arc_value ack.acked).reply ≡ value.now) }
    ensures left { unacked.new ≡ remove unacked.old place }
{
    let acked = Acked::new(alloc, unacked.chunk(place), server, value);
    unacked.remove(place);
    match Arc::new(alloc, acked?) {
        Ok(acked) => Ok(Ack { place, acked }),
        Err(_) => Err(AllocError),
    }
}

/// What the bytes say where the handshake came so far and these chunks are awaited. The only error
/// is out of memory, for the answer to a HELO or for what is kept of a chunk.
pub(crate) fn hear<'a>(
    alloc: Global,
    peer: &Peer<'_>,
    before: &Handshake,
    unacked: Unacked<'_>,
    bytes: &'a [u8],
) -> Result<Hearing<'a>, AllocError>
    ensures value { IfOk result (λ heard. shown before.now heard
        ≡ said_in peer.now.login.now (salt_bytes peer.now.salt) before.now
        (awaited_of unacked.entry) (reply_stream bytes.now)) }
    ensures acks { IfOk result (λ heard.
        AreAcksOf peer.now.server unacked.entry heard.acks.items) }
    ensures rest { IfOk result (λ heard. heard.fault ≡ None
        → heard.rest.now ≡ rest_of (reply_stream bytes.now)) }
    ensures over { IfOk result (λ heard. is_done before.now ≡ true → IsOver heard) }
    ensures sure { is_done before.now ≡ true →
        (said_in peer.now.login.now (salt_bytes peer.now.salt) before.now
        (awaited_of unacked.entry) (reply_stream bytes.now)).replies ≡ [] → IsOk result }
    ensures quiet { AsksForNothing (said_in peer.now.login.now (salt_bytes peer.now.salt)
        before.now (awaited_of unacked.entry) (reply_stream bytes.now)) → IsOk result }
{
    let mut unacked = unacked;
    let mut handshake = None;
    let mut out = Vec::new(alloc);
    let mut acks = Vec::new(alloc);
    let mut rest = bytes;
    let fault = 'values: loop {
        match next_value(rest, REPLY_LIMITS) {
            Next::Unfinished => break None,
            Next::Fault(_) => break Some(SessionFault::BadReply),
            Next::Value(value, behind) => {
                let at = reached(&handshake, before);
                match verdict_on(alloc, peer, at, &unacked, value)? {
                    Verdict::Skipped => {}
                    Verdict::Greets { out: ping, next } => {
                        out.extend_from_slice(ping.as_slice())?;
                        handshake = Some(next);
                    }
                    Verdict::Acks { place } => {
                        let reply = value.bytes();
                        acks.push(accept(alloc, peer.server, &mut unacked, place, reply)?)?;
                    }
                    Verdict::Fails(fault) => break Some(fault),
                }
                rest = behind;
            }
        }
    };
    Ok(Hearing {
        handshake,
        out,
        acks,
        fault,
        rest,
    })
}
