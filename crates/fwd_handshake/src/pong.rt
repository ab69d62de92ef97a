//! PONG, as a server writes it and a client judges it
//! (Forward Protocol Specification v1, "Handshake Messages").

ghost use Rattle.std.specs.Prelude.{◌≡◌, ◌<◌, ◌^◌, true, Some, length, codes, option_and_then, IfOk};
ghost use Rattle.std.specs.Option.{option_map};
ghost use Rattle.fwd_msgpack.specs.Scans.{text_of};
ghost use Rattle.fwd_msgpack.specs.Values.{bytes_of};
ghost use Rattle.fwd_handshake.specs.Messages.{pong_text};
ghost use Rattle.fwd_handshake.specs.Readings.{values_behind};
ghost use Rattle.fwd_handshake.specs.Verdicts.{four_in, pong_with, pong_verdict};
ghost use Rattle.fwd_handshake.specs.Shown.{pong_shown};

use crate::credentials::Login;
use crate::digest::is_key_digest;
use crate::reading::{bool_of, values_behind};
use crate::verdict::PongVerdict;
use fwd_base::Bytes;
use fwd_msgpack::{Head, Value, write_head, write_text};
use std::alloc::{AllocError, Global};

/// A PONG.
#[tactic(auto, unfolding(crate::specs::Messages::pong_text))]
pub(crate) fn write_pong(
    alloc: Global,
    passed: bool,
    reason: &[u8],
    host: &[u8],
    digest: &[u8],
) -> Result<Bytes, AllocError>
    requires reason_fits { length reason.now < 2 ^ 32 }
    requires host_fits { length host.now < 2 ^ 32 }
    requires digest_fits { length digest.now < 2 ^ 32 }
    ensures { IfOk result (λ pong. pong ≡ pong_text passed reason.now host.now digest.now) }
{
    let mut out = Vec::new(alloc);
    write_head(&mut out, Head::Arr(5))?;
    write_text(&mut out, b"PONG")?;
    write_head(&mut out, Head::Bool(passed))?;
    write_text(&mut out, reason)?;
    write_text(&mut out, host)?;
    write_text(&mut out, digest)?;
    Ok(Bytes::from_vec(out))
}

/// The values of a PONG.
#[derive(Clone, Copy)]
struct Pong<'a> {
    passed: Value<'a>,
    reason: Value<'a>,
    host: Value<'a>,
    digest: Value<'a>,
}

/// The four values behind the word.
fn pong_of<'a>(value: Value<'a>) -> Option<Pong<'a>>
    ensures { option_map pong_shown result
        ≡ option_and_then four_in (values_behind (codes "PONG") (bytes_of value.entry)) }
{
    let mut values = values_behind(value, b"PONG")?;
    let passed = values.next()?;
    let reason = values.next()?;
    let host = values.next()?;
    let digest = values.next()?;
    if values.next().is_some() {
        return None;
    }
    Some(Pong {
        passed,
        reason,
        host,
        digest,
    })
}

/// What a PONG is that lets the client in.
fn judge_host(pong: Pong<'_>, login: &Login, salt: &[u8], nonce: &[u8]) -> PongVerdict
    ensures { let said = pong_shown pong.entry in
        result ≡ pong_with login.now salt.now nonce.now (Some true)
        (text_of said.reason) (text_of said.host) (text_of said.digest) }
{
    match (pong.reason.text(), pong.host.text(), pong.digest.text()) {
        (Some(_), Some(host), Some(digest)) => {
            if is_key_digest(&login.shared_key, salt, host, nonce, digest) {
                PongVerdict::Pass
            } else {
                PongVerdict::BadDigest
            }
        }
        _ => PongVerdict::NotPong,
    }
}

/// What a value is that the next hop sent after PING, which had this salt and answered this nonce.
/// The first case that holds counts: no PONG; one that refuses; one whose key digest is not the
/// shared key's for the server's hostname; a good PONG (Forward Protocol Specification v1,
/// "Handshake Messages", "PONG"). It takes no memory. Of a PONG that refuses, only the number of
/// values behind its bool is looked at.
#[tactic(auto, unfolding(crate::specs::Verdicts::pong_verdict))]
pub fn judge_pong(value: Value<'_>, login: &Login, salt: &[u8], nonce: &[u8]) -> PongVerdict
    ensures { result ≡ pong_verdict login.now salt.now nonce.now (bytes_of value.entry) }
{
    let Some(pong) = pong_of(value) else {
        return PongVerdict::NotPong;
    };
    match bool_of(pong.passed) {
        Some(false) => PongVerdict::Denied,
        Some(true) => judge_host(pong, login, salt, nonce),
        None => PongVerdict::NotPong,
    }
}
