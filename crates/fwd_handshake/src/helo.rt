//! HELO, as a server writes it and a client answers it
//! (Forward Protocol Specification v1, "Handshake Messages").

ghost use Rattle.std.specs.Prelude.{◌≡◌, ◌++◌, ◌<◌, ◌^◌, [], length, codes, option_and_then, IfOk, IsOk};
ghost use Rattle.std.specs.Option.{option_map};
ghost use Rattle.fwd_msgpack.specs.Scans.{pairs_of};
ghost use Rattle.fwd_msgpack.specs.Texts.{text};
ghost use Rattle.fwd_msgpack.specs.Values.{bytes_of, pairs_left};
ghost use Rattle.fwd_handshake.specs.Messages.{auth_value, binary, helo_text};
ghost use Rattle.fwd_handshake.specs.Readings.{values_behind};
ghost use Rattle.fwd_handshake.specs.Verdicts.{helo_of, helo_under, heard_helo, username_for, proof_for, answering, helo_answer};
ghost use Rattle.fwd_handshake.specs.declared.verdict.HeloAnswer.TheVariants.{NotHelo};
ghost use Rattle.fwd_handshake.specs.Shown.{helo_shown, salt_bytes};

use crate::credentials::{Login, Security};
use crate::digest::{key_bytes, key_digest, password_digest};
use crate::nonces::Nonces;
use crate::reading::{bool_of, text_under, values_behind};
use crate::salt::Salt;
use crate::verdict::HeloAnswer;
use fwd_base::Bytes;
use fwd_msgpack::{Head, Pairs, Value, write_head, write_text};
use std::alloc::{AllocError, Global};

/// What a HELO says.
#[derive(Clone, Copy)]
struct Helo<'a> {
    nonce: &'a [u8],
    auth: &'a [u8],
    keepalive: bool,
}

/// Appends a bin.
fn write_binary(out: &mut Vec<u8>, bytes: &[u8]) -> Result<(), AllocError>
    requires { length bytes.now < 2 ^ 32 }
    ensures { IfOk result (λ _. out.new.items ≡ out.old.items ++ binary bytes.now) }
{
    write_head(out, Head::Bin(bytes.len() as u32))?;
    out.extend_from_slice(bytes)
}

/// Appends the auth salt, which is the empty str where no users are set.
fn write_auth(out: &mut Vec<u8>, security: &Security, auth: &[u8; 16]) -> Result<(), AllocError>
    ensures { IfOk result (λ _.
        out.new.items ≡ out.old.items ++ auth_value security.now.users auth.now) }
{
    if security.users.is_empty() {
        write_text(out, b"")
    } else {
        write_binary(out, auth)
    }
}

/// The HELO of a connection (Forward Protocol Specification v1, "Handshake
/// Messages", "HELO"): its nonce, its auth salt where users are set, and
/// that the connection is kept. The only error is out of memory.
#[tactic(auto, unfolding(crate::specs::Messages::helo_text))]
pub fn write_helo(alloc: Global, security: &Security, nonces: &Nonces) -> Result<Bytes, AllocError>
    ensures { IfOk result (λ helo.
        helo ≡ helo_text security.now.users nonces.now.nonce nonces.now.auth) }
{
    let mut out = Vec::new(alloc);
    write_head(&mut out, Head::Arr(2))?;
    write_text(&mut out, b"HELO")?;
    write_head(&mut out, Head::Map(3))?;
    write_text(&mut out, b"nonce")?;
    write_binary(&mut out, &nonces.nonce)?;
    write_text(&mut out, b"auth")?;
    write_auth(&mut out, security, &nonces.auth)?;
    write_text(&mut out, b"keepalive")?;
    write_head(&mut out, Head::Bool(true))?;
    Ok(Bytes::from_vec(out))
}

/// What the map of a HELO says.
fn helo_under<'a>(pairs: Pairs<'a>) -> Option<Helo<'a>>
    ensures { option_map helo_shown result ≡ helo_under (pairs_left pairs.entry) }
{
    Some(Helo {
        nonce: text_under(pairs, b"nonce")?,
        auth: text_under(pairs, b"auth").unwrap_or(&[]),
        keepalive: pairs
            .last_under(b"keepalive")
            .and_then(bool_of)
            .unwrap_or(true),
    })
}

/// What a HELO says, if the value is one.
fn helo_of<'a>(value: Value<'a>) -> Option<Helo<'a>>
    ensures { option_map helo_shown result ≡ helo_of (bytes_of value.entry) }
{
    let mut values = values_behind(value, b"HELO")?;
    let options = values.next()?;
    if values.next().is_some() {
        return None;
    }
    helo_under(options.pairs()?)
}

/// What a HELO says to this client, if the value is one and the client has a shared key.
fn heard_helo<'a>(login: &Login, value: Value<'a>) -> Option<Helo<'a>>
    ensures { option_map helo_shown result
        ≡ heard_helo login.now.shared_key (bytes_of value.entry) }
{
    match login.shared_key {
        Some(_) => helo_of(value),
        None => None,
    }
}

/// Appends the username and the password digest, both empty where the server gives no auth salt.
fn write_claim(out: &mut Vec<u8>, login: &Login, auth: &[u8]) -> Result<(), AllocError>
    ensures { IfOk result (λ _.
        out.new.items
        ≡ out.old.items ++ text (username_for login.now auth.now)
        ++ text (proof_for login.now auth.now)) }
{
    if auth.is_empty() {
        write_text(out, b"")?;
        return write_text(out, b"");
    }
    let username = login.username.as_slice();
    write_text(out, username)?;
    write_text(
        out,
        &password_digest(auth, username, login.password.as_slice()),
    )
}

/// The PING that answers a HELO.
#[tactic(auto, unfolding(crate::specs::Messages::ping_text))]
fn write_ping(
    alloc: Global,
    login: &Login,
    salt: Salt<'_>,
    nonce: &[u8],
    auth: &[u8],
) -> Result<Bytes, AllocError>
    ensures { IfOk result (λ ping.
        ping ≡ answering login.now (salt_bytes salt.entry) nonce.now auth.now) }
{
    let host = login.hostname.as_slice();
    let salt = salt.bytes();
    let mut out = Vec::new(alloc);
    write_head(&mut out, Head::Arr(6))?;
    write_text(&mut out, b"PING")?;
    write_text(&mut out, host)?;
    write_text(&mut out, salt)?;
    write_text(
        &mut out,
        &key_digest(salt, host, nonce, key_bytes(&login.shared_key)),
    )?;
    write_claim(&mut out, login, auth)?;
    Ok(Bytes::from_vec(out))
}

/// What a value is that the next hop sent at first, and the PING that answers it. The first case
/// that holds counts: no HELO, or a login without a shared key, which has no handshake; a HELO,
/// whose `auth` counts as empty where it is no str and no bin, and whose `keepalive` as true where
/// it is no bool (Forward Protocol Specification v1, "Handshake Messages", "HELO" and "PING"). The
/// only error is out of memory, and `NotHelo` takes none. The nonce is answered as bytes of its
/// own, since the value is gone by the time PONG is judged.
#[tactic(auto, unfolding(crate::specs::Verdicts::helo_answer))]
pub fn answer_helo(
    alloc: Global,
    value: Value<'_>,
    login: &Login,
    salt: Salt<'_>,
) -> Result<HeloAnswer, AllocError>
    ensures answer { IfOk result (λ answer.
        answer ≡ helo_answer login.now (salt_bytes salt.entry) (bytes_of value.entry)) }
    ensures other { helo_answer login.now (salt_bytes salt.entry) (bytes_of value.entry) ≡ NotHelo
        → IsOk result }
{
    let Some(helo) = heard_helo(login, value) else {
        return Ok(HeloAnswer::NotHelo);
    };
    let bytes = write_ping(alloc, login, salt, helo.nonce, helo.auth)?;
    let nonce = Bytes::from_slice(alloc, helo.nonce)?;
    Ok(HeloAnswer::Ping {
        bytes,
        nonce,
        keepalive: helo.keepalive,
    })
}
