//! PING, as a server judges it (Forward Protocol Specification v1, "Handshake Messages").

ghost use Rattle.std.specs.Prelude.{◌≡◌, IfOk, IsOk};
ghost use Rattle.std.specs.List.{list_any};
ghost use Rattle.std.specs.Option.{option_map};
ghost use Rattle.fwd_msgpack.specs.Scans.{text_of};
ghost use Rattle.fwd_msgpack.specs.Values.{bytes_of};
ghost use Rattle.fwd_handshake.specs.Verdicts.{claim_in, ping_of, is_of_user, is_of_a_user, denial_of, passing, ping_verdict};
ghost use Rattle.fwd_handshake.specs.declared.verdict.PingVerdict.TheVariants.{NotPing};
ghost use Rattle.fwd_handshake.specs.Shown.{claim_shown, ping_shown};

use crate::credentials::{Security, User};
use crate::digest::{is_key_digest, key_bytes, key_digest, password_digest};
use crate::nonces::Nonces;
use crate::pong::write_pong;
use crate::reading::values_behind;
use crate::verdict::{Denial, PingVerdict};
use fwd_base::Bytes;
use fwd_msgpack::Value;
use std::alloc::{AllocError, Global};

/// The user that a client says it is.
#[derive(Clone, Copy)]
struct Claim<'a> {
    username: &'a [u8],
    digest: &'a [u8],
}

/// What a PING says.
#[derive(Clone, Copy)]
struct Ping<'a> {
    hostname: &'a [u8],
    salt: &'a [u8],
    digest: &'a [u8],
    claim: Option<Claim<'a>>,
}

/// The claim of two values, where both are str or bin.
fn claim_of<'a>(username: Value<'a>, digest: Value<'a>) -> Option<Claim<'a>>
    ensures { option_map claim_shown result
        ≡ claim_in (text_of (bytes_of username.entry)) (text_of (bytes_of digest.entry)) }
{
    Some(Claim {
        username: username.text()?,
        digest: digest.text()?,
    })
}

/// What a PING says, if the value is one but for its last two values.
fn ping_of<'a>(value: Value<'a>) -> Option<Ping<'a>>
    ensures { option_map ping_shown result ≡ ping_of (bytes_of value.entry) }
{
    let mut values = values_behind(value, b"PING")?;
    let hostname = values.next()?;
    let salt = values.next()?;
    let digest = values.next()?;
    let username = values.next()?;
    let password = values.next()?;
    if values.next().is_some() {
        return None;
    }
    Some(Ping {
        hostname: hostname.text()?,
        salt: salt.text()?,
        digest: digest.text()?,
        claim: claim_of(username, password),
    })
}

/// Whether a claim is of a user.
fn is_of_user(auth: &[u8], claim: Claim<'_>, user: &User) -> bool
    ensures { result ≡ is_of_user auth.now (claim_shown claim.entry) user.now }
{
    claim.username == user.name.as_slice()
        && claim.digest
            == password_digest(auth, user.name.as_slice(), user.password.as_slice()).as_slice()
}

/// Whether a claim is of one of these users.
fn is_of_any(users: &[User], auth: &[u8], claim: Claim<'_>) -> bool
    ensures { result ≡ list_any (is_of_user auth.now (claim_shown claim.entry)) users.now }
{
    users.iter().any(|user| is_of_user(auth, claim, user))
}

/// Whether a claim is of one of the users, where users are set.
fn is_of_a_user(users: &[User], auth: &[u8], claim: Option<Claim<'_>>) -> bool
    ensures { result ≡ is_of_a_user users.now auth.now (option_map claim_shown claim.entry) }
{
    if users.is_empty() {
        return true;
    }
    match claim {
        Some(claim) => is_of_any(users, auth, claim),
        None => false,
    }
}

/// Why a PING is denied, if it is.
fn denial_of(security: &Security, nonces: &Nonces, ping: Ping<'_>) -> Option<Denial>
    ensures { result ≡ denial_of security.now nonces.now (ping_shown ping.entry) }
{
    if !is_key_digest(
        &security.shared_key,
        ping.salt,
        ping.hostname,
        &nonces.nonce,
        ping.digest,
    ) {
        return Some(Denial::KeyMismatch);
    }
    if !is_of_a_user(security.users.as_slice(), &nonces.auth, ping.claim) {
        return Some(Denial::UserMismatch);
    }
    None
}

/// The PONG that lets a client in.
fn passing(
    alloc: Global,
    security: &Security,
    nonce: &[u8],
    salt: &[u8],
) -> Result<Bytes, AllocError>
    ensures { IfOk result (λ pong. pong ≡ passing security.now nonce.now salt.now) }
{
    let host = security.hostname.as_slice();
    let digest = key_digest(salt, host, nonce, key_bytes(&security.shared_key));
    write_pong(alloc, true, b"", host, &digest)
}

/// What a value is that a source sent after HELO, and the PONG that answers it.
/// The first case that holds counts: no PING; a key digest that is not the shared
/// key's; a username and password digest that are not one user's, where users are
/// set; a good PING (Forward Protocol Specification v1, "Handshake Messages",
/// "PING" and "PONG"). The only error is out of memory, and `NotPing` takes none. Where users are
/// set, a PING whose last two values are not both str or bin is no PING, even if its key digest is
/// wrong.
#[tactic(auto, unfolding(crate::specs::Verdicts::ping_verdict))]
pub fn judge_ping(
    alloc: Global,
    value: Value<'_>,
    security: &Security,
    nonces: &Nonces,
) -> Result<PingVerdict, AllocError>
    ensures verdict { IfOk result (λ verdict.
        verdict ≡ ping_verdict security.now nonces.now (bytes_of value.entry)) }
    ensures other { ping_verdict security.now nonces.now (bytes_of value.entry) ≡ NotPing
        → IsOk result }
{
    let Some(ping) = ping_of(value) else {
        return Ok(PingVerdict::NotPing);
    };
    if !security.users.is_empty() && ping.claim.is_none() {
        return Ok(PingVerdict::NotPing);
    }
    match denial_of(security, nonces, ping) {
        Some(denial) => {
            let pong = write_pong(alloc, false, denial.reason(), b"", b"")?;
            Ok(PingVerdict::Deny(pong, denial))
        }
        None => {
            let pong = passing(alloc, security, &nonces.nonce, ping.salt)?;
            Ok(PingVerdict::Pass(pong))
        }
    }
}
