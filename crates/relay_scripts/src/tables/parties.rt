//! The two ends of a handshake, as the words of a line spell them.

ghost use Rattle.std.specs.Prelude.{◌<◌, ◌^◌, length, IfOk};

use crate::tables::words::bytes_of_word;
use anyhow::{Result, bail};
use fwd_base::{Bytes, Seq};
use fwd_handshake::{Login, Nonces, Security, User};
use fwd_msgpack::{Cut, Limits, Value, cut};
use hex::FromHex;
use std::alloc::Global;

/// The shared key of a word.
fn key(alloc: Global, word: &str) -> Result<Option<Bytes>> {
    if word == "none" {
        return Ok(None);
    }
    let key = bytes_of_word(alloc, word)?;
    Ok(Some(Bytes::from_vec(key)))
}

/// The user of a word.
fn user(alloc: Global, word: &str) -> Result<User> {
    let Some((name, password)) = word.split_once(':') else {
        bail!("no user: {word}");
    };
    let name = bytes_of_word(alloc, name)?;
    let password = bytes_of_word(alloc, password)?;
    Ok(User {
        name: Bytes::from_vec(name),
        password: Bytes::from_vec(password),
    })
}

/// The users of a word.
fn users(alloc: Global, word: &str) -> Result<Seq<User>> {
    let mut users = Seq::new(alloc);
    if word == "-" {
        return Ok(users);
    }
    for part in word.split(',') {
        users.push(user(alloc, part)?)?;
    }
    Ok(users)
}

/// The nonces of two words.
pub(crate) fn nonces(nonce: &str, auth: &str) -> Result<Nonces> {
    let nonce = <[u8; 16] as FromHex>::from_hex(nonce)?;
    let auth = <[u8; 16] as FromHex>::from_hex(auth)?;
    Ok(Nonces { nonce, auth })
}

/// The one whole value of the bytes.
pub(crate) fn value(bytes: &[u8]) -> Result<Value<'_>> {
    match cut(bytes, Limits::WIDEST) {
        Cut::Whole(value, _) => Ok(value),
        _ => bail!("no value"),
    }
}

/// The bytes of a name, of which there are few enough for a str.
fn name_of(alloc: Global, word: &str) -> Result<Bytes>
    ensures { IfOk result (λ name. length name < 2 ^ 32) }
{
    let name = bytes_of_word(alloc, word)?;
    if name.len() >= 0x1_0000_0000 {
        bail!("a name of {} bytes", name.len());
    }
    Ok(Bytes::from_vec(name))
}

/// A server.
pub(crate) fn server(alloc: Global, host: &str, shared: &str, names: &str) -> Result<Security> {
    let hostname = name_of(alloc, host)?;
    let shared_key = key(alloc, shared)?;
    let users = users(alloc, names)?;
    Ok(Security {
        hostname,
        shared_key,
        users,
    })
}

/// A client.
pub(crate) fn client(
    alloc: Global,
    host: &str,
    shared: &str,
    name: &str,
    password: &str,
) -> Result<Login> {
    let hostname = name_of(alloc, host)?;
    let shared_key = key(alloc, shared)?;
    let username = name_of(alloc, name)?;
    let password = bytes_of_word(alloc, password)?;
    Ok(Login {
        hostname,
        shared_key,
        username,
        password: Bytes::from_vec(password),
    })
}
