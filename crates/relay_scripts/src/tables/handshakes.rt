//! Calls of fwd_handshake, a line each, and their answers. tests/tables/handshakes.py says what the
//! words of a line are, and has the cases.

use crate::tables::parties::{client, nonces, server, value};
use crate::tables::words::{bytes_of_word, word_of_bytes, words_of_line};
use anyhow::{Result, bail};
use fwd_handshake::{
    Denial, HeloAnswer, Login, Nonces, PingVerdict, PongVerdict, Salt, Security, answer_helo,
    judge_ping, judge_pong, write_helo,
};
use std::alloc::Global;

/// The HELO of a server.
fn helo(alloc: Global, words: &[&str]) -> Result<String> {
    let [host, names, nonce, auth] = *words else {
        bail!("no HELO");
    };
    let security = server(alloc, host, "none", names)?;
    let nonces = nonces(nonce, auth)?;
    let helo = write_helo(alloc, &security, &nonces)?;
    word_of_bytes(alloc, helo.as_slice())
}

/// The verdict on a PING, and the PONG that a server answers.
fn ping_verdict(
    alloc: Global,
    security: &Security,
    nonces: &Nonces,
    ping: &str,
) -> Result<PingVerdict> {
    let ping = bytes_of_word(alloc, ping)?;
    Ok(judge_ping(alloc, value(&ping)?, security, nonces)?)
}

/// The text of a verdict on a PING.
fn ping_text(alloc: Global, verdict: &PingVerdict) -> Result<String> {
    let (word, pong) = match verdict {
        PingVerdict::Pass(pong) => ("pass", pong),
        PingVerdict::Deny(pong, Denial::KeyMismatch) => ("key", pong),
        PingVerdict::Deny(pong, Denial::UserMismatch) => ("user", pong),
        PingVerdict::NotPing => return Ok(String::from_str(alloc, "not_ping")?),
    };
    let pong = word_of_bytes(alloc, pong.as_slice())?;
    Ok(format!(in alloc; "{word} {pong}")?)
}

/// A server's verdict on a PING, with the PONG that it answers.
fn ping(alloc: Global, words: &[&str]) -> Result<String> {
    let [host, shared, names, nonce, auth, ping] = *words else {
        bail!("no PING");
    };
    let nonces = nonces(nonce, auth)?;
    let security = server(alloc, host, shared, names)?;
    let verdict = ping_verdict(alloc, &security, &nonces, ping)?;
    ping_text(alloc, &verdict)
}

/// A client's answer to a HELO, under a salt.
fn helo_answer(alloc: Global, login: &Login, salt: &str, helo: &str) -> Result<HeloAnswer> {
    let salt = bytes_of_word(alloc, salt)?;
    let helo = bytes_of_word(alloc, helo)?;
    let Some(salt) = Salt::new(&salt) else {
        bail!("no salt");
    };
    Ok(answer_helo(alloc, value(&helo)?, login, salt)?)
}

/// The text of a PING, by the nonce and the keepalive of the HELO that it answers.
fn ping_words(alloc: Global, ping: &[u8], nonce: &[u8], keepalive: bool) -> Result<String> {
    let word = if keepalive { "keep" } else { "close" };
    let nonce = word_of_bytes(alloc, nonce)?;
    let ping = word_of_bytes(alloc, ping)?;
    Ok(format!(in alloc; "{word} {nonce} {ping}")?)
}

/// A client's answer to the HELO of a line.
fn client_answer(alloc: Global, words: &[&str]) -> Result<HeloAnswer> {
    let [host, shared, name, password, salt, helo] = *words else {
        bail!("no answer");
    };
    let login = client(alloc, host, shared, name, password)?;
    helo_answer(alloc, &login, salt, helo)
}

/// The text of an answer to a HELO.
fn answer_text(alloc: Global, answer: &HeloAnswer) -> Result<String> {
    match answer {
        HeloAnswer::Ping {
            bytes,
            nonce,
            keepalive,
        } => ping_words(alloc, bytes.as_slice(), nonce.as_slice(), *keepalive),
        HeloAnswer::NotHelo => Ok(String::from_str(alloc, "not_helo")?),
    }
}

/// What a client answers to the HELO of a line, as text.
fn answer_to_helo(alloc: Global, words: &[&str]) -> Result<String> {
    let answer = client_answer(alloc, words)?;
    answer_text(alloc, &answer)
}

/// The verdict on a PONG.
fn pong_verdict(
    alloc: Global,
    login: &Login,
    salt: &str,
    nonce: &str,
    pong: &str,
) -> Result<PongVerdict> {
    let salt = bytes_of_word(alloc, salt)?;
    let nonce = bytes_of_word(alloc, nonce)?;
    let pong = bytes_of_word(alloc, pong)?;
    Ok(judge_pong(value(&pong)?, login, &salt, &nonce))
}

/// The word for a verdict on a PONG.
fn pong_word(verdict: PongVerdict) -> &'static str {
    match verdict {
        PongVerdict::Pass => "pass",
        PongVerdict::Denied => "denied",
        PongVerdict::BadDigest => "bad_digest",
        PongVerdict::NotPong => "not_pong",
    }
}

/// A client's verdict on a PONG.
fn pong(alloc: Global, words: &[&str]) -> Result<String> {
    let [shared, salt, nonce, pong] = *words else {
        bail!("no PONG");
    };
    let login = client(alloc, "-", shared, "-", "-")?;
    let verdict = pong_verdict(alloc, &login, salt, nonce, pong)?;
    Ok(String::from_str(alloc, pong_word(verdict))?)
}

/// Makes the call of a line.
fn answer_to_line(alloc: Global, line: &str) -> Result<String> {
    let words = words_of_line(alloc, line)?;
    match words.as_slice() {
        ["helo", words @ ..] => helo(alloc, words),
        ["ping", words @ ..] => ping(alloc, words),
        ["answer", words @ ..] => answer_to_helo(alloc, words),
        ["pong", words @ ..] => pong(alloc, words),
        _ => bail!("no call: {line}"),
    }
}

/// Prints the answer to each call.
pub(crate) fn print_handshakes<R: Print + AllocGlobal>(rt: &R, text: &str) -> Result<()> {
    for line in text.lines() {
        let answer = answer_to_line(rt.alloc(), line)?;
        println!(rt; "{answer}")?;
    }
    Ok(())
}
