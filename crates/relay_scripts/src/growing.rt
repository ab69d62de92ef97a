//! Each call that takes memory by itself, and what it comes to: a line `NAME: ANSWER` a call. Where
//! memory is refused to a call the line `NAME: memory` says so, and it is made again. Meanwhile
//! nothing has changed, as far as the value's own calls tell; else a line says that too.
//!
//! `tests/memory/test_refused.py` has memory refused to each in turn. What is no call of the list
//! is made again where it is refused memory, and nothing is said of it. The function that makes a
//! call tells its answer too, so that what the call gives is dropped in one place and not on each
//! way out.

use crate::digits::Hex;
use crate::growing_chunks;
use fwd_base::{Bytes, Seq};
use fwd_chunks::{Counts, Report, TagCount};
use fwd_core::Relay;
use fwd_failover::Servers;
use fwd_handshake::{
    HeloAnswer, Login, Nonces, PingVerdict, Salt, Security, answer_helo, judge_ping, write_helo,
};
use fwd_match::Pattern;
use fwd_model::Answer;
use fwd_modes::{
    Reading, chunk_name, read_request, write_ack, write_chunk, write_chunk_head, write_chunk_tail,
};
use fwd_monitor::{Reply, answer, page};
use fwd_msgpack::{Cut, Head, Limits, Value, cut, write_head};
use fwd_script::{print_answer, read_config, read_event};
use fwd_settings::read_settings;
use fwd_source::{Piece, Source};
use std::alloc::{AllocError, Global};
use std::fmt;
use std::rt::Runtime;
use std::sync::Arc;

/// Prints what a call comes to.
pub fn tell<T: fmt::Display>(rt: &impl Print, name: &str, answer: &T) {
    let _ = println!(rt; "{name}: {answer}");
}

/// Prints that a call was refused memory, and where something has changed that too.
pub fn tell_refused(rt: &impl Print, name: &str, is_same: bool) {
    if !is_same {
        tell(rt, name, &"changed");
    }
    tell(rt, name, &"memory");
}

/// Makes a call, and again where it was refused memory, which is printed. So is where the value
/// that is read off before and after a refusal is another one, if the call has one to change.
macro_rules! call {
    ($rt:expr, $name:literal, $call:expr) => {
        if $call.is_err() {
            tell_refused($rt, $name, true);
            let _again = $call;
        }
    };
    ($rt:expr, $name:literal, $value:expr, $call:expr) => {
        let before = $value;
        if $call.is_err() {
            tell_refused($rt, $name, $value == before);
            let _again = $call;
        }
    };
}

/// What a call gives that is none of the list, at the second try where the first one was refused
/// memory.
macro_rules! again {
    ($call:expr) => {
        match $call {
            Ok(given) => given,
            Err(_) => $call.ok()?,
        }
    };
}

pub(crate) use again;
pub(crate) use call;

const LIMITS: Limits = Limits {
    bytes: 16_777_216,
    depth: 64,
};

/// The worked nonce and its handshake: HELO, PING and PONG, each before its digest.
const NONCES: Nonces = Nonces {
    nonce: *b" fox jumps over ",
    auth: [0; 16],
};

pub const HELO: &[u8] =
    b"\x92\xa4HELO\x83\xa5nonce\xc4\x10 fox jumps over \xa4auth\xa0\xa9keepalive\xc3";

/// PING of the worked handshake.
const PING: &[u8] = b"\x96\xa4PING\xa5brown\xaaThe quick \xd9\x80\
    07e547d9586f6a73f73fbac0435ed76951218fb7d0c8d788a309d785436bbb64\
    2e93a252a954f23912547d1e8a3b5ed6e1bfd7097821233fa0538f3db854fee6\xa0\xa0";

/// The request that asks for an acknowledgement with the text `x`.
const ASKING: &[u8] = b"\x94\xa1a\x01\x80\x81\xa5chunk\xa1x";

/// Settings of one output.
const SETTINGS: &[u8] =
    b"[[output]]\nmatch = \"a.*\"\n[[output.server]]\naddress = \"127.0.0.1:1\"\n";

/// The one whole value of these bytes.
fn whole(bytes: &[u8]) -> Option<Value<'_>> {
    match cut(bytes, LIMITS) {
        Cut::Whole(value, _) => Some(value),
        _ => None,
    }
}

/// Prints the bytes that a call gives.
fn tell_bytes<R: Print>(
    rt: &R,
    name: &str,
    bytes: Result<Vec<u8>, AllocError>,
) -> Result<(), AllocError> {
    tell(rt, name, &Hex(&bytes?));
    Ok(())
}

/// A head behind another one.
fn call_heads<R: Print + AllocGlobal>(rt: &R) -> Option<()> {
    let mut out = again!(Vec::from_slice(rt.alloc(), b"\xc0"));
    call!(
        rt,
        "write_head",
        out.len(),
        write_head(&mut out, Head::Str(300))
    );
    tell(rt, "write_head", &Hex(&out));
    Some(())
}

/// A frame in two parts and whole, and its acknowledgement.
fn call_frames<R: Print + AllocGlobal>(rt: &R) {
    let alloc = rt.alloc();
    let name = chunk_name(&[0; 6], 0, 1);
    call!(
        rt,
        "write_chunk_head",
        tell_bytes(rt, "write_chunk_head", write_chunk_head(alloc, b"a", 3))
    );
    call!(
        rt,
        "write_chunk_tail",
        tell_bytes(rt, "write_chunk_tail", write_chunk_tail(alloc, 1, &name))
    );
    let entry = b"\x92\x01\x80";
    call!(
        rt,
        "write_chunk",
        tell_bytes(rt, "write_chunk", write_chunk(alloc, b"a", entry, 1, &name))
    );
    call!(
        rt,
        "write_ack",
        tell_bytes(rt, "write_ack", write_ack(alloc, b"\xa1x"))
    );
}

/// A request.
fn tell_request<R: Print + AllocGlobal>(rt: &R, value: Value<'_>) -> Result<(), AllocError> {
    if let Reading::Asks(batch) = read_request(rt.alloc(), value, LIMITS)? {
        let (tag, entries) = (Hex(batch.tag()), Hex(batch.entries()));
        tell(rt, "read_request", &format_args!("{tag} {entries}"));
    }
    Ok(())
}

/// The server's side of the worked handshake.
fn security(alloc: Global) -> Result<Arc<Security>, AllocError> {
    let security = Security {
        hostname: Bytes::from_slice(alloc, b"brown")?,
        shared_key: Some(Bytes::from_slice(alloc, b"the lazy dog")?),
        users: Seq::new(alloc),
    };
    Ok(Arc::new(alloc, security)?)
}

/// The client's side.
pub fn login(alloc: Global) -> Result<Arc<Login>, AllocError> {
    let login = Login {
        hostname: Bytes::from_slice(alloc, b"brown")?,
        shared_key: Some(Bytes::from_slice(alloc, b"the lazy dog")?),
        username: Bytes::new(alloc),
        password: Bytes::new(alloc),
    };
    Ok(Arc::new(alloc, login)?)
}

/// A server's HELO.
fn tell_helo<R: Print + AllocGlobal>(rt: &R, security: &Security) -> Result<(), AllocError> {
    let helo = write_helo(rt.alloc(), security, &NONCES)?;
    tell(rt, "write_helo", &Hex(helo.as_slice()));
    Ok(())
}

/// The PONG for a good PING.
fn tell_pong<R: Print + AllocGlobal>(
    rt: &R,
    security: &Security,
    ping: Value<'_>,
) -> Result<(), AllocError> {
    if let PingVerdict::Pass(pong) = judge_ping(rt.alloc(), ping, security, &NONCES)? {
        tell(rt, "judge_ping", &Hex(pong.as_slice()));
    }
    Ok(())
}

/// The PING for a HELO.
fn tell_ping<R: Print + AllocGlobal>(
    rt: &R,
    login: &Login,
    helo: Value<'_>,
    salt: Salt<'_>,
) -> Result<(), AllocError> {
    if let HeloAnswer::Ping { bytes, .. } = answer_helo(rt.alloc(), helo, login, salt)? {
        tell(rt, "answer_helo", &Hex(bytes.as_slice()));
    }
    Ok(())
}

/// The handshake of a client.
fn call_client<R: Print + AllocGlobal>(rt: &R) -> Option<()> {
    let helo = whole(HELO)?;
    let salt = Salt::new(b"The quick ")?;
    let login = again!(login(rt.alloc()));
    call!(rt, "answer_helo", tell_ping(rt, &login, helo, salt));
    Some(())
}

/// What a connection hears.
fn tell_piece<R: Print + AllocGlobal>(
    rt: &R,
    source: &mut Source,
    piece: &[u8],
) -> Result<(), AllocError> {
    let told = source.piece(rt.alloc(), piece)?;
    if let Piece::Waiting(count) = told.piece {
        let out = Hex(told.out.as_slice());
        tell(rt, "source piece", &format_args!("{count} out {out}"));
    }
    Ok(())
}

/// What is put behind the bytes that wait at a connection, of which none do at first.
fn call_answers<R: Print + AllocGlobal>(rt: &R, source: &mut Source) {
    source.drained(source.out().len());
    call!(
        rt,
        "source answer",
        source.out().len(),
        source.answer(&[b'x'; 4000])
    );
    tell(rt, "source answer", &source.out().len());
    call!(
        rt,
        "source reserve",
        source.out().len(),
        source.reserve(9000)
    );
    tell(rt, "source reserve", &source.answer(&[b'y'; 9000]).is_ok());
}

/// A connection of this side. Nothing is left of one that was refused memory.
fn open_source<R: Print + AllocGlobal>(rt: &R, security: Arc<Security>) -> Option<Source> {
    match Source::new(rt.alloc(), 1, security, NONCES, LIMITS) {
        Ok(source) => Some(source),
        Err(failed) => {
            tell_refused(rt, "source new", true);
            Source::new(rt.alloc(), 1, failed.value, NONCES, LIMITS).ok()
        }
    }
}

/// A connection that logs in and sends a request in two pieces.
fn call_pieces<R: Print + AllocGlobal>(rt: &R, source: &mut Source) {
    let (front, back) = ASKING.split_at(5);
    for piece in [PING, front, back] {
        call!(
            rt,
            "source piece",
            (source.waiting(), source.out().len()),
            tell_piece(rt, source, piece)
        );
    }
}

/// The handshake of a server, and a connection.
fn call_source<R: Print + AllocGlobal>(rt: &R) -> Option<()> {
    let ping = whole(PING)?;
    let security = again!(security(rt.alloc()));
    call!(rt, "write_helo", tell_helo(rt, &security));
    call!(rt, "judge_ping", tell_pong(rt, &security, ping));
    let mut source = open_source(rt, security)?;
    tell(rt, "source new", &Hex(source.out()));
    call_pieces(rt, &mut source);
    call_answers(rt, &mut source);
    Some(())
}

/// A pattern of two words, the first with two spellings.
fn tell_pattern<R: Print + AllocGlobal>(rt: &R) -> Result<(), AllocError> {
    let pattern = Pattern::read(rt.alloc(), "{a,b}.c x").map_err(|_| AllocError)?;
    let (is_one, is_other) = (pattern.matches(b"b.c"), pattern.matches(b"a"));
    tell(rt, "pattern read", &format_args!("{is_one} {is_other}"));
    Ok(())
}

/// Servers.
fn tell_servers<R: Print + AllocGlobal>(rt: &R) -> Result<(), AllocError> {
    let mut servers = Servers::new(rt.alloc(), &[false, true], 500, 4000)?;
    tell(rt, "servers new", &(servers.choose(0, 0) == Some(0)));
    Ok(())
}

/// The worked report: three entries accepted, one of the tag `a` held.
fn report(alloc: Global) -> Result<Report, AllocError> {
    let mut tags = Seq::new(alloc);
    tags.push(TagCount {
        tag: Bytes::from_slice(alloc, b"a")?,
        held: 1,
        bytes: 3,
    })?;
    let counts = Counts {
        accepted: 3,
        settled: 2,
        held: 1,
        bytes: 3,
        chunks: 1,
    };
    Ok(Report { counts, tags })
}

/// The last line of the page that is made here.
const TAG_LINE: &str = "tag 61 held 1 bytes 3\n";

/// The monitor's page: whether it ends with its tag's line.
fn tell_page<R: Print + AllocGlobal>(rt: &R, reports: &[Report]) -> Result<(), AllocError> {
    let text = page(rt.alloc(), reports)?;
    tell(rt, "monitor page", &text.as_str().ends_with(TAG_LINE));
    Ok(())
}

/// The answer to a head that asks for it: whether it ends so, too.
fn tell_reply<R: Print + AllocGlobal>(rt: &R, reports: &[Report]) -> Result<(), AllocError> {
    if let Reply::Bytes(bytes) = answer(rt.alloc(), b"GET / HTTP/1.1\r\n\r\n", reports, false)? {
        let is_page = bytes.as_slice().ends_with(TAG_LINE.as_bytes());
        tell(rt, "monitor answer", &is_page);
    }
    Ok(())
}

/// The monitor.
fn call_monitor<R: Print + AllocGlobal>(rt: &R) -> Option<()> {
    let reports = [again!(report(rt.alloc()))];
    call!(rt, "monitor page", tell_page(rt, &reports));
    call!(rt, "monitor answer", tell_reply(rt, &reports));
    Some(())
}

/// Settings.
fn tell_settings<R: Print + AllocGlobal>(rt: &R) -> Result<(), AllocError> {
    let settings = read_settings(rt.alloc(), SETTINGS).map_err(|_| AllocError)?;
    let outputs = settings.outputs.len();
    tell(rt, "read_settings", &format_args!("{outputs} outputs"));
    Ok(())
}

/// A script's line.
fn tell_event<R: Print + AllocGlobal>(rt: &R) -> Result<(), AllocError> {
    let event = read_event(rt.alloc(), b"piece 1 93a1610180")?;
    tell(rt, "read_event", &event.is_some());
    Ok(())
}

/// An answer's line.
fn tell_answer<R: Print + AllocGlobal>(rt: &R) -> Result<(), AllocError> {
    let answer = Answer::Admitted {
        request: 2,
        entries: 3,
    };
    tell(rt, "print_answer", &print_answer(rt.alloc(), &answer)?);
    Ok(())
}

/// A relay by the settings that an empty text stands for.
fn relay(alloc: Global) -> Result<Relay, AllocError> {
    let config = read_config(alloc, b"").map_err(|_| AllocError)?;
    Ok(Relay::new(alloc, config)?)
}

/// What a relay counts.
fn tell_counts<R: Print + AllocGlobal>(rt: &R, relay: &Relay) -> Result<(), AllocError> {
    tell(rt, "relay counts", &relay.counts(rt.alloc())?.len());
    Ok(())
}

/// What a relay reports.
fn tell_reports<R: Print + AllocGlobal>(rt: &R, relay: &Relay) -> Result<(), AllocError> {
    tell(rt, "relay reports", &relay.reports(rt.alloc())?.len());
    Ok(())
}

/// A relay.
fn call_relay<R: Print + AllocGlobal>(rt: &R) -> Option<()> {
    let relay = again!(relay(rt.alloc()));
    call!(rt, "relay counts", tell_counts(rt, &relay));
    call!(rt, "relay reports", tell_reports(rt, &relay));
    Some(())
}

/// Makes each call.
pub fn call_all<R: Runtime + AllocGlobal>(rt: &R) -> Option<()> {
    call_heads(rt)?;
    call_frames(rt);
    let asking = whole(ASKING)?;
    call!(rt, "read_request", tell_request(rt, asking));
    call_client(rt)?;
    call_source(rt)?;
    call!(rt, "pattern read", tell_pattern(rt));
    call!(rt, "servers new", tell_servers(rt));
    call_monitor(rt)?;
    call!(rt, "read_settings", tell_settings(rt));
    call!(rt, "read_event", tell_event(rt));
    call!(rt, "print_answer", tell_answer(rt));
    call_relay(rt)?;
    growing_chunks::call_all(rt)
}
