//! A server in memory that acts one step for each read of its link, and for each write that it does
//! not take whole.

use crate::batches::{FOURTH, FRAME, OTHER_OUTPUT, SECOND, THIRD};
use fwd_handshake::key_digest;
use fwd_msgpack::{Cut, Limits, cut};
use std::alloc::{AllocError, Global};
use std::mem;

/// The shared key of servers that ask for one.
pub const KEY: &[u8] = b"secret";

/// A server's nonce.
const NONCE: &[u8] = b" fox jumps over ";

/// A server's HELO, and that of one that keeps no connection.
const HELO: &[u8] =
    b"\x92\xa4HELO\x83\xa5nonce\xc4\x10 fox jumps over \xa4auth\xa0\xa9keepalive\xc3";

const FLEETING: &[u8] =
    b"\x92\xa4HELO\x83\xa5nonce\xc4\x10 fox jumps over \xa4auth\xa0\xa9keepalive\xc2";

/// What a PING of the host `relay` begins with. Behind it stand the 32 digits of its salt.
const PING: &[u8] = b"\x96\xa4PING\xa5relay\xd9\x20";

/// What stands before the digest of a PONG that lets a client in.
const PONG: &[u8] = b"\x95\xa4PONG\xc3\xa0\xa6server\xd9\x80";

/// A PONG that lets nobody in.
const DENIAL: &[u8] = b"\x95\xa4PONG\xc2\xa2no\xa0\xa0";

/// What an acknowledgement begins with. Behind it stand the 24 bytes of a chunk's name.
const ACK: &[u8] = b"\x81\xa3ack\xb8";

/// The name of a chunk that nobody sent.
const ANOTHER: &[u8; 24] = b"BBBBBBBBBBBBBBBBBBBBBB==";

/// What a server does at one read of its link. Before that it takes all that is written.
#[derive(Clone, Copy)]
pub enum Act {
    /// It gives nothing.
    Silent,
    /// It gives HELO with this `keepalive`.
    Greets(bool),
    /// It lets the client in.
    LetsIn,
    /// It lets the client in by another key.
    OtherKey,
    /// It does not let the client in.
    Denies,
    /// It acknowledges the last chunk that came.
    Acks,
    /// It acknowledges all chunks that came, the last first.
    AcksAll,
    /// It acknowledges the last chunk that came, and gives a byte that begins no value.
    AcksAndFaults,
    /// It acknowledges a chunk that nobody sent.
    AcksAnother,
    /// It closes its side.
    Closes,
    /// The read fails.
    FailsRead,
    /// The write before it fails.
    FailsWrite,
    /// It takes only so many bytes of one write. No read stands behind a write that was not taken
    /// whole.
    Takes(usize),
}

impl Act {
    /// What is noted of it.
    pub fn name(self) -> &'static str {
        match self {
            Act::Silent => ", silence",
            Act::Takes(_) => ", the rest not taken",
            Act::Greets(_) => ", HELO",
            Act::LetsIn | Act::OtherKey | Act::Denies => ", PONG",
            Act::Acks => ", ack",
            Act::AcksAll => ", all acks",
            Act::AcksAndFaults => ", ack and fault",
            Act::AcksAnother => ", ack of another chunk",
            Act::Closes => ", closed",
            Act::FailsRead => ", read failed",
            Act::FailsWrite => ", write failed",
        }
    }
}

/// What came whole at a server.
#[derive(Clone, Copy)]
pub enum Came {
    /// Nothing yet.
    Nothing,
    /// A PING with this salt.
    Ping([u8; 32]),
    /// A chunk, as it is called.
    Chunk(&'static str),
}

/// What a server knows of its client.
#[derive(Drop)]
pub struct Server {
    alloc: Global,
    /// What came of a message that is not whole yet.
    part: Vec<u8>,
    /// The salt of the PING.
    salt: [u8; 32],
    /// The names of all chunks.
    names: Vec<[u8; 24]>,
}

/// What a message of a client is.
fn title(message: &[u8]) -> &'static str {
    if message == FRAME {
        return "chunk 1";
    }
    if message == SECOND {
        return "chunk 2";
    }
    if message == THIRD {
        return "chunk 3";
    }
    if message == FOURTH {
        return "chunk 4";
    }
    if message == OTHER_OUTPUT {
        return "chunk 1 of output 1";
    }
    "another message"
}

/// The salt of a PING, if a message is one.
fn salt_of(message: &[u8]) -> Option<[u8; 32]> {
    let behind = message.strip_prefix(PING)?;
    Some(*behind.first_chunk::<32>()?)
}

/// Appends the acknowledgement of a chunk.
fn put_ack(bytes: &mut Vec<u8>, name: &[u8; 24]) -> Result<(), AllocError> {
    bytes.extend_from_slice(ACK)?;
    bytes.extend_from_slice(name)
}

impl Server {
    /// It knows nothing yet.
    pub fn new(alloc: Global) -> Server {
        Server {
            alloc,
            part: Vec::new(alloc),
            salt: [0; 32],
            names: Vec::new(alloc),
        }
    }

    /// Bytes come. Answers what came whole by them.
    pub fn hear(&mut self, bytes: &[u8]) -> Came {
        let _ = self.part.extend_from_slice(bytes);
        match cut(&self.part, Limits::WIDEST) {
            Cut::Whole(..) => {}
            _ => return Came::Nothing,
        }
        let message = mem::replace(&mut self.part, Vec::new(self.alloc));
        self.hear_whole(&message)
    }

    /// A message came.
    fn hear_whole(&mut self, message: &[u8]) -> Came {
        if let Some(salt) = salt_of(message) {
            self.salt = salt;
            return Came::Ping(salt);
        }
        if let Some(name) = message.last_chunk::<24>() {
            let _ = self.names.push(*name);
        }
        Came::Chunk(title(message))
    }

    /// Appends the PONG that lets the client in by a key.
    fn put_pong(&self, bytes: &mut Vec<u8>, key: &[u8]) -> Result<(), AllocError> {
        bytes.extend_from_slice(PONG)?;
        bytes.extend_from_slice(&key_digest(&self.salt, b"server", NONCE, key))
    }

    /// Appends the acknowledgements of all chunks, the last first.
    fn put_all(&self, bytes: &mut Vec<u8>) -> Result<(), AllocError> {
        for name in self.names.iter().rev() {
            put_ack(bytes, name)?;
        }
        Ok(())
    }

    /// Appends the acknowledgement of the last chunk, and these bytes.
    fn put_last(&self, bytes: &mut Vec<u8>, behind: &[u8]) -> Result<(), AllocError> {
        if let Some(name) = self.names.last() {
            put_ack(bytes, name)?;
        }
        bytes.extend_from_slice(behind)
    }

    /// Appends what it gives at an act.
    pub fn put(&self, bytes: &mut Vec<u8>, act: Act) -> Result<(), AllocError> {
        match act {
            Act::Greets(true) => bytes.extend_from_slice(HELO),
            Act::Greets(false) => bytes.extend_from_slice(FLEETING),
            Act::LetsIn => self.put_pong(bytes, KEY),
            Act::OtherKey => self.put_pong(bytes, b"another"),
            Act::Denies => bytes.extend_from_slice(DENIAL),
            Act::Acks => self.put_last(bytes, b""),
            Act::AcksAll => self.put_all(bytes),
            Act::AcksAndFaults => self.put_last(bytes, b"\xc1"),
            Act::AcksAnother => put_ack(bytes, ANOTHER),
            _ => Ok(()),
        }
    }
}
