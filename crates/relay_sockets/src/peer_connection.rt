//! A connection, from the other side of the relay.

use crate::frame::ack;
use anyhow::{Result, anyhow, bail};
use fwd_msgpack::{Cut, Limits, cut};
use std::alloc::Global;
use std::io::{ErrorKind, Read, Write};
use std::net::{Net, SocketAddr, TcpListener, TcpStream};
use std::time::Duration;

/// How long a read waits, in milliseconds.
const PATIENCE: u64 = 20_000;

/// How long a read waits for what is not to come, in milliseconds.
const SILENCE: u64 = 300;

/// How often a connection is read for one value, or for its end, at most.
const READS: u32 = 100_000;

/// What a read comes to.
#[derive(Clone, Copy)]
pub enum Came {
    Bytes,
    Nothing,
    Close,
}

/// A connection, and what came over it.
#[derive(Drop)]
pub struct PeerConnection {
    alloc: Global,
    pub stream: TcpStream,
    /// What came and is in no value that was read.
    pub bytes: Vec<u8>,
    /// The values that were read.
    pub values: Vec<Vec<u8>>,
}

impl PeerConnection {
    /// A connection of which nothing was read yet. Its reads wait for a while.
    pub fn new(alloc: Global, stream: TcpStream) -> Result<PeerConnection> {
        stream.set_nonblocking(false)?;
        stream.set_nodelay(true)?;
        stream.set_read_timeout(Some(Duration::from_millis(PATIENCE)))?;
        Ok(PeerConnection {
            alloc,
            stream,
            bytes: Vec::new(alloc),
            values: Vec::new(alloc),
        })
    }

    /// A connection to this address, over which these bytes are sent.
    pub fn open<R: Net<Listener = TcpListener, Stream = TcpStream>>(
        rt: &R,
        alloc: Global,
        address: SocketAddr,
        bytes: &[u8],
    ) -> Result<PeerConnection> {
        let line = PeerConnection::new(alloc, TcpStream::connect(rt, address)?)?;
        line.send(bytes)?;
        Ok(line)
    }

    /// A connection whose reads do not wait.
    pub fn polled(alloc: Global, stream: TcpStream) -> Result<PeerConnection> {
        let line = PeerConnection::new(alloc, stream)?;
        line.stream.set_nonblocking(true)?;
        Ok(line)
    }

    /// Sends all of these bytes.
    pub fn send(&self, bytes: &[u8]) -> Result<()> {
        let mut writer = &self.stream;
        Ok(writer.write_all(bytes)?)
    }

    /// Sends these bytes in pieces of one byte.
    pub fn send_pieces(&self, bytes: &[u8]) -> Result<()> {
        for byte in bytes {
            self.send(&[*byte])?;
        }
        Ok(())
    }

    /// Sends the byte `a` so often, at most as often as there is room for.
    pub fn fill(&self, count: usize) -> Result<()> {
        let all = [b'a'; 8_192];
        self.send(all.get(..count).unwrap_or(&all))
    }

    /// Acknowledges the frames at these places among the values that were read, at once.
    pub fn acknowledge(&self, places: &[usize]) -> Result<()> {
        let mut said = Vec::new(self.alloc);
        for place in places {
            let Some(frame) = self.values.get(*place) else {
                bail!("no such value");
            };
            said.extend_from_slice(&ack(frame)?)?;
        }
        self.send(&said)
    }

    /// Reads what comes next. A side that closes before it has read all that came resets its
    /// connection, which is a close too.
    pub fn read(&mut self) -> Result<Came> {
        let mut room = [0; 16_384];
        let mut reader = &self.stream;
        match reader.read(&mut room) {
            Ok(0) => Ok(Came::Close),
            Ok(count) => {
                self.bytes.extend_from_slice(&room[..count])?;
                Ok(Came::Bytes)
            }
            Err(error) => match error.kind() {
                ErrorKind::WouldBlock | ErrorKind::Interrupted => Ok(Came::Nothing),
                ErrorKind::ConnectionReset => Ok(Came::Close),
                _ => Err(anyhow!("a connection cannot be read")),
            },
        }
    }

    /// Takes the value that the bytes begin with, if it is whole: whether it is.
    pub fn take(&mut self) -> Result<bool> {
        let Cut::Whole(value, count) = cut(&self.bytes, Limits::WIDEST) else {
            return Ok(false);
        };
        self.values
            .push(Vec::from_slice(self.alloc, value.bytes())?)?;
        let behind = self.bytes.get(count..).unwrap_or(&[]);
        self.bytes = Vec::from_slice(self.alloc, behind)?;
        Ok(true)
    }

    /// Reads the next value.
    pub fn next(&mut self) -> Result<()> {
        for _ in 0..READS {
            if self.take()? {
                return Ok(());
            }
            if self.read()? != Came::Bytes {
                break;
            }
        }
        Err(anyhow!("no value comes"))
    }

    /// The last value that was read.
    pub fn last(&self) -> &[u8] {
        match self.values.last() {
            Some(value) => value,
            None => &[],
        }
    }

    /// Waits until something came behind the values that were read.
    pub fn await_more(&mut self) -> Result<()> {
        if self.bytes.is_empty() {
            self.read()?;
        }
        Ok(())
    }

    /// Whether a value begins with these bytes: it is these, or there is more of it.
    fn has(&self, front: &[u8], is_more: bool) -> bool {
        for value in &self.values {
            if value.starts_with(front) && is_more == (value.len() > front.len()) {
                return true;
            }
        }
        false
    }

    /// Whether all values of another connection came, and the one that was not whole there.
    pub fn has_again(&self, other: &PeerConnection) -> bool {
        for value in &other.values {
            if !self.has(value, false) {
                return false;
            }
        }
        self.has(&other.bytes, true)
    }

    /// Reads all that comes up to the close.
    pub fn read_rest(&mut self) -> Result<()> {
        for _ in 0..READS {
            match self.read()? {
                Came::Bytes => {}
                Came::Close => return Ok(()),
                Came::Nothing => break,
            }
        }
        bail!("neither bytes nor a close")
    }

    /// Whether nothing comes for a while.
    pub fn is_silent(&mut self) -> Result<bool> {
        let patience = Some(Duration::from_millis(SILENCE));
        self.stream.set_read_timeout(patience)?;
        let is_silent = self.bytes.is_empty() && self.read()? == Came::Nothing;
        let patience = Some(Duration::from_millis(PATIENCE));
        self.stream.set_read_timeout(patience)?;
        Ok(is_silent)
    }
}
