//! The control socket: over it the relay is asked to stop, and nothing else. Its file's mode says
//! who may connect. What comes there costs the relay a bounded number of calls a turn, and only if
//! the system told of some: it has few connections, and each that comes is read at once, with the
//! others read once more where one of them has to go for it.

use crate::control_text::{ANSWER, ControlAnswer, REQUEST, asked_wait};
use crate::socket_file::{SocketFile, listen_at, remove_socket};
use crate::tokens::CONTROL;
use arrayvec::ArrayString;
use fwd_monitors::StartFault;
use fwd_peers::SocketPath;
use mio::net::{UnixListener, UnixStream};
use mio::{Interest, Poll, Registry};
use std::alloc::Global;
use std::fmt::Write as _;
use std::fs::File;
use std::io::{ErrorKind, Read, Write};
use std::net::Net;
use std::os::unix::io::IntoRawFd;
use std::rt::Files;
use std::{io, mem};

/// The most connections at a time. One more takes the place of the first that has asked nothing, by
/// what it sent until then.
const PEERS: usize = 8;

/// The most connections that are taken in a turn.
const ACCEPTS: u16 = 64;

/// What comes of reading a connection.
#[derive(Clone, Copy)]
enum Heard {
    /// Nothing new.
    Nothing,
    /// It asks the relay to stop within so long (milliseconds).
    Asks(u64),
    /// It is over, or sent what is not understood.
    Over,
}

/// A connection to the control socket.
#[derive(Drop)]
struct ControlPeer {
    stream: UnixStream,
    /// What it sent so far.
    line: [u8; REQUEST],
    len: usize,
    /// It asked the relay to stop, and is told what comes of it.
    has_asked: bool,
}

impl ControlPeer {
    /// One that connects.
    fn new(stream: UnixStream) -> ControlPeer {
        ControlPeer {
            stream,
            line: [0; REQUEST],
            len: 0,
            has_asked: false,
        }
    }

    /// Reads what is there, and says what it asks for: also one that has closed may have asked. One
    /// that asked is read no more: it may end its side, and waits for answers all the same.
    fn hear(&mut self) -> Heard {
        if self.has_asked {
            return Heard::Nothing;
        }
        for _ in 0..REQUEST {
            let Some(room) = self.line.get_mut(self.len..) else {
                return Heard::Over;
            };
            match self.stream.read(room) {
                Ok(0) => return self.asked_last(),
                Ok(count) => self.len = self.len.saturating_add(count),
                Err(error) => match error.kind() {
                    ErrorKind::WouldBlock => return self.asked(),
                    ErrorKind::Interrupted => {}
                    _ => return Heard::Over,
                },
            }
        }
        Heard::Over
    }

    /// What it asks for by what it sent, where no more comes.
    fn asked_last(&mut self) -> Heard {
        match self.asked() {
            Heard::Asks(wait) => Heard::Asks(wait),
            Heard::Nothing | Heard::Over => Heard::Over,
        }
    }

    /// What it asks for by what it sent so far.
    fn asked(&mut self) -> Heard {
        let Some(text) = self.line.get(..self.len) else {
            return Heard::Over;
        };
        let Some((last, line)) = text.split_last() else {
            return Heard::Nothing;
        };
        if *last != b'\n' {
            return Heard::Nothing;
        }
        match asked_wait(line) {
            Some(wait) => {
                self.has_asked = true;
                Heard::Asks(wait)
            }
            None => Heard::Over,
        }
    }

    /// Tells it an answer, if it asked: whether it stays, since it may be gone.
    fn tell(&mut self, line: &str) -> bool {
        if !self.has_asked {
            return true;
        }
        match self.stream.write(line.as_bytes()) {
            Ok(_) => true,
            Err(error) => matches!(error.kind(), ErrorKind::WouldBlock | ErrorKind::Interrupted),
        }
    }
}

/// The less of two times, if there are any.
fn sooner(one: Option<u64>, other: Option<u64>) -> Option<u64> {
    match (one, other) {
        (Some(one), Some(other)) => Some(one.min(other)),
        (Some(wait), None) | (None, Some(wait)) => Some(wait),
        (None, None) => None,
    }
}

/// The control socket, and who is connected to it.
#[derive(Drop)]
pub struct Control {
    listener: UnixListener,
    file: SocketFile,
    peers: Vec<ControlPeer>,
    /// The system told of one of these since they were looked at.
    is_called: bool,
}

impl Control {
    /// Listens at a path, and has the wait tell of it. A socket that an earlier relay left there is
    /// replaced. It fails with `Control` where that cannot be, as where another relay answers.
    pub fn open<R: Net + Files<File = File>>(
        rt: &R,
        alloc: Global,
        poll: &Poll,
        path: SocketPath,
    ) -> Result<Control, StartFault> {
        let peers = Vec::with_capacity(alloc, PEERS)?;
        match Control::listen(rt, poll, path) {
            Ok((listener, file)) => Ok(Control {
                listener,
                file,
                peers,
                is_called: false,
            }),
            Err(_) => Err(StartFault::Control(path)),
        }
    }

    /// A listener that the wait tells of, and its file.
    fn listen<R: Net + Files<File = File>>(
        rt: &R,
        poll: &Poll,
        path: SocketPath,
    ) -> io::Result<(UnixListener, SocketFile)> {
        let (mut listener, file) = listen_at(rt, path)?;
        poll.registry()
            .register(&mut listener, CONTROL, Interest::READABLE)?;
        Ok((listener, file))
    }

    /// The system told that somebody connects, or sent something.
    pub fn notified(&mut self) {
        self.is_called = true;
    }

    /// Reads what was sent, and takes who connects: within how long the relay is asked to stop, in
    /// milliseconds, if it is; the least where several ask.
    pub fn asked(&mut self, registry: &Registry) -> Option<u64> {
        if !mem::replace(&mut self.is_called, false) {
            return None;
        }
        let heard = self.hear_all();
        sooner(heard, self.accept(registry))
    }

    /// Takes who connects: within how long they ask the relay to stop, if they do. Where some are
    /// left, or the system gives none for now, they are looked at again in the next turn.
    fn accept(&mut self, registry: &Registry) -> Option<u64> {
        let mut least = None;
        for _ in 0..ACCEPTS {
            match self.listener.accept() {
                Ok((stream, _)) => least = sooner(least, self.take(registry, stream)),
                Err(error) if error.kind() == ErrorKind::WouldBlock => return least,
                Err(_) => break,
            }
        }
        self.is_called = true;
        least
    }

    /// Takes one that connects, and reads it at once. Where too many are connected all are read
    /// before one of them goes: within how long any of these asks the relay to stop.
    fn take(&mut self, registry: &Registry, stream: UnixStream) -> Option<u64> {
        let mut heard = None;
        if self.peers.len() >= PEERS {
            heard = self.hear_all();
            self.evict();
        }
        if !self.add(registry, stream) {
            return heard;
        }
        let last = self.peers.len().saturating_sub(1);
        sooner(heard, self.hear(last))
    }

    /// Where too many are connected the first goes that has asked nothing.
    fn evict(&mut self) {
        if self.peers.len() < PEERS {
            return;
        }
        if let Some(place) = self.peers.iter().position(|peer| !peer.has_asked) {
            self.peers.remove(place);
        }
    }

    /// One more is connected, if there is a place for it and the system tells of it: whether it is.
    fn add(&mut self, registry: &Registry, stream: UnixStream) -> bool {
        if self.peers.len() >= PEERS {
            return false;
        }
        let mut stream = stream;
        let registered = registry.register(&mut stream, CONTROL, Interest::READABLE);
        registered.is_ok() && self.peers.push(ControlPeer::new(stream)).is_ok()
    }

    /// Reads all connections: within how long they ask the relay to stop, if they do.
    fn hear_all(&mut self) -> Option<u64> {
        let mut least = None;
        for place in (0..self.peers.len()).rev() {
            least = sooner(least, self.hear(place));
        }
        least
    }

    /// Reads the connection at a place: within how long it asks the relay to stop, if it does.
    fn hear(&mut self, place: usize) -> Option<u64> {
        match self.peers.get_mut(place)?.hear() {
            Heard::Nothing => None,
            Heard::Asks(wait) => Some(wait),
            Heard::Over => {
                self.peers.remove(place);
                None
            }
        }
    }

    /// Tells an answer to each that asked. Those go that are gone.
    pub fn tell(&mut self, answer: ControlAnswer) {
        let mut line: ArrayString<ANSWER> = ArrayString::new();
        if write!(line, "{answer}\n").is_err() {
            return;
        }
        for place in (0..self.peers.len()).rev() {
            let stays = match self.peers.get_mut(place) {
                Some(peer) => peer.tell(line.as_str()),
                None => true,
            };
            if !stays {
                self.peers.remove(place);
            }
        }
    }

    /// The relay is about to end: who asked is told a last answer, if there is one, and its file is
    /// removed. The connections stay until the process has ended: so who asked knows that it has.
    pub fn close<R: Net + Files<File = File>>(self, rt: &R, answer: Option<ControlAnswer>) {
        let mut control = self;
        if let Some(answer) = answer {
            control.tell(answer);
        }
        let Control {
            listener,
            file,
            peers,
            is_called: _,
        } = control;
        drop(listener);
        remove_socket(rt, file);
        for peer in peers {
            let _ = peer.stream.into_raw_fd();
        }
    }
}
