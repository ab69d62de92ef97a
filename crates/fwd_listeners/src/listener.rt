//! A listener, and whether connections wait there.

use crate::socket_file::{SocketFile, listen_at};
use fwd_links::lacks_descriptors;
use fwd_monitors::StartFault;
use fwd_peers::{PeerAddress, PeerSocket};
use mio::net::{TcpListener, UnixListener};
use mio::{Interest, Poll, Token};
use std::fs::File;
use std::io;
use std::io::ErrorKind;
use std::net::Net;
use std::rt::Files;

/// Whether connections wait.
#[derive(Clone, Copy)]
enum Calling {
    /// None does, until the listener tells so.
    Quiet,
    /// There may be some.
    Now,
    /// There may be some, and the system could not give the last one.
    Later,
}

/// What comes of asking for the next connection.
#[derive(Drop)]
pub enum Arrival {
    /// It came, from this address.
    Came(PeerSocket, PeerAddress),
    /// One waits, and no descriptor is left for it.
    Starved,
    /// None waits, or the system cannot give it.
    None,
}

/// A socket that listens, by TCP or at a path.
#[derive(Drop)]
enum ListenerSocket {
    Tcp(TcpListener),
    /// With its file.
    Unix(UnixListener, SocketFile),
}

impl ListenerSocket {
    /// Listens at an address, and has the wait tell of it by this token. A Unix socket that an
    /// earlier relay left at the path is replaced.
    fn open<R: Net + Files<File = File>>(
        rt: &R,
        poll: &Poll,
        address: PeerAddress,
        token: Token,
    ) -> io::Result<ListenerSocket> {
        let registry = poll.registry();
        match address {
            PeerAddress::Tcp(address) => {
                let mut listener = TcpListener::bind(rt, address)?;
                registry.register(&mut listener, token, Interest::READABLE)?;
                Ok(ListenerSocket::Tcp(listener))
            }
            PeerAddress::Unix(path) => {
                let (mut listener, file) = listen_at(rt, path)?;
                registry.register(&mut listener, token, Interest::READABLE)?;
                Ok(ListenerSocket::Unix(listener, file))
            }
        }
    }

    /// Its file, if it has one.
    fn file(&self) -> Option<SocketFile> {
        match self {
            ListenerSocket::Tcp(_) => None,
            ListenerSocket::Unix(_, file) => Some(*file),
        }
    }

    /// The next connection, which comes from an address, or from this one where it has none.
    fn accept(&self, own: PeerAddress) -> io::Result<(PeerSocket, PeerAddress)> {
        match self {
            ListenerSocket::Tcp(listener) => {
                let (stream, peer) = listener.accept()?;
                let _ = stream.set_nodelay(true);
                Ok((PeerSocket::Tcp(stream), PeerAddress::Tcp(peer)))
            }
            ListenerSocket::Unix(listener, _) => {
                let (stream, _) = listener.accept()?;
                Ok((PeerSocket::Unix(stream), own))
            }
        }
    }
}

/// A listener.
pub struct Listener {
    /// Until it is closed.
    listener: Option<ListenerSocket>,
    /// Where it listens.
    address: PeerAddress,
    /// Its file, if it has one, which stays when it is closed.
    file: Option<SocketFile>,
    calling: Calling,
}

// A drop of its own is proved once, and not at each place where a listener goes.
impl Drop for Listener {
    fn drop(self) {
        let Listener {
            listener: _,
            address: _,
            file: _,
            calling: _,
        } = self;
    }
}

impl Listener {
    /// Listens at an address, and has the wait tell of it by this token.
    pub fn open<R: Net + Files<File = File>>(
        rt: &R,
        poll: &Poll,
        address: PeerAddress,
        token: Token,
    ) -> Result<Listener, StartFault> {
        match ListenerSocket::open(rt, poll, address, token) {
            Ok(listener) => Ok(Listener {
                file: listener.file(),
                listener: Some(listener),
                address,
                calling: Calling::Quiet,
            }),
            Err(_) => Err(StartFault::Listen(address)),
        }
    }

    /// Where it listens.
    pub fn address(&self) -> PeerAddress {
        self.address
    }

    /// Its file, if it has one: also that of a closed one.
    pub fn file(&self) -> Option<SocketFile> {
        self.file
    }

    /// The listener told that connections wait.
    pub fn notified(&mut self) {
        self.calling = Calling::Now;
    }

    /// Whether the next wait is to be short, since connections may wait of which the listener will
    /// not tell again.
    pub fn is_urgent(&self) -> bool {
        self.calling == Calling::Now
    }

    /// Whether none waits, by what the system told last.
    pub fn is_quiet(&self) -> bool {
        self.calling == Calling::Quiet
    }

    /// It is closed: nobody connects any more. Who waits is refused.
    pub fn close(&mut self) {
        self.listener = None;
        self.calling = Calling::Quiet;
    }

    /// Whether it is not closed.
    pub fn is_open(&self) -> bool {
        self.listener.is_some()
    }

    /// The next connection that waits, if there is one. Where the system cannot give it, as for
    /// want of descriptors, it is tried again after the next wait.
    pub fn next(&mut self) -> Arrival {
        if self.calling == Calling::Quiet {
            return Arrival::None;
        }
        let Some(listener) = &self.listener else {
            return Arrival::None;
        };
        match listener.accept(self.address) {
            Ok((socket, peer)) => {
                self.calling = Calling::Now;
                Arrival::Came(socket, peer)
            }
            Err(error) => self.refused(&error),
        }
    }

    /// The system did not give a connection.
    fn refused(&mut self, error: &io::Error) -> Arrival {
        self.calling = match error.kind() {
            ErrorKind::WouldBlock => Calling::Quiet,
            ErrorKind::Interrupted | ErrorKind::ConnectionAborted => Calling::Now,
            _ => Calling::Later,
        };
        if lacks_descriptors(error) {
            Arrival::Starved
        } else {
            Arrival::None
        }
    }
}
