//! The sockets that connections of sources and monitors come by.

ghost use Rattle.std.specs.Io.{ReadsAtMost, WritesAtMost};

use mio::event::Source;
use mio::net::{TcpStream, UnixStream};
use mio::{Interest, Registry, Token};
use std::io;
use std::io::{Read, Write};
use std::net::Shutdown;
use std::os::fd::AsFd;

/// A connection's socket, which does not wait: by TCP, or a Unix socket.
#[derive(Drop)]
pub enum PeerSocket {
    Tcp(TcpStream),
    Unix(UnixStream),
}

impl PeerSocket {
    /// Whether a read that gives some bytes and does not fill its room says that no more are there,
    /// so that the system tells once there are. epoll(7) says so of every stream socket. Linux
    /// keeps it over TCP, but at the mark of urgent data. A read of a Unix socket also stops behind
    /// bytes that descriptors came with, whatever lies behind these, and no event tells of that: so
    /// such a socket is read until it would wait.
    pub fn is_spent_by_short_read(&self) -> bool {
        match self {
            PeerSocket::Tcp(_) => true,
            PeerSocket::Unix(_) => false,
        }
    }

    /// Reads once. Descriptors that come with the bytes are dropped by the system.
    pub fn read(&mut self, room: &mut [u8]) -> io::Result<usize>
        ensures { ReadsAtMost result room.new }
    {
        match self {
            PeerSocket::Tcp(stream) => stream.read(room),
            PeerSocket::Unix(stream) => stream.read(room),
        }
    }

    /// Writes once.
    pub fn write(&mut self, bytes: &[u8]) -> io::Result<usize>
        ensures { WritesAtMost result bytes.now }
    {
        match self {
            PeerSocket::Tcp(stream) => stream.write(bytes),
            PeerSocket::Unix(stream) => stream.write(bytes),
        }
    }

    /// Looks at the bytes that a read would give, which stay. The call is the same for all stream
    /// sockets (recv(2)); the type of a Unix stream lacks it, so that a copy of its descriptor is
    /// looked at as one of TCP.
    pub fn peek(&self, room: &mut [u8]) -> io::Result<usize>
        ensures { ReadsAtMost result room.new }
    {
        match self {
            PeerSocket::Tcp(stream) => stream.peek(room),
            PeerSocket::Unix(stream) => {
                let copy = stream.as_fd().try_clone_to_owned()?;
                TcpStream::from(copy).peek(room)
            }
        }
    }

    /// The other side is told that no more comes, or that no more is read.
    pub fn shutdown(&self, how: Shutdown) -> io::Result<()> {
        match self {
            PeerSocket::Tcp(stream) => stream.shutdown(how),
            PeerSocket::Unix(stream) => stream.shutdown(how),
        }
    }
}

impl Source for PeerSocket {
    fn register(
        &mut self,
        registry: &Registry,
        token: Token,
        interests: Interest,
    ) -> io::Result<()> {
        match self {
            PeerSocket::Tcp(stream) => stream.register(registry, token, interests),
            PeerSocket::Unix(stream) => stream.register(registry, token, interests),
        }
    }

    fn reregister(
        &mut self,
        registry: &Registry,
        token: Token,
        interests: Interest,
    ) -> io::Result<()> {
        match self {
            PeerSocket::Tcp(stream) => stream.reregister(registry, token, interests),
            PeerSocket::Unix(stream) => stream.reregister(registry, token, interests),
        }
    }

    fn deregister(&mut self, registry: &Registry) -> io::Result<()> {
        match self {
            PeerSocket::Tcp(stream) => stream.deregister(registry),
            PeerSocket::Unix(stream) => stream.deregister(registry),
        }
    }
}
