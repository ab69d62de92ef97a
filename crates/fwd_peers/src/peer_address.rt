//! Where a listener listens, and where each connection comes from.

use std::net::SocketAddr;
use std::{fmt, str};

/// The longest path of a Unix socket, in bytes (unix(7)).
const PATH_MAX: usize = 107;

/// The path of a Unix socket.
#[derive(Clone, Copy, Debug, PartialEq, Eq)]
pub struct SocketPath {
    bytes: [u8; PATH_MAX],
    count: usize,
}

impl SocketPath {
    /// This path. A longer one than a Unix socket may have, which the settings refuse, is the empty
    /// path, where nobody can listen.
    pub fn of(path: &str) -> SocketPath {
        let mut bytes = [0; PATH_MAX];
        let fits = path.len() <= PATH_MAX;
        for (to, byte) in bytes.iter_mut().zip(path.as_bytes()) {
            *to = *byte;
        }
        let count = if fits { path.len() } else { 0 };
        SocketPath { bytes, count }
    }

    /// The path as text.
    pub fn as_str(&self) -> &str {
        let count = self.count.min(PATH_MAX);
        str::from_utf8(&self.bytes[..count]).unwrap_or("")
    }
}

impl fmt::Display for SocketPath {
    fn fmt<W: fmt::Write>(&self, f: &mut fmt::Formatter<W>) -> fmt::Result {
        write!(f, "{}", self.as_str())
    }
}

/// Where a listener listens, or where a connection comes from: one that comes by a Unix socket has
/// no address of its own, and is known by the path of that.
#[derive(Clone, Copy, Debug, PartialEq, Eq)]
pub enum PeerAddress {
    Tcp(SocketAddr),
    Unix(SocketPath),
}

impl fmt::Display for PeerAddress {
    fn fmt<W: fmt::Write>(&self, f: &mut fmt::Formatter<W>) -> fmt::Result {
        match self {
            PeerAddress::Tcp(address) => write!(f, "{address}"),
            PeerAddress::Unix(path) => write!(f, "unix:{path}"),
        }
    }
}
