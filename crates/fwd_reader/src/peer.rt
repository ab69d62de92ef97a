//! A connection of a source or of a monitor.

ghost use Rattle.std.specs.Prelude.{◌≡◌};
ghost use Rattle.fwd_reader.specs.Lateness.{is_unknown, limit_of};

use fwd_history::Run;
use fwd_monitors::MonitorPeer;
use fwd_peers::{PeerSocket, SourcePeer};

/// How long a source has to log in, where a shared key is set, in milliseconds.
pub(crate) const LOGIN_LIMIT: u64 = 30_000;

/// How long a monitor has to send its request's head, in milliseconds.
pub(crate) const HEAD_LIMIT: u64 = 10_000;

/// A connection.
pub enum Peer<J: Run> {
    Source(SourcePeer<J>),
    Monitor(MonitorPeer),
}

// A drop of its own is proved once, and not at each place where a connection goes.
impl<J: Run> Drop for Peer<J> {
    fn drop(self) {
        match self {
            Peer::Source(_) | Peer::Monitor(_) => {}
        }
    }
}

impl<J: Run> Peer<J> {
    /// Its socket.
    pub(crate) fn socket(&mut self) -> &mut PeerSocket {
        match self {
            Peer::Source(source) => &mut source.stream.socket,
            Peer::Monitor(monitor) => monitor.socket(),
        }
    }

    /// Whether it has yet to show what it is: a source to log in, a monitor to send its head.
    pub(crate) fn is_unknown(&self) -> bool
        ensures { result ≡ is_unknown self.now }
    {
        match self {
            Peer::Source(source) => source.awaits_login(),
            Peer::Monitor(monitor) => monitor.awaits_head(),
        }
    }

    /// How long it has for that, in milliseconds.
    pub(crate) fn limit(&self) -> u64
        ensures { result ≡ limit_of self.now }
    {
        match self {
            Peer::Source(_) => LOGIN_LIMIT,
            Peer::Monitor(_) => HEAD_LIMIT,
        }
    }
}
