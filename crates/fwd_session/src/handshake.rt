ghost use Rattle.std.specs.Prelude.{◌≡◌};
ghost use Rattle.fwd_session.specs.History.{first_handshake, is_done, is_free_for};

use fwd_base::Bytes;
use fwd_handshake::Login;

/// How far the handshake with a server came (Forward Protocol Specification v1, "Handshake
/// Messages").
#[derive(Drop)]
pub enum Handshake {
    /// HELO is awaited.
    AwaitsHelo,
    /// PONG is awaited.
    AwaitsPong {
        /// The nonce of HELO.
        nonce: Bytes,
        /// Whether the link may carry more than one chunk.
        keepalive: bool,
    },
    /// It is done, or there was none.
    Done {
        /// Whether the link may carry more than one chunk.
        keepalive: bool,
    },
}

impl Handshake {
    /// How far the handshake is before the first byte.
    pub(crate) fn first(login: &Login) -> Self
        ensures { result ≡ first_handshake login.now }
    {
        if login.shared_key.is_some() {
            Handshake::AwaitsHelo
        } else {
            Handshake::Done { keepalive: true }
        }
    }

    /// Whether it is done.
    pub(crate) fn is_done(&self) -> bool
        ensures { result ≡ is_done self.now }
    {
        matches!(self, Handshake::Done { .. })
    }

    /// Whether it is done and the link may carry one more chunk.
    pub(crate) fn is_free_for(&self, has_loaded: bool) -> bool
        ensures { result ≡ is_free_for self.now has_loaded }
    {
        match self {
            Handshake::Done { keepalive } => *keepalive || !has_loaded,
            _ => false,
        }
    }
}
