//! What the messages of a handshake are judged to be.

ghost use Rattle.std.specs.Prelude.{◌≡◌};

use fwd_base::Bytes;

/// Why a PING is denied.
#[derive(Clone, Copy, Debug)]
pub enum Denial {
    /// Its key digest is not the one of the shared key.
    KeyMismatch,
    /// Its username and password digest are not those of one user.
    UserMismatch,
}

impl Denial {
    ghost use Rattle.fwd_handshake.specs.Messages.{reason};

    /// The reason as PONG gives it.
    pub fn reason(self) -> &'static [u8]
        ensures { result.now ≡ reason self }
    {
        match self {
            Denial::KeyMismatch => b"shared_key mismatch",
            Denial::UserMismatch => b"username/password mismatch",
        }
    }
}

/// What a value is that a source sent after HELO.
#[derive(Drop)]
pub enum PingVerdict {
    /// A good PING, and the PONG that answers it.
    Pass(Bytes),
    /// A PING that is denied, the PONG that says so, and why.
    Deny(Bytes, Denial),
    /// No PING.
    NotPing,
}

/// What a value is that the next hop sent at first.
#[derive(Drop)]
pub enum HeloAnswer {
    /// A HELO.
    Ping {
        /// The PING that answers it.
        bytes: Bytes,
        /// The server's nonce, which PONG is judged by.
        nonce: Bytes,
        /// Whether the link may carry more than one chunk.
        keepalive: bool,
    },
    /// No HELO.
    NotHelo,
}

/// What a value is that the next hop sent after PING.
#[derive(Clone, Copy)]
pub enum PongVerdict {
    /// A PONG that lets the client in, by a server that knows the shared key.
    Pass,
    /// A PONG that refuses the client.
    Denied,
    /// A PONG that lets the client in, by a server that does not know the shared key.
    BadDigest,
    /// No PONG. This is refusal 18.
    NotPong,
}
