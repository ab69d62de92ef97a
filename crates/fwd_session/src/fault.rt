/// Why a session is down. Session faults are numbered by themselves.
#[derive(Clone, Copy, Debug, PartialEq, Eq)]
pub enum SessionFault {
    /// What the server sent is no acknowledgement, no PONG where one is awaited, or begins no value
    /// within `REPLY_LIMITS`.
    BadReply = 1,
    /// The server named no chunk that is loaded and not acknowledged.
    WrongAck = 2,
    /// The server named a chunk while it could have none to acknowledge, since no frame of such a
    /// chunk was taken whole; or one whose frame was not.
    EarlyAck = 3,
    /// The first that the server sent is no HELO.
    NotHelo = 4,
    /// The server refused the login.
    Denied = 5,
    /// The server does not know the shared key.
    BadDigest = 6,
}

/// The session takes nothing more: it is down, or its handshake is not done, or its link may carry
/// no further chunk. This is number 7 of the session faults.
#[derive(Clone, Copy, Debug)]
pub struct NotUp;
