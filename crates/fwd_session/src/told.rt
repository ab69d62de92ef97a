use crate::fault::SessionFault;
use fwd_base::Bytes;

/// What a piece of a server's bytes did to its session.
#[derive(Clone, Copy, Debug, PartialEq, Eq)]
pub enum SessionHeard {
    /// Nothing that asks for anything.
    Quiet,
    /// The handshake is done: chunks may be loaded.
    Ready,
    /// Chunks of the session are acknowledged, one or more, and can be taken out.
    Acked,
    /// A fault put the session down. The acknowledgements that were accepted before it stand.
    Fault(SessionFault),
    /// The session was down before: nothing has changed.
    NotUp,
}

/// What a piece did, and what it put behind the bytes that wait to be sent: the PING that answers a
/// HELO, or nothing.
#[derive(Drop)]
pub struct SessionTold {
    pub heard: SessionHeard,
    pub out: Bytes,
}
