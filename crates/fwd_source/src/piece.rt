use crate::fault::SourceFault;
use fwd_base::Bytes;

/// What a piece of a connection's bytes did.
#[derive(Clone, Copy)]
pub enum Piece {
    /// So many requests wait.
    Waiting(usize),
    /// A fault closed the connection. The good requests before it still wait.
    Fault(SourceFault),
    /// A fault came before, or the connection was shut: nothing has changed.
    Closed,
}

/// What a piece did, and what it put behind the bytes that
/// wait to be sent: the PONG of a PING, or nothing. So an answer to the piece needs no memory once
/// the source has changed.
#[derive(Drop)]
pub struct SourceTold {
    pub piece: Piece,
    pub out: Bytes,
}
