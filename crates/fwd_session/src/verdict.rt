use crate::fault::SessionFault;
use crate::handshake::Handshake;
use fwd_base::Bytes;

/// What one value of a server says.
#[derive(Drop)]
pub(crate) enum Verdict {
    /// Nothing.
    Skipped,
    /// The handshake goes on: what is sent for it, and how far it came.
    Greets { out: Bytes, next: Handshake },
    /// A chunk is acknowledged: its place among those that are awaited.
    Acks { place: usize },
    /// A fault.
    Fails(SessionFault),
}
