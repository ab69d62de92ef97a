//! Why a source's connection ends by the relay's doing.

ghost use Rattle.std.specs.Prelude.{◌≡◌};
ghost use Rattle.fwd_peers.specs.Peers.{sized};

use fwd_book::AdmitRefusal;
use fwd_source::SourceFault;

/// Why the relay closes a source that would still send.
#[derive(Clone, Copy, Debug)]
pub enum CloseReason {
    /// What it sent is no request, or it is not let in.
    Fault(SourceFault),
    /// The output of this number does not admit its request.
    Refused(u16, AdmitRefusal),
    /// The output of this number never admits its request: the entries have more bytes than the
    /// output may hold in all.
    TooLarge { output: u16, bytes: u64, limit: u64 },
    /// No output takes its request's tag.
    NoRoute,
    /// It has not logged in: not in time, or not within 4,096 bytes.
    NoLogin,
    /// It has been silent longest, and a new one takes its place.
    Idle,
}

impl CloseReason {
    /// The same of a request whose entries have so many bytes, at an output that may hold so many
    /// in all.
    pub fn sized(self, bytes: u64, limit: u64) -> CloseReason
        ensures { result ≡ sized self bytes limit }
    {
        match self {
            CloseReason::Refused(output, AdmitRefusal::Full) if limit < bytes =>
                CloseReason::TooLarge {
                    output,
                    bytes,
                    limit,
                },
            why => why,
        }
    }
}

/// Why a source's connection ends by the relay's doing.
#[derive(Clone, Copy, Debug)]
pub enum PeerEnd {
    /// The relay closes it.
    Closed(CloseReason),
    /// Memory was refused for it.
    Memory,
}
