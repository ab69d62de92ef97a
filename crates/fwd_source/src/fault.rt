ghost use Rattle.std.specs.Prelude.{◌≡◌};
ghost use Rattle.fwd_source.specs.Numbers.{fault_number};

use fwd_modes::InputFault;
use fwd_msgpack::ScanFault;

/// Why a connection takes no further piece.
#[derive(Clone, Copy, Debug)]
pub enum SourceFault {
    /// Its bytes begin no value within the limits.
    Scan(ScanFault),
    /// A whole value of it is no request.
    Input(InputFault),
    /// Its first value is no PING, where one is awaited.
    NotPing,
    /// Its PING was denied.
    Denied,
    /// No number is left for one more request. A piece behind a fault or once shut is told
    /// `Piece::Closed`, and has no fault.
    Closed,
}

impl SourceFault {
    /// The fault's number. A fault of the bytes or of a request has its own.
    pub fn number(self) -> u8
        ensures { result ≡ fault_number self }
    {
        match self {
            SourceFault::Scan(fault) => fault as u8,
            SourceFault::Input(fault) => fault as u8,
            SourceFault::NotPing => 9,
            SourceFault::Denied => 10,
            SourceFault::Closed => 11,
        }
    }
}
