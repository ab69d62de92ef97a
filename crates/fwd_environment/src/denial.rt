//! Why a server does not let the relay in.

ghost use Rattle.std.specs.Prelude.{◌≡◌};
ghost use Rattle.fwd_environment.specs.Denials.{is_denial};

use crate::link::LossReason;
use crate::refused::TextFront;
use fwd_session::SessionFault;

/// A server that does not let the relay in.
#[derive(Clone, Copy)]
pub struct Denial {
    /// The server, by its place in the output's list.
    pub server: u16,
    /// The first bytes of the reason that its PONG tells.
    pub reason: TextFront,
}

impl LossReason {
    /// Whether the server did not let the relay in.
    pub fn is_denial(self) -> bool
        ensures { result ≡ is_denial self }
    {
        matches!(self, LossReason::Fault(SessionFault::Denied))
    }
}
