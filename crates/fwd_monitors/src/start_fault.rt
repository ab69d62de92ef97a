//! Why the relay cannot start, or cannot go on.

ghost use Rattle.std.specs.Prelude.{◌≡◌};
ghost use Rattle.fwd_monitors.specs.declared.start_fault.StartFault.TheVariants as faults;

use fwd_links::WaitFault;
use fwd_peers::{PeerAddress, SocketPath};
use std::alloc::{AllocError, AllocFailed};
use thiserror::Error;

/// Why the relay cannot start, or cannot go on.
#[derive(Clone, Copy, Debug, PartialEq, Eq, Error)]
pub enum StartFault {
    /// Memory was refused.
    #[error("memory")]
    Memory,
    /// Nobody can be listened for at this address, which the settings name.
    #[error("listen: {0}")]
    Listen(PeerAddress),
    /// The control socket cannot be had at this path, which the settings name.
    #[error("listen: {0}")]
    Control(SocketPath),
    /// The system gives nothing to wait for sockets with, or a wait failed.
    #[error("start: poll")]
    Poll,
    /// The system gives no random bytes.
    #[error("start: seed")]
    Seed,
    /// A worker's thread cannot be had.
    #[error("start: thread")]
    Thread,
}

impl From<AllocError> for StartFault {
    ghost from_gives = { λ _ fault. fault ≡ faults.Memory };

    fn from(_error: AllocError) -> StartFault {
        StartFault::Memory
    }
}

impl<T: Drop> From<AllocFailed<T>> for StartFault {
    ghost from_gives = { λ _ fault. fault ≡ faults.Memory };

    fn from(_error: AllocFailed<T>) -> StartFault {
        StartFault::Memory
    }
}

impl From<WaitFault> for StartFault {
    ghost use Rattle.fwd_links.specs.declared.fault.WaitFault.TheVariants as waits;

    ghost from_gives = { λ error fault.
        (error ≡ waits.Memory → fault ≡ faults.Memory)
        × (error ≡ waits.Poll → fault ≡ faults.Poll) };

    fn from(error: WaitFault) -> StartFault {
        match error {
            WaitFault::Memory => StartFault::Memory,
            WaitFault::Poll => StartFault::Poll,
        }
    }
}
