//! Why a worker has nothing to wait with.

ghost use Rattle.std.specs.Prelude.{◌≡◌};
ghost use Rattle.fwd_links.specs.declared.fault.WaitFault.TheVariants as faults;

use std::alloc::{AllocError, AllocFailed};

/// Why a worker has nothing to wait with.
#[derive(Clone, Copy, Debug, PartialEq, Eq)]
pub enum WaitFault {
    /// Memory was refused.
    Memory,
    /// The system gives nothing to wait for sockets with.
    Poll,
}

impl From<AllocError> for WaitFault {
    ghost from_gives = { λ _ fault. fault ≡ faults.Memory };

    fn from(_error: AllocError) -> WaitFault {
        WaitFault::Memory
    }
}

impl<T: Drop> From<AllocFailed<T>> for WaitFault {
    ghost from_gives = { λ _ fault. fault ≡ faults.Memory };

    fn from(_error: AllocFailed<T>) -> WaitFault {
        WaitFault::Memory
    }
}
