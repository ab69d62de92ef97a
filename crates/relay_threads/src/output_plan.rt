//! What an output of a test is set to.

ghost use Rattle.std.specs.Prelude.{◌≡◌, ◌≤◌, true, false, not, length, Contains};
ghost use Rattle.std.specs.List.{list_any};

use crate::batches::{limits, login_with, terms_of};
use anyhow::Result;
use fwd_handshake::Login;
use fwd_model::{AckTerms, BufferLimits};
use std::alloc::Global;

/// Which servers an output has: for each whether it is a standby.
#[derive(Clone, Copy)]
pub enum Servers {
    /// A primary alone.
    One,
    /// A primary and a standby.
    Two,
    /// Two primaries and a standby.
    Three,
}

impl Servers {
    /// For each server whether it is a standby.
    pub fn standby(self) -> &'static [bool]
        ensures few { length result.now ≤ 16 }
        ensures primary { Contains result.now false }
        ensures any { list_any not result.now ≡ true }
    {
        match self {
            Servers::One => &[false],
            Servers::Two => &[false, true],
            Servers::Three => &[false, false, true],
        }
    }
}

/// What an output of a test is set to, and its workers.
#[derive(Clone, Copy)]
pub struct OutputPlan {
    /// It is the second output of its run, whose first one gets no request. Else it is alone there.
    pub is_second: bool,
    pub servers: Servers,
    /// The most bytes of a chunk.
    pub chunk: u32,
    /// The most bytes of all entries.
    pub total: u64,
    /// How many workers it has, 30 at the most.
    pub workers: u16,
    /// How many chunks a worker may have that are not acknowledged.
    pub window: u8,
    /// How long a worker waits for what a server owes, in milliseconds.
    pub ack_wait: u64,
    /// The key that servers have to know, if there is one.
    pub key: Option<&'static [u8]>,
}

impl OutputPlan {
    /// What its buffer is limited to.
    pub fn limits(self) -> BufferLimits {
        limits(self.chunk, self.total)
    }

    /// How its workers wait for acknowledgements.
    pub fn acks(self) -> AckTerms {
        terms_of(self.window, self.ack_wait)
    }

    /// What its workers prove to servers.
    pub fn login(self, alloc: Global) -> Result<Login> {
        login_with(alloc, self.key)
    }
}

/// An output with two servers, the second of them a standby, and so many workers with a window of
/// one chunk, and 10 s for what a server owes.
pub fn output(chunk: u32, total: u64, workers: u16) -> OutputPlan {
    OutputPlan {
        is_second: false,
        servers: Servers::Two,
        chunk,
        total,
        workers,
        window: 1,
        ack_wait: 10_000,
        key: None,
    }
}
