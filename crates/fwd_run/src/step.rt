//! An event, in the words of whoever adds it.

use crate::run_event::RunEvent;
use fwd_book::Receipt;
use fwd_chunks::{FlushKind, Wanted};
use fwd_history::Deed;
use fwd_model::EndKind;
use fwd_modes::Origin;
use std::marker::PhantomData;

/// An event of an output, or of a worker with its session. Moments are in milliseconds.
#[derive(Clone, Copy)]
pub(crate) enum Step<'a> {
    /// A connection comes.
    Accept {
        id: u64,
        nonce: [u8; 16],
        auth: [u8; 16],
    },
    /// Bytes are read from a connection.
    Piece {
        id: u64,
        bytes: &'a [u8],
    },
    /// Nothing happens to a connection.
    Quiet {
        id: u64,
    },
    /// The first request of a connection that waits goes to an output.
    Admit {
        id: u64,
        output: u16,
        now: u64,
    },
    /// Nothing happens to an output.
    Known {
        output: u16,
    },
    /// Open chunks of an output are closed.
    Flush {
        output: u16,
        now: u64,
        kind: FlushKind,
    },
    /// Requests are answered by these receipts.
    Told {
        output: u16,
        receipts: &'a [Receipt],
    },
    /// Nobody is to be told of a request any more.
    Left {
        output: u16,
        origin: Origin,
    },
    /// A moment is handed in: the output's first worker asks which server it is to try.
    Look {
        output: u16,
        now: u64,
    },
    /// A worker has a link to a server. The salt is for the PING.
    Up {
        output: u16,
        worker: u16,
        server: u16,
        salt: &'a [u8],
        now: u64,
    },
    /// A worker takes a free chunk.
    Take {
        output: u16,
        worker: u16,
        now: u64,
        wanted: Wanted,
    },
    /// The chunk that a worker took goes into its session.
    Load {
        output: u16,
        worker: u16,
        now: u64,
    },
    /// A session's link took so many bytes.
    Wrote {
        output: u16,
        worker: u16,
        count: u64,
    },
    /// Bytes are read from a session's link.
    Heard {
        output: u16,
        worker: u16,
        bytes: &'a [u8],
    },
    /// It is asked whether a session is late.
    Late {
        output: u16,
        worker: u16,
        now: u64,
    },
    /// The first of a worker's acknowledged chunks leaves its output.
    Settle {
        output: u16,
        worker: u16,
    },
    /// A worker's session is no more.
    End {
        output: u16,
        worker: u16,
        kind: EndKind,
        now: u64,
    },
}

/// A step stands for its event.
pub(crate) struct Is {
    of: PhantomData<()>,
}

impl<'a> Deed<Step<'a>, RunEvent> for Is {
    ghost use Rattle.std.specs.Prelude.{◌≡◌};
    ghost use Rattle.fwd_run.specs.Steps.{event_of};

    ghost means = { λ step past e. e ≡ event_of step };
}
