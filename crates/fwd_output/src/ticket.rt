//! That a request was admitted, and is owed an answer.

ghost use Rattle.std.specs.Prelude.{◌≡◌};

use fwd_chunks::{Span, Spans};
use fwd_modes::{Batch, Origin};
use std::marker::Model;

/// Where an output put a request: the runs of its entries in chunks, and its slot in the book.
#[derive(Drop)]
pub struct Admitted {
    pub spans: Spans,
    pub slot: usize,
}

/// A request that an output admitted. Only `admit` makes one. It must be spent: by a receipt, or by
/// `abandon`.
pub struct Ticket {
    run: [u8; 6],
    output: u16,
    origin: Origin,
    batch: Batch,
    admitted: Admitted,
}

impl Model for Ticket {
    ghost use Rattle.fwd_output.specs.Tickets.{Ticket};

    ghost Value = { Ticket };

    ghost view = { λ t. record {
      setting = record { run = t.run; output = t.output };
      origin = t.origin;
      batch = t.batch;
      spans = t.admitted.spans;
    } };
}

impl Ticket {
    /// The ticket of a request that the output of this run and number admitted.
    pub(crate) fn new(
        run: [u8; 6],
        output: u16,
        origin: Origin,
        batch: Batch,
        admitted: Admitted,
    ) -> Self
        ensures { result ≡ record {
          setting = record { run = run; output = output };
          origin = origin;
          batch = batch;
          spans = admitted.spans;
        } }
    {
        Ticket {
            run,
            output,
            origin,
            batch,
            admitted,
        }
    }

    /// The run that the names of the output's chunks tell.
    pub fn run(&self) -> [u8; 6]
        ensures { result ≡ self.now.setting.run }
    {
        self.run
    }

    /// The output's number.
    pub fn output(&self) -> u16
        ensures { result ≡ self.now.setting.output }
    {
        self.output
    }

    /// The request's connection, and its number there.
    pub fn origin(&self) -> Origin
        ensures { result ≡ self.now.origin }
    {
        self.origin
    }

    /// What was asked for.
    pub fn batch(&self) -> &Batch
        ensures { result.now ≡ self.now.batch }
    {
        &self.batch
    }

    /// The runs of the entries in chunks, in the order of the entries.
    pub fn spans(&self) -> &[Span]
        ensures { result.now ≡ self.now.spans }
    {
        self.admitted.spans.as_slice()
    }

    /// The slot of its request in the output's book. In another book it is another's, or none's.
    pub(crate) fn slot(&self) -> usize {
        self.admitted.slot
    }

    /// The ticket is no more.
    pub(crate) fn spend(self) {
        let Ticket {
            run: _,
            output: _,
            origin: _,
            batch: _,
            admitted: _,
        } = self;
    }
}
