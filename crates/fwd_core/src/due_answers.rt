//! What a connection is told of its requests.

ghost use Rattle.std.specs.Prelude.{◌≡◌, ◌++◌, map, option_copied, OnOk, IfOk};
ghost use Rattle.std.specs.List.{concat};
ghost use Rattle.fwd_model.specs.Books.{ack_asked};
ghost use Rattle.fwd_output.specs.HandedBack.{chunk_at};

use fwd_base::{Bytes, Seq};
use fwd_model::Origin;
use fwd_modes::write_ack;
use fwd_output::OutputState;
use std::alloc::{AllocError, Global};

/// What is told of requests: their numbers, and the acknowledgements that they asked for, one after
/// the other.
#[derive(Drop)]
pub(crate) struct DueAnswers {
    pub(crate) requests: Seq<u64>,
    pub(crate) out: Bytes,
}

/// Adds the acknowledgement that a request asked for, if it asked for one.
fn push_ack(alloc: Global, chunk: Option<&[u8]>, out: &mut Bytes) -> Result<(), AllocError>
    ensures { OnOk result (out.new ≡ out.old ++ ack_asked (option_copied chunk.entry)) }
{
    match chunk {
        Some(chunk) => out.extend_from_slice(&write_ack(alloc, chunk)?),
        None => Ok(()),
    }
}

impl DueAnswers {
    /// What is told of the requests of these origins at an output.
    pub(crate) fn of(
        alloc: Global,
        output: &OutputState,
        origins: &[Origin],
    ) -> Result<Self, AllocError>
        ensures requests { IfOk result (λ due.
            due.requests ≡ map (λ o. o.request) origins.now) }
        ensures out { IfOk result (λ due. due.out
            ≡ concat (map (λ o. ack_asked (chunk_at output.now.book.requests o)) origins.now)) }
    {
        let mut requests = Seq::new(alloc);
        let mut out = Bytes::new(alloc);
        for origin in origins {
            requests.push(origin.request)?;
            push_ack(alloc, output.chunk(*origin), &mut out)?;
        }
        Ok(DueAnswers { requests, out })
    }
}
