//! The last number of a buffer, and what an output tells of the requests that it holds.

use crate::request::batch;
use fwd_chunks::{AdmitError, Buffer, BufferLimits};
use fwd_core::OutputState;
use fwd_modes::Origin;
use std::alloc::Global;

/// An entry of three bytes has a chunk of its own, and there is one number.
const LIMITS: BufferLimits = BufferLimits {
    chunk: 2,
    total: 100_000,
    interval: 1000,
    retry_wait: 500,
    retry_max: 4000,
    first: u64::MAX,
};

/// A Message of the tag `a` whose kept entry has three bytes, and a Forward without entries.
const THREE: &[u8] = b"\x93\xa1a\x01\x80";

const NOTHING: &[u8] = b"\x92\xa1a\x90";

/// The request of a connection with this number.
const fn origin(conn: u64, request: u64) -> Origin {
    Origin { conn, request }
}

/// What a buffer refuses requests of these bytes for.
fn refusals(alloc: Global, requests: [&[u8]; 3]) -> Option<[Option<AdmitError>; 3]> {
    let mut buffer = Buffer::new(alloc, LIMITS, [0; 6], 0);
    let mut refusals = [None; 3];
    for (bytes, refusal) in requests.iter().zip(&mut refusals) {
        let request = batch(alloc, bytes)?;
        *refusal = buffer.admit(alloc, origin(1, 1), &request, 0).err();
    }
    Some(refusals)
}

/// A request without entries needs no number.
#[test]
fn there_is_no_number_after_the_last(rt: HostRuntime) {
    let spent = Some(AdmitError::NumbersSpent);
    let refused = refusals(rt.alloc(), [THREE, THREE, NOTHING]);
    assert!(rt; refused == Some([None, spent, None]));
}

/// An output that has admitted a request without entries of each of these origins.
fn output_of(alloc: Global, origins: &[Origin]) -> Option<OutputState> {
    let request = batch(alloc, NOTHING)?;
    let mut output = OutputState::new(alloc, LIMITS, [0; 6], 0, &[false]).ok()?;
    for origin in origins {
        if output.holds(*origin) {
            return None;
        }
        output.admit(alloc, *origin, &request, 0).ok()?;
    }
    Some(output)
}

/// Whether just the requests of its own are told of a connection, and the receipt of one.
fn tells_of_each(alloc: Global) -> Option<bool> {
    let output = output_of(alloc, &[origin(1, 1), origin(2, 1), origin(1, 2)])?;
    let untold = output.untold(alloc, 1).ok()?;
    let receipt = output.receipt(alloc, origin(2, 1)).ok()??;
    Some(
        untold.as_slice() == [origin(1, 1), origin(1, 2)].as_slice()
            && receipt.origin() == origin(2, 1),
    )
}

#[test]
fn requests_and_receipts_are_told(rt: HostRuntime) {
    assert!(rt; tells_of_each(rt.alloc()) == Some(true));
}
