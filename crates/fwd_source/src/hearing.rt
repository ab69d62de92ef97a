//! What a connection's bytes say where no PING is awaited: its requests, the bytes of an unfinished
//! value, and the leftmost fault.

ghost use Rattle.std.specs.Prelude.{◌≡◌, ◌≢◌, ◌+◌, ◌≤◌, ◌<◌, ◌^◌, [], None, Some, false, IfOk, IfSome, IsOk, length, take};
ghost use Rattle.fwd_msgpack.specs.Values.{bytes_of};
ghost use Rattle.fwd_modes.specs.declared.fault.InputFault.{InputFault};
ghost use Rattle.fwd_modes.specs.Requests.{request_of};
ghost use Rattle.fwd_modes.specs.Requests.Reading.{Asks as asks, Fails as fails};
ghost use Rattle.fwd_source.specs.Asked.{IsRefused};
ghost use Rattle.fwd_source.specs.Judged.{judged_of};
ghost use Rattle.fwd_msgpack.specs.Scanners.{IsBehind};
ghost use Rattle.fwd_source.specs.Hearing.{shown, BeginsAsking, IsEndOf, StandsOver, TakesIn};

use crate::fault::SourceFault;
use fwd_base::Bytes;
use fwd_modes::{Batch, FrontRequest, InputFault, Reading, read_front, read_request};
use fwd_msgpack::{Limits, Next, Scanner, Shape, Value};
use std::alloc::{AllocError, Global};

/// The bytes behind the last whole value of a connection, of which the first so many were scanned
/// before.
#[derive(Clone, Copy)]
pub struct Unparsed<'a> {
    pub bytes: &'a [u8],
    pub scanned: usize,
    ghost within: { scanned ≤ length bytes.now },
}

/// What was heard. The bytes of an unfinished value are the last of those that were judged.
#[derive(Drop)]
pub struct SourceHeard<'a> {
    pub requests: Vec<Batch>,
    pub rest: &'a [u8],
    pub pong: Bytes,
    pub awaits: bool,
    pub fault: Option<SourceFault>,
}

/// Adds a request, or answers that there can be no more. On an error nothing has changed.
fn add(
    requests: &mut Vec<Batch>,
    count: u64,
    request: Batch,
) -> Result<Option<SourceFault>, AllocError>
    requires { count + length requests.old.items < 2 ^ 64 }
    ensures value { IfOk result (λ fault.
        TakesIn requests.old.items requests.new.items count (asks request) fault) }
    ensures room { count + length requests.new.items < 2 ^ 64 }
{
    let number = count + requests.len() as u64;
    if number == u64::MAX {
        return Ok(Some(SourceFault::Closed));
    }
    requests.push(request)?;
    Ok(None)
}

/// Adds what a value asks for, or answers what is wrong with it. On an error nothing has changed.
fn take_in(
    alloc: Global,
    requests: &mut Vec<Batch>,
    count: u64,
    value: Value<'_>,
    limits: Limits,
) -> Result<Option<SourceFault>, AllocError>
    requires { count + length requests.old.items < 2 ^ 64 }
    ensures value { IfOk result (λ fault.
        TakesIn requests.old.items requests.new.items count
        (request_of limits.depth (bytes_of value.entry)) fault) }
    ensures room { count + length requests.new.items < 2 ^ 64 }
    ensures refused { (fault : InputFault) → fault ≢ InputFault.BadEntry
        → request_of limits.depth (bytes_of value.entry) ≡ fails fault
        → result ≡ Ok (Some (SourceFault.Input fault)) }
{
    match read_request(alloc, value, limits)? {
        Reading::Heartbeat => Ok(None),
        Reading::Fails(fault) => Ok(Some(SourceFault::Input(fault))),
        Reading::Asks(request) => add(requests, count, request),
    }
}

/// The request at the front of bytes of which none was scanned, where `read_front` knows it. A
/// request that ends in a later piece is walked over twice, as far as its first piece goes.
fn front_of(
    alloc: Global,
    bytes: &[u8],
    scanned: usize,
    limits: Limits,
    shape: &mut Shape,
) -> Option<FrontRequest>
    ensures { IfSome result (λ front.
        BeginsAsking limits bytes.now front.request front.len × (scanned ≡ 0)) }
{
    if scanned > 0 {
        return None;
    }
    read_front(alloc, bytes, limits, shape)
}

/// Requests, and a fault behind them.
pub fn failed<'a>(alloc: Global, requests: Vec<Batch>, fault: SourceFault) -> SourceHeard<'a>
    ensures { shown result
        ≡ record {
          requests = requests.items;
          rest = [];
          pong = [];
          awaits = false;
          fault = Some fault;
        } }
{
    SourceHeard {
        requests,
        rest: &[],
        pong: Bytes::new(alloc),
        awaits: false,
        fault: Some(fault),
    }
}

/// What the bytes say, on a connection of which `count` requests came before, and that awaits no
/// PING. The scanner stands behind those that were scanned before; then behind those of an
/// unfinished value.
pub fn hear<'a>(
    alloc: Global,
    count: u64,
    unparsed: Unparsed<'a>,
    scanner: &mut Scanner,
) -> Result<SourceHeard<'a>, AllocError>
    requires count { count < 2 ^ 64 }
    requires behind { IsBehind scanner.old.limits
        (take unparsed.scanned unparsed.bytes.now) scanner.old }
    ensures value { IfOk result (λ heard.
        shown heard ≡ judged_of scanner.old.limits None count unparsed.entry.bytes.now) }
    ensures end { IfOk result (λ heard. IsEndOf heard.rest.now unparsed.entry.bytes.now) }
    ensures after { IfOk result (λ heard. StandsOver scanner.old.limits heard scanner.new) }
    ensures limits { scanner.new.limits ≡ scanner.old.limits }
    ensures room { IfOk result (λ heard. count + length heard.requests.items < 2 ^ 64) }
    ensures no_pong { IfOk result (λ heard. heard.pong ≡ []) }
    ensures refused { IsRefused scanner.old.limits unparsed.entry.bytes.now → IsOk result }
{
    let limits = scanner.limits();
    let mut shape = Shape::new();
    let mut requests = Vec::new(alloc);
    let mut rest = unparsed.bytes;
    let mut scanned = unparsed.scanned;
    'values: loop {
        if let Some(front) = front_of(alloc, rest, scanned, limits, &mut shape) {
            if let Some(fault) = add(&mut requests, count, front.request)? {
                return Ok(failed(alloc, requests, fault));
            }
            rest = &rest[front.len..];
            continue;
        }
        match scanner.next_value(rest, scanned) {
            Next::Unfinished => {
                return Ok(SourceHeard {
                    requests,
                    rest,
                    pong: Bytes::new(alloc),
                    awaits: false,
                    fault: None,
                });
            }
            Next::Fault(fault) => return Ok(failed(alloc, requests, SourceFault::Scan(fault))),
            Next::Value(value, behind) => {
                if let Some(fault) = take_in(alloc, &mut requests, count, value, limits)? {
                    return Ok(failed(alloc, requests, fault));
                }
                rest = behind;
                scanned = 0;
            }
        }
    }
}
