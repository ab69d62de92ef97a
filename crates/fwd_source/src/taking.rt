//! Bytes are judged, and what they ask for is put where it waits.

ghost use Rattle.std.specs.Prelude.{
  ◌≡◌,
  ◌+◌,
  ◌≤◌,
  ◌<◌,
  ◌^◌,
  ◌++◌,
  [],
  None,
  true,
  false,
  IfOk,
  IsOk,
  OnErr,
  OnOk,
  length,
  take,
  is_some,
  option_map,
  vec_capacity,
};
ghost use Rattle.fwd_msgpack.specs.Scanners.{IsBehind};
ghost use Rattle.fwd_source.specs.Asked.{IsRefused};
ghost use Rattle.fwd_source.specs.Judged.{judged_of};
ghost use Rattle.fwd_source.specs.Hearing.{
  awaited_by,
  shown,
  kept_of,
  IsEndOf,
  StandsOver,
  AreTaken,
};

use crate::fault::SourceFault;
use crate::greeting::hear_greeting;
use crate::hearing::{SourceHeard, Unparsed, hear};
use fwd_base::Bytes;
use fwd_handshake::{Nonces, Security};
use fwd_modes::Batch;
use fwd_msgpack::Scanner;
use std::alloc::{AllocError, Global};
use std::collections::VecDeque;

/// What of a connection decides what its bytes ask for, and where memory for that comes from.
#[derive(Clone, Copy)]
pub struct RequestContext<'a> {
    pub alloc: Global,
    pub security: &'a Security,
    pub nonces: &'a Nonces,
    /// A PING is awaited.
    pub awaits: bool,
    /// How many requests came before.
    pub count: u64,
}

/// What bytes came to, whose requests and PONG wait already.
#[derive(Drop)]
pub struct Parsed {
    /// The bytes of the unfinished value in a room of their own: none where all bytes are that,
    /// and some of them have a room already.
    pub rest: Option<Vec<u8>>,
    pub out: Bytes,
    pub awaits: bool,
    pub fault: Option<SourceFault>,
}

/// What the bytes say. Of the scanner, see `hear`.
fn judge<'a>(
    context: &RequestContext<'_>,
    unparsed: Unparsed<'a>,
    scanner: &mut Scanner,
) -> Result<SourceHeard<'a>, AllocError>
    requires count { context.now.count < 2 ^ 64 }
    requires behind { IsBehind scanner.old.limits
        (take unparsed.scanned unparsed.bytes.now) scanner.old }
    ensures value { IfOk result (λ heard. shown heard ≡ judged_of scanner.old.limits
        (awaited_by context.now) context.now.count unparsed.entry.bytes.now) }
    ensures end { IfOk result (λ heard. IsEndOf heard.rest.now unparsed.entry.bytes.now) }
    ensures after { IfOk result (λ heard. StandsOver scanner.old.limits heard scanner.new) }
    ensures limits { scanner.new.limits ≡ scanner.old.limits }
    ensures room { IfOk result (λ heard.
        context.now.count + length heard.requests.items < 2 ^ 64) }
    ensures refused { context.now.awaits ≡ false
        → IsRefused scanner.old.limits unparsed.entry.bytes.now → IsOk result }
{
    if context.awaits {
        hear_greeting(context, unparsed, scanner)
    } else {
        hear(context.alloc, context.count, unparsed, scanner)
    }
}

/// The bytes of an unfinished value in a room of their own, unless all bytes are that and some
/// have a room already. A value that comes in many pieces stays where it is, and is not copied at
/// each.
fn apart(alloc: Global, rest: &[u8], unparsed: Unparsed<'_>) -> Result<Option<Vec<u8>>, AllocError>
    requires { IsEndOf rest.now unparsed.bytes.now }
    ensures kept { IfOk result (λ apart.
        kept_of unparsed.entry.bytes.now (option_map (λ v. v.items) apart) ≡ rest.now) }
    ensures own { IfOk result (λ apart. unparsed.entry.scanned ≡ 0 → is_some apart ≡ true) }
    ensures none { rest.now ≡ [] → IsOk result }
{
    if rest.is_empty() {
        return Ok(Some(Vec::new(alloc)));
    }
    if rest.len() == unparsed.bytes.len() && unparsed.scanned > 0 {
        return Ok(None);
    }
    Ok(Some(Vec::from_slice(alloc, rest)?))
}

/// Puts requests and a PONG where they wait. On an error none of them waits.
fn enter(
    requests: Vec<Batch>,
    pong: &Bytes,
    waiting: &mut VecDeque<Batch>,
    unsent: &mut Vec<u8>,
) -> Result<(), AllocError>
    ensures waiting { OnOk result (waiting.new.items ≡ waiting.old.items ++ requests.items) }
    ensures unsent { OnOk result (unsent.new.items ≡ unsent.old.items ++ pong.now) }
    ensures err { OnErr result ((waiting.new.items ≡ waiting.old.items)
        × (unsent.new.items ≡ unsent.old.items)) }
    ensures room { vec_capacity unsent.old ≤ vec_capacity unsent.new }
    ensures none { requests.items ≡ [] → pong.now ≡ [] → IsOk result }
{
    unsent.reserve(pong.len())?;
    let mut requests = VecDeque::from_vec(requests);
    waiting.append(&mut requests)?;
    unsent.extend_from_slice(pong.as_slice()).unwrap();
    Ok(())
}

/// Judges the bytes, and puts what they ask for where it waits. On an error nothing waits that did
/// not before. Of the scanner, see `hear`.
pub fn take_all(
    context: &RequestContext<'_>,
    unparsed: Unparsed<'_>,
    scanner: &mut Scanner,
    waiting: &mut VecDeque<Batch>,
    unsent: &mut Vec<u8>,
) -> Result<Parsed, AllocError>
    requires count { context.now.count < 2 ^ 64 }
    requires behind { IsBehind scanner.old.limits
        (take unparsed.scanned unparsed.bytes.now) scanner.old }
    ensures taken { IfOk result (λ taken. AreTaken (judged_of scanner.old.limits
        (awaited_by context.now) context.now.count unparsed.entry.bytes.now)
        unparsed.entry.bytes.now taken) }
    ensures waiting { IfOk result (λ taken. waiting.new.items ≡ waiting.old.items
        ++ (judged_of scanner.old.limits (awaited_by context.now) context.now.count
        unparsed.entry.bytes.now).requests) }
    ensures unsent { IfOk result (λ taken. unsent.new.items ≡ unsent.old.items ++ taken.out) }
    ensures own { IfOk result (λ taken. unparsed.entry.scanned ≡ 0 → is_some taken.rest ≡ true) }
    ensures after { IfOk result (λ taken. taken.fault ≡ None → IsBehind scanner.old.limits
        (kept_of unparsed.entry.bytes.now (option_map (λ v. v.items) taken.rest)) scanner.new) }
    ensures limits { scanner.new.limits ≡ scanner.old.limits }
    ensures count { OnOk result (context.now.count + length waiting.new.items
        < 2 ^ 64 + length waiting.old.items) }
    ensures err { OnErr result ((waiting.new.items ≡ waiting.old.items)
        × (unsent.new.items ≡ unsent.old.items)) }
    ensures room { vec_capacity unsent.old ≤ vec_capacity unsent.new }
    ensures refused { context.now.awaits ≡ false
        → IsRefused scanner.old.limits unparsed.entry.bytes.now → IsOk result }
{
    let SourceHeard {
        requests,
        rest,
        pong: out,
        awaits,
        fault,
    } = judge(context, unparsed, scanner)?;
    let rest = apart(context.alloc, rest, unparsed)?;
    enter(requests, &out, waiting, unsent)?;
    Ok(Parsed {
        rest,
        out,
        awaits,
        fault,
    })
}
