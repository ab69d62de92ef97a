//! What a connection's bytes say where a PING is awaited. In definitions the awaited PING is a
//! function of the bytes (`AwaitedPing`) and not a flag. So what bytes say names no keys or users,
//! and one law covers all pieces.

ghost use Rattle.std.specs.Prelude.{◌≡◌, ◌+◌, ◌<◌, ◌^◌, ℕ, [], None, Some, true, IfOk, length, take};
ghost use Rattle.fwd_msgpack.specs.Scanners.{IsBehind};
ghost use Rattle.fwd_handshake.specs.Verdicts.{ping_verdict};
ghost use Rattle.fwd_source.specs.Judged.{judged_of};
ghost use Rattle.fwd_source.specs.Hearing.{shown, IsEndOf, EndsIn, Faults, Greets, StandsIn, StandsOver, Welcomes};

use crate::fault::SourceFault;
use crate::hearing::{SourceHeard, Unparsed, failed, hear};
use crate::taking::RequestContext;
use fwd_base::Bytes;
use fwd_handshake::{Nonces, PingVerdict, Security, judge_ping};
use fwd_msgpack::{Next, Scanner};
use std::alloc::{AllocError, Global};

/// What became of a greeting.
#[derive(Drop)]
pub enum Greeting<'a> {
    /// The PING is good: its PONG, and the bytes behind the PING.
    Passed(Bytes, &'a [u8]),
    /// There is no whole value but nil yet, or the first one is no good PING.
    Ended(SourceHeard<'a>),
}

/// Nothing but nil came yet, and the bytes of an unfinished value.
fn unfinished(alloc: Global, rest: &[u8]) -> SourceHeard<'_>
    ensures { shown result
        ≡ record { requests = []; rest = rest.now; pong = []; awaits = true; fault = None } }
{
    SourceHeard {
        requests: Vec::new(alloc),
        rest,
        pong: Bytes::new(alloc),
        awaits: true,
        fault: None,
    }
}

/// What becomes of a connection by the verdict on its first
/// value: a denied PING has its PONG, what is no PING has none.
fn welcome(alloc: Global, verdict: PingVerdict, behind: &[u8]) -> Greeting<'_>
    ensures what { Welcomes verdict behind.now result }
    ensures end { EndsIn behind.now result }
    ensures faulted { Faults result }
{
    match verdict {
        PingVerdict::Pass(pong) => Greeting::Passed(pong, behind),
        PingVerdict::Deny(pong, _) => {
            let mut heard = failed(alloc, Vec::new(alloc), SourceFault::Denied);
            heard.pong = pong;
            Greeting::Ended(heard)
        }
        PingVerdict::NotPing => {
            Greeting::Ended(failed(alloc, Vec::new(alloc), SourceFault::NotPing))
        }
    }
}

/// What the bytes say of the PING that is awaited. Nil before it is skipped.
fn greet<'a>(
    alloc: Global,
    security: &Security,
    nonces: &Nonces,
    unparsed: Unparsed<'a>,
    scanner: &mut Scanner,
) -> Result<Greeting<'a>, AllocError>
    requires { IsBehind scanner.old.limits
        (take unparsed.scanned unparsed.bytes.now) scanner.old }
    ensures what { IfOk result (λ greeting. (n : ℕ) → Greets scanner.old.limits
        (ping_verdict security.now nonces.now) n unparsed.entry.bytes.now greeting) }
    ensures end { IfOk result (λ greeting. EndsIn unparsed.entry.bytes.now greeting) }
    ensures after { IfOk result (λ greeting. StandsIn scanner.old.limits greeting scanner.new) }
    ensures limits { scanner.new.limits ≡ scanner.old.limits }
{
    let mut rest = unparsed.bytes;
    let mut scanned = unparsed.scanned;
    'values: loop {
        match scanner.next_value(rest, scanned) {
            Next::Unfinished => return Ok(Greeting::Ended(unfinished(alloc, rest))),
            Next::Fault(fault) => {
                let heard = failed(alloc, Vec::new(alloc), SourceFault::Scan(fault));
                return Ok(Greeting::Ended(heard));
            }
            Next::Value(value, behind) => {
                if !value.is_nil() {
                    let verdict = judge_ping(alloc, value, security, nonces)?;
                    return Ok(welcome(alloc, verdict, behind));
                }
                rest = behind;
                scanned = 0;
            }
        }
    }
}

/// What the bytes say where a PING is awaited, whatever the context says of that. Of the scanner,
/// see `hear`.
pub fn hear_greeting<'a>(
    context: &RequestContext<'_>,
    unparsed: Unparsed<'a>,
    scanner: &mut Scanner,
) -> Result<SourceHeard<'a>, AllocError>
    requires count { context.now.count < 2 ^ 64 }
    requires behind { IsBehind scanner.old.limits
        (take unparsed.scanned unparsed.bytes.now) scanner.old }
    ensures value { IfOk result (λ heard. shown heard ≡ judged_of scanner.old.limits
        (Some (ping_verdict context.now.security.now context.now.nonces.now))
        context.now.count unparsed.entry.bytes.now) }
    ensures end { IfOk result (λ heard. IsEndOf heard.rest.now unparsed.entry.bytes.now) }
    ensures after { IfOk result (λ heard. StandsOver scanner.old.limits heard scanner.new) }
    ensures limits { scanner.new.limits ≡ scanner.old.limits }
    ensures room { IfOk result (λ heard.
        context.now.count + length heard.requests.items < 2 ^ 64) }
{
    let RequestContext {
        alloc,
        security,
        nonces,
        count,
        ..
    } = *context;
    match greet(alloc, security, nonces, unparsed, scanner)? {
        Greeting::Ended(heard) => Ok(heard),
        Greeting::Passed(pong, behind) => {
            let unparsed = Unparsed {
                bytes: behind,
                scanned: 0,
            };
            let mut heard = hear(alloc, count, unparsed, scanner)?;
            heard.pong = pong;
            Ok(heard)
        }
    }
}
