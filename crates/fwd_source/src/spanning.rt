//! Bytes that go on with an unfinished value: it is put together in a buffer, which may become its
//! request's own. That is done for packed entries that are spelled as they are kept. Any other
//! value is put together and judged with what follows it, since a second walk over its items would
//! cost more than the copy. A request is made last, since nothing may fail once its buffer is gone.

ghost use Rattle.std.specs.Prelude.{
  ◌≡◌,
  ◌+◌,
  ◌<◌,
  ◌≤◌,
  ◌^◌,
  ◌++◌,
  ◌∷◌,
  [],
  if◌then◌else◌,
  ℕ,
  List,
  None,
  IfOk,
  OnOk,
  OnErr,
  length,
  take,
  option_map,
  vec_len,
};
ghost use Rattle.std.specs.VecDeque.{deque_len, deque_capacity};
ghost use Rattle.fwd_msgpack.specs.Scans.{Whole, first_of, is_nil};
ghost use Rattle.fwd_msgpack.specs.Scanners.{IsBehind, fresh};
ghost use Rattle.fwd_source.specs.Judged.{failed, judged_of, value_then};
ghost use Rattle.fwd_source.specs.Hearing.{AreTaken, Feeds, kept_of};

use crate::fault::SourceFault;
use crate::hearing::{SourceHeard, Unparsed, hear};
use crate::room::make_room;
use crate::taking::Parsed;
use fwd_base::Bytes;
use fwd_modes::{Batch, Reading, take_request};
use fwd_msgpack::{Fed, Head, HeadRead, Scanner, read_head};
use std::alloc::{AllocError, Global};
use std::collections::VecDeque;

/// Puts bytes behind those of an unfinished value. On an error nothing is put there.
fn put(rest: &mut Vec<u8>, bytes: &[u8]) -> Result<(), AllocError>
    ensures ok { OnOk result (rest.new.items ≡ rest.old.items ++ bytes.now) }
    ensures err { OnErr result (rest.new.items ≡ rest.old.items) }
{
    make_room(rest, bytes.len());
    rest.extend_from_slice(bytes)
}

/// Bytes are fed to the scanner, which stands behind those of an unfinished value, and what of
/// them is the value's is put there. Behind its end the scanner begins anew. On an error nothing is
/// put there, and the scanner stands anywhere.
fn go_on(scanner: &mut Scanner, rest: &mut Vec<u8>, bytes: &[u8]) -> Result<Fed, AllocError>
    requires { IsBehind scanner.old.limits rest.old.items scanner.old }
    ensures fed { IfOk result (λ fed.
        Feeds scanner.old.limits rest.old.items bytes.now fed rest.new.items scanner.new) }
    ensures limits { scanner.new.limits ≡ scanner.old.limits }
    ensures err { OnErr result (rest.new.items ≡ rest.old.items) }
{
    match scanner.feed(bytes) {
        Fed::More => {
            put(rest, bytes)?;
            Ok(Fed::More)
        }
        Fed::End(used) => {
            put(rest, &bytes[..used])?;
            scanner.restart();
            Ok(Fed::End(used))
        }
        Fed::Bad(fault) => Ok(Fed::Bad(fault)),
    }
}

/// How many requests came before what is behind a value. Nil is none.
#[tactic(auto, unfolding(fwd_msgpack::specs::Scans::parts_of))]
fn count_behind(value: &[u8], count: u64) -> u64
    requires { count + 1 < 2 ^ 64 }
    ensures { result ≡ (if is_nil value.now then count else count + 1) }
{
    match read_head(value) {
        HeadRead::Whole(Head::Nil, _) => count,
        _ => count + 1,
    }
}

/// Puts a request and those behind it where they wait, which has room for them.
fn enter_all(first: Batch, others: Vec<Batch>, waiting: &mut VecDeque<Batch>)
    requires { deque_len waiting.old + vec_len others + 1 ≤ deque_capacity waiting.old }
    ensures { waiting.new.items ≡ waiting.old.items ++ first ∷ others.items }
{
    waiting.push_back(first).unwrap();
    let mut others = VecDeque::from_vec(others);
    waiting.append(&mut others).unwrap();
}

/// Nothing but a fault.
fn refused(alloc: Global, fault: SourceFault) -> Parsed
    ensures taken { (bytes : List ℕ) → AreTaken (failed fault) bytes result }
    ensures no_pong { result.out ≡ [] }
{
    Parsed {
        rest: Some(Vec::new(alloc)),
        out: Bytes::new(alloc),
        awaits: false,
        fault: Some(fault),
    }
}

/// What a value comes to, and the bytes behind it, where no PING is awaited. On an error the
/// value's bytes are as they were, and nothing waits that did not before. Of the scanner, see
/// `hear`.
fn take_value(
    count: u64,
    value: &mut Vec<u8>,
    behind: &[u8],
    scanner: &mut Scanner,
    waiting: &mut VecDeque<Batch>,
) -> Result<Parsed, AllocError>
    requires count { count + 1 < 2 ^ 64 }
    requires whole { first_of scanner.old.limits.bytes scanner.old.limits.depth value.old.items
        ≡ Whole (length value.old.items) }
    requires begins { scanner.old ≡ fresh scanner.old.limits }
    ensures taken { IfOk result (λ taken. AreTaken (value_then scanner.old.limits.depth None count
        value.old.items (λ g k. judged_of scanner.old.limits g k behind.now))
        value.new.items taken) }
    ensures waiting { OnOk result (waiting.new.items ≡ waiting.old.items
        ++ (value_then scanner.old.limits.depth None count
        value.old.items (λ g k. judged_of scanner.old.limits g k behind.now)).requests) }
    ensures after { IfOk result (λ taken. taken.fault ≡ None → IsBehind scanner.old.limits
        (kept_of value.new.items (option_map (λ v. v.items) taken.rest)) scanner.new) }
    ensures limits { scanner.new.limits ≡ scanner.old.limits }
    ensures count { OnOk result (count + length waiting.new.items
        < 2 ^ 64 + length waiting.old.items) }
    ensures no_pong { IfOk result (λ taken. taken.out ≡ []) }
    ensures err { OnErr result ((value.new.items ≡ value.old.items)
        × (waiting.new.items ≡ waiting.old.items)) }
{
    let alloc = *value.allocator();
    let number = count_behind(value, count);
    let unparsed = Unparsed {
        bytes: behind,
        scanned: 0,
    };
    let SourceHeard {
        requests,
        rest,
        pong: out,
        awaits,
        fault,
    } = hear(alloc, number, unparsed, scanner)?;
    let rest = Some(Vec::from_slice(alloc, rest)?);
    waiting.reserve(requests.len() + 1)?;
    match take_request(alloc, value, scanner.limits())? {
        Reading::Asks(batch) => {
            enter_all(batch, requests, waiting);
            Ok(Parsed {
                rest,
                out,
                awaits,
                fault,
            })
        }
        Reading::Fails(fault) => Ok(refused(alloc, SourceFault::Input(fault))),
        Reading::Heartbeat => {
            let mut requests = VecDeque::from_vec(requests);
            waiting.append(&mut requests).unwrap();
            Ok(Parsed {
                rest,
                out,
                awaits,
                fault,
            })
        }
    }
}

/// What bytes come to that go on with an unfinished value, where no PING is awaited. What is
/// unfinished then is kept there, unless it has a room of its own. On an error the value's bytes
/// are there, and maybe others behind them, nothing waits that did not before, and the scanner
/// stands anywhere.
pub fn take_on(
    count: u64,
    rest: &mut Vec<u8>,
    bytes: &[u8],
    scanner: &mut Scanner,
    waiting: &mut VecDeque<Batch>,
) -> Result<Parsed, AllocError>
    requires count { count + 1 < 2 ^ 64 }
    requires behind { IsBehind scanner.old.limits rest.old.items scanner.old }
    ensures taken { IfOk result (λ taken. AreTaken (judged_of scanner.old.limits None count
        (rest.old.items ++ bytes.now)) rest.new.items taken) }
    ensures waiting { OnOk result (waiting.new.items ≡ waiting.old.items
        ++ (judged_of scanner.old.limits None count (rest.old.items ++ bytes.now)).requests) }
    ensures after { IfOk result (λ taken. taken.fault ≡ None → IsBehind scanner.old.limits
        (kept_of rest.new.items (option_map (λ v. v.items) taken.rest)) scanner.new) }
    ensures limits { scanner.new.limits ≡ scanner.old.limits }
    ensures count { OnOk result (count + length waiting.new.items
        < 2 ^ 64 + length waiting.old.items) }
    ensures no_pong { IfOk result (λ taken. taken.out ≡ []) }
    ensures err { OnErr result ((take (length rest.old.items) rest.new.items ≡ rest.old.items)
        × (waiting.new.items ≡ waiting.old.items)) }
{
    match go_on(scanner, rest, bytes)? {
        Fed::More => Ok(Parsed {
            rest: None,
            out: Bytes::new(*rest.allocator()),
            awaits: false,
            fault: None,
        }),
        Fed::End(used) => take_value(count, rest, &bytes[used..], scanner, waiting),
        Fed::Bad(fault) => Ok(refused(*rest.allocator(), SourceFault::Scan(fault))),
    }
}
