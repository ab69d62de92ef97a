//! What threads do: one that admits, one that works, and the tickets that are left.

ghost use Rattle.std.specs.Prelude.{◌≡◌, ◌≤◌};

use crate::batches::MESSAGE;
use crate::memory::{Still, Wires};
use crate::test_source::TestSource;
use fwd_output::{SharedOutput, Tally, Ticket};
use fwd_workers::{Gate, Pass, Place, PlacedWorker};
use std::alloc::Global;
use std::sync::Wait;
use std::sync::atomic::{AtomicU64, Ordering};

/// Tickets that are no more wanted: their requests are abandoned.
pub fn abandon_all<A: Tally, S: Tally, R: Wait>(
    rt: &R,
    out: &SharedOutput<A, S>,
    tickets: Vec<Ticket>,
) -> usize {
    let mut count = 0usize;
    let mut rest = tickets.into_iter();
    while let Some(ticket) = rest.next() {
        out.abandon(rt, ticket);
        count = count.saturating_add(1);
    }
    rest.destroy_empty();
    count
}

/// Admits so many requests of one entry of a source.
pub fn admits<A: Tally, S: Tally, R: Wait>(
    rt: &R,
    alloc: Global,
    out: &SharedOutput<A, S>,
    asking: (A::Seat, TestSource<A::Run>),
    requests: u64,
) -> (A::Seat, Vec<Ticket>)
    ensures { A.parts result.0 ≡ A.parts asking.0 }
{
    let (mut seat, mut source) = asking;
    let mut tickets = Vec::new(alloc);
    for _ in 0..requests {
        if tickets.reserve(1).is_err() {
            return (seat, tickets);
        }
        if let Ok(ticket) = source.admit(rt, &mut seat, out, MESSAGE, 0) {
            tickets.push_reserved(ticket);
        }
    }
    (seat, tickets)
}

/// A worker's run, and whether the gate stopped it.
pub fn works<A: Tally, S: Tally, G: Gate, R: Wait>(
    rt: &R,
    at: (Global, &SharedOutput<A, S>),
    seat: S::Seat,
    worker: &mut PlacedWorker<A::Run>,
    gate: &mut G,
) -> (S::Seat, bool)
    ensures parts { S.parts result.0 ≡ S.parts seat }
    ensures count { S.count seat ≤ S.count result.0 }
{
    let (alloc, out) = at;
    let mut hub = Wires(alloc);
    let (seat, ended) = worker.run(rt, out, seat, &mut hub, gate, &mut Still, 10_000);
    (seat, ended.is_stopped())
}

/// Stops a worker that has no chunk, once all is admitted.
#[derive(Drop)]
struct Until<'a> {
    admitted: &'a AtomicU64,
}

impl Gate for Until<'_> {
    fn pass<R: Wait>(&mut self, _rt: &R, _worker: u16, place: Place, _turn: u64) -> Pass {
        match place {
            Place::BeforeTake if self.admitted.load(Ordering::SeqCst) == 1 => Pass::Stop,
            _ => Pass::Go,
        }
    }
}

/// A worker sends until all is admitted, and has no chunk at the end.
pub fn works_until<A: Tally, S: Tally, R: Wait>(
    rt: &R,
    at: (Global, &SharedOutput<A, S>),
    seat: S::Seat,
    worker: &mut PlacedWorker<A::Run>,
    admitted: &AtomicU64,
) -> S::Seat
    ensures { S.parts result ≡ S.parts seat }
{
    let (alloc, out) = at;
    let mut gate = Until { admitted };
    let mut hub = Wires(alloc);
    let (seat, _) = worker.run(rt, out, seat, &mut hub, &mut gate, &mut Still, u64::MAX);
    seat
}

/// How many of the tickets have receipts now, and how many are left, which are abandoned.
pub fn collected<A: Tally, S: Tally, R: Wait>(
    rt: &R,
    alloc: Global,
    out: &SharedOutput<A, S>,
    tickets: Vec<Ticket>,
) -> (usize, usize) {
    match out.collect(rt, alloc, tickets) {
        Ok((receipts, back, _)) => {
            let left = abandon_all(rt, out, back);
            (receipts.len(), left)
        }
        Err((_, back)) => (0, abandon_all(rt, out, back)),
    }
}
