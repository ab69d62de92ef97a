//! Many seats of a ledger: they are split off in a loop, each thread has one, and they are joined
//! again in a loop.

ghost use Rattle.std.specs.Prelude.{◌≡◌, ◌+◌, ◌<◌, IfOk, vec_len};
ghost use Rattle.fwd_run.specs.Pages.{page_count};

use crate::idle_worker::IdleWorker;
use crate::memory::Open;
use crate::output_plan::output;
use crate::paging::begin;
use crate::test_source::TestSource;
use crate::thread_share::Hand;
use crate::turns::{abandon_all, admits, works, works_until};
use anyhow::{Result, bail};
use fwd_history::Run;
use fwd_model::FlushKind;
use fwd_output::{Closing, Ledgered, Seat, SharedOutput, Tally, open};
use fwd_run::OpenedRun;
use std::alloc::{AllocError, Global};
use std::marker::Brand;
use std::sync::Wait;
use std::sync::atomic::{AtomicU64, Ordering};
use std::sync::ledger::{Blank, Ledger};
use std::thread;
use std::thread::Threads;

/// An output whose counters are these two ledgers.
type Counted<L, M> = SharedOutput<Ledgered<L>, Ledgered<M>>;

/// Splits a seat of one part off a seat for each of these tools.
fn deal<L: Ledger + Run, T: Drop>(
    alloc: Global,
    all: Seat<L>,
    tools: Vec<T>,
) -> Result<(Seat<L>, Vec<Hand<L, T>>), AllocError>
    requires { vec_len tools < all.parts }
    ensures { IfOk result (λ p. (p.0.parts + vec_len tools ≡ all.parts)
        × (vec_len p.1 ≡ vec_len tools)) }
{
    let (mut all, mut tools) = (all, tools);
    let mut hands = Vec::new(alloc);
    while let Some(tool) = tools.pop() {
        let seat = Ledgered::<L>::split(&mut all, 1);
        hands.push(Hand { tool, seat })?;
    }
    Ok((all, hands))
}

/// Joins these seats to a seat.
fn join_all<L: Ledger + Run>(all: Seat<L>, hands: Vec<Hand<L, ()>>) -> Seat<L>
    ensures { result.parts ≡ all.parts + vec_len hands }
{
    let mut all = all;
    let mut hands = hands;
    while let Some(hand) = hands.pop() {
        let Hand { tool: _, seat } = hand;
        all = Ledgered::<L>::join(all, seat);
    }
    all
}

/// A thread admits 25 requests from its seat, and abandons them: their entries stay.
fn admit_hand<L: Ledger + Run, M: Ledger + Run, R: Wait>(
    rt: &R,
    alloc: Global,
    out: &Counted<L, M>,
    hand: Hand<L, TestSource<L>>,
) -> Hand<L, ()> {
    let Hand { tool, seat } = hand;
    let (seat, tickets) = admits(rt, alloc, out, (seat, tool), 25);
    abandon_all(rt, out, tickets);
    Hand { tool: (), seat }
}

/// A worker sends with its seat until all is admitted.
fn work_hand<L: Ledger + Run, M: Ledger + Run, R: Wait>(
    rt: &R,
    alloc: Global,
    out: &Counted<L, M>,
    hand: Hand<M, IdleWorker<L>>,
    admitted: &AtomicU64,
) -> Hand<M, ()> {
    let Hand { tool, seat } = hand;
    let mut worker = tool.placed(alloc);
    let seat = works_until(rt, (alloc, out), seat, &mut worker, admitted);
    Hand { tool: (), seat }
}

/// Threads admit, a hand each, and then it is told that all is admitted.
fn admit_all<
    L: Ledger + Run + Send + Sync,
    M: Ledger + Run + Send + Sync,
    R: Threads + Wait + Sync,
>(
    rt: &R,
    alloc: Global,
    out: &Counted<L, M>,
    hands: Vec<Hand<L, TestSource<L>>>,
    admitted: &AtomicU64,
) -> Result<Vec<Hand<L, ()>>, AllocError>
    ensures { IfOk result (λ back. vec_len back ≡ vec_len hands) }
{
    let back = thread::map_vec(rt, hands, &|hand| admit_hand(rt, alloc, out, hand));
    admitted.store(1, Ordering::SeqCst);
    back
}

/// Workers send, a hand each.
fn work_all<L: Ledger + Run + Send + Sync, M: Ledger + Run + Send + Sync, R: Threads + Wait + Sync>(
    rt: &R,
    alloc: Global,
    out: &Counted<L, M>,
    hands: Vec<Hand<M, IdleWorker<L>>>,
    admitted: &AtomicU64,
) -> Result<Vec<Hand<M, ()>>, AllocError>
    ensures { IfOk result (λ back. vec_len back ≡ vec_len hands) }
{
    thread::map_vec(rt, hands, &|hand| work_hand(rt, alloc, out, hand, admitted))
}

/// The hands that admitted, and those that worked at the same time.
fn run_both<L: Ledger + Run + Send + Sync, M: Ledger + Run + Send + Sync, R: Threads + Wait + Sync>(
    rt: &R,
    alloc: Global,
    out: &Counted<L, M>,
    admitting: Vec<Hand<L, TestSource<L>>>,
    working: Vec<Hand<M, IdleWorker<L>>>,
) -> (
    Result<Vec<Hand<L, ()>>, AllocError>,
    Result<Vec<Hand<M, ()>>, AllocError>,
)
    ensures admitted { IfOk result.0 (λ back. vec_len back ≡ vec_len admitting) }
    ensures worked { IfOk result.1 (λ back. vec_len back ≡ vec_len working) }
{
    let admitted = AtomicU64::new(0);
    let seen = &admitted;
    thread::join(
        rt,
        move || admit_all(rt, alloc, out, admitting, seen),
        move || work_all(rt, alloc, out, working, seen),
    )
}

/// From a seat that was joined three more requests are admitted, which stay open.
fn admit_more<L: Ledger + Run, M: Ledger + Run, R: Wait>(
    rt: &R,
    alloc: Global,
    out: &Counted<L, M>,
    seat: Seat<L>,
    source: TestSource<L>,
) -> Seat<L>
    ensures { result.parts ≡ seat.parts }
{
    let (seat, tickets) = admits(rt, alloc, out, (seat, source), 3);
    abandon_all(rt, out, tickets);
    seat
}

/// From a seat that was joined a worker sends all that was admitted.
fn work_off<L: Ledger + Run, M: Ledger + Run, R: Wait>(
    rt: &R,
    alloc: Global,
    out: &Counted<L, M>,
    seat: Seat<M>,
    worker: IdleWorker<L>,
) -> Seat<M>
    ensures { result.parts ≡ seat.parts }
{
    out.flush(rt, 0, FlushKind::All);
    let mut worker = worker.placed(alloc);
    let (seat, _) = works(rt, (alloc, out), seat, &mut worker, &mut Open);
    seat
}

/// What an output came to, and what was added from the seats that admitted and that worked.
#[derive(Drop)]
pub struct Sums {
    pub closing: Closing,
    pub seats: (u64, u64),
}

/// The sums by two ledgers of nine and of five parts.
fn sums_by<L: Ledger + Run + Send + Sync, M: Ledger + Run + Send + Sync, R: Threads + Wait + Sync>(
    rt: &R,
    alloc: Global,
    opened: OpenedRun,
    admitting: Blank,
    working: Blank,
) -> Result<Sums>
    requires opened { (opened.book ≡ L.book) × (opened.pages ≡ page_count) }
    requires admitting { (admitting.name ≡ L.name) × (admitting.parts ≡ L.parts) × (L.parts ≡ 9) }
    requires working { (working.name ≡ M.name) × (working.parts ≡ M.parts) × (M.parts ≡ 5) }
    ensures { IfOk result (λ sums.
        sums.closing.accepted ≡ sums.closing.settled + sums.closing.left) }
{
    let (accepted, admit_seat) = open::<L>(admitting);
    let (settled, work_seat) = open::<M>(working);
    let mut begun = begin::<L>(alloc, opened, output(10, 100_000, 5))?;
    let last = begun.worker()?;
    let workers = begun.all_workers();
    if workers.len() != 4 {
        bail!("there are no four workers beside it");
    }
    let (admit_seat, admit_hands) = deal(alloc, admit_seat, begun.sources.take(8)?)?;
    let (work_seat, work_hands) = deal(alloc, work_seat, workers)?;
    let more = begun.sources.source()?;
    let out = begun.shared(accepted, settled);
    let (admitted, worked) = run_both(rt, alloc, &out, admit_hands, work_hands);
    let work_seat = work_off(rt, alloc, &out, join_all(work_seat, worked?), last);
    let admit_seat = join_all(admit_seat, admitted?);
    let admit_seat = admit_more(rt, alloc, &out, admit_seat, more);
    let seats = (admit_seat.count(), work_seat.count());
    let admit_seats = vec![in alloc; admit_seat]?;
    let work_seats = vec![in alloc; work_seat]?;
    let closing = out.close(admit_seats, work_seats);
    Ok(Sums { closing, seats })
}

/// Eight threads admit while four workers send. What is left of that is sent, and then three more
/// requests are admitted.
pub fn eight_and_four<R: Threads + Wait + Sync>(rt: &R, alloc: Global) -> Result<Sums>
    ensures { IfOk result (λ sums.
        sums.closing.accepted ≡ sums.closing.settled + sums.closing.left) }
{
    let opened = OpenedRun::new(usize::MAX);
    sums_by::<Brand, Brand, R>(rt, alloc, opened, Blank::new(9), Blank::new(5))
}
