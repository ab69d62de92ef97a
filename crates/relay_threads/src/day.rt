//! Two threads admit a hundred requests each, and two workers send them.

ghost use Rattle.std.specs.Prelude.{◌≡◌, ◌+◌, IfOk};
ghost use Rattle.fwd_run.specs.Pages.{page_count};

use crate::idle_worker::IdleWorker;
use crate::memory::Open;
use crate::output_plan::{OutputPlan, output};
use crate::paging::begin;
use crate::test_source::TestSource;
use crate::turns::{admits, collected, works};
use anyhow::Result;
use fwd_history::Run;
use fwd_output::{Closing, Ledgered, Seat, SharedOutput, Tally, Ticket, open};
use fwd_run::OpenedRun;
use std::alloc::Global;
use std::marker::Brand;
use std::sync::Wait;
use std::sync::ledger::{Blank, Ledger};
use std::thread;
use std::thread::Threads;

/// What came of a day.
#[derive(Drop)]
pub struct Day {
    pub closing: Closing,
    /// How many tickets the first and the second thread got, and how many of them all were told.
    pub first: usize,
    pub second: usize,
    pub told: usize,
}

/// Two threads admit, each from its seat with its source.
pub fn admit_both<
    L: Ledger + Run + Send + Sync,
    M: Ledger + Run + Send + Sync,
    R: Threads + Wait + Sync,
>(
    rt: &R,
    alloc: Global,
    out: &SharedOutput<Ledgered<L>, Ledgered<M>>,
    one: (Seat<L>, TestSource<L>),
    other: (Seat<L>, TestSource<L>),
) -> ((Seat<L>, Vec<Ticket>), (Seat<L>, Vec<Ticket>))
    ensures { (result.0.0.parts ≡ one.0.parts) × (result.1.0.parts ≡ other.0.parts) }
{
    thread::join(
        rt,
        move || admits(rt, alloc, out, one, 100),
        move || admits(rt, alloc, out, other, 100),
    )
}

/// A worker sends with its seat.
fn work<L: Ledger + Run, M: Ledger + Run, R: Wait>(
    rt: &R,
    alloc: Global,
    out: &SharedOutput<Ledgered<L>, Ledgered<M>>,
    seat: Seat<M>,
    worker: IdleWorker<L>,
) -> (Seat<M>, bool)
    ensures { result.0.parts ≡ seat.parts }
{
    let mut worker = worker.placed(alloc);
    works(rt, (alloc, out), seat, &mut worker, &mut Open)
}

/// Two workers send, each with its seat.
fn work_both<
    L: Ledger + Run + Send + Sync,
    M: Ledger + Run + Send + Sync,
    R: Threads + Wait + Sync,
>(
    rt: &R,
    alloc: Global,
    out: &SharedOutput<Ledgered<L>, Ledgered<M>>,
    seats: (Seat<M>, Seat<M>),
    workers: (IdleWorker<L>, IdleWorker<L>),
) -> ((Seat<M>, bool), (Seat<M>, bool))
    ensures { (result.0.0.parts ≡ seats.0.parts) × (result.1.0.parts ≡ seats.1.parts) }
{
    let (one, other) = seats;
    let (first, second) = workers;
    thread::join(
        rt,
        move || work(rt, alloc, out, one, first),
        move || work(rt, alloc, out, other, second),
    )
}

/// A day by these two ledgers, whose parts are two each, with windows of so many chunks.
fn day_by<L: Ledger + Run + Send + Sync, M: Ledger + Run + Send + Sync, R: Threads + Wait + Sync>(
    rt: &R,
    alloc: Global,
    opened: OpenedRun,
    ledgers: (Blank, Blank),
    window: u8,
) -> Result<Day>
    requires opened { (opened.book ≡ L.book) × (opened.pages ≡ page_count) }
    requires admitting { (ledgers.0.name ≡ L.name) × (ledgers.0.parts ≡ L.parts)
        × (L.parts ≡ 2) }
    requires working { (ledgers.1.name ≡ M.name) × (ledgers.1.parts ≡ M.parts) × (M.parts ≡ 2) }
    ensures { IfOk result (λ day. day.closing.accepted ≡ day.closing.settled + day.closing.left) }
{
    let (admitting, working) = ledgers;
    let (accepted, mut first) = open::<L>(admitting);
    let (settled, mut third) = open::<M>(working);
    let second = Ledgered::<L>::split(&mut first, 1);
    let fourth = Ledgered::<M>::split(&mut third, 1);
    let plan = OutputPlan {
        window,
        ..output(10, 100_000, 2)
    };
    let mut begun = begin::<L>(alloc, opened, plan)?;
    let workers = begun.two_workers()?;
    let (one, other) = (begun.sources.source()?, begun.sources.source()?);
    let shared = begun.shared(accepted, settled);
    let out = &shared;
    let (admitted, worked) = thread::join(
        rt,
        move || -> ((Seat<L>, Vec<Ticket>), (Seat<L>, Vec<Ticket>))
            requires { (first.parts ≡ 1) × (second.parts ≡ 1) }
            ensures { (result.0.0.parts ≡ 1) × (result.1.0.parts ≡ 1) }
        { admit_both(rt, alloc, out, (first, one), (second, other)) },
        move || -> ((Seat<M>, bool), (Seat<M>, bool))
            requires { (third.parts ≡ 1) × (fourth.parts ≡ 1) }
            ensures { (result.0.0.parts ≡ 1) × (result.1.0.parts ≡ 1) }
        { work_both(rt, alloc, out, (third, fourth), workers) },
    );
    let ((one, tickets), (other, others)) = admitted;
    let ((ours, _), (theirs, _)) = worked;
    let (first, second) = (tickets.len(), others.len());
    let (told, _) = collected(rt, alloc, out, tickets);
    let (also_told, _) = collected(rt, alloc, out, others);
    let admit_seats = vec![in alloc; one, other]?;
    let work_seats = vec![in alloc; ours, theirs]?;
    Ok(Day {
        closing: shared.close(admit_seats, work_seats),
        first,
        second,
        told: told.saturating_add(also_told),
    })
}

/// A day with windows of so many chunks.
pub fn whole_day<R: Threads + Wait + Sync>(rt: &R, alloc: Global, window: u8) -> Result<Day>
    ensures { IfOk result (λ day. day.closing.accepted ≡ day.closing.settled + day.closing.left) }
{
    let ledgers = (Blank::new(2), Blank::new(2));
    day_by::<Brand, Brand, R>(rt, alloc, OpenedRun::new(usize::MAX), ledgers, window)
}
