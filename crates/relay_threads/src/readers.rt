//! Four readers: each admits from a seat of its own, and keeps the tickets of its requests to
//! itself, while workers send.

ghost use Rattle.std.specs.Prelude.{◌≡◌, ◌+◌, IfOk};
ghost use Rattle.fwd_run.specs.Pages.{page_count};

use crate::batches::MESSAGE;
use crate::memory::Open;
use crate::output_plan::output;
use crate::paging::begin;
use crate::test_source::{Sources, TestSource};
use crate::turns::{abandon_all, works, works_until};
use anyhow::Result;
use fwd_book::Receipt;
use fwd_history::Run;
use fwd_model::FlushKind;
use fwd_output::{Closing, Ledgered, Seat, SharedOutput, Tally, Ticket, open};
use fwd_run::OpenedRun;
use fwd_workers::PlacedWorker;
use std::alloc::Global;
use std::marker::Brand;
use std::sync::Wait;
use std::sync::atomic::{AtomicU64, Ordering};
use std::sync::ledger::{Blank, Ledger};
use std::thread::Threads;
use std::{mem, thread};

/// An output whose counters are these two ledgers.
type Counted<L, M> = SharedOutput<Ledgered<L>, Ledgered<M>>;

/// What two pairs of threads have.
type Pairs<T> = ((T, T), (T, T));

/// How many requests a reader admits, and how many between two calls that collect.
const REQUESTS: u64 = 100;

const BETWEEN: u64 = 8;

/// What a reader was told.
#[derive(Clone, Copy, Debug)]
pub struct Told {
    /// How many of its requests have receipts.
    pub told: u64,
    /// How many of those that it got were another's.
    pub strange: u64,
}

/// A reader's source, the requests that the reader admitted and was not told of, and what it was
/// told. It must be spent: by `end`.
struct Store<J: Run> {
    alloc: Global,
    source: TestSource<J>,
    tickets: Vec<Ticket>,
    told: Told,
}

impl<J: Run> Store<J> {
    /// The reader of this source has admitted nothing.
    fn new(alloc: Global, source: TestSource<J>) -> Store<J> {
        Store {
            alloc,
            source,
            tickets: Vec::new(alloc),
            told: Told {
                told: 0,
                strange: 0,
            },
        }
    }

    /// The reader admits a request of one entry from its seat.
    fn admit<A: Tally<Run = J>, S: Tally, R: Wait>(
        &mut self,
        rt: &R,
        out: &SharedOutput<A, S>,
        seat: &mut A::Seat,
    )
        ensures { A.parts seat.new ≡ A.parts seat.old }
    {
        if self.tickets.reserve(1).is_err() {
            return;
        }
        if let Ok(ticket) = self.source.admit(rt, seat, out, MESSAGE, 0) {
            self.tickets.push_reserved(ticket);
        }
    }

    /// The reader collects receipts for its tickets.
    fn collect<A: Tally<Run = J>, S: Tally, R: Wait>(&mut self, rt: &R, out: &SharedOutput<A, S>) {
        let tickets = mem::replace(&mut self.tickets, Vec::new(self.alloc));
        match out.collect(rt, self.alloc, tickets) {
            Ok((receipts, left, _)) => {
                mem::replace(&mut self.tickets, left).destroy_empty();
                self.note(&receipts);
            }
            Err((_, left)) => mem::replace(&mut self.tickets, left).destroy_empty(),
        }
    }

    /// The reader is told of these.
    fn note(&mut self, receipts: &[Receipt]) {
        for receipt in receipts {
            self.told.told = self.told.told.saturating_add(1);
            if receipt.origin().conn != self.source.id() {
                self.told.strange = self.told.strange.saturating_add(1);
            }
        }
    }

    /// What the reader was told in the end, once it has collected again. The tickets that are left
    /// are abandoned.
    fn end<A: Tally<Run = J>, S: Tally, R: Wait>(self, rt: &R, out: &SharedOutput<A, S>) -> Told {
        let mut store = self;
        store.collect(rt, out);
        let Store {
            alloc: _,
            source: _,
            tickets,
            told,
        } = store;
        abandon_all(rt, out, tickets);
        told
    }
}

/// A reader's seat and source before it admits from there, and what it has then.
type Asking<L> = (Seat<L>, TestSource<L>);

type Reading<L> = (Seat<L>, Store<L>);

/// A reader admits its requests, and collects between them.
fn read<L: Ledger + Run, M: Ledger + Run, R: Wait>(
    rt: &R,
    alloc: Global,
    out: &Counted<L, M>,
    asking: Asking<L>,
) -> Reading<L>
    ensures { result.0.parts ≡ asking.0.parts }
{
    let (mut seat, source) = asking;
    let mut store = Store::new(alloc, source);
    for request in 0..REQUESTS {
        store.admit(rt, out, &mut seat);
        if request % BETWEEN == 0 {
            store.collect(rt, out);
        }
    }
    (seat, store)
}

/// Two readers, each in a thread of its own.
fn read_two<L: Ledger + Run + Send + Sync, M: Ledger + Run + Send + Sync, R: Threads + Wait + Sync>(
    rt: &R,
    alloc: Global,
    out: &Counted<L, M>,
    two: (Asking<L>, Asking<L>),
) -> (Reading<L>, Reading<L>)
    ensures { (result.0.0.parts ≡ two.0.0.parts) × (result.1.0.parts ≡ two.1.0.parts) }
{
    let (one, other) = two;
    thread::join(
        rt,
        move || read(rt, alloc, out, one),
        move || read(rt, alloc, out, other),
    )
}

/// Four readers, each in a thread of its own.
fn read_four<
    L: Ledger + Run + Send + Sync,
    M: Ledger + Run + Send + Sync,
    R: Threads + Wait + Sync,
>(rt: &R, alloc: Global, out: &Counted<L, M>, all: Pairs<Asking<L>>) -> Pairs<Reading<L>>
    ensures { (result.0.0.0.parts ≡ all.0.0.0.parts) × (result.0.1.0.parts ≡ all.0.1.0.parts)
        × (result.1.0.0.parts ≡ all.1.0.0.parts) × (result.1.1.0.parts ≡ all.1.1.0.parts) }
{
    let (two, others) = all;
    thread::join(
        rt,
        move || read_two(rt, alloc, out, two),
        move || read_two(rt, alloc, out, others),
    )
}

/// The next four sources.
fn four_of<J: Run>(sources: &mut Sources<J>) -> Result<Pairs<TestSource<J>>> {
    let two = (sources.source()?, sources.source()?);
    let others = (sources.source()?, sources.source()?);
    Ok((two, others))
}

/// A worker sends, and with it all that was admitted.
fn work_off<L: Ledger + Run, M: Ledger + Run, R: Wait>(
    rt: &R,
    alloc: Global,
    out: &Counted<L, M>,
    seat: Seat<M>,
    worker: &mut PlacedWorker<L>,
) -> Seat<M>
    ensures { result.parts ≡ seat.parts }
{
    out.flush(rt, 0, FlushKind::All);
    let (seat, _) = works(rt, (alloc, out), seat, worker, &mut Open);
    seat
}

/// What the output came to, and what each reader was told.
#[derive(Drop)]
pub struct Readers {
    pub closing: Closing,
    pub told: Pairs<Told>,
}

/// Four readers and a worker by these two ledgers, of four parts and of one.
fn readers_by<
    L: Ledger + Run + Send + Sync,
    M: Ledger + Run + Send + Sync,
    R: Threads + Wait + Sync,
>(rt: &R, alloc: Global, opened: OpenedRun, admitting: Blank, working: Blank) -> Result<Readers>
    requires opened { (opened.book ≡ L.book) × (opened.pages ≡ page_count) }
    requires admitting { (admitting.name ≡ L.name) × (admitting.parts ≡ L.parts) × (L.parts ≡ 4) }
    requires working { (working.name ≡ M.name) × (working.parts ≡ M.parts) × (M.parts ≡ 1) }
    ensures { IfOk result (λ all. all.closing.accepted ≡ all.closing.settled + all.closing.left) }
{
    let (accepted, mut first) = open::<L>(admitting);
    let (settled, work_seat) = open::<M>(working);
    let second = Ledgered::<L>::split(&mut first, 1);
    let third = Ledgered::<L>::split(&mut first, 1);
    let fourth = Ledgered::<L>::split(&mut first, 1);
    let mut begun = begin::<L>(alloc, opened, output(10, 100_000, 1))?;
    let mut worker = begun.worker()?.placed(alloc);
    let ((one, two), (three, four)) = four_of(&mut begun.sources)?;
    let shared = begun.shared(accepted, settled);
    let out = &shared;
    let working = &mut worker;
    let admitted = AtomicU64::new(0);
    let seen = &admitted;
    let (read, work_seat) = thread::join(
        rt,
        move || -> Pairs<Reading<L>>
            requires { (first.parts ≡ 1) × (second.parts ≡ 1) × (third.parts ≡ 1)
                × (fourth.parts ≡ 1) }
            ensures { (result.0.0.0.parts ≡ 1) × (result.0.1.0.parts ≡ 1)
                × (result.1.0.0.parts ≡ 1) × (result.1.1.0.parts ≡ 1) }
        {
            let others = ((third, three), (fourth, four));
            let read = read_four(rt, alloc, out, (((first, one), (second, two)), others));
            seen.store(1, Ordering::SeqCst);
            read
        },
        move || -> Seat<M>
            requires { work_seat.parts ≡ 1 }
            ensures { result.parts ≡ 1 }
        { works_until(rt, (alloc, out), work_seat, working, seen) },
    );
    let work_seat = work_off(rt, alloc, out, work_seat, &mut worker);
    let (((first, one), (second, two)), ((third, three), (fourth, four))) = read;
    let told = (
        (one.end(rt, out), two.end(rt, out)),
        (three.end(rt, out), four.end(rt, out)),
    );
    let admit_seats = vec![in alloc; first, second, third, fourth]?;
    let work_seats = vec![in alloc; work_seat]?;
    Ok(Readers {
        closing: shared.close(admit_seats, work_seats),
        told,
    })
}

/// Four readers admit a hundred requests each, and collect receipts for their own tickets, while a
/// worker sends.
pub fn four_readers<R: Threads + Wait + Sync>(rt: &R, alloc: Global) -> Result<Readers>
    ensures { IfOk result (λ all. all.closing.accepted ≡ all.closing.settled + all.closing.left) }
{
    let opened = OpenedRun::new(usize::MAX);
    readers_by::<Brand, Brand, R>(rt, alloc, opened, Blank::new(4), Blank::new(1))
}
