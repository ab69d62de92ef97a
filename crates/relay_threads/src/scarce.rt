//! What is played where memory may be refused once: two threads that admit and one worker, and
//! turns by pieces. By the argument `memory` the program plays nothing else, so that a script can
//! refuse the first request for memory, the second, and so on. Each part has a second try, since
//! memory may be refused where it begins.

ghost use Rattle.std.specs.Prelude.{◌≡◌, ◌+◌, IfOk};
ghost use Rattle.fwd_run.specs.Pages.{page_count};

use crate::day::admit_both;
use crate::output_plan::output;
use crate::paging::begin;
use crate::print_closing;
use crate::serving::well;
use crate::trials::{CALM, Trial, Witness};
use crate::turns::collected;
use anyhow::Result;
use fwd_history::Run;
use fwd_model::FlushKind;
use fwd_output::{Closing, Ledgered, Tally, open};
use fwd_run::OpenedRun;
use std::alloc::Global;
use std::env;
use std::marker::Brand;
use std::rt::Env;
use std::sync::Wait;
use std::sync::ledger::{Blank, Ledger};
use std::thread::Threads;

/// A worker that makes all its turns.
const BUSY: Trial = Trial {
    chunks: u64::MAX,
    ..CALM
};

/// What came of two threads and a worker.
#[derive(Drop)]
struct Outcome {
    closing: Closing,
    /// How many tickets had receipts.
    told: usize,
}

/// Two threads admit a hundred requests each, and then one worker sends, by these two ledgers.
fn alone_by<L: Ledger + Run + Send + Sync, M: Ledger + Run + Send + Sync, R: Threads + Wait + Sync>(
    rt: &R,
    alloc: Global,
    opened: OpenedRun,
    admitting: Blank,
    working: Blank,
) -> Result<Outcome>
    requires opened { (opened.book ≡ L.book) × (opened.pages ≡ page_count) }
    requires admitting { (admitting.name ≡ L.name) × (admitting.parts ≡ L.parts) × (L.parts ≡ 2) }
    requires working { (working.name ≡ M.name) × (working.parts ≡ M.parts) × (M.parts ≡ 1) }
    ensures { IfOk result (λ outcome.
        outcome.closing.accepted ≡ outcome.closing.settled + outcome.closing.left) }
{
    let (accepted, mut one) = open::<L>(admitting);
    let (settled, seat) = open::<M>(working);
    let other = Ledgered::<L>::split(&mut one, 1);
    let witness = Witness::new(alloc)?;
    let mut begun = begin::<L>(alloc, opened, output(10, 100_000, 1))?;
    let mut worker = begun.worker()?.placed(alloc);
    let sources = (begun.sources.source()?, begun.sources.source()?);
    let out = begun.shared(accepted, settled);
    let both = admit_both(rt, alloc, &out, (one, sources.0), (other, sources.1));
    let ((one, tickets), (other, others)) = both;
    out.flush(rt, 0, FlushKind::All);
    let seat = BUSY.work(rt, &out, seat, &mut worker, &witness);
    let seat = BUSY.work(rt, &out, seat, &mut worker, &witness);
    let (told, _) = collected(rt, alloc, &out, tickets);
    let (also_told, _) = collected(rt, alloc, &out, others);
    let admit_seats = vec![in alloc; one, other]?;
    let work_seats = vec![in alloc; seat]?;
    Ok(Outcome {
        closing: out.close(admit_seats, work_seats),
        told: told.saturating_add(also_told),
    })
}

/// The same.
fn alone<R: Threads + Wait + Sync>(rt: &R, alloc: Global) -> Result<Outcome>
    ensures { IfOk result (λ outcome.
        outcome.closing.accepted ≡ outcome.closing.settled + outcome.closing.left) }
{
    let opened = OpenedRun::new(usize::MAX);
    alone_by::<Brand, Brand, R>(rt, alloc, opened, Blank::new(2), Blank::new(1))
}

/// Whether nothing else is to be played.
pub fn is_asked<R: Env + AllocGlobal>(rt: &R) -> Result<bool> {
    let words: Vec<String> = env::args(rt)?.collect(rt.alloc())?;
    match words.get(1) {
        Some(word) => Ok(word.as_str() == "memory"),
        None => Ok(false),
    }
}

/// Tells what came of both.
pub fn tell<R: Threads + Wait + Sync + Print>(rt: &R, alloc: Global) -> Result<()> {
    let Outcome { closing, told } = match alone(rt, alloc) {
        Ok(outcome) => outcome,
        Err(_) => alone(rt, alloc)?,
    };
    print_closing(rt, "two threads and one worker", closing);
    let (first, second) = (well(rt, alloc), well(rt, alloc));
    let _ = println!(rt; "told {told}, turns by pieces {first:?} {second:?}");
    Ok(())
}
