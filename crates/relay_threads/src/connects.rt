//! When a worker connects to a server, and when it does not.

ghost use Rattle.std.specs.Prelude.{◌≡◌};
ghost use Rattle.fwd_run.specs.Pages.{page_count};

use crate::faulty::{Faulty, FaultyHub, Got, Wrong};
use crate::memory::Open;
use crate::output_plan::output;
use crate::paging::begin;
use crate::turns::{abandon_all, admits};
use anyhow::Result;
use fwd_history::Run;
use fwd_model::FlushKind;
use fwd_output::{Plain, SharedOutput};
use fwd_run::OpenedRun;
use fwd_workers::{Clock, Gate, Hub, LinkFault, Pass, Place, PlacedWorker, WorkerEvent};
use std::alloc::Global;
use std::marker::Brand;
use std::sync::Wait;
use std::sync::atomic::{AtomicU64, Ordering};

/// How long a chunk stays open, in milliseconds.
const INTERVAL: u64 = 1_000;

/// How long a claim stands, in milliseconds.
const CLAIM: u64 = 100;

/// An output with plain counters, in a run that its history is of.
type Shared<J> = SharedOutput<Plain<J>, Plain<J>>;

/// Makes links, and counts how often it is asked for one.
#[derive(Drop)]
struct Counting<'a> {
    hub: FaultyHub<'a>,
    connects: u64,
}

impl<'a> Hub for Counting<'a> {
    type Line = Faulty<'a>;

    fn connect<R: Wait>(&mut self, rt: &R, server: u16) -> Result<Faulty<'a>, LinkFault> {
        self.connects = self.connects.saturating_add(1);
        self.hub.connect(rt, server)
    }
}

/// A clock that stands at a moment (milliseconds).
#[derive(Drop)]
struct At(u64);

impl Clock for At {
    fn now(&mut self) -> u64 {
        self.0
    }
}

/// A clock that shows a moment (milliseconds) that others move.
#[derive(Drop)]
struct Moved<'a>(&'a AtomicU64);

impl<'a> Clock for Moved<'a> {
    fn now(&mut self) -> u64 {
        self.0.load(Ordering::SeqCst)
    }
}

/// A gate that lets its worker pass once an open chunk is due, and moves the clock there.
#[derive(Drop)]
struct Slow<'a>(&'a AtomicU64);

impl<'a> Gate for Slow<'a> {
    fn pass<R: Wait>(&mut self, _rt: &R, _worker: u16, _place: Place, _turn: u64) -> Pass {
        self.0.store(INTERVAL, Ordering::SeqCst);
        Pass::Go
    }
}

/// A gate that has another worker send all that the output holds once its own lost a server: one
/// whose clock shows that a lost chunk may be sent again.
#[derive(Drop)]
struct Relief<'a, J: Run> {
    alloc: Global,
    out: &'a Shared<J>,
    other: PlacedWorker<J>,
}

impl<'a, J: Run> Gate for Relief<'a, J> {
    fn pass<R: Wait>(&mut self, _rt: &R, _worker: u16, _place: Place, _turn: u64) -> Pass {
        Pass::Go
    }

    fn hear<R: Wait>(&mut self, rt: &R, _worker: u16, news: WorkerEvent) {
        if let WorkerEvent::Lost { .. } = news {
            let watch = Watch::calm(self.alloc, self.out, 100);
            let _ = watch.connects(rt, &mut self.other, &mut Open, &mut At(INTERVAL));
        }
    }
}

/// An output, and its two workers.
#[derive(Drop)]
struct Scene<J: Run> {
    out: Shared<J>,
    worker: PlacedWorker<J>,
    other: PlacedWorker<J>,
}

/// An output with one chunk, which is open.
fn with_chunk<J: Run, R: Wait>(rt: &R, alloc: Global, opened: OpenedRun) -> Result<Scene<J>>
    requires { (opened.book ≡ J.book) × (opened.pages ≡ page_count) }
{
    let mut begun = begin::<J>(alloc, opened, output(2, 100_000, 2))?;
    let (worker, other) = begun.two_workers()?;
    let source = begun.sources.source()?;
    let out = begun.shared(Plain::new(0), Plain::new(0));
    let ((), tickets) = admits(rt, alloc, &out, ((), source), 1);
    abandon_all(rt, &out, tickets);
    Ok(Scene {
        out,
        worker: worker.placed(alloc),
        other: other.placed(alloc),
    })
}

/// A worker that is watched for some turns.
#[derive(Drop)]
struct Watch<'a, J: Run> {
    alloc: Global,
    out: &'a Shared<J>,
    /// What goes wrong over its first link.
    wrong: Option<Wrong>,
    turns: u64,
}

impl<'a, J: Run> Watch<'a, J> {
    /// A worker to which nothing happens.
    fn calm(alloc: Global, out: &'a Shared<J>, turns: u64) -> Watch<'a, J> {
        Watch {
            alloc,
            out,
            wrong: None,
            turns,
        }
    }

    /// How often the worker connects.
    fn connects<R: Wait, G: Gate, C: Clock>(
        self,
        rt: &R,
        worker: &mut PlacedWorker<J>,
        gate: &mut G,
        clock: &mut C,
    ) -> u64 {
        let Watch {
            alloc,
            out,
            wrong,
            turns,
        } = self;
        let got = Got::new();
        let mut hub = Counting {
            hub: FaultyHub {
                alloc,
                refused: 0,
                wrong,
                gone: None,
                got: &got,
            },
            connects: 0,
        };
        let ((), _) = worker.run(rt, out, (), &mut hub, gate, clock, turns);
        hub.connects
    }
}

/// How often one connects at a moment (milliseconds) where another claimed what is free at 0.
fn where_claimed<J: Run, R: Wait>(rt: &R, alloc: Global, opened: OpenedRun, now: u64) -> Result<u64>
    requires { (opened.book ≡ J.book) × (opened.pages ≡ page_count) }
{
    let mut scene = with_chunk::<J, R>(rt, alloc, opened)?;
    scene.out.flush(rt, 0, FlushKind::All);
    scene.out.claim(rt, 0);
    let watch = Watch::calm(alloc, &scene.out, 3);
    Ok(watch.connects(rt, &mut scene.worker, &mut Open, &mut At(now)))
}

/// How often one connects that loses its first server, where another sends all meanwhile.
fn where_relieved<J: Run, R: Wait>(rt: &R, alloc: Global, opened: OpenedRun) -> Result<u64>
    requires { (opened.book ≡ J.book) × (opened.pages ≡ page_count) }
{
    let Scene {
        out,
        mut worker,
        other,
    } = with_chunk::<J, R>(rt, alloc, opened)?;
    out.flush(rt, 0, FlushKind::All);
    let mut watch = Watch::calm(alloc, &out, 20);
    watch.wrong = Some(Wrong::Fails(1));
    let mut relief = Relief {
        alloc,
        out: &out,
        other,
    };
    Ok(watch.connects(rt, &mut worker, &mut relief, &mut At(0)))
}

/// How often one connects in a turn for which its gate waited until a chunk was due.
fn where_slow<J: Run, R: Wait>(rt: &R, alloc: Global, opened: OpenedRun) -> Result<u64>
    requires { (opened.book ≡ J.book) × (opened.pages ≡ page_count) }
{
    let mut scene = with_chunk::<J, R>(rt, alloc, opened)?;
    let moment = AtomicU64::new(0);
    let watch = Watch::calm(alloc, &scene.out, 1);
    let connects = watch.connects(
        rt,
        &mut scene.worker,
        &mut Slow(&moment),
        &mut Moved(&moment),
    );
    Ok(connects)
}

/// Tells how often a worker connects.
pub fn tell_all<R: Wait + Print>(rt: &R, alloc: Global) -> Result<()> {
    let before = where_claimed::<Brand, R>(rt, alloc, OpenedRun::new(usize::MAX), CLAIM - 1)?;
    let after = where_claimed::<Brand, R>(rt, alloc, OpenedRun::new(usize::MAX), CLAIM)?;
    let _ = println!(rt; "claimed by another worker: {before} connects, and {after} after that");
    let relieved = where_relieved::<Brand, R>(rt, alloc, OpenedRun::new(usize::MAX))?;
    let _ = println!(rt; "all sent by another worker behind a loss: {relieved} connects");
    let slow = where_slow::<Brand, R>(rt, alloc, OpenedRun::new(usize::MAX))?;
    let _ = println!(rt; "a gate that waits until a chunk is due: {slow} connects in that turn");
    Ok(())
}
