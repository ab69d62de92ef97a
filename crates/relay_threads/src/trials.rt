//! Trials of one worker: its links fail, its servers lie, or its gate stops it.

ghost use Rattle.std.specs.Prelude.{◌≡◌, ◌+◌, IfOk};
ghost use Rattle.fwd_run.specs.Pages.{page_count};

use crate::faulty::{FaultyHub, Got, Wrong};
use crate::output_plan::{OutputPlan, output};
use crate::paging::begin;
use crate::print_closing;
use crate::record::Record;
use crate::turns::{abandon_all, admits};
use crate::watched::{Ticking, news_text, place_name};
use anyhow::Result;
use fwd_history::Run;
use fwd_model::FlushKind;
use fwd_output::{Closing, Ledgered, SharedOutput, Tally, open};
use fwd_run::OpenedRun;
use fwd_workers::{Gate, LinkFault, LossReason, Pass, Place, PlacedWorker, WorkerEvent};
use std::alloc::{AllocError, Global};
use std::marker::Brand;
use std::sync::Wait;
use std::sync::ledger::{Blank, Ledger};

/// How many turns a worker has.
const TURNS: u64 = 10_000;

/// By how much the clock goes on at each look, in milliseconds.
const TICK: u64 = 100;

/// How many calls a link has that may fail.
const CALLS: u64 = 10;

/// How many connects fail at most.
const CONNECTS: u64 = 3;

/// How many bytes the frame of a chunk of one entry has.
const FRAME_LENGTH: usize = 46;

/// One worker of an output.
#[derive(Clone, Copy)]
pub struct Trial {
    /// How many chunks are admitted, of one entry each, and closed.
    pub chunks: u64,
    pub window: u8,
    /// How many connects fail first.
    pub refused: u64,
    /// What goes wrong over the first link.
    pub wrong: Option<Wrong>,
    /// Where the gate stops the worker at its first visit.
    pub stop: Option<Place>,
}

/// A chunk with a worker to which nothing happens.
pub const CALM: Trial = Trial {
    chunks: 1,
    window: 1,
    refused: 0,
    wrong: None,
    stop: None,
};

/// What is seen of a worker: what it told, and what its servers got.
#[derive(Drop)]
pub struct Witness {
    alloc: Global,
    record: Record,
    got: Got,
}

impl Witness {
    /// Nothing. The only error is out of memory.
    pub fn new(alloc: Global) -> Result<Witness, AllocError> {
        Ok(Witness {
            alloc,
            record: Record::new(alloc)?,
            got: Got::new(),
        })
    }
}

/// A gate that notes what its worker tells, but for servers that cannot be had. It stops the worker
/// at a place, and before it looks for a chunk where all are settled.
#[derive(Drop)]
struct Teller {
    alloc: Global,
    record: Record,
    stop: Option<Place>,
    /// How many chunks are not settled.
    owed: u64,
}

impl Teller {
    /// Whether the worker is stopped at a place.
    fn stops(&self, place: Place) -> bool {
        let name = place_name(place);
        match self.stop {
            Some(stop) => place_name(stop) == name,
            None => self.owed == 0 && name == place_name(Place::BeforeTake),
        }
    }
}

impl Gate for Teller {
    fn pass<R: Wait>(&mut self, _rt: &R, _worker: u16, place: Place, _turn: u64) -> Pass {
        if self.stops(place) {
            return Pass::Stop;
        }
        Pass::Go
    }

    fn hear<R: Wait>(&mut self, rt: &R, worker: u16, news: WorkerEvent) {
        match news {
            WorkerEvent::Settled { .. } => self.owed = self.owed.saturating_sub(1),
            WorkerEvent::Went { .. } => return,
            WorkerEvent::Lost { why, .. } => {
                if let LossReason::Link(LinkFault::Connect) = why {
                    return;
                }
            }
        }
        let made = news_text(self.alloc, worker, news);
        self.record.note_made(rt, made);
    }
}

impl Trial {
    /// The run of the worker, from its seat. Where it was not stopped that is noted.
    pub fn work<A: Tally, S: Tally, R: Wait>(
        self,
        rt: &R,
        out: &SharedOutput<A, S>,
        seat: S::Seat,
        worker: &mut PlacedWorker<A::Run>,
        witness: &Witness,
    ) -> S::Seat
        ensures { S.parts result ≡ S.parts seat }
    {
        let alloc = witness.alloc;
        let Ok(record) = witness.record.share() else {
            return seat;
        };
        let mut hub = FaultyHub {
            alloc,
            refused: self.refused,
            wrong: self.wrong,
            gone: None,
            got: &witness.got,
        };
        let mut gate = Teller {
            alloc,
            record,
            stop: self.stop,
            owed: self.chunks,
        };
        let mut clock = Ticking::new(TICK);
        let (seat, ended) = worker.run(rt, out, seat, &mut hub, &mut gate, &mut clock, TURNS);
        if !ended.is_stopped() {
            witness.record.note(rt, ", turns spent");
        }
        seat
    }
}

/// What a trial came to.
#[derive(Drop)]
struct Tried {
    closing: Closing,
    witness: Witness,
}

/// A trial, by two ledgers of one part each.
fn tried_by<L: Ledger + Run, M: Ledger + Run, R: Wait>(
    rt: &R,
    alloc: Global,
    opened: OpenedRun,
    ledgers: (Blank, Blank),
    trial: Trial,
) -> Result<Tried>
    requires opened { (opened.book ≡ L.book) × (opened.pages ≡ page_count) }
    requires admitting { (ledgers.0.name ≡ L.name) × (ledgers.0.parts ≡ L.parts)
        × (L.parts ≡ 1) }
    requires working { (ledgers.1.name ≡ M.name) × (ledgers.1.parts ≡ M.parts) × (M.parts ≡ 1) }
    ensures { IfOk result (λ tried.
        tried.closing.accepted ≡ tried.closing.settled + tried.closing.left) }
{
    let (admitting, working) = ledgers;
    let (accepted, admit_seat) = open::<L>(admitting);
    let (settled, work_seat) = open::<M>(working);
    let witness = Witness::new(alloc)?;
    let plan = OutputPlan {
        window: trial.window,
        ..output(3, 100_000, 1)
    };
    let mut begun = begin::<L>(alloc, opened, plan)?;
    let mut worker = begun.worker()?.placed(alloc);
    let source = begun.sources.source()?;
    let out = begun.shared(accepted, settled);
    let (admit_seat, tickets) = admits(rt, alloc, &out, (admit_seat, source), trial.chunks);
    abandon_all(rt, &out, tickets);
    out.flush(rt, 0, FlushKind::All);
    let work_seat = trial.work(rt, &out, work_seat, &mut worker, &witness);
    let admit_seats = vec![in alloc; admit_seat]?;
    let work_seats = vec![in alloc; work_seat]?;
    Ok(Tried {
        closing: out.close(admit_seats, work_seats),
        witness,
    })
}

/// A trial.
fn tried_out<R: Wait>(rt: &R, alloc: Global, trial: Trial) -> Result<Tried>
    ensures { IfOk result (λ tried.
        tried.closing.accepted ≡ tried.closing.settled + tried.closing.left) }
{
    let ledgers = (Blank::new(1), Blank::new(1));
    tried_by::<Brand, Brand, R>(rt, alloc, OpenedRun::new(usize::MAX), ledgers, trial)
}

/// Tells a trial by what its worker told, and by what the output came to.
fn tell<R: Wait + Print>(rt: &R, alloc: Global, name: &str, trial: Trial) -> Result<()> {
    let Tried { closing, witness } = tried_out(rt, alloc, trial)?;
    let told = witness.record.text(rt)?;
    print_closing(rt, &format!(in alloc; "{name}{told}")?, closing);
    Ok(())
}

/// The trial of a link that fails at its call of this number.
fn failing(refused: u64, call: u64) -> Trial {
    Trial {
        refused,
        wrong: Some(Wrong::Fails(call)),
        ..CALM
    }
}

/// One link after the other fails at a call, behind so many connects: what all outputs came to, how
/// many frames of the chunk each time came whole, and how many others did.
fn tell_failing<R: Wait + Print>(rt: &R, alloc: Global, refused: u64) -> Result<()> {
    let (mut accepted, mut settled, mut others) = (0u64, 0u64, 0u64);
    let mut frames = Vec::new(alloc);
    for call in 1..=CALLS {
        let Tried { closing, witness } = tried_out(rt, alloc, failing(refused, call))?;
        let (first, other) = witness.got.counts();
        accepted = accepted.saturating_add(closing.accepted);
        settled = settled.saturating_add(closing.settled);
        others = others.saturating_add(other);
        let _ = frames.push(first);
    }
    let _ = println!(rt;
        "{refused} connects fail, and a call from 1 to 10: accepted {accepted}, \
        settled {settled}, frames {frames:?}, others {others}"
    );
    Ok(())
}

/// What a server says in place of an acknowledgement in time.
struct Lie {
    name: &'static str,
    /// Where the chunk with number 1 is the last one under way, 2, or 3.
    said: [&'static [u8]; 3],
    /// How many bytes of the last frame the server does not take.
    short: usize,
}

/// The acknowledgements of the chunks with the numbers 1 to 3.
const ACKS: [&[u8]; 3] = [
    b"\x81\xa3ack\xb8AAAAAAAAAAAAAAAAAAAAAQ==",
    b"\x81\xa3ack\xb8AAAAAAAAAAAAAAAAAAAAAg==",
    b"\x81\xa3ack\xb8AAAAAAAAAAAAAAAAAAAAAw==",
];

/// The name of a chunk that nobody sent.
const STRANGE: &[u8] = b"\x81\xa3ack\xb8BBBBBBBBBBBBBBBBBBBBBB==";

/// The acknowledgement of the first chunk, twice.
const TWICE: &[u8] =
    b"\x81\xa3ack\xb8AAAAAAAAAAAAAAAAAAAAAQ==\x81\xa3ack\xb8AAAAAAAAAAAAAAAAAAAAAQ==";

/// An `ack` that is nil.
const NIL: &[u8] = b"\x81\xa3ack\xc0";

/// All lies.
static LIES: [Lie; 5] = [
    Lie {
        name: "another name",
        said: [STRANGE; 3],
        short: 0,
    },
    Lie {
        name: "the last name before its last byte",
        said: ACKS,
        short: 1,
    },
    Lie {
        name: "the first name twice",
        said: [TWICE; 3],
        short: 0,
    },
    Lie {
        name: "no name",
        said: [NIL; 3],
        short: 0,
    },
    Lie {
        name: "nothing in time",
        said: [b""; 3],
        short: 0,
    },
];

/// The windows, and how many chunks are under way in each.
const WINDOWS: [(u8, u8); 3] = [(1, 1), (2, 2), (8, 3)];

impl Lie {
    /// The trial of so many chunks, from 1 to 3, in a window.
    fn trial(&self, window: u8, chunks: u8) -> Trial {
        let last = usize::from(chunks.clamp(1, 3)) - 1;
        let due = (last + 1) * FRAME_LENGTH - self.short.min(1);
        Trial {
            chunks: u64::from(chunks),
            window,
            wrong: Some(Wrong::Lies(due, self.said[last])),
            ..CALM
        }
    }

    /// Tells the lie in each window.
    fn tell<R: Wait + Print>(&self, rt: &R, alloc: Global) -> Result<()> {
        for (window, chunks) in WINDOWS {
            let name = format!(in alloc; "window {window}, {}", self.name)?;
            tell(rt, alloc, &name, self.trial(window, chunks))?;
        }
        Ok(())
    }
}

/// Tells what a worker comes to whose gate stops it at each place.
fn tell_stops<R: Wait + Print>(rt: &R, alloc: Global) -> Result<()> {
    for place in [
        Place::BeforeTake,
        Place::BeforeLoad,
        Place::BeforeSettle,
        Place::AfterSettle,
    ] {
        let name = format!(in alloc; "stopped {}", place_name(place))?;
        let trial = Trial {
            stop: Some(place),
            ..CALM
        };
        tell(rt, alloc, &name, trial)?;
    }
    Ok(())
}

/// Tells all trials.
pub fn tell_all<R: Wait + Print>(rt: &R, alloc: Global) -> Result<()> {
    for refused in 0..=CONNECTS {
        tell_failing(rt, alloc, refused)?;
    }
    for lie in &LIES {
        lie.tell(rt, alloc)?;
    }
    tell_stops(rt, alloc)
}
