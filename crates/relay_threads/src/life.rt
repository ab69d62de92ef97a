//! The life of one worker over links in memory: what it is asked, what it sends and gets, what it
//! tells, and how it leaves its output.

ghost use Rattle.std.specs.Prelude.{◌≡◌};
ghost use Rattle.fwd_run.specs.Pages.{page_count};

use crate::acts::KEY;
use crate::idle_worker::IdleWorker;
pub use crate::output_plan::Servers;
use crate::output_plan::{OutputPlan, output};
use crate::paging::begin;
use crate::played::{Meetings, PlayedHub};
use crate::record::Record;
use crate::turns::{abandon_all, admits};
use crate::watched::{Interrupt, Ticking, Watched};
use anyhow::Result;
use fwd_history::Run;
use fwd_model::FlushKind;
use fwd_output::{Plain, SharedOutput};
use fwd_run::OpenedRun;
use fwd_workers::WorkerEnd;
use std::alloc::Global;
use std::marker::Brand;
use std::sync::Wait;

/// An output that is shared.
type Out<J> = SharedOutput<Plain<J>, Plain<J>>;

/// A worker with its output, and what happens to it. Moments are in milliseconds.
#[derive(Clone, Copy)]
pub struct Life {
    pub name: &'static str,
    /// Its output is the second one of its run, whose first one gets no request.
    pub is_second: bool,
    pub servers: Servers,
    /// How many requests of one entry are admitted at moment 0.
    pub requests: u64,
    /// Whether each of them is a chunk, and closed. Else one chunk takes them all, and is open.
    pub is_closed: bool,
    /// The worker's number.
    pub worker: u16,
    /// Whether servers have to know the shared key.
    pub is_keyed: bool,
    pub ack_wait: u64,
    /// How many chunks it may have that are not acknowledged.
    pub window: u8,
    /// How long a turn lasts.
    pub tick: u64,
    pub turns: u64,
    pub meetings: Meetings,
    pub interrupt: Option<Interrupt>,
    /// The moments at which the output is looked at afterwards.
    pub looks: [u64; 3],
}

/// What most lives have.
pub const PLAIN: Life = Life {
    name: "",
    is_second: false,
    servers: Servers::Two,
    requests: 1,
    is_closed: true,
    worker: 0,
    is_keyed: false,
    ack_wait: 10_000,
    window: 1,
    tick: 1,
    turns: 0,
    meetings: &[],
    interrupt: None,
    looks: [0; 3],
};

impl Life {
    /// What its output is set to: it has a worker more, which looks at it afterwards.
    fn plan(self) -> OutputPlan {
        let chunk = if self.is_closed { 3 } else { 1000 };
        OutputPlan {
            is_second: self.is_second,
            servers: self.servers,
            window: self.window,
            ack_wait: self.ack_wait,
            key: if self.is_keyed { Some(KEY) } else { None },
            ..output(chunk, 100_000, self.worker.saturating_add(2))
        }
    }
}

/// An output in which a life begins, its worker, and another one.
#[derive(Drop)]
struct Scene<J: Run> {
    out: Out<J>,
    worker: IdleWorker<J>,
    looker: IdleWorker<J>,
}

/// The output of a life before its first turn.
fn scene_of<J: Run, R: Wait>(
    rt: &R,
    alloc: Global,
    life: Life,
    opened: OpenedRun,
) -> Result<Scene<J>>
    requires { (opened.book ≡ J.book) × (opened.pages ≡ page_count) }
{
    let mut begun = begin::<J>(alloc, opened, life.plan())?;
    let (worker, looker) = begun.two_workers()?;
    let source = begun.sources.source()?;
    let out = begun.shared(Plain::new(0), Plain::new(0));
    let ((), tickets) = admits(rt, alloc, &out, ((), source), life.requests);
    abandon_all(rt, &out, tickets);
    if life.is_closed {
        out.flush(rt, 0, FlushKind::All);
    }
    Ok(Scene {
        out,
        worker,
        looker,
    })
}

/// A life that is being told.
#[derive(Drop)]
struct Telling<J: Run> {
    alloc: Global,
    life: Life,
    out: Out<J>,
    record: Record,
}

impl<J: Run> Telling<J> {
    /// The run of the worker.
    fn run<R: Wait>(&self, rt: &R, worker: IdleWorker<J>) -> Result<WorkerEnd> {
        let Life {
            turns,
            meetings,
            interrupt,
            ..
        } = self.life;
        let mut hub = PlayedHub::new(self.alloc, self.record.share()?, meetings);
        let mut gate = Watched::new(self.alloc, self.record.share()?, interrupt);
        let mut worker = worker.placed(self.alloc);
        let mut clock = Ticking::new(self.life.tick);
        let ((), ended) = worker.run(rt, &self.out, (), &mut hub, &mut gate, &mut clock, turns);
        Ok(ended)
    }

    /// How the run ended, and what the output counts then.
    fn note_end<R: Wait>(&self, rt: &R, ended: WorkerEnd) {
        let how = if ended.is_stopped() {
            "stopped"
        } else {
            "turns spent"
        };
        let counts = self.out.counts(rt);
        let (accepted, settled, held) = (counts.accepted, counts.settled, counts.held);
        let made = format!(in self.alloc;
            "\n  {how}: accepted {accepted}, settled {settled}, held {held}"
        );
        self.record.note_made(rt, made);
    }

    /// Which server the worker would try at a moment (milliseconds), and which chunk it would get:
    /// another one takes it, and gives it back.
    fn note_look<R: Wait>(&self, rt: &R, looker: IdleWorker<J>, now: u64) -> IdleWorker<J> {
        let server = self.out.choose(rt, self.life.worker, now);
        let made = match server {
            Some(server) => format!(in self.alloc; "\n  at {now}: server {server}"),
            None => format!(in self.alloc; "\n  at {now}: no server"),
        };
        self.record.note_made(rt, made);
        self.note_chunk(rt, looker, now)
    }

    /// Which chunk a worker would get. It goes back without a loss.
    fn note_chunk<R: Wait>(&self, rt: &R, looker: IdleWorker<J>, now: u64) -> IdleWorker<J> {
        match looker.take(rt, self.alloc, &mut (), &self.out, now) {
            Err(looker) => {
                self.record.note(rt, ", no chunk");
                looker
            }
            Ok(holding) => {
                let number = holding.chunk().number();
                self.record
                    .note_made(rt, format!(in self.alloc; ", chunk {number}"));
                holding.put_back(rt, &mut (), &self.out, now)
            }
        }
    }
}

/// All that happens in a life, in a run that this history is of.
fn lived_by<J: Run, R: Wait>(rt: &R, alloc: Global, life: Life, opened: OpenedRun) -> Result<String>
    requires { (opened.book ≡ J.book) × (opened.pages ≡ page_count) }
{
    let Scene {
        out,
        worker,
        looker,
    } = scene_of::<J, R>(rt, alloc, life, opened)?;
    let telling = Telling {
        alloc,
        life,
        out,
        record: Record::new(alloc)?,
    };
    telling.record.note(rt, life.name);
    let ended = telling.run(rt, worker)?;
    telling.note_end(rt, ended);
    let mut looker = looker;
    for look in life.looks {
        looker = telling.note_look(rt, looker, look);
    }
    Ok(telling.record.text(rt)?)
}

/// All that happens in a life.
pub fn lived<R: Wait>(rt: &R, alloc: Global, life: Life) -> Result<String> {
    lived_by::<Brand, R>(rt, alloc, life, OpenedRun::new(usize::MAX))
}
