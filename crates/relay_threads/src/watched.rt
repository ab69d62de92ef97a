//! A gate that notes what it is asked and told, and a clock that goes on at each look.

use crate::record::Record;
use fwd_workers::{Clock, Gate, LinkFault, LossReason, Pass, Place, Refused, WorkerEvent};
use std::alloc::{AllocError, Global};
use std::str;
use std::sync::Wait;

/// A clock that begins at 0 and goes on by so many milliseconds at each look.
#[derive(Drop)]
pub struct Ticking {
    now: u64,
    tick: u64,
}

impl Ticking {
    /// A clock at 0.
    pub fn new(tick: u64) -> Ticking {
        Ticking { now: 0, tick }
    }
}

impl Clock for Ticking {
    fn now(&mut self) -> u64 {
        let now = self.now;
        self.now = now.saturating_add(self.tick);
        now
    }
}

/// What a gate answers at a place, in the turns from one on and before another.
#[derive(Clone, Copy)]
pub struct Interrupt {
    pub place: Place,
    pub from: u64,
    pub before: u64,
    pub pass: Pass,
}

/// A gate that notes what it is asked and told.
#[derive(Drop)]
pub struct Watched {
    alloc: Global,
    record: Record,
    interrupt: Option<Interrupt>,
}

/// What a place is called.
pub fn place_name(place: Place) -> &'static str {
    match place {
        Place::BeforeTake => "before take",
        Place::BeforeLoad => "before load",
        Place::BeforeSettle => "before settle",
        Place::AfterSettle => "after settle",
    }
}

/// What a link's fault is called.
fn fault_name(fault: LinkFault) -> &'static str {
    match fault {
        LinkFault::Connect => "connect",
        LinkFault::Read => "read",
        LinkFault::Write => "write",
        LinkFault::Descriptors => "descriptors",
        LinkFault::Memory => "memory",
        LinkFault::Refused => "refused",
        LinkFault::Unanswered => "unanswered",
        LinkFault::Unreachable => "unreachable",
    }
}

/// What a loss is called.
fn loss_text(alloc: Global, why: LossReason) -> Result<String, AllocError> {
    match why {
        LossReason::Link(fault) => {
            let name = fault_name(fault);
            format!(in alloc; "{name}")
        }
        LossReason::Closed => format!(in alloc; "closed"),
        LossReason::Fault(fault) => format!(in alloc; "{fault:?}"),
        LossReason::Late => format!(in alloc; "late"),
        LossReason::Memory => format!(in alloc; "memory"),
    }
}

/// What a worker tells.
pub fn news_text(alloc: Global, worker: u16, news: WorkerEvent) -> Result<String, AllocError> {
    match news {
        WorkerEvent::Settled { number, server } => {
            format!(in alloc; ", worker {worker} tells chunk {number} settled by server {server}")
        }
        WorkerEvent::Lost { server, why, .. } => {
            let why = loss_text(alloc, why)?;
            format!(in alloc; ", worker {worker} tells server {server} lost: {why}")
        }
        WorkerEvent::Went { server } => {
            format!(in alloc; ", worker {worker} goes to server {server}")
        }
    }
}

/// What a worker tells of a chunk that a server seems to refuse.
fn refused_text(alloc: Global, worker: u16, refused: Refused) -> Result<String, AllocError> {
    let Refused {
        server,
        tag,
        size,
        losses,
        why,
    } = refused;
    let tag = str::from_utf8(tag.as_slice()).unwrap_or("no text");
    let why = loss_text(alloc, why)?;
    format!(in alloc;
        ", worker {worker} tells a chunk of {tag} refused by server {server}: {size} bytes, \
        {losses} losses: {why}"
    )
}

impl Watched {
    /// A gate that may interrupt its worker.
    pub fn new(alloc: Global, record: Record, interrupt: Option<Interrupt>) -> Watched {
        Watched {
            alloc,
            record,
            interrupt,
        }
    }

    /// What it answers at a place in a turn.
    fn answer(&self, place: Place, turn: u64) -> Pass {
        match self.interrupt {
            Some(at) if is_at(at, place, turn) => at.pass,
            _ => Pass::Go,
        }
    }
}

/// Whether an interrupt is at a place in a turn.
fn is_at(interrupt: Interrupt, place: Place, turn: u64) -> bool {
    place_name(interrupt.place) == place_name(place)
        && interrupt.from <= turn
        && turn < interrupt.before
}

impl Gate for Watched {
    fn pass<R: Wait>(&mut self, rt: &R, worker: u16, place: Place, turn: u64) -> Pass {
        let name = place_name(place);
        let pass = self.answer(place, turn);
        let answer = match pass {
            Pass::Go => "",
            Pass::Hold => ", held",
            Pass::Stop => ", stopped",
        };
        let made = format!(in self.alloc; "\n  {turn} worker {worker} {name}{answer}");
        self.record.note_made(rt, made);
        pass
    }

    fn hear<R: Wait>(&mut self, rt: &R, worker: u16, news: WorkerEvent) {
        let made = news_text(self.alloc, worker, news);
        self.record.note_made(rt, made);
    }

    fn hear_refused<R: Wait>(&mut self, rt: &R, worker: u16, refused: Refused) {
        let made = refused_text(self.alloc, worker, refused);
        self.record.note_made(rt, made);
    }
}
