//! What a relay has before its first turn, and how it is opened: the turns of its readers, and its
//! workers beside them.

ghost use Rattle.std.specs.Prelude.{◌≡◌, Some};
ghost use Rattle.fwd_run.specs.Runs.{routes_at};

use fwd_history::Run;
use fwd_links::SharedFlags;
use fwd_match::Routes;
use fwd_monitors::{PageQueue, SharedTally, StartFault};
use fwd_output::UnsentRequests;
use fwd_pools::{WorkerSurroundings, WorkerThread};
use fwd_reader::{Output, ReaderInbox, ReaderInboxes};
use fwd_run::ReachedHistory;
use fwd_turns::{
    EventQueue, FrontReader, FrontTurns, ReaderParts, SourceSetup, Surroundings, Turns, close_all,
};
use std::alloc::{AllocFailed, Global};
use std::net::Net;
use std::rt::Clock;
use std::sync::Wait;
use std::time::Instant;

/// What a relay's readers and workers share.
pub(crate) struct Shared<J: Run> {
    pub flags: SharedFlags,
    pub routes: Routes,
    pub outputs: Vec<Output<J>>,
    pub inboxes: ReaderInboxes<J>,
    pub journal_events: EventQueue,
    pub tally: SharedTally,
    pub pages: PageQueue,
    /// The history of the run as far as it is known before the first turn, for the proof.
    pub reached: ReachedHistory<J>,
    ghost routed: { routes_at reached ≡ Some routes },
}

// A drop of its own is proved once, and not at each place where a relay goes.
impl<J: Run> Drop for Shared<J> {
    fn drop(self) {
        let Shared {
            flags: _,
            routes: _,
            outputs: _,
            inboxes: _,
            journal_events: _,
            tally: _,
            pages: _,
            reached: _,
        } = self;
    }
}

impl<J: Run> Shared<J> {
    /// The outputs, which nobody shares any more, and the history of the run as far as it was known
    /// before the first turn.
    pub fn into_outputs(self) -> (Vec<Output<J>>, ReachedHistory<J>)
        ensures { result.0.items ≡ self.outputs.items }
    {
        let Shared {
            flags: _,
            routes: _,
            outputs,
            inboxes: _,
            journal_events: _,
            tally: _,
            pages: _,
            reached,
        } = self;
        (outputs, reached)
    }
}

/// What a relay has beside: what each reader has of its own, and the workers.
pub(crate) struct Own<J: Run> {
    /// The reader in front.
    pub front: ReaderParts<J>,
    /// What sources that come are given.
    pub setup: SourceSetup<J>,
    /// The others, in the order of their numbers.
    pub others: Vec<ReaderParts<J>>,
    pub workers: Vec<WorkerThread<J>>,
}

// A drop of its own is proved once, and not at each place where a relay goes.
impl<J: Run> Drop for Own<J> {
    fn drop(self) {
        let Own {
            front: _,
            setup: _,
            others: _,
            workers: _,
        } = self;
    }
}

impl<J: Run> Own<J> {
    /// The relay ends, and no request that waits is admitted any more. What those had, with so many
    /// entries that outputs hold and nobody sends again.
    pub fn give_up(&mut self, unasked: u64) -> UnsentRequests {
        let mut unsent = self.front.event_loop.give_up();
        for reader in &mut self.others {
            unsent = unsent.and(reader.event_loop.give_up());
        }
        unsent.with_unasked(unasked)
    }
}

/// A worker of a relay, which works beside the relay's turns, in a thread of its own.
#[derive(Drop)]
pub struct WorkerTurns<'a, J: Run> {
    thread: &'a mut WorkerThread<J>,
    around: WorkerSurroundings<'a, J>,
}

impl<'a, J: Run> WorkerTurns<'a, J> {
    /// Works for its output in so many turns, or until all workers are to end.
    pub fn work<R: Net + Wait + Clock + AllocGlobal>(self, rt: &R, turns: u64) {
        let WorkerTurns { thread, around } = self;
        let _ = thread.work(rt, around, turns);
    }
}

/// The workers of a relay.
fn workers_of<'a, J: Run>(
    alloc: Global,
    shared: &'a Shared<J>,
    threads: &'a mut [WorkerThread<J>],
    start: Option<Instant>,
) -> Result<Vec<WorkerTurns<'a, J>>, StartFault> {
    let around = WorkerSurroundings {
        flags: &shared.flags,
        outputs: &shared.outputs,
        inboxes: &shared.inboxes,
        start,
    };
    let mut workers = Vec::with_capacity(alloc, threads.len())?;
    for thread in threads {
        workers.push(WorkerTurns { thread, around })?;
    }
    Ok(workers)
}

/// A place of a reader: its number, its inbox, when the relay started, and what it does beside if
/// it is in front.
#[derive(Drop)]
struct ReaderPlace<'a, J: Run> {
    number: usize,
    inbox: &'a ReaderInbox<J>,
    start: Option<Instant>,
    front: Option<FrontReader<'a>>,
}

/// The turns of a relay's reader, which has these parts. The only error is out of memory.
fn turns_of<'a, J: Run, R: Wait + Clock>(
    rt: &'a R,
    alloc: Global,
    shared: &'a Shared<J>,
    place: ReaderPlace<'a, J>,
    parts: &'a mut ReaderParts<J>,
) -> Result<Turns<'a, J, R>, StartFault> {
    let ReaderPlace {
        number,
        inbox,
        start,
        front,
    } = place;
    let around = Surroundings {
        alloc,
        routes: &shared.routes,
        outputs: &shared.outputs,
        tally: &shared.tally,
        inboxes: &shared.inboxes,
        inbox,
        number,
        start,
        reached: &shared.reached,
    };
    Turns::new(rt, around, parts, &shared.journal_events, front)
}

/// The turns of the reader in front of a relay. The only error is out of memory.
fn front_of<'a, J: Run, R: Wait + Clock>(
    rt: &'a R,
    alloc: Global,
    shared: &'a Shared<J>,
    own: (&'a mut ReaderParts<J>, &'a mut SourceSetup<J>),
    start: Option<Instant>,
) -> Result<FrontTurns<'a, J, R>, StartFault> {
    let (parts, setup) = own;
    let place = ReaderPlace {
        number: 0,
        inbox: &shared.inboxes.front,
        start,
        front: Some(FrontReader::new(alloc, &shared.outputs, &shared.pages)?),
    };
    let turns = turns_of(rt, alloc, shared, place, parts)?;
    Ok(FrontTurns::new(turns, setup))
}

/// The turns of the readers of a relay that are not in front. The only error is out of memory.
fn others_of<'a, J: Run, R: Wait + Clock>(
    rt: &'a R,
    alloc: Global,
    shared: &'a Shared<J>,
    others: &'a mut [ReaderParts<J>],
    start: Option<Instant>,
) -> Result<Vec<Turns<'a, J, R>>, StartFault> {
    let mut readers = Vec::new(alloc);
    for ((number, inbox), parts) in (1..usize::MAX).zip(&shared.inboxes.others).zip(others) {
        let place = ReaderPlace {
            number,
            inbox,
            start,
            front: None,
        };
        let turns = match turns_of(rt, alloc, shared, place, parts) {
            Ok(turns) => turns,
            Err(fault) => {
                close_all(rt, readers);
                return Err(fault);
            }
        };
        if let Err(AllocFailed { value }) = readers.push(turns) {
            value.close(rt);
            close_all(rt, readers);
            return Err(StartFault::Memory);
        }
    }
    Ok(readers)
}

/// A relay that is open: the turns of its readers, and its workers.
pub struct Opened<'a, J: Run, R: Clock> {
    /// Those of the reader in front.
    pub turns: FrontTurns<'a, J, R>,
    pub others: Vec<Turns<'a, J, R>>,
    pub workers: Vec<WorkerTurns<'a, J>>,
}

/// Opens a relay of these parts. The only error is out of memory.
pub(crate) fn open<'a, J: Run, R: Wait + Clock>(
    rt: &'a R,
    alloc: Global,
    shared: &'a Shared<J>,
    own: &'a mut Own<J>,
) -> Result<Opened<'a, J, R>, StartFault> {
    let Own {
        front,
        setup,
        others,
        workers: threads,
    } = own;
    let start = Instant::now(rt).ok();
    let workers = workers_of(alloc, shared, threads, start)?;
    let others = others_of(rt, alloc, shared, others, start)?;
    match front_of(rt, alloc, shared, (front, setup), start) {
        Ok(turns) => Ok(Opened {
            turns,
            others,
            workers,
        }),
        Err(fault) => {
            close_all(rt, others);
            Err(fault)
        }
    }
}
