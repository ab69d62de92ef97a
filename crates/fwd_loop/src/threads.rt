//! The threads of a relay beside that of its reader in front.

use crate::opening::WorkerTurns;
use crate::platform::Platform;
use fwd_history::Run;
use fwd_monitors::StartFault;
use fwd_turns::{PageMaker, Turns};
use std::alloc::{AllocError, Global};
use std::rt::Clock;
use std::sync::Wait;
use std::thread::{JoinHandle, Scope, Threads};

/// What works beside the reader in front, each in a thread of its own.
#[derive(Drop)]
pub struct Beside<'x, 'a, J: Run, R: Clock> {
    workers: Vec<WorkerTurns<'a, J>>,
    readers: Vec<ReaderThread<'x, 'a, J, R>>,
}

impl<'x, 'a, J: Run, R: Wait + Clock> Beside<'x, 'a, J, R> {
    /// These workers and readers. The only error is out of memory.
    pub fn new(
        alloc: Global,
        workers: Vec<WorkerTurns<'a, J>>,
        others: &'x mut Vec<Turns<'a, J, R>>,
    ) -> Result<Beside<'x, 'a, J, R>, AllocError> {
        let mut readers = Vec::with_capacity(alloc, others.len())?;
        let all = others.iter_mut();
        for turns in all {
            readers.push(ReaderThread { turns })?;
        }
        Ok(Beside { workers, readers })
    }
}

/// What a thread of a reader that is not in front works on.
#[derive(Drop)]
struct ReaderThread<'x, 'a, J: Run, R: Clock> {
    turns: &'x mut Turns<'a, J, R>,
}

impl<'x, 'a, J: Run, R: Wait + Clock> ReaderThread<'x, 'a, J, R> {
    /// Makes so many turns, or as many as there are until all are to end.
    fn run(self, rt: &R, turns: u64) -> Result<(), StartFault> {
        self.turns.run(rt, turns)
    }
}

/// The threads that were started. They must be waited for before what they work on is closed: by
/// `join`.
#[derive(Drop)]
pub struct Started {
    /// Those of the workers, and of whatever else ends with nothing to say.
    workers: Vec<JoinHandle<()>>,
    readers: Vec<JoinHandle<Result<(), StartFault>>>,
}

impl Started {
    /// None yet, with room for all of these and for one more. The only error is out of memory.
    pub fn with_room_for<J: Run, R: Clock>(
        alloc: Global,
        beside: &Beside<'_, '_, J, R>,
    ) -> Result<Started, AllocError> {
        let workers = beside.workers.len().saturating_add(1);
        Ok(Started {
            workers: Vec::with_capacity(alloc, workers)?,
            readers: Vec::with_capacity(alloc, beside.readers.len())?,
        })
    }

    /// Starts a thread for each of these, which makes so many turns in it.
    ///
    /// It fails with `Thread` where a thread cannot be had. Those that were started work then, too.
    pub fn start<'s, 'a, E, J: Run + Send + Sync, R: Platform>(
        &mut self,
        scope: &Scope<'s, E>,
        rt: &'s R,
        beside: Beside<'s, 'a, J, R>,
        turns: u64,
    ) -> Result<(), StartFault> {
        let Beside { workers, readers } = beside;
        self.start_workers(scope, rt, workers, turns)?;
        self.start_readers(scope, rt, readers, turns)
    }

    /// Starts a thread for each of these workers.
    fn start_workers<'s, 'a: 's, E, J: Run + Send + Sync, R: Platform>(
        &mut self,
        scope: &Scope<'s, E>,
        rt: &'s R,
        workers: Vec<WorkerTurns<'a, J>>,
        turns: u64,
    ) -> Result<(), StartFault> {
        for worker in workers {
            match scope.spawn(move || worker.work(rt, turns)) {
                Ok(child) => self.workers.push(child)?,
                Err(_) => return Err(StartFault::Thread),
            }
        }
        Ok(())
    }

    /// Starts a thread for each of these readers.
    fn start_readers<'s, 'a, E, J: Run + Send + Sync, R: Platform>(
        &mut self,
        scope: &Scope<'s, E>,
        rt: &'s R,
        readers: Vec<ReaderThread<'s, 'a, J, R>>,
        turns: u64,
    ) -> Result<(), StartFault> {
        for reader in readers {
            match scope.spawn(move || reader.run(rt, turns)) {
                Ok(child) => self.readers.push(child)?,
                Err(_) => return Err(StartFault::Thread),
            }
        }
        Ok(())
    }

    /// Starts a thread that makes monitors' pages, if one can be had: whether it could. It is
    /// waited for with the workers.
    pub(crate) fn start_pages<'s, 'a: 's, E, J: Run + Send + Sync, R: Platform>(
        &mut self,
        scope: &Scope<'s, E>,
        rt: &'s R,
        maker: PageMaker<'a, J>,
    ) -> bool {
        match scope.spawn(move || maker.work(rt)) {
            Ok(child) => {
                let _ = self.workers.push(child);
                true
            }
            Err(_) => false,
        }
    }

    /// Waits until all have ended. It fails as the first reader that failed.
    pub fn join<R: Threads + Wait>(self, rt: &R) -> Result<(), StartFault> {
        let mut served = Ok(());
        for reader in self.readers {
            let ended = reader.join(rt);
            served = served.and(ended);
        }
        for worker in self.workers {
            worker.join(rt);
        }
        served
    }
}
