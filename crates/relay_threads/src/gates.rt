//! Two workers at work at once: a gate lets neither settle alone.

use crate::idle_worker::IdleWorker;
use crate::turns::works;
use fwd_history::Run;
use fwd_output::{Plain, SharedOutput};
use fwd_workers::{Gate, Pass, Place};
use std::alloc::Global;
use std::rt::Clock;
use std::sync::Wait;
use std::sync::atomic::{AtomicU64, Ordering};
use std::thread;
use std::thread::Threads;
use std::time::Duration;

/// What the gate has seen of two workers.
#[derive(Drop)]
pub struct Sight {
    /// Worker 0 stood before its settling.
    first_before: AtomicU64,
    /// Worker 1 stood behind its settling.
    second_after: AtomicU64,
}

impl Sight {
    /// Nothing.
    pub fn new() -> Sight {
        Sight {
            first_before: AtomicU64::new(0),
            second_after: AtomicU64::new(0),
        }
    }
}

/// Holds worker 1 before it takes a chunk until worker 0 stands before its settling, and worker 0
/// there until worker 1 has settled, and stops both once they have. So they end only if two workers
/// are at work at once.
#[derive(Drop)]
struct Both<'a, T: Clock> {
    clock: &'a T,
    sight: &'a Sight,
}

impl<'a, T: Clock> Both<'a, T> {
    /// Goes on, or waits a millisecond.
    fn once(&self, is_so: bool) -> Pass {
        if is_so {
            return Pass::Go;
        }
        let _slept = thread::sleep(self.clock, Duration::from_millis(1));
        Pass::Hold
    }
}

impl<'a, T: Clock> Gate for Both<'a, T> {
    fn pass<R: Wait>(&mut self, _rt: &R, worker: u16, place: Place, _turn: u64) -> Pass {
        match (worker, place) {
            (0, Place::BeforeSettle) => {
                self.sight.first_before.store(1, Ordering::SeqCst);
                let is_so = self.sight.second_after.load(Ordering::SeqCst) == 1;
                self.once(is_so)
            }
            (1, Place::BeforeTake) => {
                let is_so = self.sight.first_before.load(Ordering::SeqCst) == 1;
                self.once(is_so)
            }
            (1, Place::AfterSettle) => {
                self.sight.second_after.store(1, Ordering::SeqCst);
                Pass::Stop
            }
            (_, Place::AfterSettle) => Pass::Stop,
            _ => Pass::Go,
        }
    }
}

/// Whether each of two workers was stopped by the gate, and did not spend its turns.
pub fn both_work<J: Run + Send + Sync, R: Threads + Wait + Clock + Sync>(
    rt: &R,
    alloc: Global,
    out: &SharedOutput<Plain<J>, Plain<J>>,
    workers: (IdleWorker<J>, IdleWorker<J>),
) -> (bool, bool) {
    let (one, other) = workers;
    let sight = Sight::new();
    let seen = &sight;
    let (((), first), ((), second)) = thread::join(
        rt,
        move || {
            let mut gate = Both {
                clock: rt,
                sight: seen,
            };
            let mut worker = one.placed(alloc);
            works(rt, (alloc, out), (), &mut worker, &mut gate)
        },
        move || {
            let mut gate = Both {
                clock: rt,
                sight: seen,
            };
            let mut worker = other.placed(alloc);
            works(rt, (alloc, out), (), &mut worker, &mut gate)
        },
    );
    (first, second)
}
