//! A worker over TCP, in a thread of its own.

ghost use Rattle.std.specs.Prelude.{◌≡◌, None, Some, IfOk, IfSome, slice_get};

use fwd_chunks::FlushKind;
use fwd_environment::{Denial, Gate, Pass, Place, Refused, WorkerEvent};
use fwd_history::Run;
use fwd_links::{
    RefusedChunk, RunClock, SharedFlags, SharedWait, TcpHub, WaitMode, WorkerNotice, WorkerWait,
    WorkerWaker,
};
use fwd_monitors::StartFault;
use fwd_reader::{Output, ReaderInboxes};
use fwd_workers::{PlacedWorker, WorkerEnd};
use std::alloc::Global;
use std::marker::Model;
use std::net::Net;
use std::rt::Clock;
use std::sync::Wait;
use std::time::Instant;

/// How a worker is to look for its next chunk.
#[derive(Clone, Copy)]
enum Backoff {
    /// At once: it had a chunk, and may find another.
    AtOnce,
    /// Once more, now that the others see that it is at work no longer.
    Again,
    /// It found none when it looked at once, or was woken: soon.
    Soon,
    /// It has found none for so long (milliseconds).
    Later(u64),
}

/// Lets a worker wait for chunks, and stops it where all are to end.
#[derive(Drop)]
struct WorkerGate<'a, J: Run> {
    flags: &'a SharedFlags,
    /// Where it tells what it did: in front all, and to the other readers what they are to hear.
    inboxes: &'a ReaderInboxes<J>,
    number: u16,
    output: &'a Output<J>,
    wait: &'a SharedWait,
    backoff: Backoff,
    /// How many chunks it loaded that were not settled, as far as it was told: fewer where it has
    /// found none for a while.
    loaded: u32,
    /// The others see that it is at work: it has loaded a chunk, or had one just now and looks for
    /// the next one at once.
    is_busy: bool,
    /// Why the server that is lost in this turn does not let it in, as that says.
    denial: Option<Denial>,
}

impl<'a, J: Run> WorkerGate<'a, J> {
    /// The worker comes to a place, and waits there where it found no chunk before. Memory is made
    /// sure of, where what it does next takes any.
    fn come_to<R: Wait>(&mut self, rt: &R, place: Place) {
        match place {
            Place::BeforeTake => {
                self.look(rt);
                self.assure(rt, place);
            }
            Place::BeforeLoad => {
                self.loaded = self.loaded.saturating_add(1);
                self.note_busy(rt, true);
                self.work(rt);
                self.wake_next(rt);
                self.assure(rt, place);
            }
            Place::BeforeSettle | Place::AfterSettle => self.work(rt),
        }
    }

    /// Where memory is refused for what the worker does next, and there is anything to do, it gives
    /// back what it keeps in reserve.
    fn assure<R: Wait>(&mut self, rt: &R, place: Place) {
        if !self.wait.lock(rt).is_short(self.flags) {
            return;
        }
        if place == Place::BeforeTake && self.output.is_empty(rt) {
            self.wait.lock(rt).end_lack(self.flags);
        } else {
            self.wait.lock(rt).give_back(self.flags);
        }
    }

    /// The worker looks for a chunk.
    fn look<R: Wait>(&mut self, rt: &R) {
        let mode = match self.backoff {
            Backoff::AtOnce => {
                self.wait.lock(rt).look_for_chunk();
                self.backoff = Backoff::Again;
                return;
            }
            Backoff::Again => {
                self.note_busy(rt, self.loaded > 0);
                self.backoff = Backoff::Soon;
                return;
            }
            _ if self.flags.is_stopped() => return,
            Backoff::Soon => WaitMode::Soon,
            Backoff::Later(_) if self.output.is_empty(rt) => WaitMode::Idle,
            Backoff::Later(idle) => WaitMode::Later(idle),
        };
        let was_woken = self.wait.lock(rt).wait_for_chunk(mode, self.flags);
        self.backoff = if was_woken {
            self.note_busy(rt, true);
            Backoff::Again
        } else {
            self.loaded = 0;
            self.note_busy(rt, false);
            Backoff::Later(mode.waited())
        };
    }

    /// The others see whether it is at work.
    fn note_busy<R: Wait>(&mut self, rt: &R, is_busy: bool) {
        if self.is_busy != is_busy {
            self.is_busy = is_busy;
            self.wait.lock(rt).note_busy(is_busy);
        }
    }

    /// What becomes of the worker's wait and of its chunks behind what it tells. One that tried a
    /// server in vain was at work: it looks for another one soon.
    fn note<R: Wait>(&mut self, rt: &R, event: WorkerEvent) {
        match event {
            WorkerEvent::Settled { .. } => self.loaded = self.loaded.saturating_sub(1),
            WorkerEvent::Lost { .. } => {
                self.loaded = 0;
                self.note_busy(rt, false);
                if let Backoff::Later(_) = self.backoff {
                    self.backoff = Backoff::Later(0);
                }
            }
            WorkerEvent::Went { .. } => {}
        }
    }

    /// The worker has a chunk. If it was woken meanwhile, another worker is woken: the wake may be
    /// for another chunk.
    fn work<R: Wait>(&mut self, rt: &R) {
        self.backoff = Backoff::AtOnce;
        let was_woken = self.wait.lock(rt).work();
        if was_woken {
            self.output.wake();
        }
    }

    /// The worker took a chunk. If it left more to send, another worker is woken, which does the
    /// same: a reader wakes one worker, however many chunks are due.
    fn wake_next<R: Wait>(&self, rt: &R) {
        if self.output.is_awaited() && self.output.has_chunk(rt, 0, self.flags.is_draining()) {
            self.output.wake();
        }
    }
}

impl<'a, J: Run> Gate for WorkerGate<'a, J> {
    fn pass<R: Wait>(&mut self, rt: &R, _worker: u16, place: Place, _turn: u64) -> Pass {
        self.come_to(rt, place);
        if self.flags.is_stopped() {
            Pass::Stop
        } else {
            Pass::Go
        }
    }

    fn closes(&self, _worker: u16) -> FlushKind {
        self.output.closes(self.flags.is_draining())
    }

    fn hear<R: Wait>(&mut self, rt: &R, worker: u16, event: WorkerEvent) {
        let notice = WorkerNotice {
            output: self.number,
            worker,
            event,
        };
        let mailbox = &self.inboxes.front.mailbox;
        match self.denial.take() {
            None => mailbox.tell(rt, notice),
            Some(denial) => mailbox.tell_denied(rt, notice, denial),
        }
        self.note(rt, event);
        if let WorkerEvent::Settled { .. } = event {
            for (reader, inbox) in (1..usize::MAX).zip(&self.inboxes.others) {
                if self.output.subscribers.hears(reader) {
                    inbox.mailbox.tell(rt, notice);
                }
            }
        }
    }

    fn hear_denial<R: Wait>(&mut self, _rt: &R, _worker: u16, denial: Denial) {
        self.denial = Some(denial);
    }

    fn hear_refused<R: Wait>(&mut self, rt: &R, _worker: u16, refused: Refused) {
        let output = self.number;
        let refusal = RefusedChunk { output, refused };
        self.inboxes.front.mailbox.tell_refused(rt, refusal);
    }
}

/// What the workers of a relay share with its readers, and when it started.
#[derive_where(Clone, Copy)]
pub struct WorkerSurroundings<'a, J: Run> {
    pub flags: &'a SharedFlags,
    pub outputs: &'a [Output<J>],
    pub inboxes: &'a ReaderInboxes<J>,
    pub start: Option<Instant>,
}

/// What a worker works with: its gate, which knows its output, and the hub that connects it to the
/// servers of just that output.
#[derive(Drop)]
struct Workplace<'a, J: Run, N: Net> {
    gate: WorkerGate<'a, J>,
    hub: TcpHub<'a, N>,
    ghost own: { hub ≡ gate.output.now.servers.items },
}

impl<'a, J: Run, N: Net> Workplace<'a, J, N> {
    /// What a worker of the output of this number works with, if there is such an output.
    fn of(
        net: &'a N,
        around: WorkerSurroundings<'a, J>,
        number: u16,
        wait: &'a SharedWait,
    ) -> Option<Workplace<'a, J, N>>
        ensures own { IfSome result (λ place.
            slice_get around.entry.outputs.now number ≡ Some place.gate.output.now) }
        ensures none { result ≡ None → slice_get around.entry.outputs.now number ≡ None }
    {
        let output = around.outputs.get(number as usize)?;
        let hub = TcpHub::new(net, &around.inboxes.front.mailbox, wait, &output.servers);
        let gate = WorkerGate {
            flags: around.flags,
            inboxes: around.inboxes,
            number,
            output,
            wait,
            backoff: Backoff::Later(0),
            loaded: 0,
            is_busy: false,
            denial: None,
        };
        Some(Workplace { gate, hub })
    }

    /// The worker works for the output in so many turns, or until all are to end.
    fn run<R: Wait + Clock>(
        self,
        rt: &R,
        worker: &mut PlacedWorker<J>,
        clock: &mut RunClock<'_, R>,
        turns: u64,
    ) -> WorkerEnd {
        let Workplace { mut gate, mut hub } = self;
        let output = gate.output;
        let ((), ended) = worker.run(rt, &output.shared, (), &mut hub, &mut gate, clock, turns);
        ended
    }
}

/// A worker before its thread runs. In contracts it is the number of its output.
pub struct WorkerThread<J: Run> {
    output: u16,
    worker: PlacedWorker<J>,
    wait: SharedWait,
}

impl<J: Run> Model for WorkerThread<J> {
    ghost use Rattle.std.specs.Prelude.{ℕ};

    ghost Value = { ℕ };

    ghost view = { λ thread. thread.output };
}

// A drop of its own is proved once, and not at each place where a worker goes.
impl<J: Run> Drop for WorkerThread<J> {
    fn drop(self) {
        let WorkerThread {
            output: _,
            worker: _,
            wait: _,
        } = self;
    }
}

impl<J: Run> WorkerThread<J> {
    /// A worker of the output of this number, and what wakes it.
    pub(crate) fn new<R: Net>(
        rt: &R,
        alloc: Global,
        output: u16,
        worker: PlacedWorker<J>,
    ) -> Result<(WorkerThread<J>, WorkerWaker), StartFault>
        ensures { IfOk result (λ p. p.0 ≡ output) }
    {
        let (wait, waker) = WorkerWait::new(rt, alloc)?;
        let thread = WorkerThread {
            output,
            worker,
            wait,
        };
        Ok((thread, waker))
    }

    /// Works for its output in so many turns, or until all are to end, and says how that ended.
    /// Where there is no output of its number it does nothing.
    pub fn work<R: Net + Wait + Clock + AllocGlobal>(
        &mut self,
        rt: &R,
        around: WorkerSurroundings<'_, J>,
        turns: u64,
    ) -> Option<WorkerEnd>
        ensures none { result ≡ None → slice_get around.entry.outputs.now self.old ≡ None }
    {
        let place = Workplace::of(rt, around, self.output, &self.wait)?;
        let mut clock = RunClock::new(rt, around.start);
        self.wait.lock(rt).refill(around.flags);
        let ended = place.run(rt, &mut self.worker, &mut clock, turns);
        self.wait.lock(rt).end_lack(around.flags);
        Some(ended)
    }
}
