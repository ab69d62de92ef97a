//! What workers tell a reader.

ghost use Rattle.std.specs.Prelude.{◌≡◌, [], false};
ghost use Rattle.fwd_links.specs.Noting as noting;

use crate::shared_flags::SharedFlags;
use fwd_environment::{Denial, Refused, WorkerEvent};
use mio::Waker;
use std::alloc::Global;
use std::mem;
use std::sync::atomic::{AtomicBool, Ordering};
use std::sync::{Mutex, Wait};

/// What a worker told: at most once a turn.
#[derive(Clone, Copy)]
pub struct WorkerNotice {
    /// The number of the worker's output.
    pub output: u16,
    /// The worker's number.
    pub worker: u16,
    pub event: WorkerEvent,
}

/// What a worker told of a chunk that a server seems to refuse.
#[derive(Clone, Copy)]
pub struct RefusedChunk {
    /// The number of the worker's output.
    pub output: u16,
    pub refused: Refused,
}

/// What a worker told of a server that does not let it in.
#[derive(Clone, Copy)]
pub struct DeniedLogin {
    /// The number of the worker's output.
    pub output: u16,
    pub denial: Denial,
}

/// What workers told since the reader last asked.
pub struct Notices {
    /// In the order in which they were told.
    pub all: Vec<WorkerNotice>,
    /// The chunks that servers seem to refuse, in that order.
    pub refused: Vec<RefusedChunk>,
    /// Why servers do not let workers in, as they say.
    pub denied: Vec<DeniedLogin>,
    /// Memory was refused for more of them.
    pub missed: bool,
}

// A drop of its own is proved once, and not at each place where notices go.
impl Drop for Notices {
    fn drop(self) {
        let Notices {
            all: _,
            refused: _,
            denied: _,
            missed: _,
        } = self;
    }
}

impl Notices {
    /// Nothing.
    fn none(alloc: Global) -> Notices
        ensures all { result.all.items ≡ [] }
        ensures refused { result.refused.items ≡ [] }
        ensures missed { result.missed ≡ false }
    {
        Notices {
            all: Vec::new(alloc),
            refused: Vec::new(alloc),
            denied: Vec::new(alloc),
            missed: false,
        }
    }

    /// A worker told something. Where memory is refused, that is missed.
    fn note(&mut self, notice: WorkerNotice)
        ensures { noting.Notes self.old notice self.new }
    {
        if self.all.push(notice).is_err() {
            self.missed = true;
        }
    }

    /// A worker told of a chunk that a server seems to refuse. Where memory is refused, it is as if
    /// it had not.
    fn note_refused(&mut self, refusal: RefusedChunk)
        ensures { noting.NotesRefusal self.old refusal self.new }
    {
        let _ = self.refused.push(refusal);
    }
}

/// Where workers tell a reader of the relay what they did, and what wakes it. All mailboxes of a
/// run share their flags.
pub struct Mailbox {
    notices: Mutex<Notices>,
    /// Something was told that the reader has not taken.
    has_news: AtomicBool,
    /// The reader sleeps, or is about to: it is to be woken.
    is_asleep: AtomicBool,
    /// Ends the reader's sleep.
    waker: Waker,
    flags: SharedFlags,
}

// A drop of its own is proved once, and not at each place where a mailbox goes.
impl Drop for Mailbox {
    fn drop(self) {
        let Mailbox {
            notices: _,
            has_news: _,
            is_asleep: _,
            waker: _,
            flags: _,
        } = self;
    }
}

impl Mailbox {
    /// An empty mailbox, whose reader is woken by this.
    pub fn new(alloc: Global, waker: Waker, flags: SharedFlags) -> Mailbox {
        Mailbox {
            notices: Mutex::new(Notices::none(alloc)),
            has_news: AtomicBool::new(false),
            is_asleep: AtomicBool::new(false),
            waker,
            flags,
        }
    }

    /// A worker tells something, and wakes the reader where that sleeps: only then it costs a call
    /// of the system.
    pub fn tell<R: Wait>(&self, rt: &R, notice: WorkerNotice) {
        self.notices.lock(rt).note(notice);
        self.call();
    }

    /// The same of a server that is lost, since it did not let the worker in: what it says of that
    /// comes with it. Where memory is refused that is not told.
    pub fn tell_denied<R: Wait>(&self, rt: &R, notice: WorkerNotice, denial: Denial) {
        let output = notice.output;
        let mut guard = self.notices.lock(rt);
        let notices = &mut *guard;
        let _ = notices.denied.push(DeniedLogin { output, denial });
        notices.note(notice);
        self.call();
    }

    /// A worker tells that a server seems to refuse a chunk. Where memory is refused it is not
    /// told.
    pub fn tell_refused<R: Wait>(&self, rt: &R, refusal: RefusedChunk) {
        self.notices.lock(rt).note_refused(refusal);
        self.call();
    }

    /// Something was told, or is to be looked at: the reader is woken where it sleeps.
    pub fn call(&self) {
        self.has_news.store(true, Ordering::SeqCst);
        if self.is_asleep.swap(false, Ordering::SeqCst) {
            let _ = self.waker.wake();
        }
    }

    /// Whether something was told that the reader has not taken.
    pub fn has_news(&self) -> bool {
        self.has_news.load(Ordering::SeqCst)
    }

    /// The reader is about to sleep: what is told from now on wakes it. It may sleep where this
    /// says so; else something was told before.
    pub fn fall_asleep(&self) -> bool {
        self.is_asleep.store(true, Ordering::SeqCst);
        !self.has_news()
    }

    /// The reader sleeps no more.
    pub fn awake(&self) {
        self.is_asleep.store(false, Ordering::SeqCst);
    }

    /// What workers told since the last call.
    pub fn take<R: Wait>(&self, rt: &R, alloc: Global) -> Notices {
        if !self.has_news.swap(false, Ordering::SeqCst) {
            return Notices::none(alloc);
        }
        let mut guard = self.notices.lock(rt);
        mem::replace(&mut *guard, Notices::none(alloc))
    }

    /// All readers and workers are to end.
    pub fn stop(&self) {
        self.flags.stop();
    }

    /// Whether all readers and workers are to end.
    pub fn is_stopped(&self) -> bool {
        self.flags.is_stopped()
    }

    /// What readers and workers tell each other without a lock.
    pub fn flags(&self) -> &SharedFlags {
        &self.flags
    }
}
