//! How a worker waits, and how it is woken.

ghost use Rattle.std.specs.Prelude.{◌≡◌, ◌/◌, min, max};

use crate::fault::WaitFault;
use crate::reserve::Reserve;
use crate::shared_flags::SharedFlags;
use mio::net::TcpStream;
use mio::{Events, Interest, Poll, Token, Waker};
use std::alloc::Global;
use std::hint::spin_loop;
use std::net::Net;
use std::sync::atomic::{AtomicBool, Ordering};
use std::sync::{Arc, Mutex};
use std::time::Duration;
use std::{io, mem};

/// How long a worker that looks for a chunk sleeps at least before it looks again, in milliseconds.
const PAUSE: u64 = 10;

/// How long it sleeps at the most, in milliseconds, and always where its output has no entries: it
/// is woken once a chunk is closed, and sees within this time that it is to end.
const LONG_PAUSE: u64 = 100;

/// How long a worker waits for a server that owes something, in milliseconds.
const PATIENCE: u64 = 100;

/// How long a worker waits for a connection that is neither up nor refused, in milliseconds.
/// Without it that would take `ack_wait`, or the minutes of the system.
const CONNECT_WAIT: u64 = 5_000;

/// How long a worker without memory in reserve waits for a server before it takes some again, in
/// milliseconds: one that is at hand answers sooner.
const GRACE: u64 = 5;

/// How long a worker waits for the loop to read nothing, in milliseconds.
const LOOP_WAIT: u64 = 100;

/// What tells that the worker is woken.
const WAKER: Token = Token(0);

/// What tells of the worker's stream.
const STREAM: Token = Token(1);

/// How often a worker that was at work just now looks for a chunk again before it sleeps: some ten
/// microseconds, since the processor pauses between two looks.
const LOOKS: u32 = 250;

/// Whether a worker is to be woken, as its thread and those that wake it share it.
#[derive(Drop)]
struct Signal {
    /// The worker looks for a chunk, and was not woken since it began to.
    is_awaited: AtomicBool,
    /// It sleeps meanwhile, or is about to: a wake has to reach it.
    is_asleep: AtomicBool,
    /// It has a chunk that is not acknowledged, or had one just now and looks for the next one.
    is_busy: AtomicBool,
}

/// Wakes a worker that looks for a chunk, from another thread.
#[derive(Drop)]
pub struct WorkerWaker {
    waker: Waker,
    signal: Arc<Signal>,
}

impl WorkerWaker {
    /// Whether the worker looks for a chunk, and was not woken since it began to.
    pub fn is_awaited(&self) -> bool {
        self.signal.is_awaited.load(Ordering::SeqCst)
    }

    /// Whether the worker has a chunk that is not acknowledged, or had one just now and looks for the
    /// next one.
    pub fn is_busy(&self) -> bool {
        self.signal.is_busy.load(Ordering::SeqCst)
    }

    /// A chunk was closed: a worker that looks for one, or found none since it last began to look,
    /// looks again. One that is at work with a chunk, or was woken already, is left alone. It says
    /// whether the worker was woken; that costs a call of the system where the worker sleeps. A
    /// worker that was woken and finds no chunk wakes no other one: the chunk is taken, or no
    /// server can be tried.
    pub fn wake(&self) -> bool {
        if !self.signal.is_awaited.swap(false, Ordering::SeqCst) {
            return false;
        }
        if self.signal.is_asleep.load(Ordering::SeqCst) {
            let _ = self.waker.wake();
        }
        true
    }
}

/// What a worker that looks for a chunk knows when it begins to wait.
#[derive(Clone, Copy)]
pub enum WaitMode {
    /// It was at work just now: it looks for a moment before it sleeps.
    Soon,
    /// Its output has entries, and it has found no chunk for so long (milliseconds).
    Later(u64),
    /// Its output has none.
    Idle,
}

impl WaitMode {
    /// For how long it has found no chunk (milliseconds) once it has waited so and found none.
    pub fn waited(self) -> u64 {
        match self {
            WaitMode::Soon => PAUSE,
            WaitMode::Later(idle) => idle.saturating_add(pause_after(idle)),
            WaitMode::Idle => 0,
        }
    }
}

/// How long a worker sleeps that has found no chunk for so long (both in milliseconds), though its
/// output has entries: a tenth of that time. A chunk or server that was lost can be used again at
/// some moment of which nobody tells; it is used at most a tenth later than its wait was long.
fn pause_after(idle: u64) -> u64
    ensures { result ≡ max PAUSE (min LONG_PAUSE (idle / 10)) }
{
    (idle / 10).min(LONG_PAUSE).max(PAUSE)
}

/// A worker's wait, as its gate and its link share them in its one thread: the lock is always
/// free. A link that borrowed the wait would have a lifetime of which no proof is found.
pub type SharedWait = Arc<Mutex<WorkerWait>>;

/// How a worker waits: until it is woken, or its stream tells of itself. All that it takes to wait
/// and to connect is made once, so that it takes no memory later; and memory is kept in reserve for
/// what a session takes.
#[derive(Drop)]
pub struct WorkerWait {
    poll: Poll,
    events: Events,
    /// Waits for a connection alone.
    connecting: Poll,
    connected: Events,
    reserve: Reserve,
    /// The worker has given back what is kept in reserve, and the loop was told so.
    is_lacking: bool,
    signal: Arc<Signal>,
    /// The worker looks for a chunk.
    is_idle: bool,
    /// It was woken before it had its stream, which its gate was not told yet.
    was_woken: bool,
    /// The stream told of itself since it was last read empty.
    is_readable: bool,
    /// The stream told that the other side closed, or that it failed, which it tells once.
    is_closing: bool,
}

impl WorkerWait {
    /// The wait of a worker without a stream, and what wakes it.
    pub fn new<R: Net>(rt: &R, alloc: Global) -> Result<(SharedWait, WorkerWaker), WaitFault> {
        let events = Events::with_capacity(alloc, 2)?;
        let connected = Events::with_capacity(alloc, 1)?;
        let poll = Poll::new(rt).map_err(|_| WaitFault::Poll)?;
        let connecting = Poll::new(rt).map_err(|_| WaitFault::Poll)?;
        let waker = Waker::new(poll.registry(), WAKER).map_err(|_| WaitFault::Poll)?;
        let signal = Signal {
            is_awaited: AtomicBool::new(false),
            is_asleep: AtomicBool::new(false),
            is_busy: AtomicBool::new(false),
        };
        let signal = Arc::new(alloc, signal)?;
        let waker = WorkerWaker {
            waker,
            signal: Arc::try_clone(&signal)?,
        };
        let wait = WorkerWait {
            poll,
            events,
            connecting,
            connected,
            reserve: Reserve::none(alloc),
            is_lacking: false,
            signal,
            is_idle: false,
            was_woken: false,
            is_readable: true,
            is_closing: false,
        };
        Ok((Arc::new(alloc, Mutex::new(wait))?, waker))
    }

    /// The worker has a stream, which ends its waits from now on, and looks for no chunk.
    pub fn start(&mut self, stream: &mut TcpStream) -> io::Result<()> {
        self.was_woken = self.work();
        self.is_readable = true;
        self.is_closing = false;
        let interest = Interest::READABLE | Interest::WRITABLE;
        self.poll.registry().register(stream, STREAM, interest)
    }

    /// Waits for a server that a stream connects to: until it is up or refused, at most
    /// `CONNECT_WAIT` milliseconds, and hardly longer than a piece of that once all workers are to
    /// end.
    pub(crate) fn await_connection(
        &mut self,
        stream: &mut TcpStream,
        flags: &SharedFlags,
    ) -> io::Result<()> {
        let registry = self.connecting.registry();
        registry.register(stream, STREAM, Interest::WRITABLE)?;
        for _ in 0..CONNECT_WAIT / PATIENCE {
            self.refill(flags);
            let patience = Duration::from_millis(PATIENCE);
            self.connecting.poll(&mut self.connected, Some(patience))?;
            if !self.connected.is_empty() || flags.is_stopped() {
                break;
            }
        }
        self.connecting.registry().deregister(stream)
    }

    /// Waits so long (milliseconds), or until the worker is woken or its stream tells of itself,
    /// and says whether it was told something.
    fn wait(&mut self, longest: u64) -> bool {
        let longest = Duration::from_millis(longest);
        let _ = self.poll.poll(&mut self.events, Some(longest));
        for event in self.events.iter() {
            if event.token() == STREAM {
                self.is_readable = true;
                self.is_closing = self.is_closing || event.is_read_closed() || event.is_error();
            }
        }
        !self.events.is_empty()
    }

    /// Whether the stream is to be read: it told of itself since it was last read empty, or the
    /// worker looks for a chunk, and is to see first whether its server closed.
    pub fn is_to_be_read(&self) -> bool {
        self.is_readable || self.is_idle
    }

    /// A read found nothing, or did not fill its room: the stream will tell of what comes.
    pub fn is_empty_now(&mut self) {
        self.is_readable = self.is_closing;
    }

    /// The worker looks for a chunk at once. A chunk that is closed from now on wakes it.
    pub fn look_for_chunk(&mut self) {
        let _ = self.turn_to(true);
    }

    /// The same, once it was woken, or its stream has bytes, or for a while. It says whether it was
    /// woken.
    pub fn wait_for_chunk(&mut self, mode: WaitMode, flags: &SharedFlags) -> bool {
        if self.turn_to(true) {
            return true;
        }
        let (looks, pause) = match mode {
            WaitMode::Soon => (LOOKS, PAUSE),
            WaitMode::Later(idle) => (1, pause_after(idle)),
            WaitMode::Idle => (1, LONG_PAUSE),
        };
        if self.is_awaited_for(looks) {
            self.sleep(pause, flags);
        }
        self.turn_to(true)
    }

    /// The worker looks for a chunk from now on, or for none. It says whether it was woken since it
    /// last began to look, and that was not said yet: in one step with what it turns to, so that no
    /// wake comes between.
    fn turn_to(&mut self, is_idle: bool) -> bool {
        let was_idle = mem::replace(&mut self.is_idle, is_idle);
        let was_awaited = self.signal.is_awaited.swap(is_idle, Ordering::SeqCst);
        let was_woken = mem::replace(&mut self.was_woken, false);
        was_woken || (was_idle && !was_awaited)
    }

    /// Whether the worker was not woken while it looked so often.
    fn is_awaited_for(&self, looks: u32) -> bool {
        for _ in 0..looks {
            if !self.signal.is_awaited.load(Ordering::SeqCst) {
                return false;
            }
            spin_loop();
        }
        true
    }

    /// Sleeps so long (milliseconds), unless it is woken before.
    fn sleep(&mut self, longest: u64, flags: &SharedFlags) {
        self.refill(flags);
        self.signal.is_asleep.store(true, Ordering::SeqCst);
        if self.signal.is_awaited.load(Ordering::SeqCst) {
            self.wait(longest);
        }
        self.signal.is_asleep.store(false, Ordering::SeqCst);
    }

    /// The worker looks for no chunk. It says whether it was woken since it last began to look: the
    /// wake may be for a chunk that it does not take.
    pub fn work(&mut self) -> bool {
        self.turn_to(false)
    }

    /// The worker has a chunk that is not acknowledged, or looks for the next one, from now on, or
    /// neither.
    pub fn note_busy(&mut self, is_busy: bool) {
        self.signal.is_busy.store(is_busy, Ordering::SeqCst);
    }

    /// Whether the worker looks for a chunk.
    pub fn is_idle(&self) -> bool {
        self.is_idle
    }

    /// Waits a while for the server of a worker that looks for no chunk.
    pub(crate) fn await_server(&mut self, flags: &SharedFlags) {
        if self.is_lacking {
            if self.wait(GRACE) {
                return;
            }
            self.refill(flags);
        }
        self.wait(PATIENCE);
    }

    /// Takes into reserve what is missing there, where that can be had. A worker that waits does
    /// so: it takes no memory until it goes on.
    pub fn refill(&mut self, flags: &SharedFlags) {
        if self.reserve.is_full() {
            return;
        }
        self.reserve.fill();
        if !self.reserve.is_empty() {
            self.end_lack(flags);
        }
    }

    /// The worker lacks no memory, or has nothing to do that takes any. Sources that hold
    /// unfinished requests must be read on then, or nobody would give memory back.
    pub fn end_lack(&mut self, flags: &SharedFlags) {
        if self.is_lacking {
            self.is_lacking = false;
            flags.have();
        }
    }

    /// Whether memory is refused for the worker's next step, beside what is kept in reserve, or may
    /// be by the time that it is asked for.
    pub fn is_short(&mut self, flags: &SharedFlags) -> bool {
        self.is_lacking || flags.is_tight() || !self.reserve.has_step()
    }

    /// Gives back what is kept in reserve, once the loop takes no memory for what sources send: it
    /// takes none until the worker waits again, and has its reserve.
    pub fn give_back(&mut self, flags: &SharedFlags) {
        if self.is_lacking {
            return;
        }
        self.is_lacking = true;
        flags.lack();
        self.await_loop(flags);
        self.reserve.release();
    }

    /// Makes sure of memory for the worker's next step: where it is refused, what is kept in
    /// reserve is given back.
    pub(crate) fn assure(&mut self, flags: &SharedFlags) {
        if self.is_short(flags) {
            self.give_back(flags);
        }
    }

    /// Waits until the loop reads nothing, at most `LOOP_WAIT` milliseconds.
    fn await_loop(&mut self, flags: &SharedFlags) {
        for _ in 0..LOOP_WAIT {
            if !flags.is_reading() {
                return;
            }
            let pause = Duration::from_millis(1);
            let _ = self.connecting.poll(&mut self.connected, Some(pause));
        }
    }
}
