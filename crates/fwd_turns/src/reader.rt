//! What each reader of a relay does in its turns. The one in front accepts, so that ids rise and
//! nonces are drawn in the order in which sources come. A ticket never leaves its reader, so that a
//! receipt meets its own connections.

ghost use Rattle.std.specs.Prelude.{◌≡◌, Some};
ghost use Rattle.fwd_run.specs.Runs.{routes_at};

use crate::acceptor::SourceSetup;
use crate::event_loop::{Arrivals, EventLoop, ReadContext};
use crate::leaving;
use fwd_history::Run;
use fwd_links::{Mailbox, Notices, RunClock, unix_seconds};
use fwd_match::Routes;
use fwd_monitors::{Figures, Observer, ProcessFigures, SharedTally, StartFault};
use fwd_reader::{FlushTimer, Output, PageParts, ReaderInbox, ReaderInboxes, Router, RouterParts};
use fwd_run::ReachedHistory;
use std::alloc::{AllocError, Global};
use std::rt::Clock;
use std::sync::Wait;
use std::time::Instant;

/// How long receipts are collected in a turn, in milliseconds, but for the rounds that are under
/// way then.
const COLLECTING: u64 = 4;

/// The most rounds of collecting in a turn.
const ROUNDS: u16 = 1_024;

/// What a reader has of its own, before its first turn.
pub struct ReaderParts<J: Run> {
    pub event_loop: EventLoop<J>,
    /// The timer of each output's flushes.
    pub timers: Vec<FlushTimer>,
}

// A drop of its own is proved once, and not at each place where a reader's parts go.
impl<J: Run> Drop for ReaderParts<J> {
    fn drop(self) {
        let ReaderParts {
            event_loop: _,
            timers: _,
        } = self;
    }
}

/// How monitors' pages are made.
#[derive(Clone, Copy)]
pub(crate) struct Pages {
    /// By a thread of their own.
    pub are_ordered: bool,
    /// What is known of the relay.
    pub figures: Figures,
}

/// The outputs, which all readers share, and where a reader stands among these.
#[derive(Drop)]
pub struct Surroundings<'a, J: Run> {
    pub alloc: Global,
    pub routes: &'a Routes,
    pub outputs: &'a [Output<J>],
    /// What all readers count.
    pub tally: &'a SharedTally,
    pub inboxes: &'a ReaderInboxes<J>,
    /// This reader's.
    pub inbox: &'a ReaderInbox<J>,
    /// The reader's number, from 0.
    pub number: usize,
    pub start: Option<Instant>,
    /// The history of the run as far as it is known, for the proof.
    pub reached: &'a ReachedHistory<J>,
    ghost routed: { routes_at reached.now ≡ Some routes.now },
}

/// A reader: its own connections, and the tickets of their requests, over outputs that all readers
/// share. It must be spent: by `close`.
pub(crate) struct Reader<'a, J: Run, R: Clock> {
    pub alloc: Global,
    pub outputs: &'a [Output<J>],
    pub tally: &'a SharedTally,
    pub inboxes: &'a ReaderInboxes<J>,
    /// This reader's.
    inbox: &'a ReaderInbox<J>,
    /// Where workers tell this reader what they did.
    pub mailbox: &'a Mailbox,
    pub event_loop: &'a mut EventLoop<J>,
    router: Router<'a, J>,
    clock: RunClock<'a, R>,
    /// When it was made, in whole seconds since 1970, if the system's clock could be read.
    started: Option<u64>,
}

impl<'a, J: Run, R: Wait + Clock> Reader<'a, J, R> {
    /// A reader of these parts. The only error is out of memory.
    pub fn new(
        rt: &'a R,
        around: Surroundings<'a, J>,
        parts: &'a mut ReaderParts<J>,
    ) -> Result<Reader<'a, J, R>, AllocError> {
        let Surroundings {
            alloc,
            routes,
            outputs,
            tally,
            inboxes,
            inbox,
            number,
            start,
            reached,
        } = around;
        let ReaderParts { event_loop, timers } = parts;
        let parts = RouterParts {
            reader: number,
            routes,
            outputs,
            timers,
            reached: reached.again(),
        };
        let router = Router::new(rt, alloc, parts)?;
        Ok(Reader {
            alloc,
            outputs,
            tally,
            inboxes,
            inbox,
            mailbox: &inbox.mailbox,
            event_loop,
            router,
            clock: RunClock::new(rt, start),
            started: unix_seconds(rt),
        })
    }

    /// Waits until something is ready or told, at most 100 ms. It fails with `Poll` where the wait
    /// failed.
    pub fn wait(&mut self) -> Result<(), StartFault> {
        let now = self.clock.moment();
        self.event_loop.wait(self.mailbox, &self.router, now)
    }

    /// Tells where connections come in, where it has the listeners.
    pub fn tell<W: Observer>(&self, observer: &mut W) {
        self.event_loop.tell(observer);
    }

    /// Its inbox shows the connections that it has.
    pub fn note(&self) {
        self.inbox.note(&self.event_loop.connections);
    }

    /// Takes the sources that it was handed, at a moment (milliseconds).
    pub fn take_sources<W: Observer>(&mut self, rt: &R, observer: &mut W, now: u64) {
        for source in self.inbox.take(rt, self.alloc) {
            self.event_loop.take_source(source, observer, now);
        }
    }

    /// Takes the connections that wait at the listeners, at a moment (milliseconds).
    pub fn accept<W: Observer>(
        &mut self,
        rt: &R,
        setup: &mut SourceSetup<J>,
        observer: &mut W,
        now: u64,
    ) {
        self.note();
        let mut arrivals = Arrivals {
            inboxes: self.inboxes,
            setup,
        };
        self.event_loop
            .accept(rt, &mut self.router, &mut arrivals, observer, now);
    }

    /// Closes the connections that had their time at a moment (milliseconds), and have not shown
    /// what they are.
    pub fn close_late<W: Observer>(&mut self, rt: &R, observer: &mut W, now: u64) {
        self.event_loop
            .close_late(rt, &mut self.router, observer, now);
    }

    /// Closes the source that gives its place to a new one at a moment (milliseconds), if it is
    /// asked to and one does.
    pub fn give_place<W: Observer>(&mut self, rt: &R, observer: &mut W, now: u64) {
        if let Some(is_crowded) = self.inbox.take_want() {
            self.event_loop
                .give_place(rt, &mut self.router, observer, is_crowded, now);
        }
    }

    /// What is known of the relay at a moment (milliseconds since it started).
    pub fn figures(&self, now: u64) -> Figures {
        self.note();
        Figures {
            start: self.started,
            uptime: now,
            sources: self.inboxes.sources() as u64,
            source_limit: self.event_loop.source_limit() as u64,
            is_draining: self.is_draining(),
            left_out: 0,
            process: ProcessFigures::UNKNOWN,
        }
    }

    /// Whether the relay was asked to stop.
    pub fn is_draining(&self) -> bool {
        self.mailbox.flags().is_draining()
    }

    /// Takes the last sources of a relay that was asked to stop, at a moment (milliseconds), and
    /// says whether the listener is closed.
    pub fn accept_last<W: Observer>(
        &mut self,
        rt: &R,
        setup: &mut SourceSetup<J>,
        observer: &mut W,
        now: u64,
    ) -> bool {
        self.note();
        let mut arrivals = Arrivals {
            inboxes: self.inboxes,
            setup,
        };
        self.event_loop
            .accept_last(rt, &mut self.router, &mut arrivals, observer, now)
    }

    /// Visits each source where the relay was asked to stop, at a moment (milliseconds).
    pub fn sweep(&mut self, now: u64) {
        if self.is_draining() {
            leaving::sweep(&mut self.event_loop.connections, now);
        }
    }

    /// How many sources stand, of all readers together.
    pub fn standing(&self) -> usize {
        self.note();
        self.inboxes.standing()
    }

    /// What pages are made of.
    pub fn parts(&self) -> PageParts<'a, J> {
        PageParts {
            outputs: self.outputs,
            tally: self.tally,
        }
    }

    /// Whether all readers and workers are to end.
    pub fn is_stopped(&self) -> bool {
        self.mailbox.is_stopped()
    }

    /// The moment, in milliseconds since the run's start.
    pub fn moment(&mut self) -> u64 {
        self.clock.moment()
    }

    /// Collects receipts of what workers settled, for some milliseconds from a moment on
    /// (milliseconds), tells the sources of those, and writes what is to be sent. Requests that
    /// wait are looked at again where something was settled or answered.
    pub fn answer<W: Observer>(&mut self, rt: &R, notices: &Notices, observer: &mut W, start: u64) {
        self.router.hear(notices);
        self.event_loop.hear(notices);
        self.collect(rt, observer, start);
        self.event_loop
            .write_all(rt, &mut self.router, observer, start);
        if self.router.has_moved() {
            self.event_loop.connections.retry_waiting();
        }
    }

    /// Collects receipts for some milliseconds from a moment on; those that are left in a later
    /// turn.
    fn collect<W: Observer>(&mut self, rt: &R, observer: &mut W, start: u64) {
        let (event_loop, router) = (&mut *self.event_loop, &mut self.router);
        for _ in 0..ROUNDS {
            let is_more = router.collect(rt, &mut event_loop.connections, observer);
            if !is_more || self.clock.moment().saturating_sub(start) >= COLLECTING {
                return;
            }
        }
    }

    /// Reads the connections that are ready, and has what they ask for admitted.
    pub fn read<W: Observer>(&mut self, rt: &R, observer: &mut W, pages: Pages) {
        let mut context = ReadContext {
            parts: self.parts(),
            router: &mut self.router,
            mailbox: self.mailbox,
            are_pages_ordered: pages.are_ordered,
            figures: pages.figures,
            now: 0,
        };
        self.event_loop
            .read_all(rt, &mut context, observer, &mut self.clock);
    }

    /// Wakes workers that could send a chunk at a moment (milliseconds); counts what was admitted;
    /// and looks at who waits.
    pub fn tend_outputs<W: Observer>(&mut self, rt: &R, observer: &mut W, now: u64) {
        self.router
            .wake_due(rt, now, self.mailbox.flags().is_draining());
        self.router.count(rt, self.tally);
        self.router.tend(rt, observer, now);
    }

    /// Where another reader's sources have their turn at a full output from now on, all readers are
    /// called.
    pub fn pass_on(&self) {
        if self.router.passes_on() {
            self.inboxes.call_all();
        }
    }

    /// Hands in all tickets, writes what that has sources told, and abandons the tickets that are
    /// left. The connections stay.
    pub fn close<W: Observer>(self, rt: &R, observer: &mut W) {
        let Reader {
            alloc: _,
            outputs: _,
            tally: _,
            inboxes: _,
            inbox: _,
            mailbox: _,
            event_loop,
            mut router,
            mut clock,
            started: _,
        } = self;
        event_loop.finish(rt, &mut router, observer, clock.moment());
        router.close(rt);
    }
}
