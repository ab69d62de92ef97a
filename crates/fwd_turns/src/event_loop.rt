//! What the loop waits for, reads and writes.

ghost use Rattle.std.specs.Prelude.{◌≡◌, ◌≢◌};
ghost use Rattle.fwd_reader.specs.OpenConnections.{connection_at, without};
ghost use Rattle.fwd_turns.specs.Keeping.{IsNoted, KeepsServed, KeepsWaiting};

use crate::acceptor::{Acceptor, Incoming, ListenConfig, SourceSetup};
use crate::leaving;
use crate::lost_servers::{LostServers, fact_of};
use crate::places::{PlaceRule, free_place, part, tell_closed};
use crate::visiting::{After, note, write_at};
use crate::visitor::Visitor;
use fwd_environment::WorkerEvent;
use fwd_history::Run;
use fwd_links::{Mailbox, Notices, RunClock, SharedFlags};
use fwd_listeners::tokens::{CONTROL, MONITORS, SOURCES, WAKER};
use fwd_listeners::{Control, ControlAnswer, SocketFile};
use fwd_monitors::{Figures, JournalEvent, MemoryFor, Observer, StartFault};
use fwd_output::UnsentRequests;
use fwd_peers::{CloseReason, SocketPath, SourcePeer};
use fwd_reader::{Connections, Output, PageParts, Peer, ReaderInboxes, Router};
use mio::{Events, Poll, Token, Waker};
use std::alloc::Global;
use std::fs::File;
use std::net::Net;
use std::rt::{Clock, Files};
use std::sync::Wait;
use std::time::Duration;

/// How many events a wait tells at once. More are told by the next.
const EVENTS: usize = 1_024;

/// The longest wait of a turn, in milliseconds.
const LONGEST: u64 = 100;

/// How long connections are read in a turn, in milliseconds, but for the one that is read then. So
/// receipts wait little longer than that. A request is admitted whole, so one of many entries may
/// make a turn longer.
const READING: u64 = 4;

/// The longest wait while sources that are ready are not read, in milliseconds.
const PAUSE: u64 = 5;

/// The longest wait of a turn of a relay that was asked to stop, in milliseconds: so streams are
/// looked at often enough to find that they are quiet.
const DRAINING: u64 = 10;

/// How often a loop that was at work in its last turn looks for more before it sleeps: some ten
/// microseconds. One that found nothing in its last turn sleeps at once, so that an idle relay does
/// not spin.
const LOOKS: u32 = 24;

/// Where requests go, and what else the loop looks at while it reads.
#[derive(Drop)]
pub(crate) struct ReadContext<'d, 'a, J: Run> {
    /// What pages are made of.
    pub parts: PageParts<'d, J>,
    pub router: &'d mut Router<'a, J>,
    pub mailbox: &'d Mailbox,
    /// Pages are made by a thread of their own.
    pub are_pages_ordered: bool,
    /// What is known of the relay.
    pub figures: Figures,
    /// The moment, in milliseconds.
    pub now: u64,
}

/// What each reader does about its sources.
#[derive(Clone, Copy)]
pub struct ReaderLimits {
    /// How long a source has to be silent that gives its place to a new one (milliseconds), if any
    /// does.
    pub idle_limit: Option<u64>,
    /// How many sources take no place whose other side is gone, and of which requests are kept.
    pub kept: u64,
}

/// Where sources that come go, and what they are given.
#[derive(Drop)]
pub(crate) struct Arrivals<'x, J: Run> {
    /// The inboxes of all readers.
    pub inboxes: &'x ReaderInboxes<J>,
    pub setup: &'x mut SourceSetup<J>,
}

/// What tells a reader that waits for this poll.
fn mailbox_of(alloc: Global, poll: &Poll, flags: &SharedFlags) -> Result<Mailbox, StartFault> {
    let waker = Waker::new(poll.registry(), WAKER).map_err(|_| StartFault::Poll)?;
    Ok(Mailbox::new(alloc, waker, flags.share()?))
}

/// Waits for connections, and reads and writes those that are ready.
pub struct EventLoop<J: Run> {
    alloc: Global,
    poll: Poll,
    events: Events,
    /// What reads connections, and what the loop knows of memory.
    visitor: Visitor,
    /// The listeners, which the reader in front has.
    pub(crate) acceptor: Option<Acceptor>,
    /// The control socket, which the reader in front has where the settings name one.
    control: Option<Control>,
    pub(crate) connections: Connections<J>,
    /// How long a source has to be silent that gives its place to a new one (milliseconds), if any
    /// does.
    idle_limit: Option<u64>,
    /// Something was ready or told in the last turn.
    was_at_work: bool,
}

// A drop of its own is proved once, and not at each place where an event loop goes.
impl<J: Run> Drop for EventLoop<J> {
    fn drop(self) {
        let EventLoop {
            alloc: _,
            poll: _,
            events: _,
            visitor: _,
            acceptor: _,
            control: _,
            connections: _,
            idle_limit: _,
            was_at_work: _,
        } = self;
    }
}

impl<J: Run> EventLoop<J> {
    /// A reader's loop before its first turn, without listeners, and what it is told by. It fails
    /// with `Poll` where the system has nothing to wait with, and with `Memory`.
    pub fn new<R: Net>(
        rt: &R,
        alloc: Global,
        flags: &SharedFlags,
        limits: ReaderLimits,
    ) -> Result<(EventLoop<J>, Mailbox), StartFault> {
        let events = Events::with_capacity(alloc, EVENTS)?;
        let visitor = Visitor::new(alloc, flags)?;
        let poll = Poll::new(rt).map_err(|_| StartFault::Poll)?;
        let mailbox = mailbox_of(alloc, &poll, flags)?;
        let event_loop = EventLoop {
            alloc,
            poll,
            events,
            visitor,
            acceptor: None,
            control: None,
            connections: Connections::new(alloc, limits.kept as usize),
            idle_limit: limits.idle_limit,
            was_at_work: false,
        };
        Ok((event_loop, mailbox))
    }

    /// It has the listeners from now on. It fails with `Listen`.
    pub fn listen<R: Net + Files<File = File>>(
        &mut self,
        rt: &R,
        config: ListenConfig,
    ) -> Result<(), StartFault> {
        self.acceptor = Some(Acceptor::open(rt, &self.poll, config)?);
        Ok(())
    }

    /// It has the control socket of this path from now on. It fails with `Control`.
    pub fn listen_control<R: Net + Files<File = File>>(
        &mut self,
        rt: &R,
        path: SocketPath,
    ) -> Result<(), StartFault> {
        self.control = Some(Control::open(rt, self.alloc, &self.poll, path)?);
        Ok(())
    }

    /// The file where sources connect, if they do so by a Unix socket.
    pub fn source_file(&self) -> Option<SocketFile> {
        self.acceptor.as_ref()?.sources.file()
    }

    /// The relay ends, and none of its requests that wait is admitted any more. What those had.
    pub fn give_up(&mut self) -> UnsentRequests {
        leaving::give_up(&mut self.connections)
    }

    /// The control socket, which it does not have from now on.
    pub fn take_control(&mut self) -> Option<Control> {
        self.control.take()
    }

    /// Takes the connections that wait at the listeners, if it has them, at a moment
    /// (milliseconds), and hands the sources to readers.
    pub(crate) fn accept<R: Wait, W: Observer>(
        &mut self,
        rt: &R,
        router: &mut Router<'_, J>,
        arrivals: &mut Arrivals<'_, J>,
        observer: &mut W,
        now: u64,
    ) {
        let Some(mut acceptor) = self.acceptor.take() else {
            return;
        };
        let mut incoming = Incoming {
            alloc: self.alloc,
            registry: self.poll.registry(),
            connections: &mut self.connections,
            router,
            inboxes: arrivals.inboxes,
            idle_limit: self.idle_limit,
            now,
        };
        if self.visitor.memory.is_refused(now) {
            self.visitor.memory.is_paused |= acceptor.sources.is_urgent();
        } else if acceptor.accept_sources(rt, &mut incoming, arrivals.setup, observer) {
            self.visitor.memory.refuse(now, false);
        }
        acceptor.accept_monitors(&mut incoming, observer);
        self.acceptor = Some(acceptor);
    }

    /// The same for a relay that was asked to stop: it takes all that wait, closes the listener of
    /// sources once none does that waited then, and says whether it is closed.
    pub(crate) fn accept_last<R: Wait, W: Observer>(
        &mut self,
        rt: &R,
        router: &mut Router<'_, J>,
        arrivals: &mut Arrivals<'_, J>,
        observer: &mut W,
        now: u64,
    ) -> bool {
        match &mut self.acceptor {
            Some(acceptor) if acceptor.sources.is_open() => acceptor.take_last(),
            _ => return true,
        }
        self.accept(rt, router, arrivals, observer, now);
        let Some(acceptor) = &mut self.acceptor else {
            return true;
        };
        if acceptor.has_last() {
            acceptor.sources.close();
        }
        !acceptor.sources.is_open()
    }

    /// Within how long the relay is asked to stop, in milliseconds, if it is.
    pub(crate) fn asked_wait(&mut self) -> Option<u64> {
        let control = self.control.as_mut()?;
        control.asked(self.poll.registry())
    }

    /// Tells whoever asked the relay to stop.
    pub(crate) fn tell_control(&mut self, answer: ControlAnswer) {
        if let Some(control) = &mut self.control {
            control.tell(answer);
        }
    }

    /// Takes a source that it was handed at a moment (milliseconds).
    pub(crate) fn take_source<W: Observer>(
        &mut self,
        source: SourcePeer<J>,
        observer: &mut W,
        now: u64,
    ) {
        let peer = source.peer();
        let registry = self.poll.registry();
        let source = Peer::Source(source);
        if self.connections.add(registry, source, now).is_err() {
            observer.observe(JournalEvent::Memory(MemoryFor::Source(peer)));
            self.visitor.memory.refuse(now, false);
        }
    }

    /// Tells where connections come in, where it has the listeners.
    pub(crate) fn tell<W: Observer>(&self, observer: &mut W) {
        if let Some(acceptor) = &self.acceptor {
            acceptor.tell(observer);
        }
    }

    /// The most sources at a time, of all readers together, where it has the listeners.
    pub(crate) fn source_limit(&self) -> usize {
        match &self.acceptor {
            Some(acceptor) => acceptor.limit,
            None => 0,
        }
    }

    /// Whether connections may wait at the listeners of which those will not tell again.
    fn is_urgent(&self) -> bool {
        self.acceptor.as_ref().is_some_and(|it| it.is_urgent())
    }

    /// A chunk that workers settled gives memory back.
    pub(crate) fn hear(&mut self, notices: &Notices) {
        for notice in &notices.all {
            if let WorkerEvent::Settled { .. } = notice.event {
                self.visitor.memory.is_settled = true;
            }
        }
    }

    /// Hands in all tickets, and writes what that has sources told, at a moment (milliseconds).
    pub(crate) fn finish<R: Wait, W: Observer>(
        &mut self,
        rt: &R,
        router: &mut Router<'_, J>,
        observer: &mut W,
        now: u64,
    ) {
        router.collect_all(rt, &mut self.connections, observer);
        self.write_all(rt, router, observer, now);
    }

    /// An observer is told of sources that have said nothing by a moment (milliseconds), each once.
    fn tell_silent<W: Observer>(&mut self, observer: &mut W, now: u64) {
        for _ in 0..u32::MAX {
            let Some(peer) = self.connections.next_silent(now) else {
                return;
            };
            observer.observe(JournalEvent::Silent { peer });
        }
    }

    /// Closes the connections that had their time at a moment (milliseconds), and have not shown
    /// what they are.
    pub(crate) fn close_late<R: Wait, W: Observer>(
        &mut self,
        rt: &R,
        router: &mut Router<'_, J>,
        observer: &mut W,
        now: u64,
    ) {
        self.tell_silent(observer, now);
        for _ in 0..u32::MAX {
            let Some(key) = self.connections.next_late(now) else {
                return;
            };
            tell_closed(&mut self.connections, key, CloseReason::NoLogin, observer);
            part(rt, &mut self.connections, router, key);
        }
    }

    /// Closes the source that gives its place to a new one at a moment (milliseconds), if one does;
    /// sources that wait take more than their share, or not.
    pub(crate) fn give_place<R: Wait, W: Observer>(
        &mut self,
        rt: &R,
        router: &mut Router<'_, J>,
        observer: &mut W,
        is_crowded: bool,
        now: u64,
    ) {
        let rule = PlaceRule {
            idle_limit: self.idle_limit,
            is_crowded,
            now,
        };
        let _ = free_place(rt, &mut self.connections, router, observer, rule);
    }

    /// Waits from a moment on (milliseconds) until something is ready or told, and notes what is
    /// ready.
    pub(crate) fn wait(
        &mut self,
        mailbox: &Mailbox,
        router: &Router<'_, J>,
        now: u64,
    ) -> Result<(), StartFault> {
        let connections = &self.connections;
        let is_left = connections.ready() > 0 || connections.writable() > 0;
        let longest = if self.visitor.memory.is_paused {
            router.patience(now, PAUSE)
        } else if is_left || self.is_urgent() {
            0
        } else if mailbox.flags().is_draining() {
            router.patience(now, DRAINING)
        } else {
            router.patience(now, LONGEST)
        };
        if longest == 0 {
            self.poll_events(0)?;
        } else if !self.was_at_work || !self.finds_more(mailbox)? {
            router.rest();
            self.sleep(mailbox, longest)?;
        }
        self.was_at_work = !self.events.is_empty() || mailbox.has_news();
        self.note_all();
        Ok(())
    }

    /// Looks what is ready, and waits for it so long at the most (milliseconds).
    fn poll_events(&mut self, longest: u64) -> Result<(), StartFault> {
        let longest = Duration::from_millis(longest);
        let looked = self.poll.poll(&mut self.events, Some(longest));
        looked.map_err(|_| StartFault::Poll)
    }

    /// Whether something is ready or told soon: it is looked for a few times.
    fn finds_more(&mut self, mailbox: &Mailbox) -> Result<bool, StartFault> {
        for _ in 0..LOOKS {
            self.poll_events(0)?;
            if !self.events.is_empty() || mailbox.has_news() {
                return Ok(true);
            }
        }
        Ok(false)
    }

    /// Sleeps until something is ready or told, so long at the most (milliseconds).
    fn sleep(&mut self, mailbox: &Mailbox, longest: u64) -> Result<(), StartFault> {
        let longest = if mailbox.fall_asleep() { longest } else { 0 };
        let looked = self.poll_events(longest);
        mailbox.awake();
        looked
    }

    /// Notes what is ready.
    fn note_all(&mut self) {
        for event in self.events.iter() {
            match event.token() {
                WAKER => {}
                SOURCES | MONITORS => {
                    if let Some(acceptor) = &mut self.acceptor {
                        acceptor.notified(event.token());
                    }
                }
                CONTROL => {
                    if let Some(control) = &mut self.control {
                        control.notified();
                    }
                }
                Token(key) => note(&mut self.connections, key, event),
            }
        }
    }

    /// Writes what waits to be sent to each connection that is told, at a moment (milliseconds).
    pub(crate) fn write_all<R: Wait, W: Observer>(
        &mut self,
        rt: &R,
        router: &mut Router<'_, J>,
        observer: &mut W,
        now: u64,
    ) {
        for _ in 0..self.connections.writable() {
            self.write_next(rt, router, observer, now);
        }
    }

    /// Writes what waits to be sent to the next connection that is told. A source of which requests
    /// wait is kept, as behind a visit that reads.
    #[tactic(auto, using(crate::proofs::Keeping::keeps, crate::proofs::Keeping::all_stand))]
    fn write_next<R: Wait, W: Observer>(
        &mut self,
        rt: &R,
        router: &mut Router<'_, J>,
        observer: &mut W,
        now: u64,
    )
        ensures { KeepsWaiting (connection_at self.old.connections)
            (connection_at self.new.connections) }
    {
        let Some(ready) = self.connections.next_writable() else {
            return;
        };
        let after = write_at(&mut self.connections, ready, observer);
        self.follow(rt, router, ready.key, after, now);
    }

    /// What becomes of a connection behind a visit is noted, at a moment (milliseconds). One that
    /// is to be visited again stands in a queue then.
    fn follow<R: Wait>(
        &mut self,
        rt: &R,
        router: &mut Router<'_, J>,
        key: usize,
        after: After,
        now: u64,
    )
        ensures keeps { after ≢ After.Goes
            → connection_at self.new.connections ≡ connection_at self.old.connections }
        ensures goes { after ≡ After.Goes → connection_at self.new.connections
            ≡ without key (connection_at self.old.connections) }
        ensures noted { IsNoted after self.new.connections key }
        ensures router { router.new ≡ router.old }
    {
        match after {
            After::Waits => self.connections.note_waiting(key, now),
            After::Kept => self.connections.note_kept(key, now),
            After::Goes => part(rt, &mut self.connections, router, key),
            After::Again => {
                self.connections.note_ready(key, false);
                self.connections.note_admitted(key);
            }
            After::Rests => self.connections.note_admitted(key),
        }
    }

    /// Reads each connection that is ready, once, and has what it asks for admitted: for some
    /// milliseconds, or until workers tell something, and those that are left in a later turn. As
    /// long as memory is refused no source is read, which is told when that begins.
    pub(crate) fn read_all<R: Wait + Clock, W: Observer>(
        &mut self,
        rt: &R,
        context: &mut ReadContext<'_, '_, J>,
        observer: &mut W,
        clock: &mut RunClock<'_, R>,
    ) {
        let start = clock.moment();
        self.visitor.memory.begin_reading(start);
        for _ in 0..self.connections.ready() {
            context.now = clock.moment();
            self.read_next(rt, context, observer);
            if context.mailbox.has_news() || context.now.saturating_sub(start) >= READING {
                break;
            }
        }
        self.visitor.memory.end_reading(observer, start);
    }

    /// Reads the next connection that is ready. A source of which a request waits that nobody sends
    /// again stays then, but where the relay refused one of its requests.
    fn read_next<R: Wait, W: Observer>(
        &mut self,
        rt: &R,
        context: &mut ReadContext<'_, '_, J>,
        observer: &mut W,
    )
        ensures { KeepsServed context.old.router.now (connection_at self.old.connections)
            context.new.router.now (connection_at self.new.connections) }
    {
        let Some(ready) = self.connections.next_ready() else {
            return;
        };
        let connections = &mut self.connections;
        let after = self
            .visitor
            .read_at(rt, context, connections, ready, observer);
        self.follow(rt, context.router, ready.key, after, context.now);
    }
}

/// An observer is told what workers told.
pub(crate) fn tell_all<J: Run, W: Observer>(
    notices: &Notices,
    outputs: &[Output<J>],
    lost_servers: &mut LostServers,
    observer: &mut W,
) {
    if notices.missed {
        observer.observe(JournalEvent::Memory(MemoryFor::News));
    }
    for notice in &notices.all {
        if let Some(event) = lost_servers.hear(outputs, notice, &notices.denied) {
            observer.observe(event);
        }
    }
    for refusal in &notices.refused {
        if let Some(event) = fact_of(outputs, refusal) {
            observer.observe(event);
        }
    }
}
