//! Where connections come in.

ghost use Rattle.std.specs.Prelude.{◌≡◌, ◌<◌, Some, IfOk, IfSome};
ghost use Rattle.std.specs.Arc.{arc_value};
ghost use Rattle.fwd_handshake.specs.Draws.{drawn, moved};
ghost use Rattle.fwd_source.specs.Live.{opened_source};
ghost use Rattle.fwd_turns.specs.Ids.{IsNoLess};

use crate::places::{PlaceRule, free_place, is_crowded};
use fwd_handshake::{Nonces, Security};
use fwd_history::Run;
use fwd_listeners::tokens::{MONITORS as MONITOR_TOKEN, SOURCES};
use fwd_listeners::{Arrival, Listener};
use fwd_monitors::{JournalEvent, ListenerKind, MemoryFor, MonitorPeer, Observer, StartFault};
use fwd_msgpack::Limits;
use fwd_output::PagedSource;
use fwd_peers::{PeerAddress, PeerSocket, SourcePeer};
use fwd_reader::{Connections, Peer, ReaderInboxes, Router};
use fwd_run::SourceIds;
use fwd_source::Source;
use mio::{Poll, Registry, Token};
use rand_chacha::ChaCha20Rng;
use std::alloc::{AllocError, Global};
use std::fs::File;
use std::net::{Net, SocketAddr};
use std::rt::Files;
use std::sync::{Arc, Wait};

/// The most connections that are taken in a turn at one listener.
const ACCEPTS: u16 = 1_024;

/// The same of a relay that was asked to stop, so that it looks at the time often.
const LAST_ACCEPTS: u16 = 128;

/// As many connections as wait at a listener at the most, which Linux takes at once: its limit,
/// unless it is set otherwise, and one more.
const QUEUE: u64 = 4_097;

/// The most monitors at a time.
pub const MONITORS: usize = 16;

/// Where the relay listens, and how many sources it takes.
#[derive(Clone, Copy)]
pub struct ListenConfig {
    pub listen: PeerAddress,
    pub monitor: Option<SocketAddr>,
    /// Monitors are served the metrics page.
    pub has_metrics: bool,
    /// The most sources at a time, of all readers together.
    pub connections: u64,
    /// There are several outputs.
    pub has_other_outputs: bool,
    /// How many files the process may have open, where that leaves fewer than are set.
    pub few_files: Option<u64>,
}

/// What a source that comes is given.
pub struct SourceSetup<J: Run> {
    /// What it has to prove.
    pub security: Arc<Security>,
    /// How long and how deep its values may be.
    pub limits: Limits,
    /// Where the random bytes of its handshake come from.
    pub nonces: ChaCha20Rng,
    /// Under which ids sources come, in the history of the run.
    pub ids: SourceIds<J>,
    ghost proved: { ids.security ≡ Some (arc_value security) },
    ghost limited: { ids.limits ≡ Some limits },
}

// A drop of its own is proved once, and not at each place where what sources are given goes.
impl<J: Run> Drop for SourceSetup<J> {
    fn drop(self) {
        let SourceSetup {
            security: _,
            limits: _,
            nonces: _,
            ids: _,
        } = self;
    }
}

/// The listeners.
pub(crate) struct Acceptor {
    pub sources: Listener,
    pub monitors: Option<Listener>,
    /// Monitors are served the metrics page.
    pub has_metrics: bool,
    /// The most sources at a time, of all readers together.
    pub limit: usize,
    /// There are several outputs: sources that wait at some leave places to those of others.
    pub has_other_outputs: bool,
    /// The moment (milliseconds) at which an idle source was looked for last and none was found.
    pub none_idle: Option<u64>,
    /// How many files the process may have open, where that leaves fewer sources than are set.
    pub few_files: Option<u64>,
    /// How many sources it may take still, where the relay was asked to stop.
    last: Option<u64>,
}

// A drop of its own is proved once, and not at each place where an acceptor goes.
impl Drop for Acceptor {
    fn drop(self) {
        let Acceptor {
            sources: _,
            monitors: _,
            has_metrics: _,
            limit: _,
            has_other_outputs: _,
            none_idle: _,
            few_files: _,
            last: _,
        } = self;
    }
}

/// Where connections go that come at a moment.
#[derive(Drop)]
pub(crate) struct Incoming<'a, 'p, 'r, J: Run> {
    pub alloc: Global,
    pub registry: &'a Registry,
    pub connections: &'a mut Connections<J>,
    /// Where sources of the reader in front may wait.
    pub router: &'p mut Router<'r, J>,
    /// The inboxes of all readers.
    pub inboxes: &'a ReaderInboxes<J>,
    /// How long a source has to be silent that gives its place to a new one (milliseconds), if any
    /// does.
    pub idle_limit: Option<u64>,
    /// In milliseconds.
    pub now: u64,
}

impl<'a, 'p, 'r, J: Run> Incoming<'a, 'p, 'r, J> {
    /// A connection comes. Where the system or memory refuses it, which is the only error, it is
    /// dropped.
    fn add(&mut self, connection: Peer<J>) -> Result<(), AllocError> {
        self.connections.add(self.registry, connection, self.now)
    }
}

impl<J: Run> SourceSetup<J> {
    /// The source with the next id, before its first byte, and its page, if an id is left. Its
    /// random bytes are drawn for it alone. The only error is out of memory.
    fn source(&mut self, alloc: Global) -> Result<Option<PagedSource<J>>, AllocError>
        ensures own { IfOk result (λ made. IfSome made (λ source.
            self.old.ids.next ≡ Some source.live.setup.conn)) }
        ensures once { IfOk result (λ made. IfSome made (λ source.
            IfSome self.new.ids.next (λ next. source.live.setup.conn < next))) }
        ensures live { IfOk result (λ made. IfSome made (λ source. source.live
            ≡ opened_source (record {
              conn = source.live.setup.conn;
              security = arc_value self.old.security;
              nonces = record {
                nonce = drawn 0 4 self.old.nonces;
                auth = drawn 4 4 self.old.nonces;
              };
              limits = self.old.limits;
            }))) }
        ensures moved { IfOk result (λ made. IfSome made (λ _.
            self.new.nonces ≡ moved 8 self.old.nonces)) }
        ensures later { IsNoLess self.old.ids.next self.new.ids.next }
    {
        let security = Arc::try_clone(&self.security)?;
        let nonces = Nonces::draw(&mut self.nonces);
        let Some(page) = self.ids.accept(nonces.nonce, nonces.auth) else {
            return Ok(None);
        };
        let source = Source::new(alloc, page.id(), security, nonces, self.limits)?;
        Ok(Some(PagedSource::new(page, source)))
    }

    /// A source with the next id, if one is left. The only error is out of memory.
    fn next_source(
        &mut self,
        incoming: &Incoming<'_, '_, '_, J>,
        socket: PeerSocket,
        peer: PeerAddress,
    ) -> Result<Option<SourcePeer<J>>, AllocError>
        ensures own { IfOk result (λ made. IfSome made (λ source.
            self.old.ids.next ≡ Some source.id)) }
        ensures once { IfOk result (λ made. IfSome made (λ source.
            IfSome self.new.ids.next (λ next. source.id < next))) }
        ensures nonce { IfOk result (λ made. IfSome made (λ source.
            source.live.setup.nonces.nonce ≡ drawn 0 4 self.old.nonces)) }
        ensures moved { IfOk result (λ made. IfSome made (λ _.
            self.new.nonces ≡ moved 8 self.old.nonces)) }
        ensures later { IsNoLess self.old.ids.next self.new.ids.next }
    {
        let Some(source) = self.source(incoming.alloc)? else {
            return Ok(None);
        };
        let source = SourcePeer::new(socket, peer, source, incoming.now);
        Ok(Some(source))
    }

    /// A source begins with the next id, if one is left, at the reader with the fewest. The only
    /// error is out of memory.
    #[tactic(auto, using(crate::proofs::Ids::same))]
    fn begin<R: Wait>(
        &mut self,
        rt: &R,
        incoming: &Incoming<'_, '_, '_, J>,
        socket: PeerSocket,
        peer: PeerAddress,
    ) -> Result<(), AllocError>
        ensures { IsNoLess self.old.ids.next self.new.ids.next }
    {
        match self.next_source(incoming, socket, peer)? {
            None => Ok(()),
            Some(source) => incoming.inboxes.freest().hand(rt, source),
        }
    }
}

impl Acceptor {
    /// The listeners, which the reader in front waits for by this poll. It fails with `Listen`.
    pub fn open<R: Net + Files<File = File>>(
        rt: &R,
        poll: &Poll,
        config: ListenConfig,
    ) -> Result<Acceptor, StartFault> {
        let sources = Listener::open(rt, poll, config.listen, SOURCES)?;
        let monitors = match config.monitor {
            Some(monitor) => {
                let address = PeerAddress::Tcp(monitor);
                Some(Listener::open(rt, poll, address, MONITOR_TOKEN)?)
            }
            None => None,
        };
        Ok(Acceptor {
            sources,
            monitors,
            has_metrics: config.has_metrics,
            limit: config.connections as usize,
            has_other_outputs: config.has_other_outputs,
            none_idle: None,
            few_files: config.few_files,
            last: None,
        })
    }

    /// The relay was asked to stop: no more sources are taken from now on than may have waited
    /// then. It looks whether some wait.
    pub fn take_last(&mut self) {
        self.last = self.last.or(Some(QUEUE));
        self.sources.notified();
    }

    /// The most sources that are taken in a turn.
    fn most_accepts(&self) -> u16 {
        if self.last.is_some() {
            LAST_ACCEPTS
        } else {
            ACCEPTS
        }
    }

    /// Whether all are taken that waited when the relay was asked to stop: none waits, or as many
    /// were taken.
    pub fn has_last(&self) -> bool {
        self.sources.is_quiet() || self.last == Some(0)
    }

    /// One of the listeners told that connections wait.
    pub fn notified(&mut self, token: Token) {
        if token == SOURCES {
            self.sources.notified();
        } else if let Some(listener) = &mut self.monitors {
            listener.notified();
        }
    }

    /// Whether the next wait is to be short.
    pub fn is_urgent(&self) -> bool {
        self.sources.is_urgent() || self.monitors.as_ref().is_some_and(|it| it.is_urgent())
    }

    /// Tells where connections come in, and where fewer than are set are taken.
    pub fn tell<W: Observer>(&self, observer: &mut W) {
        if let Some(files) = self.few_files {
            let sources = self.limit;
            observer.observe(JournalEvent::FewFiles { files, sources });
        }
        observer.observe(JournalEvent::Listening {
            listener: ListenerKind::Source,
            address: self.sources.address(),
        });
        if let Some(listener) = &self.monitors {
            observer.observe(JournalEvent::Listening {
                listener: ListenerKind::Monitor,
                address: listener.address(),
            });
        }
    }

    /// Takes the sources that wait. One too many takes the place of one that is idle, or is closed
    /// at once. It says whether memory was refused for one.
    #[tactic(auto, using(crate::proofs::Ids::later, crate::proofs::Ids::same))]
    pub fn accept_sources<J: Run, R: Wait, W: Observer>(
        &mut self,
        rt: &R,
        incoming: &mut Incoming<'_, '_, '_, J>,
        setup: &mut SourceSetup<J>,
        observer: &mut W,
    ) -> bool
        ensures { IsNoLess setup.old.ids.next setup.new.ids.next }
    {
        for _ in 0..self.most_accepts() {
            if self.last == Some(0) {
                return false;
            }
            let (socket, peer) = match self.sources.next() {
                Arrival::Came(socket, peer) => (socket, peer),
                Arrival::Starved => {
                    observer.observe(JournalEvent::Descriptors(ListenerKind::Source));
                    return false;
                }
                Arrival::None => return false,
            };
            self.last = self.last.map(|left| left.saturating_sub(1));
            let is_full = incoming.inboxes.sources() >= self.limit;
            if is_full && !self.free_place(rt, incoming, observer) {
                let listener = ListenerKind::Source;
                observer.observe(JournalEvent::OverLimit { listener, peer });
            } else if setup.begin(rt, incoming, socket, peer).is_err() {
                observer.observe(JournalEvent::Memory(MemoryFor::Source(peer)));
                return true;
            }
        }
        false
    }

    /// Closes the source that gives its place, of those that the reader in front has, and says
    /// whether one does. Where none does, the other readers are asked to do so in their next turns,
    /// and none is looked for again within the millisecond. One list of all readers' sources would
    /// be a lock that each read takes.
    fn free_place<J: Run, R: Wait, W: Observer>(
        &mut self,
        rt: &R,
        incoming: &mut Incoming<'_, '_, '_, J>,
        observer: &mut W,
    ) -> bool {
        let inboxes = incoming.inboxes;
        let rule = PlaceRule {
            idle_limit: incoming.idle_limit,
            is_crowded: self.has_other_outputs && is_crowded(inboxes.crowding(), self.limit),
            now: incoming.now,
        };
        if self.none_idle == Some(incoming.now) {
            return false;
        }
        if free_place(rt, incoming.connections, incoming.router, observer, rule) {
            inboxes.front.note(incoming.connections);
            return true;
        }
        self.none_idle = Some(incoming.now);
        inboxes.ask_others(rule.idle_limit.is_some(), rule.is_crowded);
        false
    }

    /// Takes the monitors that wait. One too many is closed at once.
    pub fn accept_monitors<J: Run, W: Observer>(
        &mut self,
        incoming: &mut Incoming<'_, '_, '_, J>,
        observer: &mut W,
    ) {
        let Some(listener) = &mut self.monitors else {
            return;
        };
        for _ in 0..ACCEPTS {
            let (socket, peer) = match listener.next() {
                Arrival::Came(socket, peer) => (socket, peer),
                Arrival::Starved => return observer.observe(JournalEvent::Descriptors(
                    ListenerKind::Monitor,
                )),
                Arrival::None => return,
            };
            if incoming.connections.monitors() >= MONITORS {
                let listener = ListenerKind::Monitor;
                observer.observe(JournalEvent::OverLimit { listener, peer });
            } else {
                let monitor = MonitorPeer::new(incoming.alloc, socket, self.has_metrics);
                if incoming.add(Peer::Monitor(monitor)).is_err() {
                    observer.observe(JournalEvent::Memory(MemoryFor::Monitor));
                }
            }
        }
    }
}
