//! The connections that stand.

ghost use Rattle.std.specs.BTreeMap as tree;
ghost use Rattle.std.specs.Ordering.{nat_cmp};
ghost use Rattle.std.specs.Prelude.{
  ◌≡◌,
  ℕ,
  List,
  Some,
  false,
  is_some,
  not,
  true,
  All,
  Contains,
  IfNone,
  IfSome,
};
ghost use Rattle.fwd_history.specs.Histories.{Comes};
ghost use Rattle.fwd_book.specs.History.{BookSetting};
ghost use Rattle.fwd_book.specs.Receipts as book;
ghost use Rattle.fwd_output.specs.Paged.{AreGivenAfter};
ghost use Rattle.fwd_output.specs.PagedSources.{WasDelivered};
ghost use Rattle.fwd_reader.specs.Promises.{IsDeliveredTo};
ghost use Rattle.fwd_reader.specs.Idling.{IsCrowding, IsIdlest, NoneIsIdle};
ghost use Rattle.fwd_reader.specs.Idling as idling;
ghost use Rattle.fwd_reader.specs.Lateness.{IsLate, is_late};
ghost use Rattle.fwd_reader.specs.OpenConnections.{
  connection_at,
  is_source,
  longer_idle,
  source_id_at,
  source_with,
  sources_in,
  without,
};
ghost use Rattle.fwd_reader.specs.Queues.{IsWritten};
ghost use Rattle.fwd_reader.specs.Tellings.{AreTold, IsToldAt, IsToldOf, sources_without};

mod queues;

use crate::admission::EvictionCandidate;
use crate::deadlines::{Deadlines, Unidentified};
use crate::peer::{HEAD_LIMIT, LOGIN_LIMIT, Peer};
use fwd_book::Receipt;
use fwd_history::Run;
use fwd_peers::{PeerAddress, SourcePeer};
use fwd_run::ReachedHistory;
use mio::{Interest, Registry, Token};
pub use queues::Ready;
use slab::Slab;
use std::alloc::{AllocError, Global};
use std::collections::{BTreeMap, VecDeque};
use std::mem;

/// Of so many sources at a time it is watched whether they say anything: the journal has room for
/// ten lines a second.
const WATCHED: usize = 4_096;

/// A connection that is open.
#[derive(Drop)]
pub(crate) struct OpenConnection<J: Run> {
    connection: Peer<J>,
    /// When it came, in milliseconds.
    came: u64,
    /// It stands in the queue of those that are ready.
    is_ready: bool,
    /// It stands in the queue of those that may be written.
    is_writable: bool,
    /// It stands in the queue of those whose requests wait.
    is_queued: bool,
    /// The system told that its other side closed, or that it failed, which it tells once: it is
    /// read to its end from now on.
    is_closing: bool,
    /// Since when requests of it have waited at an output, in milliseconds, if some do.
    waiting_since: Option<u64>,
    /// It is a source whose other side is gone, and of which requests are kept: it takes no place.
    is_kept: bool,
}

impl<J: Run> OpenConnection<J> {
    ghost use Rattle.std.specs.Prelude.{◌≡◌};
    ghost use Rattle.std.specs.Borrow.{Lends, sem};
    ghost use Rattle.fwd_reader.specs.contracts.peer.Peer.{the_row as peer_row};
    ghost use Rattle.fwd_reader.specs.contracts.connections.OpenConnection.{the_row as opened_row};

    /// The connection itself.
    fn connection_mut(&mut self) -> &mut Peer<J>
        ensures* lends { sem 𝓛 (Lends (opened_row J.row J.Run) (peer_row J.row J.Run) self.entry
            result (λ w. record self.entry.now { connection = w })) }
        ensures value { result.now ≡ self.old.connection }
    {
        &mut self.connection
    }
}

impl<J: Run> OpenConnection<J> {
    /// Since when it could give its place to a new one (milliseconds), where it is a source and
    /// does not wait to be read: it has been silent, and neither it nor the relay owes the other
    /// anything; or it waits at an output, and sends its request again, since it asked for an
    /// acknowledgement.
    fn idle_since(&self) -> Option<u64>
        ensures { result ≡ idling.idle_since self.now }
    {
        if self.is_ready {
            return None;
        }
        match &self.connection {
            Peer::Source(source) if source.asks() => self.waiting_since,
            Peer::Source(source) => source.silent_since(),
            Peer::Monitor(_) => None,
        }
    }

    /// Whether requests of it wait at an output, and it takes a place.
    fn is_crowding(&self) -> bool
        ensures { result ≡ idling.is_crowding self.now }
    {
        self.waiting_since.is_some() && !self.is_kept
    }

    /// Which of two is to give its place first: one that was found, or this one, at a key. One that
    /// asks goes before one that does not; of two that ask the one that waits longer, and of two
    /// that do not the one that waits less.
    fn first_out(&self, key: usize, found: Option<EvictionCandidate>) -> Option<EvictionCandidate> {
        let (Some(since), Peer::Source(source)) = (self.waiting_since, &self.connection) else {
            return found;
        };
        if self.is_kept {
            return found;
        }
        let own = EvictionCandidate {
            key,
            asks: source.asks(),
            since,
        };
        match found {
            Some(found) if found.goes_before(&own) => Some(found),
            _ => Some(own),
        }
    }

    /// Whether it has had its time by a moment (milliseconds), and has not shown what it is.
    fn is_late(&self, now: u64) -> bool
        ensures { result ≡ is_late now self.now }
    {
        self.connection.is_unknown() && now.saturating_sub(self.came) >= self.connection.limit()
    }

    /// Tells a receipt to a source, if it is of one of its requests, and says whether it is to
    /// stand in the queue of those that may be written, where it did not. The receipt is among
    /// those that an output gave after a history of the run, and what is known of that history goes
    /// on to where the source is known.
    #[tactic(auto, using(crate::proofs::Telling::told_alone, crate::proofs::Telling::stays, crate::proofs::Told::no_further))]
    fn answer(
        &mut self,
        receipt: &Receipt,
        given: &ReachedHistory<J>,
        reached: &mut ReachedHistory<J>,
    ) -> bool
        ensures onward { Comes reached.old reached.new }
        ensures delivered { (setting : BookSetting) (receipts : List book.Receipt) →
            AreGivenAfter given.now setting receipts → Contains receipts receipt.now →
            is_some (source_with receipt.now.origin.conn self.old.connection) ≡ true →
            WasDelivered reached.new setting.output receipt.now }
        ensures told { (id : ℕ) → IsToldAt id receipt.now
            (source_with id self.old.connection) (source_with id self.new.connection) }
        ensures queued { is_source self.old.connection ≡ true
            → (result ≡ not self.old.is_writable) × (self.new.is_writable ≡ true) }
        ensures stays { is_source self.old.connection ≡ false
            → (result ≡ false) × (self.new ≡ self.old) }
    {
        match &mut self.connection {
            Peer::Source(source) => {
                let told = source.answer(receipt, given);
                *reached = reached.with(&told);
            }
            Peer::Monitor(_) => return false,
        }
        !mem::replace(&mut self.is_writable, true)
    }
}

/// A source that is idle.
#[derive(Clone, Copy)]
struct Idle {
    key: usize,
    /// Since when, in milliseconds.
    since: u64,
}

/// The connection at a key, where it is idle, and has been for longer than this one.
fn longer_of<J: Run>(idlest: Option<Idle>, key: usize, opened: &OpenConnection<J>) -> Option<Idle>
    ensures { result ≡ longer_idle idlest key (idling.idle_since opened.now) }
{
    let Some(since) = opened.idle_since() else {
        return idlest;
    };
    match idlest {
        Some(idlest) if idlest.since <= since => Some(idlest),
        _ => Some(Idle { key, since }),
    }
}

/// The connections that stand, by keys, with three queues: of those that are ready to be read, or
/// may have more to be read; of the sources that have something to be sent, or may take it now; and
/// of the sources whose requests wait at outputs until others are answered, or settled.
#[derive(Drop)]
pub struct Connections<J: Run> {
    opened: Slab<OpenConnection<J>>,
    /// Each key at most once.
    ready: VecDeque<usize>,
    /// Each key at most once.
    writable: VecDeque<usize>,
    /// Each key that stands there at most once.
    waiting: VecDeque<usize>,
    /// The keys of the sources, by their ids.
    sources: BTreeMap<u64, usize>,
    /// The keys of the monitors.
    monitors: Vec<usize>,
    /// Sources that may have yet to log in.
    logins: Deadlines,
    /// Monitors that may have yet to send their heads.
    heads: Deadlines,
    /// The sources that are not asked to log in, and may never say anything.
    silent: Deadlines,
    /// How many of the sources take a place though requests of them wait.
    crowding: usize,
    /// How many of the sources are kept, and take no place.
    kept: usize,
    /// The most that are.
    kept_limit: usize,
}

impl<J: Run> Connections<J> {
    ghost use Rattle.std.specs.Prelude.{◌≡◌};
    ghost use Rattle.std.specs.Borrow.{LendsIf, sem};
    ghost use Rattle.std.specs.Option.{option_copied_mut};
    ghost use Rattle.slab.specs.Slab as slots;
    ghost use Rattle.fwd_reader.specs.contracts.peer.Peer.{the_row as peer_row};
    ghost use Rattle.fwd_reader.specs.contracts.connections.Connections.{the_row as connections_row};
    ghost use Rattle.fwd_reader.specs.Lending.{with_connection};
    ghost use Rattle.fwd_reader.specs.OpenConnections.{connection_at};

    /// The connection of this key, if it stands.
    pub fn at(&mut self, key: usize) -> Option<&mut Peer<J>>
        ensures* lends { sem 𝓛 (LendsIf (connections_row J.row J.Run) (peer_row J.row J.Run)
            self.entry result
            (with_connection self.entry.now key (slots.get self.entry.now.opened key))
            self.entry.now) }
        ensures value { option_copied_mut result ≡ connection_at self.old key }
    {
        let opened = self.opened.get_mut(key)?;
        Some(opened.connection_mut())
    }
}

impl<J: Run> Connections<J> {
    /// No connections. Of the sources whose other side is gone, and of which requests wait, so many
    /// take no place.
    pub fn new(alloc: Global, kept_limit: usize) -> Connections<J> {
        Connections {
            opened: Slab::new(alloc),
            ready: VecDeque::new(alloc),
            writable: VecDeque::new(alloc),
            waiting: VecDeque::new(alloc),
            sources: BTreeMap::new(alloc),
            monitors: Vec::new(alloc),
            logins: Deadlines::new(alloc, LOGIN_LIMIT),
            heads: Deadlines::new(alloc, HEAD_LIMIT),
            silent: Deadlines::new(alloc, LOGIN_LIMIT),
            crowding: 0,
            kept: 0,
            kept_limit,
        }
    }

    /// How many sources take a place.
    pub fn sources(&self) -> usize {
        self.sources.len().saturating_sub(self.kept)
    }

    /// How many of these wait at outputs.
    pub fn crowding(&self) -> usize {
        self.crowding
    }

    /// How many sources stand, whether they take a place or not.
    pub fn standing(&self) -> usize {
        self.sources.len()
    }

    /// No connection has this key or a greater one.
    pub fn key_limit(&self) -> usize {
        self.opened.capacity()
    }

    /// How many monitors stand.
    pub fn monitors(&self) -> usize {
        self.monitors.len()
    }

    /// The key of the monitor at a place among those that stand.
    pub(crate) fn monitor_key(&self, place: usize) -> Option<usize> {
        Some(*self.monitors.get(place)?)
    }

    /// A connection comes at a moment (milliseconds), is registered, and is ready. Where the system
    /// or memory refuses it, which is the only error, it is dropped.
    pub fn add(
        &mut self,
        registry: &Registry,
        connection: Peer<J>,
        now: u64,
    ) -> Result<(), AllocError> {
        self.reserve()?;
        let id = match &connection {
            Peer::Source(source) => Some(source.id()),
            Peer::Monitor(_) => None,
        };
        let opened = OpenConnection {
            connection,
            came: now,
            is_ready: false,
            is_writable: false,
            is_queued: false,
            is_closing: false,
            waiting_since: None,
            is_kept: false,
        };
        let Ok(key) = self.opened.insert(opened) else {
            return Err(AllocError);
        };
        if self.register(registry, key).is_none() || self.count(id, key, now).is_err() {
            let _ = self.opened.try_remove(key);
            return Err(AllocError);
        }
        self.note_ready(key, false);
        Ok(())
    }

    /// Has room for one more connection in each queue. The only error is out of memory.
    fn reserve(&mut self) -> Result<(), AllocError> {
        let count = self.opened.len().saturating_add(1);
        self.ready.reserve(count)?;
        self.writable.reserve(count)?;
        self.waiting.reserve(count)?;
        Ok(())
    }

    /// Has the wait tell of a connection.
    fn register(&mut self, registry: &Registry, key: usize) -> Option<()> {
        let socket = self.opened.get_mut(key)?.connection.socket();
        let interest = Interest::READABLE | Interest::WRITABLE;
        registry.register(socket, Token(key), interest).ok()
    }

    /// Counts a source, or a monitor, that came at a moment (milliseconds). The only error is out
    /// of memory.
    fn count(&mut self, id: Option<u64>, key: usize, now: u64) -> Result<(), AllocError> {
        let unidentified = Unidentified { key, came: now };
        match id {
            Some(id) => {
                if self.is_unknown(key) {
                    self.logins.add(unidentified)?;
                } else if self.silent.len() < WATCHED {
                    let _ = self.silent.add(unidentified);
                }
                self.sources.insert(id, key)?;
            }
            None => {
                self.heads.add(unidentified)?;
                self.monitors.push(key)?;
            }
        }
        Ok(())
    }

    /// Whether the connection of this key has yet to show what it is.
    fn is_unknown(&self, key: usize) -> bool {
        self.opened
            .get(key)
            .is_some_and(|opened| opened.connection.is_unknown())
    }

    /// Whether the connection of this key has had its time by a moment (milliseconds), and has not
    /// shown what it is.
    fn is_late(&self, key: usize, now: u64) -> bool
        ensures { result ≡ true → IsLate self.now now key }
    {
        match self.opened.get(key) {
            Some(opened) => opened.is_late(now),
            None => false,
        }
    }

    /// The key of a connection that had its time by a moment (milliseconds) and has not shown what
    /// it is: a source that has not logged in, a monitor that has not sent its head.
    pub fn next_late(&mut self, now: u64) -> Option<usize>
        ensures { IfSome result (IsLate self.new now) }
    {
        for _ in 0..u32::MAX {
            let unidentified = match self.logins.next(now) {
                Some(unidentified) => unidentified,
                None => self.heads.next(now)?,
            };
            if self.is_late(unidentified.key, now) {
                return Some(unidentified.key);
            }
        }
        None
    }

    /// Where a source comes from that had its time by a moment (milliseconds), was not asked to log
    /// in, and has said nothing. Each is named once.
    pub fn next_silent(&mut self, now: u64) -> Option<PeerAddress> {
        for _ in 0..u32::MAX {
            let Unidentified { key, came } = self.silent.next(now)?;
            match self.opened.get(key) {
                Some(opened) if opened.came == came => match &opened.connection {
                    Peer::Source(source) if source.is_silent() => return Some(source.peer()),
                    _ => {}
                },
                _ => {}
            }
        }
        None
    }

    /// The key of the source that could have given its place to a new one for longest at a moment
    /// (milliseconds), where it could for so long (milliseconds): it has been silent, and neither
    /// it nor the relay owes the other anything; or it waits with a request that it sends again.
    /// All connections are looked at. That costs less than the connection that is wanted.
    pub fn idlest(&self, limit: u64, now: u64) -> Option<usize>
        ensures found { IfSome result (λ key. IsIdlest self.now limit now key) }
        ensures none { IfNone result (NoneIsIdle self.now limit now) }
    {
        let mut idlest = None;
        for (key, opened) in self.opened.iter() {
            idlest = longer_of(idlest, key, opened);
        }
        let Idle { key, since } = idlest?;
        if now.saturating_sub(since) < limit {
            return None;
        }
        Some(key)
    }

    /// The key of a source that waits at an output and is to give its place to a new one, if one
    /// waits: of those that asked for an acknowledgement, and send again, the one that has waited
    /// longest; and where none did, the one that came to wait last.
    pub fn crowded_out(&self) -> Option<usize>
        ensures { IfSome result (IsCrowding self.now) }
    {
        let mut found = None;
        for (key, opened) in self.opened.iter() {
            found = opened.first_out(key, found);
        }
        let key = found?.key;
        if self.is_crowding(key) {
            Some(key)
        } else {
            None
        }
    }

    /// Whether the connection of this key waits at an output, and takes a place.
    fn is_crowding(&self, key: usize) -> bool
        ensures { result ≡ true → IsCrowding self.now key }
    {
        match self.opened.get(key) {
            Some(opened) => opened.is_crowding(),
            None => false,
        }
    }

    /// Tells each receipt to the source whose request it is of, where that still stands. An output
    /// gave them after a history of the run, and what is known of that history goes on to where the
    /// sources are known that are told.
    pub(crate) fn tell_all(
        &mut self,
        receipts: &[Receipt],
        given: &ReachedHistory<J>,
        reached: &mut ReachedHistory<J>,
    )
        ensures told { AreTold (sources_in self.old) receipts.now (sources_in self.new) }
        ensures onward { Comes reached.old reached.new }
        ensures delivered { (setting : BookSetting) → AreGivenAfter given.now setting receipts.now
            → All (IsDeliveredTo reached.new setting.output (sources_in self.old)) receipts.now }
    {
        for receipt in receipts {
            self.tell(receipt, given, reached);
        }
    }

    /// Tells a receipt to the source whose request it is of, where that still stands.
    #[tactic(auto, using(crate::proofs::Told::no_further))]
    fn tell(
        &mut self,
        receipt: &Receipt,
        given: &ReachedHistory<J>,
        reached: &mut ReachedHistory<J>,
    )
        ensures onward { Comes reached.old reached.new }
        ensures delivered { (setting : BookSetting) (receipts : List book.Receipt) →
            AreGivenAfter given.now setting receipts → Contains receipts receipt.now →
            IsDeliveredTo reached.new setting.output (sources_in self.old) receipt.now }
        ensures told { IsToldOf (sources_in self.old) receipt.now (sources_in self.new) }
        ensures written { (key : ℕ)
            → tree.get nat_cmp self.old.sources receipt.now.origin.conn ≡ Some key
            → IsWritten (connection_at self.old key) key self.old self.new }
    {
        let Some(key) = self.sources.get(&receipt.origin().conn) else {
            return;
        };
        let key = *key;
        let Some(opened) = self.opened.get_mut(key) else {
            return;
        };
        if opened.answer(receipt, given, reached) {
            // Room for it was made when the connection came.
            let _ = self.writable.push_back(key);
        }
    }

    /// A connection goes.
    pub fn remove(&mut self, key: usize)
        ensures gone { connection_at self.new ≡ without key (connection_at self.old) }
        ensures sources { sources_in self.new
            ≡ sources_without (source_id_at self.old key) (sources_in self.old) }
    {
        self.forget(key);
        let Some(opened) = self.opened.try_remove(key) else {
            return;
        };
        match &opened.connection {
            Peer::Source(source) => {
                self.sources.remove(&source.id());
            }
            Peer::Monitor(_) => self.monitors.retain(|monitor| *monitor != key),
        }
    }

    /// A connection that goes leaves the queue of those that wait, and is counted no more.
    fn forget(&mut self, key: usize)
        ensures opened { self.new.opened ≡ self.old.opened }
        ensures sources { self.new.sources ≡ self.old.sources }
    {
        let Some(opened) = self.opened.get(key) else {
            return;
        };
        self.kept = self.kept.saturating_sub(usize::from(opened.is_kept));
        self.crowding = self
            .crowding
            .saturating_sub(usize::from(opened.is_crowding()));
        if opened.is_queued {
            self.waiting.retain(|other| *other != key);
        }
    }
}
