//! A visit to a connection, and what becomes of the connection behind it.

ghost use Rattle.std.specs.Prelude.{◌≡◌, ◌≢◌, ◌<◌, ◌⊎◌, [], None, length, true, false};
ghost use Rattle.fwd_peers.specs.Leaving.{is_leaving};
ghost use Rattle.fwd_peers.specs.Peers.{PeerShown, Writes, stands};
ghost use Rattle.fwd_peers.specs.declared.peer_state.PeerState.TheVariants.{Open};
ghost use Rattle.fwd_peers.specs.declared.limits.TheConstants.{UNSENT};
ghost use Rattle.fwd_reader.specs.OpenConnections.{connection_at};
ghost use Rattle.fwd_reader.specs.declared.peer.Peer.TheVariants.{Source};
ghost use Rattle.fwd_turns.specs.Keeping.{IsVisited, IsWith, KeepsAt, waits_unasked};
ghost use Rattle.fwd_turns.specs.Visits.{
  IsRead,
  after_of,
  after_waiting,
  is_for_memory,
  is_left,
  judged,
  visited_of,
};

use crate::event_loop::ReadContext;
use fwd_history::Run;
use fwd_monitors::{JournalEvent, MonitorPeer, MonitorVisit, Observer};
use fwd_peers::{CloseReason, PeerEnd, SourcePeer};
use fwd_reader::{Connections, Peer, Ready};
use mio::event::Event;
use std::alloc::{AllocError, Global};
use std::sync::Wait;

/// What becomes of a connection behind a visit.
#[derive(Clone, Copy)]
pub(crate) enum After {
    /// It is visited again.
    Again,
    /// It is visited once some request was answered, or settled.
    Waits,
    /// The same, and its other side is gone.
    Kept,
    /// It is visited once the system tells of it.
    Rests,
    /// It goes.
    Goes,
}

/// What is known of a source behind a visit.
#[derive(Clone, Copy)]
pub(crate) struct Visited {
    /// There may be more to be read.
    pub may_have_more: bool,
    /// Some of its requests wait longer.
    pub waits: bool,
    /// The first of these asked for an acknowledgement: its sender sends it again.
    pub asks: bool,
    /// The system told that its other side closed, or that it failed.
    pub is_closing: bool,
    /// It is not over: it is read, or lingers over bytes that it is sent.
    pub stands: bool,
    /// It was not read, since too much waited to be sent to it, and may be now.
    pub is_free: bool,
}

impl Visited {
    /// What becomes of the source. Where requests of it wait and its other side is gone, it goes at
    /// once if it asked to be told of the first: it sends that again, and sources that give up and
    /// come back would else use up the places. One that did not ask is kept until there is room:
    /// what it sent would be lost.
    pub fn after(self) -> After
        ensures all { result ≡ after_of self }
        ensures kept { self.waits ≡ true → self.asks ≡ false
            → (result ≡ After.Waits) ⊎ (result ≡ After.Kept) }
        ensures waiting { self.waits ≡ true → is_left self ≡ false → result ≡ After.Waits }
        ensures left { self.waits ≡ true → is_left self ≡ true → self.asks ≡ true
            → result ≡ After.Goes }
        ensures gone { self.waits ≡ false → self.stands ≡ false → result ≡ After.Goes }
        ensures more { self.waits ≡ false → self.stands ≡ true → self.may_have_more ≡ true
            → result ≡ After.Again }
        ensures free { self.waits ≡ false → self.stands ≡ true → self.is_free ≡ true
            → result ≡ After.Again }
        ensures rests { self.waits ≡ false → self.stands ≡ true → self.may_have_more ≡ false
            → self.is_free ≡ false → result ≡ After.Rests }
    {
        if self.waits {
            self.while_waiting()
        } else if !self.stands {
            After::Goes
        } else if self.may_have_more || self.is_free {
            After::Again
        } else {
            After::Rests
        }
    }

    /// The same where requests of it wait.
    fn while_waiting(self) -> After
        ensures all { result ≡ after_waiting self }
        ensures kept { self.asks ≡ false → (result ≡ After.Waits) ⊎ (result ≡ After.Kept) }
        ensures waiting { is_left self ≡ false → result ≡ After.Waits }
        ensures left { is_left self ≡ true → self.asks ≡ true → result ≡ After.Goes }
    {
        let is_left = self.is_closing || !self.stands;
        match (is_left, self.asks) {
            (false, _) => After::Waits,
            (true, true) => After::Goes,
            (true, false) => After::Kept,
        }
    }
}

/// Writes what waits to be sent to a source, unless it was told that no more comes, and says what
/// becomes of it: there may be more to be read, some of its requests wait longer, and the system
/// told that it closed.
pub(crate) fn after_visit<J: Run>(
    source: &mut SourcePeer<J>,
    may_have_more: bool,
    waits: bool,
    is_closing: bool,
) -> After
    ensures becomes { result ≡ after_of (visited_of may_have_more waits is_closing source.new) }
    ensures written { is_leaving source.old.leave ≡ false → Writes source.old
        (stands source.new.stage source.new.live.unsent) source.new }
    ensures leaves { is_leaving source.old.leave ≡ true → source.new ≡ source.old }
{
    let stands = if source.leave_stage().is_leaving() {
        source.stands()
    } else {
        source.write()
    };
    let visited = Visited {
        may_have_more,
        waits,
        asks: source.asks(),
        is_closing,
        stands,
        is_free: source.is_free(),
    };
    visited.after()
}

/// The same of a connection that may be written: nothing is read, and an observer is told why the
/// relay ends it, where it does. A monitor is visited again, which writes.
#[tactic(auto, using(crate::proofs::Keeping::visits))]
pub(crate) fn write_at<J: Run, W: Observer>(
    connections: &mut Connections<J>,
    ready: Ready,
    observer: &mut W,
) -> After
    ensures visited { IsVisited ready.key
        (connection_at connections.old) (connection_at connections.new) }
    ensures keeps { KeepsAt ready.key (connection_at connections.old) result }
{
    match connections.at(ready.key) {
        None => After::Rests,
        Some(connection) => write_peer(connection, ready.to_end, observer),
    }
}

/// The same, where the connection is at hand.
fn write_peer<J: Run, W: Observer>(
    connection: &mut Peer<J>,
    is_closing: bool,
    observer: &mut W,
) -> After
    ensures stands { (source : PeerShown) → connection.old ≡ Source source
        → IsWith source connection.new }
    ensures keeps { (source : PeerShown) → connection.old ≡ Source source
        → waits_unasked source ≡ true → result ≢ After.Goes }
{
    match connection {
        Peer::Source(source) => {
            let _ = tell_end(source, observer);
            write_source(source, is_closing)
        }
        Peer::Monitor(_) => After::Again,
    }
}

/// The same of a source.
#[tactic(auto, using(crate::proofs::Keeping::visit_keeps, crate::proofs::Keeping::stays_waiting))]
fn write_source<J: Run>(source: &mut SourcePeer<J>, is_closing: bool) -> After
    ensures waiting { source.new.live.waiting ≡ source.old.live.waiting }
    ensures keeps { waits_unasked source.old ≡ true → result ≢ After.Goes }
{
    let waits = source.waiting() > 0;
    after_visit(source, false, waits, is_closing)
}

/// Reads a source at a moment (milliseconds), and says whether there may be more. One of which
/// requests wait is not read before they are admitted.
pub(crate) fn read_source<J: Run>(
    source: &mut SourcePeer<J>,
    alloc: Global,
    room: &mut [u8],
    to_end: bool,
    now: u64,
) -> bool
    ensures waits { 0 < length source.old.live.waiting
        → (source.new ≡ source.old) × (result ≡ true) }
    ensures read { source.old.live.waiting ≡ [] → source.old.stage ≡ Open
        → length source.old.live.unsent < UNSENT
        → IsRead now to_end (length room.new) source.old result source.new }
    ensures none { source.new.live.admitted ≡ source.old.live.admitted }
{
    if source.waiting() > 0 {
        return true;
    }
    let most = source.portion(room.len());
    let again = source.hear(alloc, &mut room[..most], to_end, now);
    judge(source);
    again
}

/// A source that has yet to log in and sent more than a PING may have is over.
pub(crate) fn judge<J: Run>(source: &mut SourcePeer<J>)
    ensures { source.new ≡ judged source.old }
{
    if source.is_too_long() {
        source.refuse(CloseReason::NoLogin);
    }
}

/// Serves a monitor. Where no thread makes pages, one is made at once. The only error is out of
/// memory.
pub(crate) fn serve_monitor<J: Run, R: Wait>(
    rt: &R,
    alloc: Global,
    context: &ReadContext<'_, '_, J>,
    monitor: &mut MonitorPeer,
    room: &mut [u8],
) -> Result<After, AllocError> {
    let is_draining = context.figures.is_draining;
    let served = monitor.serve(alloc, room, is_draining, context.now)?;
    if !context.are_pages_ordered {
        if let Some(kind) = monitor.wants() {
            let made_of = (kind, context.figures);
            monitor.hand_now(rt, alloc, &context.parts, made_of, context.now)?;
            return Ok(After::Again);
        }
    }
    Ok(match served {
        MonitorVisit::Again => After::Again,
        MonitorVisit::Rests => After::Rests,
        MonitorVisit::Ended => After::Goes,
    })
}

/// Notes a connection of which the system told. Where it tells only that the connection takes bytes
/// again, there is nothing to be read.
pub(crate) fn note<J: Run>(connections: &mut Connections<J>, key: usize, event: &Event) {
    let is_closing = event.is_read_closed() || event.is_error();
    if event.is_readable() || is_closing {
        connections.note_ready(key, is_closing);
    } else {
        connections.note_writable(key);
    }
}

/// An observer is told why the relay ends a source, where it does and that was not told yet. It
/// says whether that is for want of memory.
pub(crate) fn tell_end<J: Run, W: Observer>(source: &mut SourcePeer<J>, observer: &mut W) -> bool
    ensures told { result ≡ is_for_memory source.old.why }
    ensures once { source.new ≡ record source.old { why = None } }
{
    let Some(end) = source.why_ended() else {
        return false;
    };
    observer.observe(JournalEvent::of_source(source.peer(), end, source.first_tag()));
    matches!(end, PeerEnd::Memory)
}
