//! A visit that reads a connection.

ghost use Rattle.std.specs.Prelude.{◌≡◌};
ghost use Rattle.fwd_peers.specs.Peers.{PeerShown};
ghost use Rattle.fwd_reader.specs.OpenConnections.{connection_at};
ghost use Rattle.fwd_reader.specs.declared.peer.Peer.TheVariants.{Source};
ghost use Rattle.fwd_turns.specs.Keeping.{IsReadAt, IsReadFrom, IsReadTo, ReadsAndServes};

use crate::draining::held_in;
use crate::event_loop::ReadContext;
use crate::leaving::read_leaving;
use crate::loop_memory::LoopMemory;
use crate::visiting::{After, after_visit, serve_monitor, tell_end};
use fwd_history::Run;
use fwd_links::SharedFlags;
use fwd_monitors::{JournalEvent, MemoryFor, MonitorPeer, Observer};
use fwd_peers::SourcePeer;
use fwd_reader::{Connections, Peer, Ready};
use std::alloc::{AllocError, Global};
use std::sync::Wait;

/// The most bytes that a connection is read in a turn.
const PIECE: usize = 65_536;

/// Reads connections.
#[derive(Drop)]
pub(crate) struct Visitor {
    alloc: Global,
    /// What a visit reads: as many bytes as a connection may send in a turn.
    room: Vec<u8>,
    /// What is known of memory.
    pub memory: LoopMemory,
    /// Where it is told that a source is closed before it was read to its end.
    flags: SharedFlags,
}

impl Visitor {
    /// One that has read nothing. The only error is out of memory.
    pub fn new(alloc: Global, flags: &SharedFlags) -> Result<Visitor, AllocError> {
        let room = vec![in alloc; 0; PIECE]?;
        Ok(Visitor {
            alloc,
            room,
            memory: LoopMemory::new(flags.share()?),
            flags: flags.share()?,
        })
    }

    /// Reads the connection at a key, if one stands there, has what it asks for admitted, and says
    /// what becomes of it.
    pub fn read_at<J: Run, R: Wait, W: Observer>(
        &mut self,
        rt: &R,
        context: &mut ReadContext<'_, '_, J>,
        connections: &mut Connections<J>,
        ready: Ready,
        observer: &mut W,
    ) -> After
        ensures { IsReadAt ready.key context.old.router.now (connection_at connections.old) result
            context.new.router.now (connection_at connections.new) }
    {
        match connections.at(ready.key) {
            None => After::Rests,
            Some(connection) => self.read_peer(rt, context, connection, ready.to_end, observer),
        }
    }

    /// The same, where the connection is at hand.
    fn read_peer<J: Run, R: Wait, W: Observer>(
        &mut self,
        rt: &R,
        context: &mut ReadContext<'_, '_, J>,
        connection: &mut Peer<J>,
        to_end: bool,
        observer: &mut W,
    ) -> After
        ensures { (source : PeerShown) → connection.old ≡ Source source
            → IsReadTo context.old.router.now source result context.new.router.now
            connection.new }
    {
        match connection {
            Peer::Source(source) => self.read_source(rt, context, source, to_end, observer),
            Peer::Monitor(monitor) => self.read_monitor(rt, context, monitor, observer),
        }
    }

    /// The same of a monitor. It goes where memory is refused for its page, which an observer is
    /// told.
    fn read_monitor<J: Run, R: Wait, W: Observer>(
        &mut self,
        rt: &R,
        context: &mut ReadContext<'_, '_, J>,
        monitor: &mut MonitorPeer,
        observer: &mut W,
    ) -> After {
        match serve_monitor(rt, self.alloc, context, monitor, &mut self.room) {
            Ok(after) => after,
            Err(_) => {
                observer.observe(JournalEvent::Memory(MemoryFor::Monitor));
                After::Goes
            }
        }
    }

    /// The same of a source. As long as memory is refused none is read.
    fn read_source<J: Run, R: Wait, W: Observer>(
        &mut self,
        rt: &R,
        context: &mut ReadContext<'_, '_, J>,
        source: &mut SourcePeer<J>,
        to_end: bool,
        observer: &mut W,
    ) -> After
        ensures { IsReadFrom context.old.router.now source.old result context.new.router.now
            source.new }
    {
        if self.memory.is_refused(context.now) {
            self.memory.is_paused = true;
            return After::Again;
        }
        self.serve(rt, context, source, to_end, observer)
    }

    /// Reads a source, has what waits there admitted as far as may be, and writes what it is sent.
    /// An observer is told why the relay ends it, where it does.
    fn serve<J: Run, R: Wait, W: Observer>(
        &mut self,
        rt: &R,
        context: &mut ReadContext<'_, '_, J>,
        source: &mut SourcePeer<J>,
        to_end: bool,
        observer: &mut W,
    ) -> After
        ensures { ReadsAndServes context.old.router.now source.old result
            context.new.router.now source.new }
    {
        let now = context.now;
        let was_cut = source.leave_stage().is_cut();
        let again = read_leaving(source, self.alloc, &mut self.room, to_end, now);
        let waits = context.router.admit_all(rt, source, now);
        let is_cut = !was_cut && source.leave_stage().is_cut();
        let is_starved = tell_end(source, observer);
        if is_starved {
            let held = held_in(rt, context.parts.outputs);
            self.memory.refuse(now, held == 0);
        }
        self.note_cut(is_cut || is_starved);
        after_visit(source, again, waits, to_end)
    }

    /// A source was closed before it was read to its end, or not: it is counted where the relay was
    /// asked to stop.
    fn note_cut(&self, is_cut: bool) {
        if is_cut && self.flags.is_draining() {
            self.flags.cut();
        }
    }
}
