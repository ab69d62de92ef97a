//! A source's connection over its stream. What waits to be sent to it changes only by what it sent,
//! by receipts of its own requests, and by what its stream took.

ghost use Rattle.std.specs.Prelude.{
  ◌≡◌,
  ◌≢◌,
  ◌+◌,
  ◌-◌,
  ◌<◌,
  ◌≤◌,
  ◌⊎◌,
  ◌&&◌,
  [],
  true,
  false,
  drop,
  length,
  nat_lt,
  take,
  None,
  Some,
};
ghost use Rattle.fwd_peers.specs.Streams.{IsReading};
ghost use Rattle.fwd_peers.specs.Peers as peers;

mod asking;

use crate::close_reason::{CloseReason, PeerEnd};
use crate::leave_stage::LeaveStage;
use crate::limits::{GREETING, SHORT_REQUEST, SMALL_PIECE, UNSENT};
use crate::peer_address::PeerAddress;
use crate::peer_socket::PeerSocket;
use crate::peer_state::PeerState;
use crate::peer_stream::{PeerStream, Stream, Visit};
use crate::waiting_place::WaitingPlace;
use fwd_book::AdmitRefusal;
use fwd_history::Run;
use fwd_match::Routes;
use fwd_output::{PagedSource, UnsentRequests};
use fwd_source::{Piece, SourceFault};
use std::alloc::Global;
use std::marker::Model;
use std::net::Shutdown;

/// A source's connection: its stream, and what it sent and is sent.
#[derive(Drop)]
pub struct SourcePeer<J: Run> {
    /// The source's own.
    id: u64,
    pub stream: PeerStream,
    /// Whose it is.
    peer: PeerAddress,
    source: PagedSource<J>,
    stage: PeerState,
    /// Why the relay closes it, until that is told.
    why: Option<PeerEnd>,
    /// So many bytes of acknowledgements were promised room.
    promised: usize,
    /// It was not read when it was visited last, since too many bytes wait to be sent to it.
    is_held: bool,
    /// So many bytes its requests take beside their entries that it gave, and of which it was not
    /// told yet.
    owed: usize,
    /// Its requests are short, by those that it was read last, or none is known yet.
    is_dense: bool,
    /// When it sent something last, or came, in milliseconds.
    heard: u64,
    /// The number of the request that it gave last: they rise from 1.
    given: u64,
    /// So many of those that it gave were answered.
    answered: u64,
    /// Where its first request waits, if it does.
    place: Option<WaitingPlace>,
    /// How far it has come, where the relay was asked to stop.
    leave: LeaveStage,
}

impl<J: Run> Model for SourcePeer<J> {
    ghost use Rattle.std.specs.Prelude.{◌≡◌};
    ghost use Rattle.fwd_peers.specs.Peers.{PeerShown};

    ghost Value = { PeerShown };

    ghost view = { λ p. record {
      id = p.id;
      stage = p.stage;
      why = p.why;
      held = p.is_held;
      live = p.source.live;
      promised = p.promised;
      room = p.source.room;
      reads = p.stream.reads;
      writes = p.stream.writes;
      heard = p.heard;
      given = p.given;
      answered = p.answered;
      owed = p.owed;
      refused = p.source.refused;
      leave = p.leave;
    } };

    ghost invariant = { λ p. p.id ≡ p.source.live.setup.conn };
}

impl<J: Run> SourcePeer<J> {
    /// A source's connection over its stream, at the address that it comes from, which came at a
    /// moment (milliseconds).
    pub fn new(
        socket: PeerSocket,
        peer: PeerAddress,
        source: PagedSource<J>,
        now: u64,
    ) -> SourcePeer<J>
        ensures { result ≡ record {
          id = source.live.setup.conn;
          stage = PeerState.Open;
          why = None;
          held = false;
          live = source.live;
          promised = 0;
          room = source.room;
          reads = [];
          writes = [];
          heard = now;
          given = 0;
          answered = 0;
          owed = 0;
          refused = source.refused;
          leave = LeaveStage.Stays;
        } }
    {
        SourcePeer {
            id: source.id(),
            stream: PeerStream::new(socket),
            peer,
            source,
            stage: PeerState::Open,
            why: None,
            promised: 0,
            is_held: false,
            owed: 0,
            is_dense: true,
            heard: now,
            given: 0,
            answered: 0,
            place: None,
            leave: LeaveStage::Stays,
        }
    }

    /// Its id: the one of its source. It is kept here, where it is read often.
    pub fn id(&self) -> u64
        ensures value { result ≡ self.now.id }
        ensures own { peers.HasOwnId self.now }
    {
        self.id
    }

    /// Reads what is there at a moment (milliseconds), as far as the room goes, and to its end
    /// where the other side is said to have closed; and says whether there may be more. A source
    /// that does not take what is sent to it is not read.
    pub fn hear(&mut self, alloc: Global, room: &mut [u8], to_end: bool, now: u64) -> bool
        ensures closed { self.old.stage ≢ PeerState.Open
            → (self.new ≡ self.old) × (result ≡ false) }
        ensures held { self.old.stage ≡ PeerState.Open → UNSENT ≤ length self.old.live.unsent
            → (self.new ≡ record self.old { held = true }) × (result ≡ false) }
        ensures read { self.old.stage ≡ PeerState.Open → length self.old.live.unsent < UNSENT
            → peers.Reads now to_end (length room.new) self.old result self.new }
    {
        if self.stage != PeerState::Open {
            return false;
        }
        self.is_held = self.source.now().out().len() >= UNSENT;
        if self.is_held {
            return false;
        }
        let (count, visit) = self.read(room, to_end);
        self.take_in(alloc, &room[..count], now);
        self.visited(visit);
        visit.is_full()
    }

    /// Its stream gives what it has, as far as the room goes: how many bytes there are, at the
    /// front of the room, and how the visit ended.
    fn read(&mut self, room: &mut [u8], to_end: bool) -> (usize, Visit)
        ensures within { result.0 ≤ length room.new }
        ensures visit { IsReading to_end
            (length room.new)
            self.old.reads
            (take result.0 room.new)
            result.1
            self.new.reads }
        ensures rest { self.new ≡ record self.old { reads = self.new.reads } }
    {
        self.stream.fill(room, to_end)
    }

    /// Takes in bytes, if there are any, at a moment (milliseconds).
    fn take_in(&mut self, alloc: Global, bytes: &[u8], now: u64)
        ensures taken { peers.TakesIn self.old
            bytes.now
            self.new.live
            self.new.stage
            self.new.why }
        ensures others { self.new ≡ record self.old {
          stage = self.new.stage;
          why = self.new.why;
          live = self.new.live;
          room = self.new.room;
          heard = peers.heard_at now bytes.now self.old.heard;
        } }
    {
        if bytes.is_empty() {
            return;
        }
        self.heard = now;
        let told = self.source.piece(alloc, bytes);
        let shortest = self.source.now().waiting().saturating_mul(SHORT_REQUEST);
        self.is_dense = bytes.len() < shortest;
        match told {
            Ok(piece) => match piece {
                Piece::Waiting(_) => {}
                Piece::Fault(fault) => self.linger(fault),
                Piece::Closed => self.linger(SourceFault::Closed),
            },
            Err(_) => self.starve(),
        }
    }

    /// Looks what its stream has, as far as the room goes: so many bytes, at the front of the room.
    /// They stay there.
    pub fn look(&self, room: &mut [u8]) -> usize
        ensures { result ≤ length room.new }
    {
        self.stream.socket.peek(room).unwrap_or(0)
    }

    /// Takes in what its stream was seen to have behind so many bytes that were taken before, if it
    /// is open, at a moment (milliseconds). The stream keeps them.
    pub fn hear_ahead(&mut self, alloc: Global, seen: &[u8], taken: usize, now: u64)
        ensures taken { self.old.stage ≡ PeerState.Open → peers.TakesIn self.old
            (drop taken seen.now) self.new.live self.new.stage self.new.why }
        ensures closed { self.old.stage ≢ PeerState.Open → self.new ≡ self.old }
        ensures rest { self.new ≡ record self.old {
          stage = self.new.stage;
          why = self.new.why;
          live = self.new.live;
          room = self.new.room;
          heard = self.new.heard;
        } }
    {
        if self.stage == PeerState::Open {
            self.take_in(alloc, seen.get(taken..).unwrap_or(&[]), now);
        }
    }

    /// Its stream drops the first bytes that it has, which were taken in before, as many as the room
    /// has: how many it dropped. Where it ended, the connection is over.
    pub fn drop_taken(&mut self, room: &mut [u8]) -> usize
        ensures within { result ≤ length room.new }
        ensures rest { self.new ≡ record self.old {
          stage = self.new.stage;
          reads = self.new.reads;
        } }
    {
        let (count, visit) = self.read(room, true);
        self.visited(visit);
        count
    }

    /// It had a fault: it is read no more.
    fn linger(&mut self, fault: SourceFault)
        ensures { self.new ≡ record self.old {
          stage = PeerState.Lingering;
          why = Some (PeerEnd.Closed (CloseReason.Fault fault));
        } }
    {
        self.stage = PeerState::Lingering;
        self.why = Some(PeerEnd::Closed(CloseReason::Fault(fault)));
    }

    /// It is over when out of memory.
    fn starve(&mut self)
        ensures { self.new ≡ record self.old {
          stage = PeerState.Over;
          why = Some PeerEnd.Memory;
        } }
    {
        self.end();
        self.why = Some(PeerEnd::Memory);
    }

    /// It is over, since a request of it is not admitted.
    pub fn refuse(&mut self, why: CloseReason)
        ensures { self.new ≡ record self.old {
          stage = PeerState.Over;
          why = Some (peers.end_by why);
        } }
    {
        match why {
            CloseReason::Refused(_, AdmitRefusal::Memory) => self.starve(),
            why => {
                self.end();
                self.why = Some(PeerEnd::Closed(why));
            }
        }
    }

    /// Why it ended by the relay's doing, where it did and that was not told yet.
    pub fn why_ended(&mut self) -> Option<PeerEnd>
        ensures told { result ≡ self.old.why }
        ensures once { self.new ≡ record self.old { why = None } }
    {
        self.why.take()
    }

    /// Where it comes from.
    pub fn peer(&self) -> PeerAddress {
        self.peer
    }

    /// Whether it is still to log in: a shared key is set, and its PING has not come yet.
    pub fn awaits_login(&self) -> bool
        ensures { result ≡ self.now.live.awaits }
    {
        self.source.now().awaits_login()
    }

    /// Whether it is still to log in, and more bytes of it wait than a PING may have.
    pub fn is_too_long(&self) -> bool
        ensures { result ≡ peers.is_too_long self.now }
    {
        self.source.now().awaits_login() && self.source.now().unfinished() > GREETING
    }

    /// How many bytes it is to be read in a visit, of so many at most: few where its requests are
    /// short, and before it has logged in as many as show that its PING is too long.
    pub fn portion(&self, most: usize) -> usize
        ensures most { result ≤ most }
        ensures some { peers.is_too_long self.now ≡ false → 0 < most → 0 < result }
    {
        let portion = if self.source.now().awaits_login() {
            (GREETING + 1).saturating_sub(self.source.now().unfinished())
        } else if self.is_dense {
            SMALL_PIECE
        } else {
            most
        };
        portion.min(most)
    }

    /// How many bytes its requests take beside their entries of which it was not told yet.
    pub fn owed(&self) -> usize
        ensures { result ≡ self.now.owed }
    {
        self.owed
    }

    /// How many bytes the entries have of the first request that waits.
    pub fn asked_bytes(&self) -> usize
        ensures { result ≡ peers.asked_bytes self.now }
    {
        match self.source.now().peek() {
            None => 0,
            Some((_, batch)) => batch.entries().len(),
        }
    }

    /// Whether a request waits, and the first that does asks for an acknowledgement.
    pub fn asks(&self) -> bool
        ensures { result ≡ peers.asks self.now }
    {
        match self.source.now().peek() {
            None => false,
            Some((_, batch)) => batch.chunk().is_some(),
        }
    }

    /// Where its first request waits, if it does: the output has noted that.
    pub fn waiting_place(&self) -> Option<WaitingPlace> {
        self.place
    }

    /// Its first request waits there from now on, or nowhere.
    pub fn wait_at(&mut self, place: Option<WaitingPlace>)
        ensures { self.new ≡ self.old }
    {
        self.place = place;
    }

    /// How far it has come, where the relay was asked to stop.
    pub fn leave_stage(&self) -> LeaveStage
        ensures { result ≡ self.now.leave }
    {
        self.leave
    }

    /// It has come so far from now on.
    pub fn leave_by(&mut self, stage: LeaveStage)
        ensures { self.new ≡ record self.old { leave = stage } }
    {
        self.leave = stage;
    }

    /// Its other side is told that no more comes, if the relay owes it nothing: then it has come so
    /// far. It says whether it was told.
    pub fn shut(&mut self, stage: LeaveStage) -> bool
        ensures told { result ≡ peers.is_owed_nothing self.old }
        ensures shut { result ≡ true → self.new ≡ record self.old { leave = stage } }
        ensures owed { result ≡ false → self.new ≡ self.old }
    {
        if !self.is_owed_nothing() {
            return false;
        }
        let _ = self.stream.socket.shutdown(Shutdown::Write);
        self.leave = stage;
        true
    }

    /// The relay ends, and none of its requests that wait is admitted any more. What they had.
    pub fn give_up(&mut self) -> UnsentRequests
        ensures { self.new.refused ≡ true }
    {
        self.source.give_up()
    }

    /// Whether the relay owes it nothing: no acknowledgement is promised, no byte waits to be sent
    /// to it, and no request of it waits to be admitted.
    pub fn is_owed_nothing(&self) -> bool
        ensures { result ≡ peers.is_owed_nothing self.now }
    {
        self.promised == 0 && self.source.now().out().is_empty() && self.source.now().waiting() == 0
    }

    /// How many requests wait to be admitted.
    pub fn waiting(&self) -> usize
        ensures { result ≡ length self.now.live.waiting }
    {
        self.source.now().waiting()
    }

    /// The output that the first request that waits goes to, if one waits, and one takes it.
    pub fn route(&self, routes: &Routes) -> Option<u16>
        ensures { result ≡ peers.first_route routes.now self.now }
    {
        let (_, batch) = self.source.now().peek()?;
        routes.first(batch.tag())
    }

    /// The tag of the first request that waits, if one waits.
    pub fn first_tag(&self) -> Option<&[u8]> {
        let (_, batch) = self.source.now().peek()?;
        Some(batch.tag())
    }

    /// The connection is over, once what waits was written as far as its stream takes it.
    pub fn end(&mut self)
        ensures { self.new ≡ record self.old { stage = PeerState.Over } }
    {
        self.stage = PeerState::Over;
    }

    /// When it sent something last, or came, in milliseconds.
    pub fn heard(&self) -> u64
        ensures { result ≡ self.now.heard }
    {
        self.heard
    }

    /// Since when it has been silent (milliseconds), where neither it nor the relay owes the other
    /// anything: it is open and has logged in, no request of it waits or is under way, no byte of
    /// an unfinished value of it is held, and no byte waits to be sent to it.
    pub fn silent_since(&self) -> Option<u64>
        ensures { result ≡ peers.silent_since self.now }
    {
        let is_quiet = self.stage == PeerState::Open
            && !self.source.now().awaits_login()
            && self.source.now().waiting() == 0
            && self.given <= self.answered
            && self.source.now().unfinished() == 0
            && self.source.now().out().is_empty();
        if is_quiet { Some(self.heard) } else { None }
    }

    /// Whether nothing came of it but nil: it was let in, gave no request, and holds no byte of an
    /// unfinished value.
    pub fn is_silent(&self) -> bool
        ensures { result ≡ peers.is_silent self.now }
    {
        self.source.now().unfinished() == 0 && self.has_given_none()
    }

    /// Whether it was let in, and gave no request, also none that waits.
    fn has_given_none(&self) -> bool
        ensures { result ≡ peers.has_given_none self.now }
    {
        !self.source.now().awaits_login() && self.given == 0 && self.source.now().waiting() == 0
    }

    /// Whether it was not read, and may be now.
    pub fn is_free(&self) -> bool
        ensures { result ≡ peers.is_free self.now }
    {
        self.is_held && self.source.now().out().len() < UNSENT
    }

    /// Writes what waits as far as the stream takes it, and says whether the connection stands.
    pub fn write(&mut self) -> bool
        ensures { peers.Writes self.old result self.new }
    {
        let visit = self.send();
        self.visited(visit);
        self.stands()
    }

    /// Its stream takes of what waits as much as it does, and the visit ended so.
    fn send(&mut self) -> Visit
        ensures { peers.Sends self.old result self.new }
    {
        let (count, visit) = self.stream.send(self.source.now().out());
        self.source.drained(count);
        visit
    }

    /// A visit to its stream ended so: it is over where the stream ended.
    fn visited(&mut self, visit: Visit)
        ensures { self.new ≡ record self.old {
          stage = peers.stage_visited self.old.stage visit;
        } }
    {
        match visit {
            Visit::Waits | Visit::Full => {}
            Visit::Ended => self.end(),
        }
    }

    /// Whether it stands.
    pub fn stands(&self) -> bool
        ensures { result ≡ peers.stands self.now.stage self.now.live.unsent }
    {
        match self.stage {
            PeerState::Open => true,
            PeerState::Lingering => !self.source.now().out().is_empty(),
            PeerState::Over => false,
        }
    }
}
