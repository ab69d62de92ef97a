//! What a session hears counts.

ghost use Rattle.std.specs.Prelude.{
  ◌≡◌,
  ◌≢◌,
  None,
  Some,
  true,
  false,
  [],
  ◌∷◌,
  ◌++◌,
  if◌then◌else◌,
  map,
  remove,
  slice_get,
  is_some,
  unwrap_or,
  IfOk,
  IsOk,
  OnOk,
  OnErr,
};
ghost use Rattle.std.specs.Arc.{arc_value};
ghost use Rattle.fwd_session.specs.Hearing.{
  shown,
  replies_of,
  IsOver,
  IsAckOf,
  AreAcksOf,
};
ghost use Rattle.fwd_chunks.specs.History.{CarriedChunk};
ghost use Rattle.fwd_session.specs.Flights.{live_pending};
ghost use Rattle.fwd_session.specs.Said.{AsksForNothing, BeginsBroken, left_by, accepted_by, out_of, reply_stream, rest_of};
ghost use Rattle.fwd_session.specs.History.{is_done, told_of};
ghost use Rattle.fwd_session.specs.Live.{
  falls_with,
  live_chunks,
  live_room,
  live_says,
  live_piece_told,
  live_piece_out,
  said_behind,
  session_takes,
  session_hears,
};

use crate::fault::SessionFault;
use crate::handshake::Handshake;
use crate::hearing::{Ack, Hearing, Peer, hear};
use crate::limits::REPLY_LIMITS;
use crate::session::Session;
use crate::told::{SessionHeard, SessionTold};
use crate::unacked::Unacked;
use fwd_base::Bytes;
use fwd_msgpack::{Fed, Scanner};
use std::alloc::{AllocError, Global};

/// What is told of what was heard, where the handshake was this far before it.
fn told_of(before: &Handshake, hearing: &Hearing<'_>) -> SessionHeard
    ensures { result ≡ told_of before.now (shown before.now hearing.now) }
{
    if let Some(fault) = hearing.fault {
        return SessionHeard::Fault(fault);
    }
    if !hearing.acks.is_empty() {
        return SessionHeard::Acked;
    }
    match &hearing.handshake {
        Some(next) if next.is_done() && !before.is_done() => SessionHeard::Ready,
        _ => SessionHeard::Quiet,
    }
}

/// Whether the first value of some bytes, with others behind them, is none within the limits.
fn begins_broken(front: &[u8], behind: &[u8]) -> bool
    ensures broken { result ≡ true → BeginsBroken (front.now ++ behind.now) }
    ensures sound { BeginsBroken (front.now ++ behind.now) → result ≡ true }
{
    let mut scanner = Scanner::new(REPLY_LIMITS);
    match scanner.feed(front) {
        Fed::More => matches!(scanner.feed(behind), Fed::Bad(_)),
        Fed::End(_) => false,
        Fed::Bad(_) => true,
    }
}

impl Session {
    /// What these bytes say, of which those of the unfinished value are the first.
    fn hears<'a>(&self, alloc: Global, bytes: &'a [u8]) -> Result<Hearing<'a>, AllocError>
        ensures said { IfOk result (λ hearing. shown self.now.handshake hearing
            ≡ said_behind self.now bytes.now) }
        ensures acks { IfOk result (λ hearing.
            AreAcksOf self.now.setup.server (live_pending self.now.carried) hearing.acks.items) }
        ensures rest { IfOk result (λ hearing. hearing.fault ≡ None
            → hearing.rest.now ≡ rest_of (reply_stream bytes.now)) }
        ensures over { IfOk result (λ hearing.
            is_done self.now.handshake ≡ true → IsOver hearing) }
        ensures sure { is_done self.now.handshake ≡ true →
            (said_behind self.now bytes.now).replies ≡ [] → IsOk result }
        ensures quiet { AsksForNothing (said_behind self.now bytes.now) → IsOk result }
    {
        let peer = Peer {
            server: self.server,
            login: &self.login,
            salt: self.salt.as_salt(),
        };
        let handed_on = self.carried.len() - self.frames.count();
        let unacked = Unacked::of(self.carried.chunks(), handed_on);
        hear(alloc, &peer, &self.handshake, unacked, bytes)
    }

    /// The bytes of the unfinished value.
    fn rest(&self) -> &[u8]
        ensures { result.now ≡ self.now.rest }
    {
        &self.rest
    }

    /// The bytes of the unfinished value, and then these.
    fn joined(&self, alloc: Global, bytes: &[u8]) -> Result<Vec<u8>, AllocError>
        ensures { IfOk result (λ all. all.items ≡ self.now.rest ++ bytes.now) }
    {
        let mut all = Vec::from_slice(alloc, &self.rest)?;
        all.extend_from_slice(bytes)?;
        Ok(all)
    }

    /// What was heard counts. On an error nothing has changed. A fault is told before memory is
    /// taken for what it drops.
    #[tactic(auto, unfolding(crate::specs::Live::session_takes))]
    fn take_in(&mut self, alloc: Global, hearing: Hearing<'_>) -> Result<SessionTold, AllocError>
        requires up { self.old.down ≡ false }
        requires acks { AreAcksOf self.old.setup.server (live_pending self.old.carried)
            hearing.acks.items }
        requires over { is_done self.old.handshake ≡ true → IsOver hearing }
        ensures heard { IfOk result (λ told. told.heard
            ≡ told_of self.old.handshake (shown self.old.handshake hearing.entry)) }
        ensures out { IfOk result (λ told. told.out
            ≡ out_of (shown self.old.handshake hearing.entry)) }
        ensures next { OnOk result (self.new ≡ session_takes self.old
            (shown self.old.handshake hearing.entry) hearing.entry.rest.now) }
        ensures sure { hearing.entry.fault ≢ None → IsOk result }
        ensures err { OnErr result (self.new ≡ self.old) }
    {
        let heard = told_of(&self.handshake, &hearing);
        let Hearing {
            handshake,
            out,
            acks,
            fault,
            rest,
        } = hearing;
        let told = match fault {
            None => self.put_by(alloc, out, rest)?,
            Some(_) => Bytes::new(alloc),
        };
        self.greet(handshake);
        self.accept_all(acks);
        self.fall_for(fault);
        Ok(SessionTold { heard, out: told })
    }

    /// Bytes wait to be sent, and bytes of an unfinished value are left. Answers the former again.
    /// On an error nothing has changed.
    fn put_by(&mut self, alloc: Global, out: Vec<u8>, rest: &[u8]) -> Result<Bytes, AllocError>
        requires { is_done self.old.handshake ≡ true → out.items ≡ [] }
        ensures told { IfOk result (λ told. told ≡ out.items) }
        ensures next { OnOk result (self.new ≡ record self.old {
          waiting = self.old.waiting ++ out.items;
          rest = rest.now;
        }) }
        ensures err { OnErr result (self.new ≡ self.old) }
    {
        let rest = Vec::from_slice(alloc, rest)?;
        let told = Bytes::from_slice(alloc, &out)?;
        self.greeting.append(out)?;
        self.rest = rest;
        Ok(told)
    }

    /// The handshake went on, if this says how far.
    fn greet(&mut self, next: Option<Handshake>)
        requires { is_done self.old.handshake ≡ true → next ≡ None }
        ensures { self.new ≡ record self.old { handshake = unwrap_or next self.old.handshake } }
    {
        if let Some(next) = next {
            self.handshake = next;
        }
    }

    /// A chunk was acknowledged.
    fn accept(&mut self, ack: Ack)
        requires { IsAckOf self.old.setup.server (live_pending self.old.carried) ack }
        ensures { (chunk : CarriedChunk)
            × (slice_get (live_chunks self.old.carried) ack.place ≡ Some chunk)
            × (self.new ≡ record self.old {
              carried = remove self.old.carried ack.place;
              accepted = self.old.accepted
                  ++ record { chunk = chunk; reply = (arc_value ack.acked).reply } ∷ [];
            }) }
    {
        let chunk = self.carried.remove(ack.place);
        self.accepted.push_back_reserved((ack.acked, chunk));
    }

    /// Chunks were acknowledged, one after the other.
    fn accept_all(&mut self, acks: Vec<Ack>)
        requires { AreAcksOf self.old.setup.server (live_pending self.old.carried) acks.items }
        ensures { self.new ≡ record self.old {
          carried = left_by (λ l. l.chunk.name) (replies_of acks.items) self.old.carried;
          accepted = self.old.accepted
              ++ accepted_by (replies_of acks.items) (live_chunks self.old.carried);
        } }
    {
        for ack in acks {
            self.accept(ack);
        }
    }

    /// A fault puts the session down, if there is one. Nothing waits then, not even the PING for a
    /// HELO in the same piece.
    fn fall_for(&mut self, fault: Option<SessionFault>)
        requires { self.old.down ≡ false }
        ensures { self.new ≡ record self.old {
          waiting = if is_some fault then [] else self.old.waiting;
          rest = if is_some fault then [] else self.old.rest;
          carried = map (falls_with (is_some fault)) self.old.carried;
          down = is_some fault;
        } }
    {
        if fault.is_some() {
            self.fall();
        }
    }

    /// Bytes come behind those of an unfinished value. On an error nothing has changed.
    fn hears_behind(&mut self, alloc: Global, bytes: &[u8]) -> Result<SessionTold, AllocError>
        requires up { self.old.down ≡ false }
        ensures heard { IfOk result (λ told. told.heard ≡ live_piece_told self.old bytes.now) }
        ensures out { IfOk result (λ told. told.out ≡ live_piece_out self.old bytes.now) }
        ensures next { OnOk result (self.new ≡ session_hears self.old bytes.now) }
        ensures broken { BeginsBroken (self.old.rest ++ bytes.now) → IsOk result }
        ensures err { OnErr result (self.new ≡ self.old) }
    {
        let Ok(all) = self.joined(alloc, bytes) else {
            return self.hears_a_fault(alloc, bytes);
        };
        let hearing = self.hears(alloc, &all)?;
        self.take_in(alloc, hearing)
    }

    /// Bytes come for which there is no memory. A fault in the unfinished value that they go on
    /// with needs none. On an error nothing has changed.
    fn hears_a_fault(&mut self, alloc: Global, bytes: &[u8]) -> Result<SessionTold, AllocError>
        requires up { self.old.down ≡ false }
        ensures heard { IfOk result (λ told. told.heard ≡ live_piece_told self.old bytes.now) }
        ensures out { IfOk result (λ told. told.out ≡ live_piece_out self.old bytes.now) }
        ensures next { OnOk result (self.new ≡ session_hears self.old bytes.now) }
        ensures broken { BeginsBroken (self.old.rest ++ bytes.now) → IsOk result }
        ensures err { OnErr result (self.new ≡ self.old) }
    {
        if !begins_broken(self.rest(), bytes) {
            return Err(AllocError);
        }
        self.fall();
        Ok(SessionTold {
            heard: SessionHeard::Fault(SessionFault::BadReply),
            out: Bytes::new(alloc),
        })
    }

    /// Bytes are read from the link. Once the session is down each further piece is refused. The
    /// only error is out of memory, and then nothing has changed. A fault of MessagePack in the
    /// value that was unfinished, or in the first one of the piece, is never answered as out of
    /// memory; nor is any other where nothing was unfinished, and nothing before it is
    /// acknowledged or to be answered.
    pub fn heard(&mut self, alloc: Global, bytes: &[u8]) -> Result<SessionTold, AllocError>
        ensures heard { IfOk result (λ told. told.heard ≡ live_piece_told self.old bytes.now) }
        ensures out { IfOk result (λ told. told.out ≡ live_piece_out self.old bytes.now) }
        ensures next { OnOk result (self.new ≡ session_hears self.old bytes.now) }
        ensures room { live_room self.new ≡ live_room self.old }
        ensures down { self.old.down ≡ true → IsOk result }
        ensures broken { BeginsBroken (self.old.rest ++ bytes.now) → IsOk result }
        // Where a fault asks for nothing, it is told.
        ensures fault { is_done self.old.handshake ≡ true → self.old.rest ≡ [] →
            (live_says self.old bytes.now).fault ≢ None →
            (live_says self.old bytes.now).replies ≡ [] → IsOk result }
        ensures quiet { self.old.rest ≡ [] → (live_says self.old bytes.now).fault ≢ None →
            AsksForNothing (live_says self.old bytes.now) → IsOk result }
        ensures err { OnErr result (self.new ≡ self.old) }
    {
        if self.is_down() {
            return Ok(SessionTold {
                heard: SessionHeard::NotUp,
                out: Bytes::new(alloc),
            });
        }
        if self.rest().is_empty() {
            let hearing = self.hears(alloc, bytes)?;
            return self.take_in(alloc, hearing);
        }
        self.hears_behind(alloc, bytes)
    }
}
