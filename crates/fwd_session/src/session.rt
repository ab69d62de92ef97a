//! A session, from its first byte to its end. A session knows its chunks by their names alone, and
//! neither the run nor the output.

ghost use Rattle.std.specs.Prelude.{
  ◌≡◌,
  ◌≤◌,
  ◌<◌,
  Some,
  All,
  Ok,
  true,
  false,
  [],
  ◌++◌,
  ◌+◌,
  nat_le,
  length,
  map,
  take,
  drop,
  min,
  is_some,
  IfOk,
  IfErr,
  IfSome,
  IsErr,
  OnOk,
  OnErr,
};
ghost use Rattle.std.specs.Option.{option_map};
ghost use Rattle.std.specs.List.{concat};
ghost use Rattle.std.specs.Arc.{arc_value};
ghost use Rattle.fwd_chunks.specs.declared.write_slices.TheConstants.{PIECE_LIMIT};
ghost use Rattle.fwd_chunks.specs.Lending.{AreSome};
ghost use Rattle.fwd_session.specs.declared.limits.TheConstants.{WINDOW_LIMIT};
ghost use Rattle.fwd_session.specs.ServerAcks.{reply_in, IsBacked};
ghost use Rattle.fwd_session.specs.History.{is_done, is_first_over, is_overdue, first_in};
ghost use Rattle.fwd_session.specs.Live.{
  falls_with,
  live_is_ready,
  live_room,
  live_has_chunk,
  live_chunks,
  live_is_late,
  live_acked,
  session_begins,
  session_loads,
  session_sends,
  session_unloads,
  session_looks,
};

use crate::acked::Acked;
use crate::fault::NotUp;
use crate::handshake::Handshake;
use crate::in_flight::InFlight;
use crate::limits::WINDOW_LIMIT;
use crate::load::{LoadError, LoadFailed};
use crate::outbox::Outbox;
use crate::salt::OwnedSalt;
use crate::terms::AckTerms;
use crate::written::Written;
use fwd_chunks::{Carried, WriteSlices};
use fwd_handshake::Login;
use std::alloc::{AllocFailed, Global};
use std::collections::VecDeque;
use std::marker::Model;
use std::sync::Arc;

/// A session with one server. Its moments are in milliseconds. It may have chunks, and so it must
/// be ended.
pub struct Session {
    pub(crate) server: u16,
    pub(crate) login: Arc<Login>,
    pub(crate) salt: OwnedSalt,
    pub(crate) ack_wait: u64,
    pub(crate) window: u8,
    pub(crate) start: u64,
    pub(crate) handshake: Handshake,
    /// What is sent of the handshake, before any frame.
    pub(crate) greeting: Written,
    /// What is to be sent of the frames of the chunks that were loaded last.
    pub(crate) frames: Outbox,
    pub(crate) rest: Vec<u8>,
    pub(crate) carried: InFlight,
    /// The chunks that are acknowledged, in the order of their acceptance.
    pub(crate) accepted: VecDeque<(Arc<Acked>, Carried)>,
    pub(crate) has_loaded: bool,
    pub(crate) down: bool,
    pub(crate) moment: u64,
}

impl Model for Session {
    ghost use Rattle.std.specs.Arc.{arc_value};
    ghost use Rattle.std.specs.List.{concat};
    ghost use Rattle.std.specs.Prelude.{◌++◌, length, map};
    ghost use Rattle.std.specs.VecDeque.{deque_capacity};
    ghost use Rattle.fwd_session.specs.Flights.{accepted_of, loaded_of, IsKept};
    ghost use Rattle.fwd_session.specs.Live.{LiveSession};

    ghost Value = { LiveSession };

    ghost view = { λ s. record {
      setup = record {
        server = s.server;
        login = arc_value s.login;
        salt = s.salt;
        ack_wait = s.ack_wait;
        window = s.window;
        start = s.start;
      };
      handshake = s.handshake;
      waiting = s.greeting ++ concat s.frames;
      rest = s.rest.items;
      carried = loaded_of (length s.greeting) s.frames s.carried;
      accepted = accepted_of (map (λ p. (arc_value p.0, p.1)) s.accepted.items);
      has_loaded = s.has_loaded;
      down = s.down;
      moment = s.moment;
    } };

    ghost invariant = { λ s. IsKept s.server s.window s.handshake s.frames s.carried
        (map (λ p. (arc_value p.0, p.1)) s.accepted.items) (deque_capacity s.accepted) };
}

impl Session {
    /// A session that begins: where the login has a shared key, HELO is awaited. It has room for
    /// its chunks from now on. The only error is out of memory, and then the share of the login
    /// and the salt come back.
    pub fn up(
        alloc: Global,
        server: u16,
        login: Arc<Login>,
        salt: OwnedSalt,
        terms: AckTerms,
        now: u64,
    ) -> Result<Session, AllocFailed<(Arc<Login>, OwnedSalt)>>
        ensures ok { IfOk result (λ session. session ≡ session_begins (record {
          server = server;
          login = arc_value login;
          salt = salt;
          ack_wait = terms.ack_wait;
          window = terms.window;
          start = now;
        })) }
        ensures err { IfErr result (λ failed. failed.value ≡ (login, salt)) }
    {
        let Ok(accepted) = VecDeque::with_capacity(alloc, WINDOW_LIMIT) else {
            return Err(AllocFailed {
                value: (login, salt),
            });
        };
        let Ok(carried) = InFlight::new(alloc) else {
            accepted.destroy_empty();
            return Err(AllocFailed {
                value: (login, salt),
            });
        };
        let handshake = Handshake::first(&login);
        Ok(Session {
            server,
            login,
            salt,
            ack_wait: terms.ack_wait,
            window: terms.window,
            start: now,
            handshake,
            greeting: Written::new(alloc),
            frames: Outbox::new(alloc),
            rest: Vec::new(alloc),
            carried,
            accepted,
            has_loaded: false,
            down: false,
            moment: now,
        })
    }

    /// Whether a chunk may be loaded where there is `room` for it: the handshake is done, no fault
    /// and no lateness put the session down, and its link may carry one more chunk.
    pub fn is_ready(&self) -> bool
        ensures { result ≡ live_is_ready self.now }
    {
        !self.down && self.handshake.is_free_for(self.has_loaded)
    }

    /// How many chunks more it may have: its window without those that are not taken out.
    pub fn room(&self) -> usize
        ensures { result ≡ live_room self.now }
    {
        usize::from(self.window) - (self.carried.len() + self.accepted.len())
    }

    /// Whether the handshake is done. Unlike `is_ready`, this holds where a link without keepalive
    /// has carried its chunk, and once the session is down.
    pub fn is_greeted(&self) -> bool
        ensures { result ≡ is_done self.now.handshake }
    {
        self.handshake.is_done()
    }

    /// Whether a fault or lateness put the session down.
    pub fn is_down(&self) -> bool
        ensures { result ≡ self.now.down }
    {
        self.down
    }

    /// Whether the session has a chunk, acknowledged or not, that was not taken out.
    pub fn has_chunk(&self) -> bool
        ensures { result ≡ live_has_chunk self.now }
    {
        self.carried.len() + self.accepted.len() > 0
    }

    /// Whether an acknowledgement was accepted whose chunk can be taken out.
    pub fn is_acked(&self) -> bool
        ensures { result ≡ is_some (live_acked self.now) }
    {
        !self.accepted.is_empty()
    }

    /// The server, by its place in the output's list.
    pub fn server(&self) -> u16
        ensures { result ≡ self.now.setup.server }
    {
        self.server
    }

    /// The first of the bytes that wait to be sent, as far as they lie in one piece: none only
    /// where none waits, and all of them until the handshake is done, and wherever no frame waits.
    pub fn out(&self) -> &[u8]
        ensures front { result.now ≡ take (length result.now) self.now.waiting }
        ensures some { 0 < length self.now.waiting → 0 < length result.now }
        ensures whole { is_done self.now.handshake ≡ false → result.now ≡ self.now.waiting }
        ensures greeting { All (λ l. l.left ≡ 0) self.now.carried
            → result.now ≡ self.now.waiting }
    {
        self.first_piece()
    }

    /// The bytes of `out`: the greeting's, or the first frame's where no greeting waits.
    fn first_piece(&self) -> &[u8]
        ensures front { result.now ≡ take (length result.now) self.now.waiting }
        ensures some { 0 < length self.now.waiting → 0 < length result.now }
        ensures whole { is_done self.now.handshake ≡ false → result.now ≡ self.now.waiting }
        ensures greeting { All (λ l. l.left ≡ 0) self.now.carried
            → result.now ≡ self.now.waiting }
    {
        let greeting = self.greeting.as_slice();
        if greeting.is_empty() {
            self.frames.front()
        } else {
            greeting
        }
    }

    /// How many bytes wait to be sent.
    pub fn waiting(&self) -> u64
        ensures { result ≡ length self.now.waiting }
    {
        self.greeting.as_slice().len() as u64 + self.frames.len()
    }

    /// Copies the first of the bytes that wait to be sent into a room, as many as fit, whatever the
    /// pieces are that they lie in: how many.
    pub fn gather(&self, room: &mut [u8]) -> usize
        ensures count { result ≡ min (length room.old) (length self.now.waiting) }
        ensures bytes { room.new ≡ take result self.now.waiting ++ drop result room.old }
    {
        let filled = self.greeting.gather(room);
        filled + self.frames.gather(room.split_at_mut(filled).1)
    }

    /// The first of the bytes that wait to be sent, in the pieces that they lie in: four at most,
    /// each with a byte, and none only where no byte waits.
    pub fn pieces(&self) -> WriteSlices<'_>
        ensures front { concat result ≡ take (length (concat result)) self.now.waiting }
        ensures some { 0 < length self.now.waiting → 0 < length (concat result) }
        ensures each { AreSome result }
        ensures few { length result ≤ PIECE_LIMIT }
    {
        let greeting = WriteSlices::none().with(self.greeting.as_slice());
        self.frames.lend(greeting)
    }

    /// The link took so many bytes of those that wait to be sent.
    pub fn wrote(&mut self, count: usize)
        requires { count ≤ length self.old.waiting }
        ensures { self.new ≡ session_sends self.old count }
    {
        let greeting = count.min(self.greeting.as_slice().len());
        self.greeting.advance(greeting);
        self.frames.advance(count - greeting);
    }

    /// Puts the frame of a chunk behind the bytes that wait, at a moment (milliseconds). It is
    /// refused as NotUp where the session is not ready; else the only error is out of memory. On
    /// an error nothing has changed, and the chunk comes back.
    pub fn load(&mut self, alloc: Global, chunk: Carried, now: u64) -> Result<(), LoadFailed>
        requires { 0 < live_room self.old }
        ensures ok { OnOk result (self.new ≡ session_loads self.old chunk now) }
        ensures up { OnOk result (live_is_ready self.old ≡ true) }
        ensures err { OnErr result (self.new ≡ self.old) }
        ensures back { IfErr result (λ failed. failed.chunk ≡ chunk) }
        ensures not_up { IfErr result (λ failed.
            failed.error ≡ LoadError.NotUp → live_is_ready self.old ≡ false) }
        ensures memory { IfErr result (λ failed.
            failed.error ≡ LoadError.Memory → live_is_ready self.old ≡ true) }
    {
        if !self.is_ready() {
            return Err(LoadFailed {
                chunk,
                error: LoadError::NotUp,
            });
        }
        if self.frames.load(alloc, &chunk).is_err() {
            return Err(LoadFailed {
                chunk,
                error: LoadError::Memory,
            });
        }
        self.moment = self.moment.max(now);
        self.carried.push(chunk, self.moment);
        self.has_loaded = true;
        Ok(())
    }

    /// Nothing waits any more, and nothing more is taken.
    pub(crate) fn fall(&mut self)
        ensures { self.new ≡ record self.old {
          waiting = [];
          rest = [];
          carried = map (falls_with true) self.old.carried;
          down = true;
        } }
    {
        self.greeting.clear();
        self.frames.clear();
        self.rest.clear();
        self.down = true;
    }

    /// Takes out the chunk that was accepted first of those that are acknowledged, with what is
    /// kept of it.
    pub fn acked(&mut self) -> Option<(Arc<Acked>, Carried)>
        ensures chunk { option_map (λ pair. pair.1) result ≡ live_acked self.old }
        ensures reply { reply_in (option_map (λ pair. arc_value pair.0) result)
            ≡ option_map (λ a. a.reply) (first_in self.old.accepted) }
        ensures evidence { IfSome result (λ pair.
            IsBacked self.old.setup.server (arc_value pair.0) pair.1) }
        ensures next { self.new ≡ session_unloads self.old }
        ensures none { self.old.accepted ≡ [] → self.new ≡ self.old }
    {
        self.accepted.pop_front()
    }

    /// Whether the session is late at a moment (milliseconds): its handshake is not done, or a
    /// chunk of its is not acknowledged, and it waits `ack_wait` or longer: from its start on for
    /// the former, from the later of its start and the load on for the chunk that was loaded first.
    /// Then it is down. It is refused as NotUp where it is down already, and then nothing has
    /// changed.
    #[tactic(auto, unfolding(crate::specs::Live::session_looks))]
    pub fn late(&mut self, now: u64) -> Result<bool, NotUp>
        ensures down { self.old.down ≡ true → IsErr result × (self.new ≡ self.old) }
        ensures late { self.old.down ≡ false → result ≡ Ok (live_is_late self.old now) }
        ensures next { self.old.down ≡ false → self.new ≡ session_looks self.old now }
    {
        if self.down {
            return Err(NotUp);
        }
        self.moment = self.moment.max(now);
        let late = self.is_overdue();
        if late {
            self.fall();
        }
        Ok(late)
    }

    /// Whether what the session is owed is overdue.
    fn is_overdue(&self) -> bool
        ensures { result ≡ is_overdue self.now.setup self.now.handshake
            (map (λ l. l.since) self.now.carried) self.now.moment }
    {
        !self.handshake.is_done() && self.is_over(self.start) || self.is_first_over()
    }

    /// Whether the wait is over for the chunk that was loaded first of those not acknowledged.
    fn is_first_over(&self) -> bool
        ensures { result ≡ is_first_over self.now.setup.ack_wait self.now.moment
            (map (λ l. l.since) self.now.carried) }
    {
        match self.carried.oldest() {
            None => false,
            Some(since) => self.is_over(since),
        }
    }

    /// Whether a wait that began at a moment (milliseconds) is over.
    fn is_over(&self, since: u64) -> bool
        ensures { result ≡ nat_le (since + self.now.setup.ack_wait) self.now.moment }
    {
        let moment = self.moment;
        match since.checked_add(self.ack_wait) {
            None => false,
            Some(end) => end <= moment,
        }
    }

    /// The session is no more. The chunks that were not acknowledged come back, in the order of
    /// their loads. It takes no memory.
    pub fn end(self) -> Vec<Carried>
        requires { self.accepted ≡ [] }
        ensures chunks { result.items ≡ live_chunks self.carried }
        ensures few { length result.items ≤ self.setup.window }
        ensures limit { length result.items ≤ WINDOW_LIMIT }
    {
        let Session {
            server: _,
            login: _,
            salt: _,
            ack_wait: _,
            window: _,
            start: _,
            handshake: _,
            greeting: _,
            frames: _,
            rest: _,
            carried,
            accepted,
            has_loaded: _,
            down: _,
            moment: _,
        } = self;
        accepted.destroy_empty();
        carried.into_chunks()
    }
}
