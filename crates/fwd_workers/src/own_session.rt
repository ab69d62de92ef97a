//! The session of a worker, which lies on the heap. So a worker's turns, which take where it stands
//! by value and answer it so, move few bytes.

ghost use Rattle.std.specs.Prelude.{
  ◌≡◌,
  ◌<◌,
  Ok,
  [],
  true,
  false,
  length,
  is_some,
  option_map,
  IfOk,
  IfErr,
  IfSome,
  IsErr,
  OnOk,
  OnErr,
};
ghost use Rattle.std.specs.Arc.{arc_value};
ghost use Rattle.fwd_session.specs.History.{is_done};
ghost use Rattle.fwd_session.specs.Live.{
  live_acked,
  live_has_chunk,
  live_is_late,
  live_is_ready,
  live_room,
  session_loads,
  session_looks,
  session_unloads,
};
ghost use Rattle.fwd_session.specs.ServerAcks.{IsBacked};
ghost use Rattle.fwd_workers.specs.Placed.{IsFirst};

use fwd_chunks::Carried;
use fwd_session::{Acked, LoadFailed, NotUp, Session};
use std::alloc::{AllocError, AllocFailed, Global};
use std::marker::Model;
use std::sync::Arc;

/// A session on the heap. In contracts it is the session. It may have chunks, and so it must be
/// spent.
pub(crate) struct OwnSession {
    pub(crate) session: Box<Session>,
}

impl Model for OwnSession {
    ghost use Rattle.fwd_session.specs.Live.{LiveSession};

    ghost Value = { LiveSession };

    ghost view = { λ own. own.session.value };
}

impl OwnSession {
    /// Puts a session without chunks on the heap. The only error is out of memory: then it is no
    /// more.
    pub(crate) fn new(alloc: Global, session: Session) -> Result<OwnSession, AllocError>
        requires accepted { session.accepted ≡ [] }
        requires carried { session.carried ≡ [] }
        ensures { IfOk result (λ own. own ≡ session) }
    {
        match Box::new(alloc, session) {
            Ok(session) => Ok(OwnSession { session }),
            Err(AllocFailed { value }) => {
                value.end().destroy_empty();
                Err(AllocError)
            }
        }
    }

    /// The session.
    pub(crate) fn into_session(self) -> Session
        ensures { result ≡ self }
    {
        let OwnSession { session } = self;
        Box::into_inner(session)
    }

    /// How many bytes wait to be sent.
    pub(crate) fn waiting(&self) -> u64
        ensures { result ≡ length self.now.waiting }
    {
        self.session.waiting()
    }

    /// Whether a chunk may be loaded where there is `room` for it.
    pub(crate) fn is_ready(&self) -> bool
        ensures { result ≡ live_is_ready self.now }
    {
        self.session.is_ready()
    }

    /// How many chunks more it may have.
    pub(crate) fn room(&self) -> usize
        ensures { result ≡ live_room self.now }
    {
        self.session.room()
    }

    /// Whether the handshake is done.
    pub(crate) fn is_greeted(&self) -> bool
        ensures { result ≡ is_done self.now.handshake }
    {
        self.session.is_greeted()
    }

    /// Whether it has a chunk, acknowledged or not, that was not taken out.
    pub(crate) fn has_chunk(&self) -> bool
        ensures { result ≡ live_has_chunk self.now }
    {
        self.session.has_chunk()
    }

    /// Whether an acknowledgement was accepted whose chunk can be taken out.
    pub(crate) fn is_acked(&self) -> bool
        ensures { result ≡ is_some (live_acked self.now) }
    {
        self.session.is_acked()
    }

    /// The server, by its place in the output's list.
    pub(crate) fn server(&self) -> u16
        ensures { result ≡ self.now.setup.server }
    {
        self.session.server()
    }

    /// Whether it is late at a moment (milliseconds). Then it is down. It is refused as NotUp where
    /// it is down already, and then nothing has changed.
    pub(crate) fn late(&mut self, now: u64) -> Result<bool, NotUp>
        ensures down { self.old.down ≡ true → IsErr result × (self.new ≡ self.old) }
        ensures late { self.old.down ≡ false → result ≡ Ok (live_is_late self.old now) }
        ensures next { self.old.down ≡ false → self.new ≡ session_looks self.old now }
    {
        self.session.late(now)
    }

    /// Puts the frame of a chunk behind the bytes that wait, at a moment (milliseconds). It is
    /// refused as NotUp where the session is not ready; else the only error is out of memory. On
    /// an error nothing has changed, and the chunk comes back.
    pub(crate) fn load(&mut self, alloc: Global, chunk: Carried, now: u64) -> Result<(), LoadFailed>
        requires { 0 < live_room self.old }
        ensures ok { OnOk result (self.new ≡ session_loads self.old chunk now) }
        ensures up { OnOk result (live_is_ready self.old ≡ true) }
        ensures err { OnErr result (self.new ≡ self.old) }
        ensures back { IfErr result (λ failed. failed.chunk ≡ chunk) }
    {
        self.session.load(alloc, chunk, now)
    }

    /// Takes out the chunk that was accepted first of those that are acknowledged, with what is
    /// kept of it.
    pub(crate) fn acked(&mut self) -> Option<(Arc<Acked>, Carried)>
        ensures chunk { option_map (λ pair. pair.1) result ≡ live_acked self.old }
        ensures evidence { IfSome result (λ pair.
            IsBacked self.old.setup.server (arc_value pair.0) pair.1) }
        ensures first { IfSome result (λ pair. IsFirst self.old (arc_value pair.0) pair.1) }
        ensures next { self.new ≡ session_unloads self.old }
        ensures none { self.old.accepted ≡ [] → self.new ≡ self.old }
    {
        self.session.acked()
    }
}
