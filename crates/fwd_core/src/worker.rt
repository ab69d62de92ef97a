//! A worker of an output: the chunk that it took, and its session with those that it loaded.
//! Whether there is room is asked at the take and at the load, so that no layer has to remember
//! why.

ghost use Rattle.std.specs.Prelude.{
  ◌≡◌,
  ◌≤◌,
  ◌||◌,
  ◌++◌,
  None,
  Some,
  false,
  true,
  is_some,
  length,
  option_map,
  option_to_list,
  IfOk,
  IsOk,
  IfSome,
  IfNone,
  OnOk,
  OnErr,
};
ghost use Rattle.std.specs.Arc.{arc_value};
ghost use Rattle.fwd_session.specs.declared.limits.TheConstants.{WINDOW_LIMIT};
ghost use Rattle.fwd_session.specs.ServerAcks.{IsServerAck};
ghost use Rattle.fwd_session.specs.Live.{LiveSession};
ghost use Rattle.fwd_model.specs.Outcome.{answer_of, state_of, of_heard};
ghost use Rattle.fwd_model.specs.Step.{
  at_session,
  up,
  load,
  wrote,
  heard,
  late,
  is_full,
  is_idle,
  has_acked,
  unacknowledged_of,
  lost_server,
};
ghost use Rattle.fwd_model.specs.Live.{lives};
ghost use Rattle.fwd_core.specs.Lanes.{
  no_work,
  IsSameWork,
  acked_in,
  evidence_in,
  worker_settled,
};
ghost use Rattle.fwd_core.specs.Runs.{is_free, IsBadFor};

use crate::lane_config::LaneConfig;
use fwd_base::Bytes;
use fwd_chunks::Carried;
use fwd_model::{Answer, EndKind, OwnedSalt, Refusal};
use fwd_output::{Leaving, OutputState, leave};
use fwd_session::{Acked, LoadFailed, Session, SessionHeard, SessionTold, frame_of};
use std::alloc::{AllocError, Global};
use std::marker::Model;
use std::sync::Arc;

/// A worker: the chunk that it took and did not load yet, and its session, which has room for that.
pub(crate) struct Worker {
    taken: Option<Carried>,
    session: Option<Session>,
}

impl Model for Worker {
    ghost use Rattle.std.specs.Prelude.{◌≡◌, Some};
    ghost use Rattle.fwd_session.specs.Live.{LiveSession};
    ghost use Rattle.fwd_model.specs.Layers.{Worker};
    ghost use Rattle.fwd_core.specs.Lanes.{IsRoomy};

    ghost Value = { Worker LiveSession };

    ghost view = { λ w. record { taken = w.taken; session = w.session } };

    ghost invariant = { λ w.
        (s : LiveSession) → w.session ≡ Some s → IsRoomy w.taken s };
}

/// What a piece did, as an answer.
fn answer_for(told: SessionTold) -> Answer
    ensures { (s : LiveSession) → result ≡ answer_of (of_heard told.heard told.out s) }
{
    let SessionTold { heard, out } = told;
    match heard {
        SessionHeard::Quiet => Answer::Quiet { out },
        SessionHeard::Ready => Answer::Ready { out },
        SessionHeard::Acked => Answer::Acked { out },
        SessionHeard::Fault(fault) => Answer::SessionFaulted(fault),
        SessionHeard::NotUp => Answer::Refused(Refusal::NotUp),
    }
}

/// Puts a chunk where there is none.
fn put(place: &mut Option<Carried>, chunk: Carried)
    requires { place.old ≡ None }
    ensures { place.new ≡ Some chunk }
{
    match place.replace(chunk) {
        None => {}
        Some(_) => unreachable!(),
    }
}

/// A session is no more: its acknowledged chunks are settled, and the others go back to their
/// output.
fn close_session(session: Session, output: &mut OutputState) {
    let mut session = session;
    while let Some((acked, chunk)) = session.acked() {
        output.settle(acked, chunk);
    }
    output.end(None, session.end(), None, 0);
}

impl Worker {
    /// A worker that has nothing.
    pub fn new() -> Self
        ensures { result ≡ no_work }
    {
        Worker {
            taken: None,
            session: None,
        }
    }

    /// The worker is no more: its acknowledged chunks are settled, and the others go back to their
    /// output.
    pub fn close(self, output: &mut OutputState) {
        let Worker { taken, session } = self;
        if let Some(chunk) = taken {
            output.put_back(chunk);
        }
        if let Some(session) = session {
            close_session(session, output);
        }
    }

    /// Whether it may take no chunk: it has one that it did not load, or its session has no room.
    pub fn is_full(&self) -> bool
        ensures { result ≡ (is_some self.now.taken || is_full lives self.now.session) }
    {
        if self.taken.is_some() {
            return true;
        }
        match &self.session {
            None => false,
            Some(session) => session.room() == 0,
        }
    }

    /// Whether it has neither a chunk nor a session.
    pub fn is_idle(&self) -> bool
        ensures { result ≡ is_idle lives self.now }
    {
        self.taken.is_none() && self.session.is_none()
    }

    /// Whether a chunk of its is acknowledged.
    pub fn is_acked(&self) -> bool
        ensures { result ≡ has_acked lives self.now.session }
    {
        match &self.session {
            None => false,
            Some(session) => session.is_acked(),
        }
    }

    /// The worker, which may take one, has the chunk, if there is one.
    pub fn set_taken(&mut self, chunk: Option<Carried>)
        requires none { self.old.taken ≡ None }
        requires room { is_full lives self.old.session ≡ false }
        ensures { self.new ≡ record { taken = chunk; session = self.old.session } }
    {
        if let Some(carried) = chunk {
            put(&mut self.taken, carried);
        }
    }

    /// The worker's session with one of the output's servers begins. On an error nothing has
    /// changed. The event keeps its salt, so the session takes a copy, and a share of the output's
    /// login.
    pub fn up(
        &mut self,
        alloc: Global,
        config: &LaneConfig,
        server: u16,
        salt: &OwnedSalt,
        now: u64,
    ) -> Result<Answer, AllocError>
        ensures answer { IfOk result (λ a.
            a ≡ answer_of (up lives config.now server salt.now now self.old)) }
        ensures sure { is_free (answer_of (up lives config.now server salt.now now self.old)) ≡ true
            → IsOk result }
        ensures next { OnOk result (self.new
            ≡ state_of self.old (up lives config.now server salt.now now self.old)) }
        ensures chunks { IsSameWork self.old self.new }
        ensures err { OnErr result (self.new ≡ self.old) }
    {
        if usize::from(server) >= config.servers() {
            return Ok(Answer::Refused(Refusal::NoSuch));
        }
        if self.session.is_some() {
            return Ok(Answer::Refused(Refusal::NotNow));
        }
        let session = config.session(alloc, server, salt, now)?;
        match self.session.replace(session) {
            None => Ok(Answer::Done),
            Some(_) => unreachable!(),
        }
    }

    /// The worker's chunk is put into its session. On an error nothing has changed.
    pub fn load(&mut self, alloc: Global, now: u64) -> Result<Answer, AllocError>
        ensures answer { IfOk result (λ a. a ≡ answer_of (load lives now self.old)) }
        ensures sure { is_free (answer_of (load lives now self.old)) ≡ true → IsOk result }
        ensures next { OnOk result (self.new ≡ state_of self.old (load lives now self.old)) }
        ensures chunks { IsSameWork self.old self.new }
        ensures err { OnErr result (self.new ≡ self.old) }
    {
        let Some(session) = &mut self.session else {
            return Ok(Answer::Refused(Refusal::NotNow));
        };
        let Some(chunk) = self.taken.take() else {
            return Ok(Answer::Refused(Refusal::NotNow));
        };
        if !session.is_ready() {
            put(&mut self.taken, chunk);
            return Ok(Answer::Refused(Refusal::NotUp));
        }
        let Ok(frame) = frame_of(alloc, &chunk) else {
            put(&mut self.taken, chunk);
            return Err(AllocError);
        };
        match session.load(alloc, chunk, now) {
            Ok(()) => Ok(Answer::Frame {
                out: Bytes::from_vec(frame),
            }),
            Err(LoadFailed { chunk, error: _ }) => {
                put(&mut self.taken, chunk);
                Err(AllocError)
            }
        }
    }

    /// The link took so many bytes of the worker's session.
    pub fn wrote(&mut self, count: u64) -> Answer
        ensures answer { result ≡ answer_of (at_session lives self.old (wrote lives count)) }
        ensures next { self.new
            ≡ state_of self.old (at_session lives self.old (wrote lives count)) }
        ensures chunks { IsSameWork self.old self.new }
    {
        let Some(session) = &mut self.session else {
            return Answer::Refused(Refusal::NotNow);
        };
        if count > session.waiting() {
            return Answer::Refused(Refusal::NotNow);
        }
        session.wrote(count as usize);
        Answer::Done
    }

    /// Bytes are read from the link of the worker's session. On an error nothing has changed.
    pub fn heard(&mut self, alloc: Global, bytes: &[u8]) -> Result<Answer, AllocError>
        ensures answer { IfOk result (λ a.
            a ≡ answer_of (at_session lives self.old (heard lives bytes.now))) }
        ensures sure { is_free (answer_of (at_session lives self.old (heard lives bytes.now)))
            ≡ true → IsOk result }
        ensures fault { IsBadFor self.old bytes.now → IsOk result }
        ensures next { OnOk result (self.new
            ≡ state_of self.old (at_session lives self.old (heard lives bytes.now))) }
        ensures chunks { IsSameWork self.old self.new }
        ensures err { OnErr result (self.new ≡ self.old) }
    {
        let Some(session) = &mut self.session else {
            return Ok(Answer::Refused(Refusal::NotNow));
        };
        let told = session.heard(alloc, bytes)?;
        Ok(answer_for(told))
    }

    /// It is asked whether the worker's session is late.
    #[tactic(auto, unfolding(fwd_session::specs::Live::session_looks))]
    pub fn late(&mut self, now: u64) -> Answer
        ensures answer { result ≡ answer_of (at_session lives self.old (late lives now)) }
        ensures next { self.new ≡ state_of self.old (at_session lives self.old (late lives now)) }
        ensures chunks { IsSameWork self.old self.new }
    {
        let Some(session) = &mut self.session else {
            return Answer::Refused(Refusal::NotNow);
        };
        match session.late(now) {
            Ok(late) => Answer::Late { late },
            Err(_) => Answer::Refused(Refusal::NotUp),
        }
    }

    /// Takes out the chunk that was accepted first of those that are acknowledged, with what is
    /// kept of it.
    pub fn acked(&mut self) -> Option<(Arc<Acked>, Carried)>
        ensures chunk { option_map (λ pair. pair.1) result ≡ acked_in self.old.session }
        ensures evidence { IfSome result (λ pair. IsServerAck (arc_value pair.0) pair.1) }
        ensures kept { option_map (λ pair. arc_value pair.0) result
            ≡ evidence_in self.old.session }
        ensures settled { IfSome result (λ pair. self.new ≡ worker_settled self.old) }
        ensures none { IfNone result (self.new ≡ self.old) }
    {
        match &mut self.session {
            None => None,
            Some(session) => session.acked(),
        }
    }

    /// The worker has nothing any more. What it leaves goes back to its output. It takes no memory.
    pub fn end(&mut self, alloc: Global, kind: EndKind) -> Leaving
        requires { has_acked lives self.old.session ≡ false }
        ensures taken { result.taken ≡ self.old.taken }
        ensures loaded { result.loaded.items ≡ unacknowledged_of lives self.old.session }
        ensures server { result.server ≡ lost_server lives kind self.old.session }
        ensures few { length (option_to_list result.taken ++ result.loaded.items) ≤ WINDOW_LIMIT }
        ensures idle { self.new ≡ no_work }
    {
        let taken = self.taken.take();
        let Some(session) = self.session.take() else {
            return Leaving {
                kind,
                taken,
                loaded: Vec::new(alloc),
                server: None,
            };
        };
        if session.is_acked() {
            unreachable!();
        }
        leave(session, taken, kind)
    }
}
