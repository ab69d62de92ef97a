//! What an event does to a connection, and to the output that its requests go to.

ghost use Rattle.std.specs.Prelude.{◌≡◌, true, false, [], map, IfOk, IsOk, OnOk, OnErr};
ghost use Rattle.fwd_model.specs.Live.{lives};
ghost use Rattle.fwd_book.specs.Live.{live_due};
ghost use Rattle.fwd_core.specs.Runs.{is_free, is_free_at, IsBadPiece};
ghost use Rattle.fwd_core.specs.Standing.{AreNew, IsNew};
ghost use Rattle.fwd_model.specs.declared.event.Event.TheVariants as event;
ghost use Rattle.fwd_model.specs.Outcome.{answer_of, state_of};
ghost use Rattle.fwd_model.specs.Step.{step, admit, collect};

use super::State;
use crate::connection::{Connection, drain, give, hear_piece, leave, place_of};
use crate::due_answers::DueAnswers;
use crate::lane::Lane;
use fwd_base::{Bytes, Seq};
use fwd_book::{due_is_found, origins_are_enough};
use fwd_chunks::AdmitError;
use fwd_handshake::Nonces;
use fwd_match::Routes;
use fwd_model::{Answer, Origin, Refusal};
use fwd_source::Source;
use std::alloc::{AllocError, Global};

impl State {
    /// A connection comes. On an error nothing has changed.
    pub(super) fn accept(
        &mut self,
        alloc: Global,
        conn: u64,
        nonce: [u8; 16],
        auth: [u8; 16],
    ) -> Result<Answer, AllocError>
        ensures answer { IfOk result (λ a.
            a ≡ answer_of (step lives self.old (event.Accept conn nonce auth))) }
        ensures sure { is_free_at self.old (event.Accept conn nonce auth) ≡ true → IsOk result }
        ensures next { OnOk result (self.new
            ≡ state_of self.old (step lives self.old (event.Accept conn nonce auth))) }
        ensures err { OnErr result (self.new ≡ self.old) }
    {
        let above = match self.last {
            None => true,
            Some(last) => last < conn,
        };
        if !above {
            return Ok(Answer::Refused(Refusal::NotNow));
        }
        let nonces = Nonces { nonce, auth };
        let connection = Connection::new(alloc, conn, &self.security, self.limits, nonces)?;
        let out = Bytes::from_slice(alloc, connection.out())?;
        self.connections.push(connection)?;
        self.last = Some(conn);
        Ok(Answer::Accepted { out })
    }

    /// Bytes are read from a connection. On an error nothing has changed.
    pub(super) fn piece(
        &mut self,
        alloc: Global,
        conn: u64,
        bytes: &[u8],
    ) -> Result<Answer, AllocError>
        ensures answer { IfOk result (λ a.
            a ≡ answer_of (step lives self.old (event.Piece conn bytes.now))) }
        ensures sure { is_free_at self.old (event.Piece conn bytes.now) ≡ true → IsOk result }
        ensures fault { IsBadPiece self.old conn bytes.now → IsOk result }
        ensures next { OnOk result (self.new
            ≡ state_of self.old (step lives self.old (event.Piece conn bytes.now))) }
        ensures err { OnErr result (self.new ≡ self.old) }
    {
        let Some(place) = place_of(conn, &self.connections) else {
            return Ok(Answer::Refused(Refusal::NoSuch));
        };
        let connection = &mut self.connections[place];
        hear_piece(alloc, &mut connection.source, bytes)
    }

    /// A connection's link took so many of the bytes that wait to be sent.
    pub(super) fn drained(&mut self, conn: u64, count: u64) -> Answer
        ensures answer { result ≡ answer_of (step lives self.old (event.Drained conn count)) }
        ensures next { self.new
            ≡ state_of self.old (step lives self.old (event.Drained conn count)) }
    {
        let Some(place) = place_of(conn, &self.connections) else {
            return Answer::Refused(Refusal::NoSuch);
        };
        let connection = &mut self.connections[place];
        drain(&mut connection.source, count)
    }

    /// A connection is known no more.
    pub(super) fn shut(&mut self, conn: u64) -> Answer
        ensures answer { result ≡ answer_of (step lives self.old (event.Shut conn)) }
        ensures next { self.new ≡ state_of self.old (step lives self.old (event.Shut conn)) }
    {
        if place_of(conn, &self.connections).is_none() {
            return Answer::Refused(Refusal::NoSuch);
        }
        leave(conn, &mut self.connections);
        Answer::Done
    }

    /// A connection's first waiting request goes to an output. On an error nothing has changed.
    pub(super) fn admit(
        &mut self,
        alloc: Global,
        conn: u64,
        output: u16,
        now: u64,
    ) -> Result<Answer, AllocError>
        requires { AreNew self.old }
        ensures answer { IfOk result (λ a.
            a ≡ answer_of (step lives self.old (event.Admit conn output now))) }
        ensures sure { is_free_at self.old (event.Admit conn output now) ≡ true → IsOk result }
        ensures next { OnOk result (self.new
            ≡ state_of self.old (step lives self.old (event.Admit conn output now))) }
        ensures err { OnErr result (self.new ≡ self.old) }
    {
        let Some(place) = place_of(conn, &self.connections) else {
            return Ok(Answer::Refused(Refusal::NoSuch));
        };
        let lane_place = usize::from(output);
        if lane_place >= self.lanes.len() {
            return Ok(Answer::Refused(Refusal::NoSuch));
        }
        let connection = &mut self.connections[place];
        let lane = &mut self.lanes[lane_place];
        let call = AdmitCall {
            routes: &self.routes,
            conn,
            output,
            now,
        };
        admit_from(alloc, call, &mut connection.source, lane)
    }

    /// A connection is told of its requests at an output whose entries are all settled. On an
    /// error nothing has changed.
    pub(super) fn collect(
        &mut self,
        alloc: Global,
        conn: u64,
        output: u16,
    ) -> Result<Answer, AllocError>
        ensures answer { IfOk result (λ a.
            a ≡ answer_of (step lives self.old (event.Collect conn output))) }
        ensures sure { is_free_at self.old (event.Collect conn output) ≡ true → IsOk result }
        ensures next { OnOk result (self.new
            ≡ state_of self.old (step lives self.old (event.Collect conn output))) }
        ensures err { OnErr result (self.new ≡ self.old) }
    {
        let Some(place) = place_of(conn, &self.connections) else {
            return Ok(Answer::Refused(Refusal::NoSuch));
        };
        let lane_place = usize::from(output);
        if lane_place >= self.lanes.len() {
            return Ok(Answer::Refused(Refusal::NoSuch));
        }
        let connection = &mut self.connections[place];
        let lane = &mut self.lanes[lane_place];
        tell_from(alloc, lane, &mut connection.source, conn)
    }
}

/// What a call of `admit` names, and where requests go.
#[derive(Clone, Copy)]
struct AdmitCall<'a> {
    routes: &'a Routes,
    conn: u64,
    output: u16,
    /// The moment, in milliseconds.
    now: u64,
}

/// The first request that waits at the source is entered at the output. On an error nothing has
/// changed.
fn admit_from(
    alloc: Global,
    call: AdmitCall<'_>,
    source: &mut Source,
    lane: &mut Lane,
) -> Result<Answer, AllocError>
    requires { IsNew call.conn source.old.live lane.old }
    ensures answer { let c = call.entry in IfOk result (λ a. a ≡ answer_of
        (admit lives c.routes.now c.conn c.output c.now source.old.live lane.old)) }
    ensures sure { let c = call.entry in is_free (answer_of
        (admit lives c.routes.now c.conn c.output c.now source.old.live lane.old)) ≡ true
        → IsOk result }
    ensures source { let c = call.entry in OnOk result (source.new.live
        ≡ (state_of (source.old.live, lane.old)
        (admit lives c.routes.now c.conn c.output c.now source.old.live lane.old)).0) }
    ensures lane { let c = call.entry in OnOk result (lane.new
        ≡ (state_of (source.old.live, lane.old)
        (admit lives c.routes.now c.conn c.output c.now source.old.live lane.old)).1) }
    ensures source_err { OnErr result (source.new ≡ source.old) }
    ensures lane_err { OnErr result (lane.new ≡ lane.old) }
{
    let AdmitCall {
        routes,
        conn,
        output,
        now,
    } = call;
    let Some((Origin { request, .. }, batch)) = source.peek() else {
        return Ok(Answer::Refused(Refusal::NotNow));
    };
    let Some(first) = routes.first(batch.tag()) else {
        source.shut();
        return Ok(Answer::NoRoute);
    };
    if first != output {
        return Ok(Answer::Refused(Refusal::NotNow));
    }
    let entries = batch.len();
    match lane.admit(alloc, Origin { conn, request }, batch, now) {
        Ok(()) => {
            give(source);
            Ok(Answer::Admitted { request, entries })
        }
        Err(AdmitError::Full) => {
            source.shut();
            Ok(Answer::Full)
        }
        Err(AdmitError::NumbersSpent) => {
            source.shut();
            Ok(Answer::NumbersSpent)
        }
        Err(AdmitError::Memory) => Err(AllocError),
    }
}

/// The source is told what is due at the output. On an error nothing has changed.
fn tell_from(
    alloc: Global,
    lane: &mut Lane,
    source: &mut Source,
    conn: u64,
) -> Result<Answer, AllocError>
    ensures answer { IfOk result (λ a.
        a ≡ answer_of (collect lives conn source.old.live lane.old)) }
    ensures sure { is_free (answer_of (collect lives conn source.old.live lane.old)) ≡ true
        → IsOk result }
    ensures source { OnOk result (source.new.live
        ≡ (state_of (
          source.old.live,
          lane.old,
        ) (collect lives conn source.old.live lane.old)).0) }
    ensures lane { OnOk result (lane.new
        ≡ (state_of (
          source.old.live,
          lane.old,
        ) (collect lives conn source.old.live lane.old)).1) }
    ensures source_err { OnErr result (source.new.live ≡ source.old.live) }
    ensures lane_err { OnErr result (lane.new ≡ lane.old) }
{
    if source.is_shut() {
        return Ok(Answer::Refused(Refusal::Closed));
    }
    lane.is_sound(); // for the proof
    origins_are_enough(); // for the proof
    let origins = lane.due(alloc, conn)?;
    if origins.is_empty() {
        return Ok(told_nothing(alloc));
    }
    tell_all(alloc, lane, source, conn, &origins)
}

/// Nobody is told of anything.
fn told_nothing(alloc: Global) -> Answer
    ensures { result ≡ Answer.Told [] [] }
{
    Answer::Told {
        requests: Seq::new(alloc),
        out: Bytes::new(alloc),
    }
}

/// The source is told of all requests that are due at the output, which have these origins. All
/// room is made before the first change. On an error nothing has changed.
fn tell_all(
    alloc: Global,
    lane: &mut Lane,
    source: &mut Source,
    conn: u64,
    origins: &[Origin],
) -> Result<Answer, AllocError>
    requires up { source.old.live.shut ≡ false }
    requires due { origins.now ≡ map (λ q. q.origin) (live_due lane.old.output.book conn) }
    ensures answer { IfOk result (λ a.
        a ≡ answer_of (collect lives conn source.old.live lane.old)) }
    ensures source { OnOk result (source.new.live
        ≡ (state_of (
          source.old.live,
          lane.old,
        ) (collect lives conn source.old.live lane.old)).0) }
    ensures lane { OnOk result (lane.new
        ≡ (state_of (
          source.old.live,
          lane.old,
        ) (collect lives conn source.old.live lane.old)).1) }
    ensures source_err { OnErr result (source.new.live ≡ source.old.live) }
    ensures lane_err { OnErr result (lane.new ≡ lane.old) }
{
    lane.is_sound(); // for the proof
    due_is_found(); // for the proof
    origins_are_enough(); // for the proof
    let DueAnswers { requests, out } = lane.telling(alloc, origins)?;
    source.reserve(out.len())?;
    lane.collect(alloc, origins)?;
    match source.answer(out.as_slice()) {
        Ok(()) => Ok(Answer::Told { requests, out }),
        Err(_) => unreachable!(),
    }
}
