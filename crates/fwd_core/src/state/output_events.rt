//! What an event does to an output and its workers.

ghost use Rattle.std.specs.Prelude.{◌≡◌, true, IfOk, IsOk, OnOk, OnErr};
ghost use Rattle.fwd_model.specs.Live.{lives};
ghost use Rattle.fwd_core.specs.Runs.{is_free_at, IsBadHeard};
ghost use Rattle.fwd_model.specs.declared.event.Event.TheVariants as event;
ghost use Rattle.fwd_model.specs.Outcome.{answer_of, state_of};
ghost use Rattle.fwd_model.specs.Step.{step};

use super::State;
use fwd_model::{Answer, EndKind, FlushKind, OwnedSalt, Refusal, Wanted};
use std::alloc::{AllocError, Global};

impl State {
    /// Open chunks of an output are closed.
    pub(super) fn flush(&mut self, output: u16, now: u64, kind: FlushKind) -> Answer
        ensures answer { result ≡ answer_of (step lives self.old (event.Flush output now kind)) }
        ensures next { self.new
            ≡ state_of self.old (step lives self.old (event.Flush output now kind)) }
    {
        let place = usize::from(output);
        if place >= self.lanes.len() {
            return Answer::Refused(Refusal::NoSuch);
        }
        let chunks = self.lanes[place].flush(now, kind);
        Answer::Closed { chunks }
    }

    /// Which server a worker is to try.
    pub(super) fn choose(&mut self, output: u16, worker: u16, now: u64) -> Answer
        ensures answer { result ≡ answer_of (step lives self.old (event.Choose output worker now)) }
        ensures next { self.new
            ≡ state_of self.old (step lives self.old (event.Choose output worker now)) }
    {
        let place = usize::from(output);
        if place >= self.lanes.len() {
            return Answer::Refused(Refusal::NoSuch);
        }
        self.lanes[place].choose(worker, now)
    }

    /// A worker's session with a server begins. On an error nothing has changed.
    pub(super) fn up(
        &mut self,
        alloc: Global,
        output: u16,
        worker: u16,
        server: u16,
        salt: &OwnedSalt,
        now: u64,
    ) -> Result<Answer, AllocError>
        ensures answer { IfOk result (λ a.
            a ≡ answer_of (step lives self.old (event.Up output worker server salt.now now))) }
        ensures sure { is_free_at self.old (event.Up output worker server salt.now now) ≡ true
            → IsOk result }
        ensures next { OnOk result (self.new ≡ state_of self.old
            (step lives self.old (event.Up output worker server salt.now now))) }
        ensures err { OnErr result (self.new ≡ self.old) }
    {
        let place = usize::from(output);
        if place >= self.lanes.len() {
            return Ok(Answer::Refused(Refusal::NoSuch));
        }
        self.lanes[place].up(alloc, worker, server, salt, now)
    }

    /// A worker takes a free chunk of its output: the least of those that it wants. On an error
    /// nothing has changed.
    pub(super) fn take(
        &mut self,
        alloc: Global,
        output: u16,
        worker: u16,
        now: u64,
        wanted: Wanted,
    ) -> Result<Answer, AllocError>
        ensures answer { IfOk result (λ a.
            a ≡ answer_of (step lives self.old (event.Take output worker now wanted))) }
        ensures sure { is_free_at self.old (event.Take output worker now wanted) ≡ true
            → IsOk result }
        ensures next { OnOk result (self.new
            ≡ state_of self.old (step lives self.old (event.Take output worker now wanted))) }
        ensures err { OnErr result (self.new ≡ self.old) }
    {
        let place = usize::from(output);
        if place >= self.lanes.len() {
            return Ok(Answer::Refused(Refusal::NoSuch));
        }
        self.lanes[place].take(alloc, worker, wanted, now)
    }

    /// A worker's chunk is put into its session. On an error nothing has changed.
    pub(super) fn load(
        &mut self,
        alloc: Global,
        output: u16,
        worker: u16,
        now: u64,
    ) -> Result<Answer, AllocError>
        ensures answer { IfOk result (λ a.
            a ≡ answer_of (step lives self.old (event.Load output worker now))) }
        ensures sure { is_free_at self.old (event.Load output worker now) ≡ true → IsOk result }
        ensures next { OnOk result (self.new
            ≡ state_of self.old (step lives self.old (event.Load output worker now))) }
        ensures err { OnErr result (self.new ≡ self.old) }
    {
        let place = usize::from(output);
        if place >= self.lanes.len() {
            return Ok(Answer::Refused(Refusal::NoSuch));
        }
        self.lanes[place].load(alloc, worker, now)
    }

    /// The link took so many bytes of a worker's session.
    pub(super) fn wrote(&mut self, output: u16, worker: u16, count: u64) -> Answer
        ensures answer { result
            ≡ answer_of (step lives self.old (event.Wrote output worker count)) }
        ensures next { self.new
            ≡ state_of self.old (step lives self.old (event.Wrote output worker count)) }
    {
        let place = usize::from(output);
        if place >= self.lanes.len() {
            return Answer::Refused(Refusal::NoSuch);
        }
        self.lanes[place].wrote(worker, count)
    }

    /// Bytes are read from the link of a worker's session. On an error nothing has changed.
    pub(super) fn heard(
        &mut self,
        alloc: Global,
        output: u16,
        worker: u16,
        bytes: &[u8],
    ) -> Result<Answer, AllocError>
        ensures answer { IfOk result (λ a.
            a ≡ answer_of (step lives self.old (event.Heard output worker bytes.now))) }
        ensures sure { is_free_at self.old (event.Heard output worker bytes.now) ≡ true
            → IsOk result }
        ensures fault { IsBadHeard self.old output worker bytes.now → IsOk result }
        ensures next { OnOk result (self.new
            ≡ state_of self.old (step lives self.old (event.Heard output worker bytes.now))) }
        ensures err { OnErr result (self.new ≡ self.old) }
    {
        let place = usize::from(output);
        if place >= self.lanes.len() {
            return Ok(Answer::Refused(Refusal::NoSuch));
        }
        self.lanes[place].heard(alloc, worker, bytes)
    }

    /// A worker's acknowledged chunk leaves its output.
    pub(super) fn settle(&mut self, output: u16, worker: u16) -> Answer
        ensures answer { result ≡ answer_of (step lives self.old (event.Settle output worker)) }
        ensures next { self.new
            ≡ state_of self.old (step lives self.old (event.Settle output worker)) }
    {
        let place = usize::from(output);
        if place >= self.lanes.len() {
            return Answer::Refused(Refusal::NoSuch);
        }
        self.lanes[place].settle(worker)
    }

    /// It is asked whether a worker's session is late.
    pub(super) fn late(&mut self, output: u16, worker: u16, now: u64) -> Answer
        ensures answer { result ≡ answer_of (step lives self.old (event.Late output worker now)) }
        ensures next { self.new
            ≡ state_of self.old (step lives self.old (event.Late output worker now)) }
    {
        let place = usize::from(output);
        if place >= self.lanes.len() {
            return Answer::Refused(Refusal::NoSuch);
        }
        self.lanes[place].late(worker, now)
    }

    /// A worker's session is no more, and the chunks that it has go back to its output. It takes no
    /// memory.
    pub(super) fn end(
        &mut self,
        alloc: Global,
        output: u16,
        worker: u16,
        kind: EndKind,
        now: u64,
    ) -> Answer
        ensures answer { result
            ≡ answer_of (step lives self.old (event.End output worker kind now)) }
        ensures next { self.new
            ≡ state_of self.old (step lives self.old (event.End output worker kind now)) }
    {
        let place = usize::from(output);
        if place >= self.lanes.len() {
            return Answer::Refused(Refusal::NoSuch);
        }
        self.lanes[place].end(alloc, worker, kind, now)
    }

    /// Nobody is to be told of a connection's requests at an output any more.
    pub(super) fn forget(&mut self, conn: u64, output: u16) -> Answer
        ensures answer { result ≡ answer_of (step lives self.old (event.Forget conn output)) }
        ensures next { self.new
            ≡ state_of self.old (step lives self.old (event.Forget conn output)) }
    {
        let place = usize::from(output);
        if place >= self.lanes.len() {
            return Answer::Refused(Refusal::NoSuch);
        }
        self.lanes[place].forget(conn)
    }
}
