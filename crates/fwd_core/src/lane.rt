//! An output with its settings and its workers.

ghost use Rattle.std.specs.Prelude.{
  ◌≡◌,
  Some,
  ◌<◌,
  Err,
  IfOk,
  IfErr,
  IsOk,
  OnOk,
  OnErr,
  IfSome,
  None,
  true,
  [],
  map,
  option_map,
};
ghost use Rattle.std.specs.List.{concat};
ghost use Rattle.fwd_chunks.specs.Live.{live_refusal, live_counts};
ghost use Rattle.fwd_chunks.specs.TagCounts.{live_report};
ghost use Rattle.fwd_model.specs.Outputs.{output_enters};
ghost use Rattle.fwd_model.specs.Live.{with_live_output, with_live_book, lives};
ghost use Rattle.fwd_book.specs.History.{request_at};
ghost use Rattle.fwd_book.specs.Receipts.{receipts};
ghost use Rattle.fwd_book.specs.Live.{IsSound, evidence_for, live_due, live_leaves};
ghost use Rattle.fwd_model.specs.Books.{ack_asked};
ghost use Rattle.fwd_core.specs.Lanes.{new_live_lane};
ghost use Rattle.fwd_output.specs.HandedBack.{chunk_at};
ghost use Rattle.fwd_core.specs.Runs.{is_free, IsBadAt};
ghost use Rattle.fwd_model.specs.Outcome.{answer_of, state_of, chunk_answer};
ghost use Rattle.fwd_model.specs.Step.{
  at_worker,
  at_session,
  choose,
  up,
  take,
  load,
  wrote,
  heard,
  late,
  settle,
  end,
  forget,
};

use crate::due_answers::DueAnswers;
use crate::lane_config::LaneConfig;
use crate::returned_numbers::numbers_back;
use crate::worker::Worker;
use fwd_book::Receipt;
use fwd_chunks::{AdmitError, Carried, Counts, FlushKind, Report, Wanted};
use fwd_model::{Answer, EndKind, Origin, OutputConfig, OwnedSalt, Refusal};
use fwd_modes::Batch;
use fwd_output::{Leaving, OutputState};
use std::alloc::{AllocError, Global};
use std::marker::Model;

/// One output.
pub(crate) struct Lane {
    config: LaneConfig,
    output: OutputState,
    workers: Vec<Worker>,
}

/// An output ends with its workers, which give back what they have.
impl Drop for Lane {
    fn drop(self) {
        let Lane {
            config: _,
            mut output,
            workers,
        } = self;
        let mut rest = workers.into_iter();
        while let Some(worker) = rest.next() {
            worker.close(&mut output);
        }
        rest.destroy_empty();
    }
}

impl Model for Lane {
    ghost use Rattle.fwd_model.specs.Live.{LiveLane};
    ghost use Rattle.fwd_core.specs.Lanes.{AreHeld};

    ghost Value = { LiveLane };

    ghost view = { λ l.
        record { config = l.config; output = l.output; workers = l.workers.items } };

    ghost invariant = { λ l. AreHeld l.output.buffer l.workers.items };
}

/// What is told of a chunk that was taken.
fn told_of(found: &Option<Carried>) -> Answer
    ensures { result ≡ chunk_answer found.now }
{
    match found {
        None => Answer::TookNothing,
        Some(chunk) => Answer::Took {
            number: chunk.number(),
            entries: chunk.count(),
        },
    }
}

impl Lane {
    /// An output with no entries, whose workers have nothing, by its run and its number.
    pub fn new(
        alloc: Global,
        run: [u8; 6],
        output: u16,
        config: &OutputConfig,
    ) -> Result<Self, AllocError>
        ensures { IfOk result (λ l. l ≡ new_live_lane run output config.now) }
    {
        let config = LaneConfig::new(alloc, config)?;
        let standby = config.standby.as_slice();
        let state = OutputState::new(alloc, config.limits, run, output, standby)?;
        let mut workers = Vec::with_capacity(alloc, usize::from(config.workers))?;
        for _ in 0..config.workers {
            workers.push_reserved(Worker::new());
        }
        Ok(Lane {
            config,
            output: state,
            workers,
        })
    }

    /// The entries accepted, settled and held, with the bytes held and the chunks that hold them.
    pub fn counts(&self) -> Counts
        ensures { result ≡ live_counts self.now.output.buffer }
    {
        self.output.counts()
    }

    /// The same, and what is held of each tag.
    pub fn report(&self, alloc: Global) -> Result<Report, AllocError>
        ensures { IfOk result (λ report. report ≡ live_report self.now.output.buffer) }
    {
        self.output.report(alloc)
    }

    /// A request is entered. On an error nothing has changed.
    pub fn admit(
        &mut self,
        alloc: Global,
        origin: Origin,
        batch: &Batch,
        now: u64,
    ) -> Result<(), AdmitError>
        requires { request_at self.old.output.book.requests origin ≡ None }
        ensures refused { IfSome (live_refusal self.old.output.buffer batch.now now) (λ fault.
            result ≡ Err fault) }
        ensures ok { OnOk result (self.new
            ≡ with_live_output self.old (output_enters self.old.output origin batch.now now)) }
        ensures memory { live_refusal self.old.output.buffer batch.now now ≡ None
            → IfErr result (λ error. error ≡ AdmitError.Memory) }
        ensures err { OnErr result (self.new ≡ self.old) }
    {
        self.output.is_sound(); // for the proof
        self.output.admit(alloc, origin, batch, now)?;
        Ok(())
    }

    /// Closes the open chunks that a flush closes, and answers how many.
    pub fn flush(&mut self, now: u64, kind: FlushKind) -> usize
        ensures count { result ≡ lives.closing self.old now kind }
        ensures flushed { self.new ≡ lives.flushes self.old now kind }
    {
        self.output.flush(now, kind)
    }

    /// Which server a worker is to try at a moment (milliseconds).
    pub fn choose(&mut self, worker: u16, now: u64) -> Answer
        ensures answer { result ≡ answer_of (choose lives self.old worker now) }
        ensures next { self.new ≡ state_of self.old (choose lives self.old worker now) }
    {
        if usize::from(worker) >= self.workers.len() {
            return Answer::Refused(Refusal::NoSuch);
        }
        let server = self.output.choose(worker, now);
        Answer::Chose { server }
    }

    /// A worker's session with a server begins. On an error nothing has changed.
    pub fn up(
        &mut self,
        alloc: Global,
        worker: u16,
        server: u16,
        salt: &OwnedSalt,
        now: u64,
    ) -> Result<Answer, AllocError>
        ensures answer { IfOk result (λ a. a ≡ answer_of
            (at_worker lives self.old worker (up lives self.old.config server salt.now now))) }
        ensures sure { is_free (answer_of
            (at_worker lives self.old worker (up lives self.old.config server salt.now now))) ≡ true
            → IsOk result }
        ensures next { OnOk result (self.new ≡ state_of self.old
            (at_worker lives self.old worker (up lives self.old.config server salt.now now))) }
        ensures err { OnErr result (self.new ≡ self.old) }
    {
        let place = usize::from(worker);
        if place >= self.workers.len() {
            return Ok(Answer::Refused(Refusal::NoSuch));
        }
        self.workers[place].up(alloc, &self.config, server, salt, now)
    }

    /// A worker takes the least free chunk of those that it wants. On an error nothing has changed.
    pub fn take(
        &mut self,
        alloc: Global,
        worker: u16,
        wanted: Wanted,
        now: u64,
    ) -> Result<Answer, AllocError>
        ensures answer { IfOk result (λ a. a ≡ answer_of (take lives self.old worker wanted now)) }
        ensures sure { is_free (answer_of (take lives self.old worker wanted now)) ≡ true
            → IsOk result }
        ensures next { OnOk result (self.new
            ≡ state_of self.old (take lives self.old worker wanted now)) }
        ensures err { OnErr result (self.new ≡ self.old) }
    {
        let place = usize::from(worker);
        if place >= self.workers.len() {
            return Ok(Answer::Refused(Refusal::NoSuch));
        }
        self.output.is_sound(); // for the proof
        if self.workers[place].is_full() {
            return Ok(Answer::Refused(Refusal::NotNow));
        }
        let found = self.output.take_wanted(alloc, worker, wanted, now)?;
        let answer = told_of(&found);
        self.workers[place].set_taken(found);
        Ok(answer)
    }

    /// A worker's chunk is put into its session. On an error nothing has changed.
    pub fn load(&mut self, alloc: Global, worker: u16, now: u64) -> Result<Answer, AllocError>
        ensures answer { IfOk result (λ a.
            a ≡ answer_of (at_worker lives self.old worker (load lives now))) }
        ensures sure { is_free
            (answer_of (at_worker lives self.old worker (load lives now))) ≡ true
            → IsOk result }
        ensures next { OnOk result (self.new
            ≡ state_of self.old (at_worker lives self.old worker (load lives now))) }
        ensures err { OnErr result (self.new ≡ self.old) }
    {
        let place = usize::from(worker);
        if place >= self.workers.len() {
            return Ok(Answer::Refused(Refusal::NoSuch));
        }
        self.workers[place].load(alloc, now)
    }

    /// The link took so many bytes of a worker's session.
    pub fn wrote(&mut self, worker: u16, count: u64) -> Answer
        ensures answer { result
            ≡ answer_of (at_worker lives self.old worker (λ x.
            at_session lives x (wrote lives count))) }
        ensures next { self.new
            ≡ state_of self.old (at_worker lives self.old worker (λ x.
            at_session lives x (wrote lives count))) }
    {
        let place = usize::from(worker);
        if place >= self.workers.len() {
            return Answer::Refused(Refusal::NoSuch);
        }
        self.workers[place].wrote(count)
    }

    /// It is asked at a moment (milliseconds) whether a worker's session is late.
    pub fn late(&mut self, worker: u16, now: u64) -> Answer
        ensures answer { result
            ≡ answer_of (at_worker lives self.old worker (λ x.
            at_session lives x (late lives now))) }
        ensures next { self.new
            ≡ state_of self.old (at_worker lives self.old worker (λ x.
            at_session lives x (late lives now))) }
    {
        let place = usize::from(worker);
        if place >= self.workers.len() {
            return Answer::Refused(Refusal::NoSuch);
        }
        self.workers[place].late(now)
    }

    /// Bytes are read from the link of a worker's session. On an error nothing has changed.
    pub fn heard(&mut self, alloc: Global, worker: u16, bytes: &[u8]) -> Result<Answer, AllocError>
        ensures answer { IfOk result (λ a.
            a ≡ answer_of (at_worker lives self.old worker (λ x.
            at_session lives x (heard lives bytes.now)))) }
        ensures sure { is_free (answer_of (at_worker lives self.old worker (λ x.
            at_session lives x (heard lives bytes.now)))) ≡ true → IsOk result }
        ensures fault { IsBadAt self.old worker bytes.now → IsOk result }
        ensures next { OnOk result (self.new
            ≡ state_of self.old (at_worker lives self.old worker (λ x.
            at_session lives x (heard lives bytes.now)))) }
        ensures err { OnErr result (self.new ≡ self.old) }
    {
        let place = usize::from(worker);
        if place >= self.workers.len() {
            return Ok(Answer::Refused(Refusal::NoSuch));
        }
        self.workers[place].heard(alloc, bytes)
    }

    /// Of a worker's acknowledged chunks the one that was accepted first leaves the output.
    pub fn settle(&mut self, worker: u16) -> Answer
        ensures answer { result ≡ answer_of (settle lives self.old worker) }
        ensures next { self.new ≡ state_of self.old (settle lives self.old worker) }
    {
        let place = usize::from(worker);
        if place >= self.workers.len() {
            return Answer::Refused(Refusal::NoSuch);
        }
        let Some((acked, carried)) = self.workers[place].acked() else {
            return Answer::Refused(Refusal::NotNow);
        };
        let entries = self.output.settle(acked, carried);
        Answer::Settled { entries }
    }

    /// A worker's session is no more, and the chunks that it has go back, at a moment
    /// (milliseconds). It takes no memory.
    pub fn end(&mut self, alloc: Global, worker: u16, kind: EndKind, now: u64) -> Answer
        ensures answer { result ≡ answer_of (end lives self.old worker kind now) }
        ensures next { self.new ≡ state_of self.old (end lives self.old worker kind now) }
    {
        let place = usize::from(worker);
        if place >= self.workers.len() {
            return Answer::Refused(Refusal::NoSuch);
        }
        if self.workers[place].is_idle() || self.workers[place].is_acked() {
            return Answer::Refused(Refusal::NotNow);
        }
        let Leaving {
            kind: _,
            taken,
            loaded,
            server,
        } = self.workers[place].end(alloc, kind);
        let numbers = numbers_back(&taken, &loaded);
        self.output.end(taken, loaded, server, now);
        Answer::Ended { numbers }
    }

    /// What is true of every output's requests. And what it shows as acknowledged is what they need
    /// of it.
    pub fn is_sound(&self)
        ensures sound { IsSound self.now.output.book }
        ensures kept { evidence_for self.now.output.book.requests self.now.output.book.settled
            ≡ self.now.output.book.settled }
    {
        self.output.is_sound(); // for the proof
    }

    /// The origins of a connection's requests that are owed an answer and whose entries are all
    /// acknowledged, in the order in which they were entered.
    pub fn due(&self, alloc: Global, conn: u64) -> Result<Vec<Origin>, AllocError>
        ensures due { IfOk result (λ origins. origins.items
            ≡ map (λ q. q.origin) (live_due self.now.output.book conn)) }
        ensures none { live_due self.now.output.book conn ≡ [] → IsOk result }
    {
        self.output.due(alloc, conn)
    }

    /// What is told of the requests of these origins.
    pub fn telling(&self, alloc: Global, origins: &[Origin]) -> Result<DueAnswers, AllocError>
        ensures requests { IfOk result (λ due.
            due.requests ≡ map (λ o. o.request) origins.now) }
        ensures out { IfOk result (λ due. due.out ≡ concat
            (map (λ o. ack_asked (chunk_at self.now.output.book.requests o)) origins.now)) }
    {
        DueAnswers::of(alloc, &self.output, origins)
    }

    /// Of the requests of these origins those whose entries are all acknowledged are told: they
    /// leave, and their receipts are answered. On an error nothing has changed.
    pub fn collect(&mut self, alloc: Global, origins: &[Origin]) -> Result<Vec<Receipt>, AllocError>
        ensures given { IfOk result (λ given. given.items
            ≡ receipts self.old.output.book.settled self.old.output.book.requests origins.now) }
        ensures told { IfOk result (λ given. self.new ≡ with_live_book self.old
            (live_leaves self.old.output.book (map (λ r. r.origin) given.items))) }
        ensures err { OnErr result (self.new ≡ self.old) }
    {
        self.output.collect(alloc, origins)
    }

    /// Nobody is to be told of a connection's requests any more.
    pub fn forget(&mut self, conn: u64) -> Answer
        ensures answer { result ≡ answer_of (forget lives self.old conn) }
        ensures next { self.new ≡ state_of self.old (forget lives self.old conn) }
    {
        let requests = self.output.forget_of(conn);
        Answer::Forgot { requests }
    }
}
