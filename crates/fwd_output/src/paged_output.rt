//! An output with its page of the history of its run. What changes the output adds an event of its
//! own to that history, in proofs alone: behind the last call that can fail, or before a call that
//! cannot.

ghost use Rattle.std.specs.Prelude.{
  ◌≡◌,
  ◌≤◌,
  ◌<◌,
  ◌++◌,
  Err,
  None,
  Some,
  true,
  false,
  List,
  [],
  ◌∷◌,
  length,
  option_map,
  option_to_list,
  vec_capacity,
  Contains,
  IfErr,
  IfOk,
  IfSome,
  IsOk,
  OnErr,
  OnOk,
};
ghost use Rattle.std.specs.Arc.{arc_value};
ghost use Rattle.fwd_chunks.specs.Live.{
  IsCarried,
  live_closing,
  live_flushes,
  live_given_for,
  live_carried_chunk,
  live_looks,
  live_refusal,
  live_spans,
  live_takes,
};
ghost use Rattle.fwd_chunks.specs.Soundness.{IsSound};
ghost use Rattle.fwd_session.specs.ServerAcks.{IsServerAck};
ghost use Rattle.fwd_book.specs.History.{request_at};
ghost use Rattle.fwd_book.specs.Live.{IsSound as IsSoundBook, live_leaves};
ghost use Rattle.fwd_model.specs.declared.config.OutputConfig.{OutputConfig};
ghost use Rattle.fwd_model.specs.Names.{Output};
ghost use Rattle.fwd_model.specs.Outputs.{
  live_count_at,
  output_choice,
  output_ends,
  output_enters,
  output_looks,
  output_settles,
  returned,
};
ghost use Rattle.fwd_run.specs.Runs.{key_of, output_at, settings_at};
ghost use Rattle.fwd_output.specs.OutputEvents.{IsLiveOutput};
ghost use Rattle.fwd_output.specs.Paged.{
  begun_by,
  Ends,
  Gives,
  HasAcked,
  IsAsked,
  IsTrial,
  MayEnd,
  MayTake,
  Settles,
  Takes,
};
ghost use Rattle.fwd_output.specs.Tickets.{Ticket as AbstractTicket};
ghost use Rattle.fwd_output.specs.Turns.{AreCollected, AreDue, origins_of, receipts_for};

use crate::collecting::hand_out;
use crate::leaving::Leaving;
use crate::output::OutputState;
use crate::output_setup::OutputSetup;
use crate::ticket::{Admitted, Ticket};
use fwd_book::Receipt;
use fwd_chunks::{AdmitError, Carried, FlushKind, Wanted};
use fwd_history::Run;
use fwd_model::EndKind;
use fwd_modes::{Batch, Origin};
use fwd_run::{EndedPage, OutputPage, ReachedHistory, RunPage, SourcePage, WorkerPage};
use fwd_session::Acked;
use std::alloc::{AllocError, Global};
use std::marker::Model;
use std::sync::Arc;

/// An output and its page, which knows what it is; and the page of a worker that never has a chunk,
/// in whose name servers are lost that could not be reached by one that has a session.
pub struct PagedOutput<J: Run> {
    state: OutputState,
    page: OutputPage<J>,
    trial: WorkerPage<J>,
    /// How many servers the output has.
    servers: u16,
}

// A drop of its own is proved once, and not at each place where an output goes.
impl<J: Run> Drop for PagedOutput<J> {
    fn drop(self) {
        let PagedOutput {
            state: _,
            page: _,
            trial: _,
            servers: _,
        } = self;
    }
}

impl<J: Run> Model for PagedOutput<J> {
    ghost use Rattle.fwd_model.specs.Outputs.{LiveOutput};
    ghost use Rattle.fwd_output.specs.Paged.{IsPaged, IsTrial};

    ghost Value = { LiveOutput };

    ghost view = { λ o. o.state };

    ghost invariant = { λ o. IsPaged o.page o.state
        × IsTrial o.trial o.page.output o.servers };
}

impl<J: Run> PagedOutput<J> {
    /// An output without entries begins, with the page of its number, 0 to 63, and that of a worker
    /// that has nothing: it is as the run's settings say. Of its servers, 1 to 16, one at least is
    /// no standby. The only error is out of memory.
    pub fn new(
        alloc: Global,
        page: RunPage<J>,
        trial: WorkerPage<J>,
        reached: &ReachedHistory<J>,
        setup: OutputSetup<'_>,
    ) -> Result<Self, AllocError>
        requires page { (page.0 ≡ key_of (Output setup.output)) × (page.1 ≡ []) }
        requires number { setup.output < 64 }
        requires begun { output_at reached.now setup.output
            ≡ Some (begun_by setup.limits setup.run setup.output setup.standby.now) }
        requires workers { (config : OutputConfig)
            × (settings_at reached.now setup.output ≡ Some config) × (0 < config.workers) }
        requires trial { IsTrial trial setup.output (length setup.standby.now) }
        requires few { length setup.standby.now ≤ 16 }
        requires has_primary { Contains setup.standby.now false }
        ensures { let s = setup.entry in IfOk result (λ output. output
            ≡ begun_by s.limits s.run s.output s.standby.now) }
    {
        let OutputSetup {
            limits,
            run,
            output,
            standby,
        } = setup;
        let state = OutputState::new(alloc, limits, run, output, standby)?;
        let page = OutputPage::new(page, reached, output);
        Ok(PagedOutput {
            state,
            page,
            trial,
            servers: standby.len() as u16,
        })
    }

    /// What is true of every output.
    pub(crate) fn is_sound(&self)
        ensures chunks { IsSound self.now.buffer }
        ensures requests { IsSoundBook self.now.book }
        ensures reached { IsLiveOutput self.now }
    {
        self.state.is_sound(); // for the proof
    }

    /// The output.
    pub(crate) fn now(&self) -> &OutputState
        ensures { result.now ≡ self.now }
    {
        &self.state
    }

    /// The history of the run as far as it is known here: after it the output is what it is.
    pub(crate) fn reached(&self) -> ReachedHistory<J>
        ensures { output_at result self.now.book.setting.output ≡ Some self.now }
    {
        self.page.reached()
    }

    /// Nothing happens to the output any more: its page, by which it is what it is.
    pub(crate) fn ends(self) -> EndedPage<J>
        ensures { output_at result.past result.output ≡ Some self }
    {
        let PagedOutput {
            state: _,
            page,
            trial: _,
            servers: _,
        } = self;
        page.ends()
    }

    /// As `OutputState::admit`, of the first request that waits at a source.
    pub(crate) fn admit(
        &mut self,
        alloc: Global,
        source: &mut SourcePage<J>,
        origin: Origin,
        batch: &Batch,
        now: u64,
    ) -> Result<Admitted, AdmitError>
        requires new { request_at self.old.book.requests origin ≡ None }
        requires asked { IsAsked source.old self.old.book.setting.output origin batch.now }
        ensures refused { IfSome (live_refusal self.old.buffer batch.now now) (λ fault.
            result ≡ Err fault) }
        ensures ok { OnOk result (self.new ≡ output_enters self.old origin batch.now now) }
        ensures spans { IfOk result (λ admitted.
            admitted.spans ≡ live_spans self.old.buffer batch.now now) }
        ensures memory { live_refusal self.old.buffer batch.now now ≡ None
            → IfErr result (λ error. error ≡ AdmitError.Memory) }
        ensures err { OnErr result (self.new ≡ self.old) }
        ensures gives { OnOk result (Gives source.old source.new) }
        ensures stays { OnErr result (source.new ≡ source.old) }
    {
        let admitted = self.state.admit(alloc, origin, batch, now)?;
        self.page.admit(source, now);
        Ok(admitted)
    }

    /// As `OutputState::flush`.
    pub(crate) fn flush(&mut self, now: u64, kind: FlushKind) -> usize
        ensures count { result ≡ length (live_closing self.old.buffer now kind) }
        ensures flushed { self.new ≡ record self.old {
          buffer = live_flushes self.old.buffer now kind;
        } }
    {
        let count = self.state.flush(now, kind);
        self.page.flush(now, kind);
        count
    }

    /// As `OutputState::take_wanted`, by a worker that may take a chunk.
    pub(crate) fn take_wanted(
        &mut self,
        alloc: Global,
        worker: &mut WorkerPage<J>,
        wanted: Wanted,
        now: u64,
    ) -> Result<Option<Carried>, AllocError>
        requires { MayTake worker.old self.old.book.setting.output }
        ensures given { IfOk result (λ carried. carried ≡ option_map
            (live_carried_chunk self.old.buffer)
            (live_given_for (live_looks self.old.buffer now) wanted)) }
        ensures ok { OnOk result (self.new ≡ record self.old {
          buffer = live_takes self.old.buffer worker.old.worker wanted now;
        }) }
        ensures err { OnErr result (self.new ≡ self.old) }
        ensures takes { IfOk result (λ carried. Takes worker.old carried worker.new) }
        ensures stays { OnErr result (worker.new ≡ worker.old) }

        // Where none is free, no memory is taken.
        ensures none { live_given_for (live_looks self.old.buffer now) wanted ≡ None
            → IsOk result }
    {
        let taken = self.state.take_wanted(alloc, worker.worker(), wanted, now)?;
        self.page.take(worker, now, wanted);
        Ok(taken)
    }

    /// As `OutputState::choose`.
    pub(crate) fn choose(&mut self, worker: u16, now: u64) -> Option<u16>
        ensures choice { result ≡ output_choice self.old worker now }
        ensures looked { self.new ≡ output_looks self.old now }
    {
        let server = self.state.choose(worker, now);
        self.page.look(now);
        server
    }

    /// As `OutputState::settle`, of the chunk that a worker's session has acknowledged first.
    pub(crate) fn settle(
        &mut self,
        worker: &mut WorkerPage<J>,
        acked: Arc<Acked>,
        carried: Carried,
    ) -> usize
        requires backed { IsServerAck (arc_value acked) carried }
        requires acked { HasAcked worker.old self.old.book.setting.output (arc_value acked) carried }
        ensures held { IsCarried self.old.buffer carried }
        ensures settled { self.new ≡ output_settles self.old (arc_value acked) }
        ensures count { result ≡ live_count_at carried.number self.old }
        ensures settles { Settles worker.old worker.new }
    {
        self.page.settle(worker);
        self.state.settle(acked, carried)
    }

    /// As `OutputState::end`, of all that a worker has.
    pub(crate) fn end(&mut self, worker: &mut WorkerPage<J>, leaving: Leaving, now: u64)
        requires { MayEnd worker.old self.old.book.setting.output leaving.kind leaving.taken
            leaving.loaded.items leaving.server }
        ensures ended { self.new ≡ output_ends self.old
            (returned leaving.taken leaving.loaded.items) leaving.server now }
        ensures accepted { self.new.buffer.accepted ≡ self.old.buffer.accepted }
        ensures settled { self.new.buffer.settled ≡ self.old.buffer.settled }
        ensures ends { Ends worker.old worker.new }
    {
        let Leaving {
            kind,
            taken,
            loaded,
            server,
        } = leaving;
        self.page.end(worker, kind, now);
        self.state.end(taken, loaded, server, now);
    }

    /// A server is lost at a moment (milliseconds) that could not be reached, and no chunk. Answers
    /// whether the output has such a server.
    pub(crate) fn lose(&mut self, alloc: Global, server: u16, now: u64) -> bool
        ensures lost { result ≡ true → self.new ≡ output_ends self.old [] (Some server) now }
        ensures other { result ≡ false → self.new ≡ self.old }
        ensures accepted { self.new.buffer.accepted ≡ self.old.buffer.accepted }
        ensures settled { self.new.buffer.settled ≡ self.old.buffer.settled }
    {
        if server >= self.servers {
            return false;
        }
        self.trial.up(server, &[], now);
        self.page.end(&mut self.trial, EndKind::Lost, now);
        self.state.end(None, Vec::new(alloc), Some(server), now);
        true
    }

    /// As `OutputState::leave_at`: nobody is to be told any more.
    pub(crate) fn leave_at(&mut self, slot: usize, origin: Origin)
        ensures { self.new ≡ record self.old {
          book = live_leaves self.old.book (origin ∷ []);
        } }
    {
        self.state.leave_at(slot, origin);
        self.page.left(origin);
    }

    /// As `hand_out`: those whose tickets are given their receipts are told.
    pub(crate) fn hand_out(
        &mut self,
        tickets: Vec<Ticket>,
        due: Vec<Option<Receipt>>,
        receipts: Vec<Receipt>,
        back: Vec<Ticket>,
    ) -> (Vec<Receipt>, Vec<Ticket>)
        requires due { AreDue self.old.book tickets.items due.items }
        requires none { (receipts.items ≡ []) × (back.items ≡ []) }
        requires room { (length tickets.items ≤ vec_capacity receipts)
            × (length tickets.items ≤ vec_capacity back) }
        ensures { (told : List AbstractTicket)
            × AreCollected self.old.book [] tickets.items told result.1.items
            × (result.0.items ≡ receipts_for self.old.book told)
            × (self.new ≡ record self.old {
              book = live_leaves self.old.book (origins_of told);
            }) }
    {
        self.state.is_sound(); // for the proof
        let given = hand_out(&mut self.state, tickets, due, receipts, back);
        self.page.told(&given.0);
        given
    }
}
