//! An output's page in the history of its run.

ghost use Rattle.std.specs.Prelude.{
  ◌≡◌,
  ◌<◌,
  ◌+◌,
  ℕ,
  List,
  [],
  ◌∷◌,
  ◌++◌,
  Some,
  None,
  false,
  is_some,
  map,
  option_to_list,
};
ghost use Rattle.fwd_chunks.specs.History.{BufferSetting};
ghost use Rattle.fwd_modes.specs.Requests.{Request};
ghost use Rattle.fwd_match.specs.Patterns.{route};
ghost use Rattle.fwd_source.specs.Live.{LiveSource, source_gives};
ghost use Rattle.fwd_chunks.specs.Live.{live_flushes, live_refusal, live_takes};
ghost use Rattle.fwd_failover.specs.History.{ServersSetting};
ghost use Rattle.fwd_session.specs.History.{first_in};
ghost use Rattle.fwd_session.specs.Live.{LiveSession, session_unloads};
ghost use Rattle.fwd_session.specs.ServerAcks.{Accepted, evidence_of};
ghost use Rattle.fwd_book.specs.Live.{live_leaves};
ghost use Rattle.fwd_model.specs.declared.config.OutputConfig.{OutputConfig};
ghost use Rattle.fwd_model.specs.Layers.{Worker};
ghost use Rattle.fwd_model.specs.Live.{lives};
ghost use Rattle.fwd_model.specs.Names.{Output};
ghost use Rattle.fwd_model.specs.Outcome.{first_of};
ghost use Rattle.fwd_model.specs.Outputs.{
  LiveOutput,
  no_requests,
  output_ends,
  output_enters,
  output_looks,
  output_settles,
};
ghost use Rattle.fwd_model.specs.Step.{
  gives_back,
  has_acked,
  is_full,
  is_idle,
  lost_server,
  with_session,
};
ghost use Rattle.fwd_run.specs.Pages.{AreCarried, chunks_in, given_in};
ghost use Rattle.fwd_run.specs.Runs.{key_of, output_at, settings_at};

use crate::run_event::{ReachedHistory, RunPage};
use crate::source_page::SourcePage;
use crate::step::{Is, Step};
use crate::worker_page::WorkerPage;
use fwd_book::Receipt;
use fwd_chunks::{FlushKind, Wanted};
use fwd_history::Run;
use fwd_model::EndKind;
use fwd_modes::Origin;
use std::marker::Model;

/// The page of an output: with it the output's events are added, and so it is known what the output
/// is after them. It has no part in what runs but its number.
#[derive(Drop)]
pub struct OutputPage<J: Run> {
    pub(crate) page: RunPage<J>,
    pub(crate) output: u16,
}

impl<J: Run> Model for OutputPage<J> {
    ghost use Rattle.std.specs.Prelude.{◌≡◌, ◌<◌};
    ghost use Rattle.fwd_model.specs.Names.{Output};
    ghost use Rattle.fwd_run.specs.Pages.{OutputKnown};
    ghost use Rattle.fwd_run.specs.Runs.{key_of, output_at, settings_at};

    ghost Value = { OutputKnown };

    ghost view = { λ o. record {
      output = o.output;
      settings = settings_at o.page.1 o.output;
      is = output_at o.page.1 o.output;
    } };

    ghost invariant = { λ o. (o.page.0 ≡ key_of (Output o.output)) × (o.output < 64) };
}

impl<J: Run> OutputPage<J> {
    /// The page of the output of this number, to which nothing has happened by a history that is
    /// reached.
    pub fn new(page: RunPage<J>, reached: &ReachedHistory<J>, output: u16) -> OutputPage<J>
        requires page { (page.0 ≡ key_of (Output output)) × (page.1 ≡ []) }
        requires few { output < 64 }
        requires begun { (setting : BufferSetting) × (servers : ServersSetting)
            × (output_at reached.now output ≡ Some (no_requests setting servers)) }
        ensures { result ≡ record {
          output = output;
          settings = settings_at reached.now output;
          is = output_at reached.now output;
        } }
    {
        let mut page = page;
        let step = Step::Known { output };
        page.add_after::<Step<'_>, Is>(reached, &step);
        OutputPage { page, output }
    }

    /// The output's number.
    pub fn output(&self) -> u16
        ensures { result ≡ self.now.output }
    {
        self.output
    }

    /// The history of the run as far as it is known here.
    pub fn reached(&self) -> ReachedHistory<J>
        ensures { output_at result self.now.output ≡ self.now.is }
    {
        self.page.reached()
    }

    /// Open chunks are closed at a moment (milliseconds).
    pub fn flush(&mut self, now: u64, kind: FlushKind)
        ensures { (p : LiveOutput) → self.old.is ≡ Some p → self.new ≡ record self.old {
          is = Some (record p { buffer = live_flushes p.buffer now kind });
        } }
    {
        let step = Step::Flush {
            output: self.output,
            now,
            kind,
        };
        self.page.add::<Step<'_>, Is>(&step);
    }

    /// A moment (milliseconds) is handed in: the output's first worker asks which server it is to
    /// try.
    pub fn look(&mut self, now: u64)
        ensures { (p : LiveOutput) (config : OutputConfig) → self.old.is ≡ Some p
            → self.old.settings ≡ Some config → 0 < config.workers → self.new ≡ record self.old {
              is = Some (output_looks p now);
            } }
    {
        let step = Step::Look {
            output: self.output,
            now,
        };
        self.page.add::<Step<'_>, Is>(&step);
    }

    /// Requests are answered by these receipts.
    pub fn told(&mut self, receipts: &[Receipt])
        ensures { (p : LiveOutput) → self.old.is ≡ Some p → self.new ≡ record self.old {
          is = Some (record p {
            book = live_leaves p.book (map (λ r. r.origin) receipts.now);
          });
        } }
    {
        let step = Step::Told {
            output: self.output,
            receipts,
        };
        self.page.add::<Step<'_>, Is>(&step);
    }

    /// Nobody is to be told of a request any more.
    pub fn left(&mut self, origin: Origin)
        ensures { (p : LiveOutput) → self.old.is ≡ Some p → self.new ≡ record self.old {
          is = Some (record p { book = live_leaves p.book (origin ∷ []) });
        } }
    {
        let step = Step::Left {
            output: self.output,
            origin,
        };
        self.page.add::<Step<'_>, Is>(&step);
    }

    /// The first request of a connection that waits goes to this output at a moment (milliseconds).
    pub fn admit(&mut self, source: &mut SourcePage<J>, now: u64)
        ensures { (p : LiveOutput) (s : LiveSource) (q : Request) (routes : List (List (List ℕ))) →
            self.old.is ≡ Some p → source.old.is ≡ Some s → source.old.routes ≡ Some routes →
            first_of s.waiting ≡ Some q → route routes q.tag ≡ Some self.old.output →
            live_refusal p.buffer q now ≡ None → (self.new ≡ record self.old {
              is = Some (output_enters p
                  (record { conn = source.old.id; request = s.admitted + 1 }) q now);
            }) × (source.new ≡ record source.old { is = Some (source_gives s) }) }
    {
        let step = Step::Admit {
            id: source.id,
            output: self.output,
            now,
        };
        source.page.add_with::<Step<'_>, Is>(&mut self.page, &step);
    }

    /// A worker takes the free chunk that it wants at a moment (milliseconds), if there is one.
    pub fn take(&mut self, worker: &mut WorkerPage<J>, now: u64, wanted: Wanted)
        requires same { worker.old.output ≡ self.old.output }
        requires may { (x : Worker LiveSession) → worker.old.has ≡ Some x
            → (is_some x.taken ≡ false) × (is_full lives x.session ≡ false) }
        ensures { (p : LiveOutput) (x : Worker LiveSession) → self.old.is ≡ Some p
            → worker.old.has ≡ Some x → (self.new ≡ record self.old {
              is = Some (record p { buffer = live_takes p.buffer worker.old.worker wanted now });
            }) × (worker.new ≡ record worker.old {
              has = Some (record x { taken = given_in p wanted now });
            }) }
    {
        let step = Step::Take {
            output: self.output,
            worker: worker.worker,
            now,
            wanted,
        };
        self.page.add_with::<Step<'_>, Is>(&mut worker.page, &step);
    }

    /// The first of a worker's acknowledged chunks is settled.
    pub fn settle(&mut self, worker: &mut WorkerPage<J>)
        requires same { worker.old.output ≡ self.old.output }
        ensures held { (p : LiveOutput) (x : Worker LiveSession) → self.old.is ≡ Some p
            → worker.old.has ≡ Some x
            → AreCarried p.buffer (option_to_list x.taken ++ chunks_in x.session) }
        ensures next { (p : LiveOutput) (x : Worker LiveSession) (s : LiveSession) (a : Accepted) →
            self.old.is ≡ Some p → worker.old.has ≡ Some x → x.session ≡ Some s →
            first_in s.accepted ≡ Some a → (self.new ≡ record self.old {
              is = Some (output_settles p (evidence_of s.setup.server a));
            }) × (worker.new ≡ record worker.old {
              has = Some (with_session x (session_unloads s));
            }) }
    {
        let step = Step::Settle {
            output: self.output,
            worker: worker.worker,
        };
        self.page.add_with::<Step<'_>, Is>(&mut worker.page, &step);
    }

    /// A worker's session is no more, at a moment (milliseconds): what the worker has is given
    /// back, and its server may be lost.
    pub fn end(&mut self, worker: &mut WorkerPage<J>, kind: EndKind, now: u64)
        requires same { worker.old.output ≡ self.old.output }
        ensures held { (p : LiveOutput) (x : Worker LiveSession) → self.old.is ≡ Some p
            → worker.old.has ≡ Some x
            → AreCarried p.buffer (option_to_list x.taken ++ chunks_in x.session) }
        ensures next { (p : LiveOutput) (x : Worker LiveSession) → self.old.is ≡ Some p
            → worker.old.has ≡ Some x → is_idle lives x ≡ false
            → has_acked lives x.session ≡ false → (self.new ≡ record self.old {
              is = Some (output_ends p (gives_back lives x) (lost_server lives kind x.session) now);
            }) × (worker.new ≡ record worker.old {
              has = Some (record { taken = None; session = None });
            }) }
    {
        let step = Step::End {
            output: self.output,
            worker: worker.worker,
            kind,
            now,
        };
        self.page.add_with::<Step<'_>, Is>(&mut worker.page, &step);
    }
}
