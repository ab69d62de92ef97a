//! The page of a worker's place in the history of its run.

ghost use Rattle.std.specs.Prelude.{◌≡◌, ◌<◌, ◌≤◌, ℕ, [], Some, None, true, false, length, nat_lt};
ghost use Rattle.fwd_chunks.specs.History.{CarriedChunk};
ghost use Rattle.fwd_session.specs.Live.{
  LiveSession,
  live_is_ready,
  live_room,
  session_begins,
  session_hears,
  session_loads,
  session_looks,
  session_sends,
};
ghost use Rattle.fwd_model.specs.declared.config.OutputConfig.{OutputConfig};
ghost use Rattle.fwd_model.specs.Layers.{Worker};
ghost use Rattle.fwd_model.specs.Setups.{session_setup};
ghost use Rattle.fwd_model.specs.Names.{Session};
ghost use Rattle.fwd_model.specs.Step.{with_session};
ghost use Rattle.fwd_run.specs.Runs.{key_of, settings_at, worker_at};

use crate::run_event::{ReachedHistory, RunPage};
use crate::step::{Is, Step};
use fwd_history::Run;
use std::marker::Model;

/// The page of a worker's place: with it the events of the worker and its session are added, and so
/// it is known what the worker has after them. It has no part in what runs but its numbers.
#[derive(Drop)]
pub struct WorkerPage<J: Run> {
    pub(crate) page: RunPage<J>,
    pub(crate) output: u16,
    pub(crate) worker: u16,
}

impl<J: Run> Model for WorkerPage<J> {
    ghost use Rattle.std.specs.Prelude.{◌≡◌};
    ghost use Rattle.fwd_model.specs.Names.{Session};
    ghost use Rattle.fwd_run.specs.Pages.{WorkerKnown};
    ghost use Rattle.fwd_run.specs.Runs.{key_of, settings_at, worker_at};

    ghost Value = { WorkerKnown };

    ghost view = { λ w. record {
      output = w.output;
      worker = w.worker;
      settings = settings_at w.page.1 w.output;
      has = worker_at w.page.1 w.output w.worker;
    } };

    ghost invariant = { λ w. w.page.0 ≡ key_of (Session w.output w.worker) };
}

impl<J: Run> WorkerPage<J> {
    /// The page of a worker that has nothing by a history that is reached.
    pub fn new(
        page: RunPage<J>,
        reached: &ReachedHistory<J>,
        output: u16,
        worker: u16,
    ) -> WorkerPage<J>
        requires page { (page.0 ≡ key_of (Session output worker)) × (page.1 ≡ []) }
        requires begun { worker_at reached.now output worker
            ≡ Some (record { taken = None; session = None }) }
        ensures { result ≡ record {
          output = output;
          worker = worker;
          settings = settings_at reached.now output;
          has = Some (record { taken = None; session = None });
        } }
    {
        let mut page = page;
        let step = Step::Late {
            output,
            worker,
            now: 0,
        };
        page.add_after::<Step<'_>, Is>(reached, &step);
        WorkerPage {
            page,
            output,
            worker,
        }
    }

    /// The number of its output.
    pub fn output(&self) -> u16
        ensures { result ≡ self.now.output }
    {
        self.output
    }

    /// The worker's number.
    pub fn worker(&self) -> u16
        ensures { result ≡ self.now.worker }
    {
        self.worker
    }

    /// The worker has a link to a server at a moment (milliseconds): a session begins. The salt is
    /// for the PING.
    pub fn up(&mut self, server: u16, salt: &[u8], now: u64)
        ensures { (x : Worker LiveSession) (config : OutputConfig) → self.old.has ≡ Some x
            → self.old.settings ≡ Some config → nat_lt server (length config.standby) ≡ true
            → x.session ≡ None → self.new ≡ record self.old {
              has = Some (with_session x
                  (session_begins (session_setup config server salt.now now)));
            } }
    {
        let step = Step::Up {
            output: self.output,
            worker: self.worker,
            server,
            salt,
            now,
        };
        self.page.add::<Step<'_>, Is>(&step);
    }

    /// The chunk that the worker took goes into its session at a moment (milliseconds).
    pub fn load(&mut self, now: u64)
        ensures { (x : Worker LiveSession) (s : LiveSession) (c : CarriedChunk) →
            self.old.has ≡ Some x → x.session ≡ Some s → x.taken ≡ Some c → 0 < live_room s
            → live_is_ready s ≡ true → self.new ≡ record self.old {
              has = Some (record { taken = None; session = Some (session_loads s c now) });
            } }
    {
        let step = Step::Load {
            output: self.output,
            worker: self.worker,
            now,
        };
        self.page.add::<Step<'_>, Is>(&step);
    }

    /// The session's link took so many bytes of those that wait.
    pub fn wrote(&mut self, count: u64)
        ensures { (x : Worker LiveSession) (s : LiveSession) → self.old.has ≡ Some x
            → x.session ≡ Some s → count ≤ length s.waiting → self.new ≡ record self.old {
              has = Some (with_session x (session_sends s count));
            } }
    {
        let step = Step::Wrote {
            output: self.output,
            worker: self.worker,
            count,
        };
        self.page.add::<Step<'_>, Is>(&step);
    }

    /// Bytes are read from the session's link, which is not down.
    pub fn heard(&mut self, bytes: &[u8])
        ensures { (x : Worker LiveSession) (s : LiveSession) → self.old.has ≡ Some x
            → x.session ≡ Some s → s.down ≡ false → self.new ≡ record self.old {
              has = Some (with_session x (session_hears s bytes.now));
            } }
    {
        let step = Step::Heard {
            output: self.output,
            worker: self.worker,
            bytes,
        };
        self.page.add::<Step<'_>, Is>(&step);
    }

    /// It is asked at a moment (milliseconds) whether the session is late, which is not down.
    pub fn late(&mut self, now: u64)
        ensures { (x : Worker LiveSession) (s : LiveSession) → self.old.has ≡ Some x
            → x.session ≡ Some s → s.down ≡ false → self.new ≡ record self.old {
              has = Some (with_session x (session_looks s now));
            } }
    {
        let step = Step::Late {
            output: self.output,
            worker: self.worker,
            now,
        };
        self.page.add::<Step<'_>, Is>(&step);
    }
}
