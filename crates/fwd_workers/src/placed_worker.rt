//! A worker at its place in the history of a run.

ghost use Rattle.std.specs.Prelude.{◌≡◌, ◌≤◌, Some, None, length, option_map};
ghost use Rattle.std.specs.Arc.{arc_value};
ghost use Rattle.fwd_model.specs.declared.config.OutputConfig.{OutputConfig};
ghost use Rattle.fwd_workers.specs.Placed.{Stands, with};
ghost use Rattle.fwd_workers.specs.Working.{IsEarned};

use crate::worker::{SessionTerms, Worker, WorkerEnd};
use fwd_environment::{Clock, Gate, Hub};
use fwd_history::Run;
use fwd_output::{SharedOutput, Tally};
use fwd_run::WorkerPage;
use rand_chacha::ChaCha20Rng;
use std::alloc::Global;
use std::sync::Wait;

/// A worker of an output, which has no chunk and no session between its runs.
#[derive(Drop)]
pub struct PlacedWorker<J: Run> {
    worker: Worker<J>,
    ghost has: { worker.page.has ≡ Some (with None None) },
    ghost login: { option_map (λ (set : OutputConfig). set.login) worker.page.settings
        ≡ Some (arc_value worker.terms.login) },
    ghost acks: { option_map (λ (set : OutputConfig). set.acks) worker.page.settings
        ≡ Some worker.terms.acks },
    ghost servers: { option_map (λ (set : OutputConfig). length set.standby) worker.page.settings
        ≡ Some worker.terms.servers },
}

impl<J: Run> PlacedWorker<J> {
    /// A worker that begins sessions by these terms, which are those of its output. It draws the
    /// salts of its handshakes from a generator of its own.
    pub fn new(
        alloc: Global,
        page: WorkerPage<J>,
        terms: SessionTerms,
        rng: ChaCha20Rng,
    ) -> PlacedWorker<J>
        requires { Stands page (with None None) terms }
    {
        PlacedWorker {
            worker: Worker::new(alloc, page, terms, rng),
        }
    }

    /// As `Worker::run`: it takes chunks, sends them to servers and settles what these acknowledge,
    /// in so many turns, or until the gate stops it. At the end each accepted chunk is settled, and
    /// those that are taken or loaded go back. No more entries count than those chunks have that
    /// were acknowledged over links of the hub.
    pub fn run<A: Tally<Run = J>, S: Tally, H: Hub, G: Gate, C: Clock, R: Wait>(
        &mut self,
        rt: &R,
        out: &SharedOutput<A, S>,
        seat: S::Seat,
        hub: &mut H,
        gate: &mut G,
        clock: &mut C,
        turns: u64,
    ) -> (S::Seat, WorkerEnd)
        ensures count { S.count seat ≤ S.count result.0 }
        ensures most { ∥ IsEarned (λ link. H.Line.calls link) (λ n. S.kept n) (S.count seat)
            (S.count result.0) ∥₁ }
        ensures parts { S.parts result.0 ≡ S.parts seat }
    {
        self.worker.run(rt, out, seat, hub, gate, clock, turns)
    }
}
