//! What an output came to.

ghost use Rattle.std.specs.Prelude.{◌≡◌, ◌+◌, Some};
ghost use Rattle.fwd_chunks.specs.Live.{live_counts};
ghost use Rattle.fwd_run.specs.Runs.{output_at};
ghost use Rattle.fwd_output.specs.Seats.{parts_of, counts_of};

use super::Locked;
use crate::tally::{Ledgered, Seat, Tally};
use fwd_history::Run;
use fwd_run::EndedPage;
use std::sync::ledger::Ledger;

/// What an output came to, in entries.
#[derive(Clone, Copy)]
pub struct Closing {
    pub accepted: u64,
    pub settled: u64,
    /// Accepted, and not settled.
    pub left: u64,
}

impl<L: Ledger + Run, M: Ledger + Run> Locked<Ledgered<L>, Ledgered<M>> {
    /// With all seats handed in, what they added is what the output accepted and settled.
    pub fn close(self, admit_seats: Vec<Seat<L>>, work_seats: Vec<Seat<M>>) -> Closing
        requires admitting { parts_of admit_seats.items ≡ L.parts }
        requires working { parts_of work_seats.items ≡ M.parts }
        ensures accepted { result.accepted ≡ counts_of admit_seats.items }
        ensures settled { result.settled ≡ counts_of work_seats.items }
        ensures left { result.accepted ≡ result.settled + result.left }
        ensures counts { let counts = live_counts self.output.buffer in
            (result.accepted ≡ counts.accepted) × (result.settled ≡ counts.settled)
            × (result.left ≡ counts.held) }
    {
        let Locked {
            state,
            accepted,
            settled,
            claimed: _,
            begun: _,
            lost_at: _,
            unasked: _,
            order: _,
        } = self;
        state.is_sound(); // for the proof
        accepted.audit(admit_seats);
        settled.audit(work_seats);
        let counts = state.now().counts();
        Closing {
            accepted: counts.accepted,
            settled: counts.settled,
            left: counts.held,
        }
    }
}

impl<A: Tally + Drop, S: Tally + Drop> Locked<A, S> {
    /// Nothing happens to the output any more: its page, by which it is what it is.
    pub(crate) fn ends(self) -> EndedPage<A::Run>
        ensures { output_at result.past result.output ≡ Some self.output }
    {
        let Locked { state, .. } = self;
        state.ends()
    }
}
