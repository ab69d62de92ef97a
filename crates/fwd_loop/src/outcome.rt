//! What a run came to.

ghost use Rattle.std.specs.Prelude.{◌≡◌, true, length, Some, All, IfOk, IfSome};
ghost use Rattle.fwd_history.specs.Histories.{Comes};
ghost use Rattle.fwd_listeners.specs.Endings.{is_nothing};
ghost use Rattle.fwd_loop.specs.Delivered.{AreEmptied};
ghost use Rattle.fwd_reader.specs.Ends.{AddUp, AreReportsAfter};
ghost use Rattle.fwd_turns.specs.Draining.{IsReadOut};
ghost use Rattle.fwd_turns.specs.declared.draining.DrainSeen.{DrainSeen};

use fwd_chunks::Report;
use fwd_history::Run;
use fwd_listeners::{Control, ControlAnswer, Ending, Left, SocketFile, ending_of};
use fwd_monitors::StartFault;
use fwd_output::UnsentRequests;
use fwd_reader::{Output, last_reports};
use fwd_run::{ReachedHistory, empty_output_has_delivered};
use fwd_turns::DrainSeen;
use std::alloc::{AllocError, Global};

/// What a run came to.
#[derive(Drop)]
pub struct Outcome<J: Run> {
    /// What each output has to do with in the end, in the settings' order.
    pub reports: Vec<Report>,
    /// Why it ended.
    pub ending: Ending,
    /// What is not delivered.
    pub left: Left,
    /// What was seen of the relay in the end, where it was asked to stop.
    pub seen: Option<DrainSeen>,
    /// The history of the run, for the proof: behind it the outputs are what they report.
    pub reached: ReachedHistory<J>,
}

/// A run that ended: what it came to, who asked it to stop, if it can be asked, and the file of the
/// closed socket where sources connected, if that had one.
#[derive(Drop)]
pub(crate) struct Ended<J: Run> {
    pub outcome: Result<Outcome<J>, StartFault>,
    pub control: Option<Control>,
    pub file: Option<SocketFile>,
}

/// Outputs that hold nothing, by these reports, have delivered all that entered them, behind a
/// history of the run. It does nothing.
fn have_delivered<J: Run>(reached: &ReachedHistory<J>, reports: &[Report])
    requires { AreReportsAfter reached.now reports.now }
    ensures { All (λ report. report.counts.held ≡ 0) reports.now
        → AreEmptied reached.now reports.now }
{
    reached.is_legal(); // for the proof
    empty_output_has_delivered(); // for the proof
}

/// What is left beside what outputs hold: the requests that no output admitted, and the sources
/// that were not read to their end.
fn left_of(seen: Option<DrainSeen>, unsent: UnsentRequests) -> Left
    ensures read_out { is_nothing result ≡ true → IfSome seen IsReadOut }
{
    Left {
        entries: unsent.entries,
        unasked: unsent.unasked,
        sources: seen.map_or(0, |seen| seen.unread()),
    }
}

impl<J: Run> Outcome<J> {
    /// What a run over these outputs came to, of which this was seen in the end where it was asked
    /// to stop, which did not admit some requests, and which had reached a history before. Nobody
    /// shares the outputs any more. The only error is out of memory.
    pub(crate) fn of(
        alloc: Global,
        outputs: Vec<Output<J>>,
        reached: &ReachedHistory<J>,
        seen: Option<DrainSeen>,
        unsent: UnsentRequests,
    ) -> Result<Outcome<J>, AllocError>
        ensures count { IfOk result (λ o. length o.reports.items ≡ length outputs.items) }
        ensures add_up { IfOk result (λ o. AddUp o.reports.items) }
        ensures reached { IfOk result (λ o. AreReportsAfter o.reached o.reports.items) }
        ensures onward { IfOk result (λ o. Comes reached.now o.reached) }
        ensures delivered { IfOk result (λ o. o.ending ≡ Ending.Delivered
            → All (λ report. report.counts.held ≡ 0) o.reports.items) }
        ensures read_out { IfOk result (λ o. o.ending ≡ Ending.Delivered
            → (last : DrainSeen) × ((o.seen ≡ Some last) × IsReadOut last)) }
        ensures emptied { IfOk result (λ o. o.ending ≡ Ending.Delivered
            → AreEmptied o.reached o.reports.items) }
    {
        let (reports, reached) = last_reports(alloc, outputs, reached)?;
        have_delivered(&reached, &reports); // for the proof
        let left = left_of(seen, unsent).with_held(&reports);
        Ok(Outcome {
            reports,
            ending: ending_of(seen.is_some(), left),
            left,
            seen,
            reached,
        })
    }

    /// What whoever asked the relay to stop is told of it.
    pub(crate) fn answer(&self) -> ControlAnswer {
        self.ending.answer(self.left)
    }
}
