//! What a run leaves behind that was asked to stop.

ghost use Rattle.std.specs.Prelude.{◌≡◌, true, All};
ghost use Rattle.fwd_listeners.specs.Endings.{is_nothing, with_held};

use fwd_base::Report;
use std::fmt;

/// What is not delivered when a stop is over.
#[derive(Clone, Copy, Debug, PartialEq, Eq)]
pub struct Left {
    /// Entries that are not delivered, with those of requests that wait for room.
    pub entries: u64,
    /// How many of the entries are of sources that do not ask for acknowledgements. Nobody sends
    /// these entries again.
    pub unasked: u64,
    /// Sources that were not read to the end.
    pub sources: u64,
}

impl Left {
    /// Nothing is left.
    pub const NOTHING: Left = Left {
        entries: 0,
        unasked: 0,
        sources: 0,
    };

    /// Whether nothing is left.
    pub fn is_nothing(self) -> bool
        ensures { result ≡ is_nothing self }
    {
        self.entries == 0 && self.unasked == 0 && self.sources == 0
    }

    /// The same with the entries that outputs hold, by their last reports.
    #[rattlefmt::skip]
    #[tactic(auto, using(
        crate::proofs::Leaving::nothing_before,
        crate::proofs::Leaving::nothing_held
    ))]
    pub fn with_held(self, reports: &[Report]) -> Left
        ensures value { result ≡ with_held self reports.now }
        ensures own { is_nothing result ≡ true → is_nothing self ≡ true }
        ensures held { is_nothing result ≡ true
            → All (λ report. report.counts.held ≡ 0) reports.now }
    {
        let mut entries = self.entries;
        for report in reports {
            entries = entries.saturating_add(report.counts.held);
        }
        Left { entries, ..self }
    }
}

/// As the relay tells it, over the control socket, in its journal and at its end.
impl fmt::Display for Left {
    fn fmt<W: fmt::Write>(&self, f: &mut fmt::Formatter<W>) -> fmt::Result {
        let Left {
            entries,
            unasked,
            sources,
        } = self;
        write!(
            f,
            "left {entries} entries, {unasked} of sources that do not ask"
        )?;
        if *sources > 0 {
            write!(f, "; {sources} sources not read to the end")?;
        }
        Ok(())
    }
}
