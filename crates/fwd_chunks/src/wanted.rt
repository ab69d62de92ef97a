//! What a worker wants of what is free.

ghost use Rattle.std.specs.Prelude.{◌≡◌};
ghost use Rattle.fwd_chunks.specs.History.{moment_for};

/// Which free chunk a worker wants.
#[derive(Clone, Copy)]
pub enum Wanted {
    /// The one of the least number.
    Any,
    /// Among those that no loss ever held back the one of the least number.
    Fresh,
}

impl Wanted {
    /// The moment (milliseconds) at which a chunk's wait has to be over, where this is the greatest
    /// so far.
    pub(crate) fn moment(self, greatest: u64) -> u64
        ensures { result ≡ moment_for self greatest }
    {
        match self {
            Wanted::Any => greatest,
            Wanted::Fresh => 0,
        }
    }
}
