ghost use Rattle.std.specs.Prelude.{◌≡◌};
ghost use Rattle.fwd_base.specs.Waits.{wait_after};
ghost use Rattle.fwd_base.specs.Tallies.{end_of_wait, live_is_over};

use crate::losses::Losses;

/// How long what was lost is left alone, in milliseconds.
#[derive(Clone, Copy)]
pub struct Retry {
    /// The wait after the first loss. It doubles with each further one.
    pub wait: u64,
    /// The longest wait.
    pub max: u64,
}

impl Retry {
    /// The wait after so many losses, and 0 after none.
    pub fn wait_after(self, losses: u64) -> u64
        ensures { result ≡ wait_after self.wait self.max losses }
    {
        if losses == 0 {
            return 0;
        }
        // More than 64 doublings take every number past 2^64 too.
        let doublings = (losses - 1).min(64) as u32;
        let factor = 2u64.saturating_pow(doublings);
        self.wait.saturating_mul(factor).min(self.max)
    }

    /// The end of the wait after these losses, if 64 bits hold it.
    pub fn end(self, losses: Option<Losses>) -> Option<u64>
        ensures { result ≡ end_of_wait self losses }
    {
        match losses {
            None => Some(0),
            Some(losses) => {
                let wait = self.wait_after(u64::from(losses.count));
                losses.last.checked_add(wait)
            }
        }
    }

    /// Whether the wait after these losses is over at a moment.
    pub fn is_over(self, losses: Option<Losses>, moment: u64) -> bool
        ensures { result ≡ live_is_over self.wait self.max losses moment }
    {
        self.end(losses).is_some_and(|end| end <= moment)
    }
}
