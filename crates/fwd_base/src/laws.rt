//! A law over the definitions, the contract of a function that does nothing.

ghost use Rattle.std.specs.Prelude.{◌≡◌, ◌<◌, ◌≤◌, ◌^◌, ℕ};
ghost use Rattle.fwd_base.specs.Waits.{wait_after};

/// From the 65th loss on the wait stays the same, whatever a limit of 64 bits is, so that 65 can
/// stand for every greater count. 64 could not: a first wait of 1 ms is 2^63 ms after the 64th
/// loss, and the longest wait may be above that.
pub fn wait_settles()
    ensures { (retry_wait retry_max losses : ℕ) → retry_max < 2 ^ 64 → 65 ≤ losses
        → wait_after retry_wait retry_max losses ≡ wait_after retry_wait retry_max 65 }
{}
