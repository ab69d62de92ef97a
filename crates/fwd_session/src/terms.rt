//! How acknowledgements are waited for.

ghost use Rattle.std.specs.Prelude.{◌<◌, ◌≤◌};
ghost use Rattle.fwd_session.specs.declared.limits.TheConstants.{WINDOW_LIMIT};

/// How acknowledgements are waited for: of how many chunks at once, and for how long.
#[derive(Clone, Copy, Debug, PartialEq, Eq)]
pub struct AckTerms {
    /// How many chunks a session may have that are not taken out: from 1 to `WINDOW_LIMIT`.
    pub window: u8,
    /// How long it waits for what it is owed, in milliseconds.
    pub ack_wait: u64,
    ghost some: { 0 < window },
    ghost few: { window ≤ WINDOW_LIMIT },
}
