//! Which of the sources that wait gives its place first.

/// A source that waits and may give its place to a new one.
#[derive(Clone, Copy)]
pub(crate) struct EvictionCandidate {
    pub key: usize,
    /// It asked for an acknowledgement, and sends again.
    pub asks: bool,
    /// Since when it waits, in milliseconds.
    pub since: u64,
}

impl EvictionCandidate {
    /// Whether it gives its place before another one that waits.
    pub fn goes_before(&self, other: &EvictionCandidate) -> bool {
        match (self.asks, other.asks) {
            (true, true) => self.since <= other.since,
            (false, false) => self.since >= other.since,
            (asks, _) => asks,
        }
    }
}
