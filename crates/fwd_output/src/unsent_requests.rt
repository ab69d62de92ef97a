//! What requests had that no output admitted before the relay ended.

use fwd_modes::Batch;

/// What requests had that no output admitted before the relay ended.
#[derive(Clone, Copy)]
pub struct UnsentRequests {
    /// Their entries.
    pub entries: u64,
    /// Those of requests that asked for no acknowledgement: nobody sends them again.
    pub unasked: u64,
}

impl UnsentRequests {
    /// There are none.
    pub fn none() -> UnsentRequests {
        UnsentRequests {
            entries: 0,
            unasked: 0,
        }
    }

    /// One more.
    pub fn add(&mut self, batch: &Batch) {
        let entries = batch.len() as u64;
        self.entries = self.entries.saturating_add(entries);
        if batch.chunk().is_none() {
            self.unasked = self.unasked.saturating_add(entries);
        }
    }

    /// The same, with so many entries more that nobody sends again.
    pub fn with_unasked(self, unasked: u64) -> UnsentRequests {
        UnsentRequests {
            unasked: self.unasked.saturating_add(unasked),
            ..self
        }
    }

    /// These and others.
    pub fn and(self, others: UnsentRequests) -> UnsentRequests {
        UnsentRequests {
            entries: self.entries.saturating_add(others.entries),
            unasked: self.unasked.saturating_add(others.unasked),
        }
    }
}
