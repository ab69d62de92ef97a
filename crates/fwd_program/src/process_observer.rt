//! An observer that knows what the system tells of the process.

use crate::process::process_figures;
use fwd_loop::{JournalEvent, Observer};
use fwd_monitor::Figures;
use std::rt::Files;

/// An observer that knows what the system tells of the process, beside what another one knows that
/// is told all.
#[derive(Drop)]
pub(crate) struct ProcessObserver<'a, R, V> {
    pub rt: &'a R,
    pub observer: &'a mut V,
}

impl<'a, R: Files + AllocGlobal, V: Observer> Observer for ProcessObserver<'a, R, V> {
    fn observe(&mut self, event: JournalEvent) {
        self.observer.observe(event);
    }

    fn complete(&mut self, figures: Figures) -> Figures {
        let figures = self.observer.complete(figures);
        let mut process = process_figures(self.rt);
        if process.start.is_none() {
            // The systemd unit hides what tells it.
            process.start = figures.start.map(|second| second.saturating_mul(100));
        }
        Figures { process, ..figures }
    }

    fn turned(&mut self) {
        self.observer.turned();
    }
}
