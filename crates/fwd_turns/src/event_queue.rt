//! What readers have an observer told: the reader in front sees it, and tells what the others'
//! turns came to behind its own.

use fwd_history::Run;
use fwd_monitors::{JournalEvent, Observer, SharedTally};
use fwd_reader::ReaderInboxes;
use std::alloc::Global;
use std::mem;
use std::sync::atomic::{AtomicBool, Ordering};
use std::sync::{Mutex, Wait};

/// The most events that wait for the reader in front. More are left out, and counted.
const JOURNAL_EVENTS: usize = 1_024;

/// The events that wait for the reader in front.
#[derive(Drop)]
struct QueuedEvents {
    /// In the order in which they were told.
    journal_events: Vec<JournalEvent>,
    /// How many more there were.
    left_out: u64,
}

/// What the other readers have an observer told.
pub struct EventQueue {
    queued: Mutex<QueuedEvents>,
    /// Something waits.
    has_any: AtomicBool,
}

// A drop of its own is proved once, and not at each place where a queue goes.
impl Drop for EventQueue {
    fn drop(self) {
        let EventQueue {
            queued: _,
            has_any: _,
        } = self;
    }
}

impl EventQueue {
    /// Nothing waits.
    pub fn new(alloc: Global) -> EventQueue {
        EventQueue {
            queued: Mutex::new(QueuedEvents {
                journal_events: Vec::new(alloc),
                left_out: 0,
            }),
            has_any: AtomicBool::new(false),
        }
    }

    /// An event waits. Where memory is refused, or too many wait, it is left out and counted.
    fn put<R: Wait>(&self, rt: &R, event: JournalEvent) {
        let mut queued = self.queued.lock(rt);
        if queued.journal_events.len() >= JOURNAL_EVENTS
            || queued.journal_events.push(event).is_err()
        {
            queued.left_out = queued.left_out.saturating_add(1);
        }
        drop(queued);
        self.has_any.store(true, Ordering::SeqCst);
    }

    /// An observer is told what waits.
    pub(crate) fn tell<R: Wait, W: Observer>(&self, rt: &R, alloc: Global, observer: &mut W) {
        if !self.has_any.swap(false, Ordering::SeqCst) {
            return;
        }
        let none = QueuedEvents {
            journal_events: Vec::new(alloc),
            left_out: 0,
        };
        let mut guard = self.queued.lock(rt);
        let queued = mem::replace(&mut *guard, none);
        drop(guard);
        for event in &queued.journal_events {
            observer.observe(*event);
        }
        if queued.left_out > 0 {
            observer.observe(JournalEvent::LeftOut(queued.left_out));
        }
    }
}

/// The observer of a reader that is not in front, which counts its events and tells them.
#[derive(Drop)]
pub(crate) struct QueueObserver<'q, 'a, J: Run, R> {
    pub rt: &'q R,
    pub tally: &'a SharedTally,
    pub journal_events: &'a EventQueue,
    pub inboxes: &'a ReaderInboxes<J>,
}

impl<'q, 'a, J: Run, R: Wait> Observer for QueueObserver<'q, 'a, J, R> {
    fn observe(&mut self, event: JournalEvent) {
        self.tally.observe(self.rt, event);
        self.journal_events.put(self.rt, event);
        self.inboxes.front.mailbox.call();
    }
}
