//! What the readers of a relay are told, each in its inbox, and which of them a new source is
//! handed to. All inboxes are alike. The reader in front has the listeners beside, hears of all
//! that workers do, and tells what the run comes to.

use crate::connections::Connections;
use fwd_history::Run;
use fwd_links::Mailbox;
use fwd_peers::SourcePeer;
use std::alloc::{AllocError, Global};
use std::mem;
use std::sync::atomic::{AtomicBool, AtomicUsize, Ordering};
use std::sync::{Mutex, Wait};

/// Where a reader is told what workers did, and is handed its sources.
pub struct ReaderInbox<J: Run> {
    pub mailbox: Mailbox,
    /// The sources that it is handed and has not taken.
    sources: Mutex<Vec<SourcePeer<J>>>,
    /// How many sources it was handed.
    handed: AtomicUsize,
    /// How many of them it took.
    taken: AtomicUsize,
    /// How many of those that it took take no place any more.
    gone: AtomicUsize,
    /// How many of those that it took stand no more.
    closed: AtomicUsize,
    /// How many of its sources take a place and wait at outputs.
    crowding: AtomicUsize,
    /// A new source found no place since the reader looked last.
    wants_place: AtomicBool,
    /// Sources that wait took more than their share then.
    is_crowded: AtomicBool,
}

// A drop of its own is proved once, and not at each place where an inbox goes.
impl<J: Run> Drop for ReaderInbox<J> {
    fn drop(self) {
        let ReaderInbox {
            mailbox: _,
            sources: _,
            handed: _,
            taken: _,
            gone: _,
            closed: _,
            crowding: _,
            wants_place: _,
            is_crowded: _,
        } = self;
    }
}

impl<J: Run> ReaderInbox<J> {
    /// An inbox without sources.
    pub fn new(alloc: Global, mailbox: Mailbox) -> ReaderInbox<J> {
        ReaderInbox {
            mailbox,
            sources: Mutex::new(Vec::new(alloc)),
            handed: AtomicUsize::new(0),
            taken: AtomicUsize::new(0),
            gone: AtomicUsize::new(0),
            closed: AtomicUsize::new(0),
            crowding: AtomicUsize::new(0),
            wants_place: AtomicBool::new(false),
            is_crowded: AtomicBool::new(false),
        }
    }

    /// Hands the reader a source. Where memory is refused, which is the only error, it is dropped.
    pub fn hand<R: Wait>(&self, rt: &R, source: SourcePeer<J>) -> Result<(), AllocError> {
        self.sources.lock(rt).push(source)?;
        add(&self.handed, 1);
        self.mailbox.call();
        Ok(())
    }

    /// The sources that the reader was handed since the last call, in their order.
    pub fn take<R: Wait>(&self, rt: &R, alloc: Global) -> Vec<SourcePeer<J>> {
        let mut guard = self.sources.lock(rt);
        let sources = mem::replace(&mut *guard, Vec::new(alloc));
        drop(guard);
        add(&self.taken, sources.len());
        sources
    }

    /// These are the connections that the reader has.
    pub fn note(&self, connections: &Connections<J>) {
        let taken = self.taken.load(Ordering::SeqCst);
        let gone = taken.saturating_sub(connections.sources());
        self.gone.store(gone, Ordering::SeqCst);
        let closed = taken.saturating_sub(connections.standing());
        self.closed.store(closed, Ordering::SeqCst);
        self.crowding
            .store(connections.crowding(), Ordering::SeqCst);
    }

    /// How many sources it has that take a place, or will once it takes them.
    fn sources(&self) -> usize {
        let gone = self.gone.load(Ordering::SeqCst);
        self.handed.load(Ordering::SeqCst).saturating_sub(gone)
    }

    /// How many sources stand there, or will once it takes them.
    fn standing(&self) -> usize {
        let closed = self.closed.load(Ordering::SeqCst);
        self.handed.load(Ordering::SeqCst).saturating_sub(closed)
    }

    /// How many of its sources take a place and wait at outputs.
    fn crowding(&self) -> usize {
        self.crowding.load(Ordering::SeqCst)
    }

    /// A new source found no place: the reader is to close one that gives its own. Sources that
    /// wait take more than their share, or not.
    fn want_place(&self, is_crowded: bool) {
        self.is_crowded.store(is_crowded, Ordering::SeqCst);
        self.wants_place.store(true, Ordering::SeqCst);
        self.mailbox.call();
    }

    /// Whether a new source found no place since the last call; and whether sources that wait took
    /// more than their share then.
    pub fn take_want(&self) -> Option<bool> {
        if !self.wants_place.load(Ordering::SeqCst) {
            return None;
        }
        self.wants_place.store(false, Ordering::SeqCst);
        Some(self.is_crowded.load(Ordering::SeqCst))
    }
}

/// A count is greater by so many. Only one thread writes it.
fn add(count: &AtomicUsize, more: usize) {
    let all = count.load(Ordering::SeqCst).saturating_add(more);
    count.store(all, Ordering::SeqCst);
}

/// The inboxes of a relay's readers.
pub struct ReaderInboxes<J: Run> {
    /// That of the reader in front, which has the number 0.
    pub front: ReaderInbox<J>,
    /// Those of the others, whose numbers follow.
    pub others: Vec<ReaderInbox<J>>,
}

// A drop of its own is proved once, and not at each place where inboxes go.
impl<J: Run> Drop for ReaderInboxes<J> {
    fn drop(self) {
        let ReaderInboxes {
            front: _,
            others: _,
        } = self;
    }
}

impl<J: Run> ReaderInboxes<J> {
    /// All readers are called.
    pub fn call_all(&self) {
        self.front.mailbox.call();
        for inbox in &self.others {
            inbox.mailbox.call();
        }
    }

    /// How many sources take a place, of all readers together.
    pub fn sources(&self) -> usize {
        let mut all = self.front.sources();
        for inbox in &self.others {
            all = all.saturating_add(inbox.sources());
        }
        all
    }

    /// How many sources stand, of all readers together.
    pub fn standing(&self) -> usize {
        let mut all = self.front.standing();
        for inbox in &self.others {
            all = all.saturating_add(inbox.standing());
        }
        all
    }

    /// How many sources take a place and wait at outputs, of all readers together.
    pub fn crowding(&self) -> usize {
        let mut all = self.front.crowding();
        for inbox in &self.others {
            all = all.saturating_add(inbox.crowding());
        }
        all
    }

    /// The inbox of the reader with the fewest sources, and of several the first.
    pub fn freest(&self) -> &ReaderInbox<J> {
        let mut freest = &self.front;
        let mut fewest = freest.sources();
        for inbox in &self.others {
            let sources = inbox.sources();
            if sources < fewest {
                fewest = sources;
                freest = inbox;
            }
        }
        freest
    }

    /// The place of the reader that has the most sources that wait, among those that are not in
    /// front, where one has any.
    fn most_crowded(&self) -> Option<usize> {
        let mut most = 0;
        let mut reader = None;
        for (place, inbox) in (0..usize::MAX).zip(&self.others) {
            let crowding = inbox.crowding();
            if most < crowding {
                most = crowding;
                reader = Some(place);
            }
        }
        reader
    }

    /// The readers that are not in front are asked to close a source that gives its place: each
    /// where one `may_be_idle`, which it alone knows; and where sources that wait take more than
    /// their share, the reader that has most of them.
    pub fn ask_others(&self, may_be_idle: bool, is_crowded: bool) {
        let crowded = if is_crowded {
            self.most_crowded()
        } else {
            None
        };
        for (place, inbox) in (0..usize::MAX).zip(&self.others) {
            let is_crowded = crowded == Some(place);
            if may_be_idle || is_crowded {
                inbox.want_place(is_crowded);
            }
        }
    }
}
