//! Which connections are ready, may be written, or wait.

ghost use Rattle.std.specs.Prelude.{◌≡◌, ◌&&◌, ◌∷◌, [], not, is_some, Some, IfSome};
ghost use Rattle.std.specs.VecDeque.{deque_capacity};
ghost use Rattle.fwd_reader.specs.OpenConnections.{connection_at, sources_in};
ghost use Rattle.fwd_reader.specs.Queues.{
  Queues,
  Retries,
  RetriesAll,
  RetriesFirst,
  is_closing_at,
  is_queued_at,
  is_ready_at,
  is_writable_at,
  kept_at,
  made_queued,
  made_ready,
  made_writable,
  waits_no_more,
  waits_since,
  was_read,
  was_written,
  with_changed,
};

use super::{Connections, OpenConnection};
use fwd_history::Run;
use std::mem;

/// A connection that is ready to be read, or may be written.
#[derive(Clone, Copy)]
pub struct Ready {
    pub key: usize,
    /// It is to be read to its end.
    pub to_end: bool,
}

/// Since when a source has waited, that waited since then if it did, once it waits from a moment on
/// (both in milliseconds).
fn waits_since(before: Option<u64>, now: u64) -> u64
    ensures { result ≡ waits_since before now }
{
    match before {
        None => now,
        Some(since) => since,
    }
}

impl<J: Run> OpenConnection<J> {
    /// Requests of it wait from a moment (milliseconds) on, where none did, and it stands among the
    /// connections of which some do. Whether one more takes a place by that though it waits.
    fn wait_from(&mut self, now: u64) -> bool
        ensures waits { self.new ≡ made_queued now self.old }
        ensures more { result ≡ (not (is_some self.old.waiting_since) && not self.old.is_kept) }
    {
        let is_more = self.waiting_since.is_none() && !self.is_kept;
        self.waiting_since = Some(waits_since(self.waiting_since, now));
        self.is_queued = true;
        is_more
    }
}

impl<J: Run> Connections<J> {
    /// A connection may be read; to its end, where the system told that it closed or failed.
    #[tactic(auto, using(crate::proofs::Standing::all_stay, crate::proofs::Standing::flags_change, crate::proofs::Standing::changed, crate::proofs::Standing::none_changed))]
    pub fn note_ready(&mut self, key: usize, is_closing: bool)
        ensures stand { connection_at self.new ≡ connection_at self.old }
        ensures sources { sources_in self.new ≡ sources_in self.old }
        ensures waiting { self.new.waiting ≡ self.old.waiting }
        ensures flags { self.new.opened
            ≡ with_changed self.old.opened key (made_ready is_closing) }
        ensures queued { Queues (is_ready_at self.old key) key (deque_capacity self.old.ready)
            self.old.ready.items self.new.ready.items }
    {
        let Some(opened) = self.opened.get_mut(key) else {
            return;
        };
        opened.is_closing = opened.is_closing || is_closing;
        if !opened.is_ready {
            opened.is_ready = true;
            // Room for it was made when the connection came.
            let _ = self.ready.push_back(key);
        }
    }

    /// A connection has something to be sent, or may take it now.
    #[tactic(auto, using(crate::proofs::Standing::all_stay, crate::proofs::Standing::flags_change, crate::proofs::Standing::changed, crate::proofs::Standing::none_changed))]
    pub fn note_writable(&mut self, key: usize)
        ensures stand { connection_at self.new ≡ connection_at self.old }
        ensures sources { sources_in self.new ≡ sources_in self.old }
        ensures flags { self.new.opened ≡ with_changed self.old.opened key made_writable }
        ensures queued { Queues (is_writable_at self.old key) key
            (deque_capacity self.old.writable) self.old.writable.items self.new.writable.items }
    {
        let Some(opened) = self.opened.get_mut(key) else {
            return;
        };
        if !opened.is_writable {
            opened.is_writable = true;
            // Room for it was made when the connection came.
            let _ = self.writable.push_back(key);
        }
    }

    /// A source's requests wait from a moment (milliseconds) until others are answered or settled.
    #[tactic(auto, using(crate::proofs::Standing::all_stay, crate::proofs::Standing::flags_change, crate::proofs::Standing::changed, crate::proofs::Standing::none_changed))]
    pub fn note_waiting(&mut self, key: usize, now: u64)
        ensures stand { connection_at self.new ≡ connection_at self.old }
        ensures sources { sources_in self.new ≡ sources_in self.old }
        ensures flags { self.new.opened ≡ with_changed self.old.opened key (made_queued now) }
        ensures kept { (self.new.kept ≡ self.old.kept)
            × (self.new.kept_limit ≡ self.old.kept_limit) }
        ensures queued { Queues (is_queued_at self.old key) key (deque_capacity self.old.waiting)
            self.old.waiting.items self.new.waiting.items }
    {
        let Some(opened) = self.opened.get_mut(key) else {
            return;
        };
        let is_queued = opened.is_queued;
        let is_more = opened.wait_from(now);
        self.crowding = self.crowding.saturating_add(usize::from(is_more));
        if !is_queued {
            // Room for it was made when the connection came.
            let _ = self.waiting.push_back(key);
        }
    }

    /// The same of a source whose other side is gone. It takes no place from now on, but where too
    /// many do not already.
    pub fn note_kept(&mut self, key: usize, now: u64)
        ensures stand { connection_at self.new ≡ connection_at self.old }
        ensures sources { sources_in self.new ≡ sources_in self.old }
        ensures flags { self.new.opened ≡ kept_at self.old.kept self.old.kept_limit key
            (with_changed self.old.opened key (made_queued now)) }
        ensures queued { Queues (is_queued_at self.old key) key (deque_capacity self.old.waiting)
            self.old.waiting.items self.new.waiting.items }
    {
        self.note_waiting(key, now);
        self.keep(key);
    }

    /// A source whose other side is gone takes no place, but where too many do not already.
    #[tactic(auto, using(crate::proofs::Standing::all_stay, crate::proofs::Standing::flags_change))]
    fn keep(&mut self, key: usize)
        ensures stand { connection_at self.new ≡ connection_at self.old }
        ensures sources { sources_in self.new ≡ sources_in self.old }
        ensures flags { self.new.opened
            ≡ kept_at self.old.kept self.old.kept_limit key self.old.opened }
        ensures waiting { self.new.waiting ≡ self.old.waiting }
    {
        if self.kept >= self.kept_limit {
            return;
        }
        let Some(opened) = self.opened.get_mut(key) else {
            return;
        };
        let is_more = !mem::replace(&mut opened.is_kept, true);
        self.kept = self.kept.saturating_add(usize::from(is_more));
        self.crowding = self.crowding.saturating_sub(usize::from(is_more));
    }

    /// No request of a source waits any more.
    #[tactic(auto, using(crate::proofs::Standing::all_stay, crate::proofs::Standing::flags_change, crate::proofs::Standing::changed, crate::proofs::Standing::none_changed))]
    pub fn note_admitted(&mut self, key: usize)
        ensures stand { connection_at self.new ≡ connection_at self.old }
        ensures sources { sources_in self.new ≡ sources_in self.old }
        ensures flags { self.new.opened ≡ with_changed self.old.opened key waits_no_more }
    {
        let Some(opened) = self.opened.get_mut(key) else {
            return;
        };
        let is_fewer = opened.is_crowding();
        opened.waiting_since = None;
        self.crowding = self.crowding.saturating_sub(usize::from(is_fewer));
    }

    /// The sources whose requests wait are ready, in the order in which they came to wait. Nothing
    /// is kept of why they wait: each asks again.
    pub fn retry_waiting(&mut self)
        ensures stand { connection_at self.new ≡ connection_at self.old }
        ensures sources { sources_in self.new ≡ sources_in self.old }
        ensures none { self.new.waiting.items ≡ [] }
        ensures each { RetriesAll self.old.waiting.items self.old self.new }
    {
        for _ in 0..self.waiting.len() {
            self.retry_next();
        }
    }

    /// The source that came to wait first is ready.
    #[tactic(auto, using(crate::proofs::Queueing::none_first))]
    fn retry_next(&mut self)
        ensures stand { connection_at self.new ≡ connection_at self.old }
        ensures sources { sources_in self.new ≡ sources_in self.old }
        ensures retried { RetriesFirst self.old.waiting.items self.old self.new }
    {
        let Some(key) = self.waiting.pop_front() else {
            return;
        };
        self.retry(key);
    }

    /// A source whose requests wait is ready.
    #[tactic(auto, using(crate::proofs::Standing::all_stay, crate::proofs::Standing::flags_change, crate::proofs::Queueing::asked_not, crate::proofs::Queueing::asked_none))]
    fn retry(&mut self, key: usize)
        ensures stand { connection_at self.new ≡ connection_at self.old }
        ensures sources { sources_in self.new ≡ sources_in self.old }
        ensures waiting { self.new.waiting ≡ self.old.waiting }
        ensures retried { Retries key self.old self.new }
    {
        let Some(opened) = self.opened.get_mut(key) else {
            return;
        };
        if mem::replace(&mut opened.is_queued, false) {
            self.note_ready(key, false);
        }
    }

    /// How many connections are ready.
    pub fn ready(&self) -> usize {
        self.ready.len()
    }

    /// How many connections may be written.
    pub fn writable(&self) -> usize {
        self.writable.len()
    }

    /// The next connection that is ready.
    #[tactic(auto, using(crate::proofs::Standing::all_stay, crate::proofs::Standing::flags_change, crate::proofs::Standing::changed, crate::proofs::Standing::none_changed))]
    pub fn next_ready(&mut self) -> Option<Ready>
        ensures stand { connection_at self.new ≡ connection_at self.old }
        ensures sources { sources_in self.new ≡ sources_in self.old }
        ensures first { IfSome result (λ ready.
            self.old.ready.items ≡ ready.key ∷ self.new.ready.items) }
        ensures flags { IfSome result (λ ready.
            self.new.opened ≡ with_changed self.old.opened ready.key was_read) }
        ensures to_end { IfSome result (λ ready.
            is_closing_at self.old ready.key ≡ Some ready.to_end) }
    {
        let key = self.ready.pop_front()?;
        let opened = self.opened.get_mut(key)?;
        opened.is_ready = false;
        Some(Ready {
            key,
            to_end: opened.is_closing,
        })
    }

    /// The next connection that may be written.
    #[tactic(auto, using(crate::proofs::Standing::all_stay, crate::proofs::Standing::flags_change, crate::proofs::Standing::changed, crate::proofs::Standing::none_changed))]
    pub fn next_writable(&mut self) -> Option<Ready>
        ensures stand { connection_at self.new ≡ connection_at self.old }
        ensures sources { sources_in self.new ≡ sources_in self.old }
        ensures first { IfSome result (λ ready.
            self.old.writable.items ≡ ready.key ∷ self.new.writable.items) }
        ensures flags { IfSome result (λ ready.
            self.new.opened ≡ with_changed self.old.opened ready.key was_written) }
        ensures to_end { IfSome result (λ ready.
            is_closing_at self.old ready.key ≡ Some ready.to_end) }
    {
        let key = self.writable.pop_front()?;
        let opened = self.opened.get_mut(key)?;
        opened.is_writable = false;
        Some(Ready {
            key,
            to_end: opened.is_closing,
        })
    }
}
