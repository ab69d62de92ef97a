//! How a worker looks at its output and takes a chunk, in one turn under the lock.

ghost use Rattle.std.specs.Prelude.{
  ◌≡◌,
  ◌⊎◌,
  Ok,
  Some,
  None,
  true,
  false,
  option_map,
  IfOk,
  IfSome,
  OnErr,
};
ghost use Rattle.fwd_chunks.specs.Live.{live_first_closing, live_free_chunk};
ghost use Rattle.fwd_output.specs.Paged.{MayTake, Takes, taken_of};
ghost use Rattle.fwd_output.specs.Looks.{
  HasFound,
  HasFoundFree,
  HasFoundOpen,
  IsSeen,
  free_for,
  locked_flushes,
  locked_looks,
  may_look,
  wanted_first,
  wants_fresh,
};

use super::Locked;
use crate::offer::{Found, Offer, PickedChunk};
use crate::server_set::ServerSet;
use crate::server_view::{ChunkSearch, ChunkUse, Look, ServerView};
use crate::tally::Tally;
use fwd_chunks::{FreeChunk, Wanted, closed_is_given};
use fwd_run::WorkerPage;
use std::alloc::{AllocError, Global};

/// A worker that looks for a chunk at a moment (milliseconds), by what it sees of the output.
#[derive(Clone, Copy)]
struct Looker {
    search: ChunkSearch,
    view: ServerView,
    now: u64,
}

impl<A: Tally, S: Tally> Locked<A, S> {
    /// What a worker sees at a moment (milliseconds); and if it looks for a chunk for its use, it
    /// takes the chunk that it is offered, if that is for this use. It is offered a free one. If none
    /// is free, it is offered the first open one that is due, or the first open one of all if it may
    /// close all. Only if it takes that one are open chunks closed: all others go on growing until a
    /// worker can send them. If a server is to be tried that is not known to work, a chunk that was
    /// lost is offered last. On an error, out of memory, it has none.
    pub fn look_for(
        &mut self,
        alloc: Global,
        seat: &mut S::Seat,
        worker: &mut WorkerPage<A::Run>,
        search: ChunkSearch,
        now: u64,
    ) -> Look
        requires may { MayTake worker.old self.old.output.book.setting.output }
        requires own { search.worker ≡ worker.old.worker }
        ensures seen { IsSeen self.old search.worker now result.view }
        ensures leaves { may_look result.view search.chunk_use ≡ false
            → (result.found ≡ Ok Found.Nothing) × (self.new ≡ locked_looks self.old now) }
        ensures found { may_look result.view search.chunk_use ≡ true → IfOk result.found (λ found.
            HasFound found (locked_looks self.old now) result.view search now self.new) }
        // Nothing is closed where nothing is taken.
        ensures open { IfOk result.found (λ found.
            taken_of found ≡ None → self.new ≡ locked_looks self.old now) }
        ensures err { OnErr result.found ((self.new ≡ locked_looks self.old now)
            ⊎ (self.new ≡ locked_flushes (locked_looks self.old now) now search.closes)) }
        ensures takes { IfOk result.found (λ found.
            Takes worker.old (taken_of found) worker.new) }
        ensures stays { OnErr result.found (worker.new ≡ worker.old) }
        ensures same { seat.new ≡ seat.old }
    {
        let _ = seat;
        let view = self.server_view(search.worker, now);
        if !view.may_look(search.chunk_use) {
            return Look {
                view,
                found: Ok(Found::Nothing),
            };
        }
        let looker = Looker { search, view, now };
        let found = self.find(alloc, worker, looker);
        Look { view, found }
    }

    /// Takes the chunk that a worker is offered, if that is for its use. On an error, out of memory,
    /// it has none.
    fn find(
        &mut self,
        alloc: Global,
        worker: &mut WorkerPage<A::Run>,
        looker: Looker,
    ) -> Result<Found, AllocError>
        requires may { MayTake worker.old self.old.output.book.setting.output }
        requires own { looker.search.worker ≡ worker.old.worker }
        ensures found { IfOk result (λ found.
            HasFound found self.old looker.view looker.search looker.now self.new) }
        ensures open { IfOk result (λ found. taken_of found ≡ None → self.new ≡ self.old) }
        ensures err { OnErr result ((self.new ≡ self.old)
            ⊎ (self.new ≡ locked_flushes self.old looker.now looker.search.closes)) }
        ensures takes { IfOk result (λ found. Takes worker.old (taken_of found) worker.new) }
        ensures stays { OnErr result (worker.new ≡ worker.old) }
    {
        let first = self.wanted_first(looker.view, looker.search.chunk_use);
        if let Some(free) = self.state.now().free_chunk(first, looker.now) {
            return self.take_free(alloc, worker, looker, first, free);
        }
        let closing = self
            .state
            .now()
            .first_closing(looker.now, looker.search.closes);
        if let Some(number) = closing {
            return self.take_open(alloc, worker, looker, first, number);
        }
        match self.state.now().free_chunk(Wanted::Any, looker.now) {
            Some(free) => self.take_free(alloc, worker, looker, Wanted::Any, free),
            None => Ok(Found::Nothing),
        }
    }

    /// Which free chunk a worker looks for first.
    fn wanted_first(&self, view: ServerView, chunk_use: ChunkUse) -> Wanted
        ensures { result ≡ wanted_first self.now view chunk_use }
    {
        if self.wants_fresh(view, chunk_use) {
            Wanted::Fresh
        } else {
            Wanted::Any
        }
    }

    /// Whether a worker looks first for a chunk that no loss ever held back.
    fn wants_fresh(&self, view: ServerView, chunk_use: ChunkUse) -> bool
        ensures { result ≡ wants_fresh self.now view chunk_use }
    {
        match chunk_use {
            ChunkUse::Begin => view.is_doubted,
            ChunkUse::Keep(own) => self.is_doubted(own),
            ChunkUse::Follow(own) => view.doubts(own),
            ChunkUse::Join(_) => false,
            ChunkUse::Ask(_) => true,
        }
    }

    /// A worker is offered the chunk that is free for what it wants. On an error, out of memory,
    /// nothing has changed.
    fn take_free(
        &mut self,
        alloc: Global,
        worker: &mut WorkerPage<A::Run>,
        looker: Looker,
        wanted: Wanted,
        free: FreeChunk,
    ) -> Result<Found, AllocError>
        requires may { MayTake worker.old self.old.output.book.setting.output }
        requires own { looker.search.worker ≡ worker.old.worker }
        requires free { Some free
            ≡ option_map live_free_chunk (free_for self.old wanted looker.now) }
        ensures found { IfOk result (λ found. IfSome (free_for self.old wanted looker.now) (λ c.
            HasFoundFree wanted c found self.old looker.view looker.search looker.now
            self.new)) }
        ensures open { IfOk result (λ found. taken_of found ≡ None → self.new ≡ self.old) }
        ensures err { OnErr result (self.new ≡ self.old) }
        ensures takes { IfOk result (λ found. Takes worker.old (taken_of found) worker.new) }
        ensures stays { OnErr result (worker.new ≡ worker.old) }
    {
        let offer = self.offer(free, looker.search.worker, looker.now);
        if !looker.view.takes(looker.search.chunk_use, &offer) {
            return Ok(Found::Passed(offer));
        }
        match self.state.take_wanted(alloc, worker, wanted, looker.now)? {
            Some(chunk) => Ok(Found::Took(PickedChunk { chunk, offer })),
            None => unreachable!(),
        }
    }

    /// A worker for which no chunk is free is offered the first one that may be closed. On an error,
    /// out of memory, it is closed and free.
    fn take_open(
        &mut self,
        alloc: Global,
        worker: &mut WorkerPage<A::Run>,
        looker: Looker,
        wanted: Wanted,
        number: u64,
    ) -> Result<Found, AllocError>
        requires may { MayTake worker.old self.old.output.book.setting.output }
        requires own { looker.search.worker ≡ worker.old.worker }
        requires none { free_for self.old wanted looker.now ≡ None }
        requires open { Some number ≡ option_map (λ c. c.number)
            (live_first_closing self.old.output.buffer looker.now looker.search.closes) }
        ensures found { IfOk result (λ found. IfSome
            (live_first_closing self.old.output.buffer looker.now looker.search.closes) (λ c.
            HasFoundOpen wanted c found self.old looker.view looker.search looker.now
            self.new)) }
        ensures open { IfOk result (λ found. taken_of found ≡ None → self.new ≡ self.old) }
        ensures err { OnErr result
            (self.new ≡ locked_flushes self.old looker.now looker.search.closes) }
        ensures takes { IfOk result (λ found. Takes worker.old (taken_of found) worker.new) }
        ensures stays { OnErr result (worker.new ≡ worker.old) }
    {
        let offer = Offer::of_open(number);
        if !looker.view.takes(looker.search.chunk_use, &offer) {
            return Ok(Found::Passed(offer));
        }
        self.state.is_sound(); // for the proof
        closed_is_given(); // for the proof
        self.flush(looker.now, looker.search.closes);
        match self.state.take_wanted(alloc, worker, wanted, looker.now)? {
            Some(chunk) => Ok(Found::Took(PickedChunk { chunk, offer })),
            None => unreachable!(),
        }
    }

    /// What is known of a free chunk before a worker takes it at a moment (milliseconds).
    fn offer(&self, free: FreeChunk, worker: u16, now: u64) -> Offer
        ensures number { result.number ≡ free.number }
        ensures losses { result.losses ≡ free.losses }
    {
        let (lost_at, elsewhere) = self.way_of(free.number, worker, now);
        Offer {
            number: free.number,
            losses: free.losses,
            lost_at,
            elsewhere,
        }
    }

    /// Where a chunk was lost, and the server elsewhere for it at a moment (milliseconds), if it
    /// was lost and there is one.
    fn way_of(&self, chunk: u64, worker: u16, now: u64) -> (ServerSet, Option<u16>) {
        match (self.lost_at.of(chunk), &self.order) {
            (Some(lost_at), Some(order)) => (lost_at, order.elsewhere(worker, &lost_at, now)),
            _ => (ServerSet::none(), None),
        }
    }
}
