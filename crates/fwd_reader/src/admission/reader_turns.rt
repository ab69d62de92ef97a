//! Which reader has its turn at an output that sources wait at, and what room is reserved. A reader
//! stands here once, for the source of its own that waits longest, and passes its turn on after
//! each request: so smaller requests of other readers do not pass a large one for ever. What may
//! enter counts as taken until it is admitted: so no two readers use the same room, and no source
//! is closed for that. It is a lock that each admission takes, but only with several readers and
//! where sources wait.
//!
//! Who has the turn and finds no room looks again behind each release: reserved bytes count twice
//! once they are admitted and until they are released, and a turn may go and come back between two
//! looks, so that a reader which only notes whether it has the turn may wait for ever.

ghost use Rattle.std.specs.Prelude.{
  ◌≡◌,
  ◌≤◌,
  ◌+◌,
  ◌-◌,
  ◌==◌,
  ◌&&◌,
  ◌⊎◌,
  ◌++◌,
  ◌∷◌,
  [],
  true,
  false,
  not,
  filter,
};
ghost use Rattle.fwd_reader.specs.Turning.{are_some, has_turn, stands};

use fwd_history::Run;
use fwd_output::{Plain, SharedOutput};
use std::alloc::Global;
use std::collections::VecDeque;
use std::sync::atomic::{AtomicBool, Ordering};
use std::sync::{Mutex, Wait};

/// What becomes of a reader's request that is to have room.
#[derive(Clone, Copy)]
pub(crate) enum Reservation {
    /// It has room, which is reserved; or none would have it ever.
    Made,
    /// It is the reader's turn, and there is no room, after so many changes of what is reserved.
    Full(u64),
    /// It is another reader's turn.
    Behind,
}

/// Which readers have sources that wait for room, and what is reserved.
#[derive(Drop)]
struct TurnState {
    /// The bytes of entries of requests that have room and are not admitted yet.
    reserved: u64,
    /// How often bytes were released; from 0 again behind the last.
    changes: u64,
    /// The numbers of those readers, in the order in which they came, each once.
    readers: VecDeque<usize>,
}

impl TurnState {
    /// Whether it is a reader's turn: no other one waits before it.
    fn is_turn_of(&self, reader: usize) -> bool
        ensures { result ≡ has_turn self.now.readers.items reader }
    {
        match self.readers.front() {
            None => true,
            Some(first) => *first == reader,
        }
    }

    /// Reserves so many bytes for a request, where what is reserved already leaves so many of the
    /// room, and says whether it did.
    fn reserve(&mut self, bytes: u64, room: u64) -> bool
        ensures within { result ≡ true → self.new.reserved ≤ room }
        ensures reserved { result ≡ true → self.new.reserved ≡ self.old.reserved + bytes }
        ensures same { result ≡ false → self.new.reserved ≡ self.old.reserved }
        ensures readers { self.new.readers.items ≡ self.old.readers.items }
    {
        let Some(reserved) = self.reserved.checked_add(bytes) else {
            return false;
        };
        if room < reserved {
            return false;
        }
        self.reserved = reserved;
        true
    }

    /// So many bytes that were reserved are reserved no more.
    fn release(&mut self, bytes: u64)
        ensures reserved { self.new.reserved ≡ self.old.reserved - bytes }
        ensures readers { self.new.readers.items ≡ self.old.readers.items }
    {
        self.reserved = self.reserved.saturating_sub(bytes);
        self.changes = self.changes.wrapping_add(1);
    }

    /// A reader's source waits: it comes behind those that wait already. Where memory is refused it
    /// has no place, and asks again.
    fn stand(&mut self, reader: usize)
        ensures behind { (self.new.readers.items ≡ self.old.readers.items)
            ⊎ ((stands self.old.readers.items reader ≡ false)
            × (self.new.readers.items ≡ self.old.readers.items ++ reader ∷ [])) }
        ensures reserved { self.new.reserved ≡ self.old.reserved }
    {
        if !self.readers.contains(&reader) {
            let _ = self.readers.push_back(reader);
        }
    }

    /// A reader waits no more, or for another turn. Whether another one has its turn by that.
    fn leave(&mut self, reader: usize) -> bool
        ensures passed { result
            ≡ has_turn self.old.readers.items reader && are_some self.new.readers.items }
        ensures left { self.new.readers.items
            ≡ filter (λ other. not (other == reader)) self.old.readers.items }
        ensures reserved { self.new.reserved ≡ self.old.reserved }
    {
        let had_turn = self.is_turn_of(reader);
        self.readers.retain(
            |other: &usize| -> bool
                ensures { result ≡ not (other.now == reader) }
            { *other != reader },
        );
        had_turn && !self.readers.is_empty()
    }
}

/// The turns of an output, which all readers share: a reader stands here while one of its sources
/// waits, and the first one has its turn.
#[derive(Drop)]
pub(crate) struct ReaderTurns {
    state: Mutex<TurnState>,
    /// Another reader has its turn from now on, or may have room, and was not called yet.
    is_passed: AtomicBool,
}

impl ReaderTurns {
    /// Nobody waits.
    pub fn new(alloc: Global) -> ReaderTurns {
        ReaderTurns {
            state: Mutex::new(TurnState {
                reserved: 0,
                changes: 0,
                readers: VecDeque::new(alloc),
            }),
            is_passed: AtomicBool::new(false),
        }
    }

    /// Reserves room for a reader's request of so many bytes: where it is the reader's turn, and
    /// the output, which holds so many bytes at most, has room for it beside what else is reserved.
    /// A request that an empty output would not have room for needs none: it is refused there.
    /// Where it has none, the reader stands here from now on.
    pub fn reserve<J: Run, R: Wait>(
        &self,
        rt: &R,
        output: (&SharedOutput<Plain<J>, Plain<J>>, u64),
        reader: usize,
        bytes: u64,
    ) -> Reservation {
        let (shared, total) = output;
        let mut state = self.state.lock(rt);
        if !state.is_turn_of(reader) {
            state.stand(reader);
            return Reservation::Behind;
        }
        // What is reserved for others is counted until they have it: so this is asked behind the
        // lock.
        let room = total.saturating_sub(shared.counts(rt).bytes);
        if total < bytes || state.reserve(bytes, room) {
            self.pass(state.leave(reader));
            return Reservation::Made;
        }
        state.stand(reader);
        Reservation::Full(state.changes)
    }

    /// A request of so many bytes for which room was reserved was admitted, or refused. Until then
    /// its bytes may have been counted twice, so who waits looks again.
    pub fn release<R: Wait>(&self, rt: &R, bytes: u64) {
        let mut state = self.state.lock(rt);
        state.release(bytes);
        self.pass(!state.readers.is_empty());
    }

    /// None of a reader's sources waits any more.
    pub fn leave<R: Wait>(&self, rt: &R, reader: usize) {
        let mut state = self.state.lock(rt);
        self.pass(state.leave(reader));
    }

    /// Another reader has its turn from now on, or may have room, if so.
    fn pass(&self, is_passed: bool) {
        if is_passed {
            self.is_passed.store(true, Ordering::SeqCst);
        }
    }

    /// Whether a reader has its turn, or there may be room for it, since the last call: then all
    /// are to be called.
    pub fn take_passed(&self) -> bool {
        self.is_passed.load(Ordering::SeqCst) && self.is_passed.swap(false, Ordering::SeqCst)
    }

    /// How many changes there were, where it is a reader's turn.
    pub fn changes_for<R: Wait>(&self, rt: &R, reader: usize) -> Option<u64> {
        let state = self.state.lock(rt);
        if state.is_turn_of(reader) {
            Some(state.changes)
        } else {
            None
        }
    }
}
