//! The memory that a worker keeps in reserve. Before each step a worker tries whether the step's
//! memory can be had, and gives its reserve back if not. To try the step itself again would be a
//! second path through each call. The worker's own thread takes the reserve: glibc gives a thread a
//! heap of its own, and what another thread gave back is of no use there.

use std::alloc::Global;

/// How many bytes a worker keeps in reserve. A session with a full window takes less than half of
/// them, also where each piece is a page of its own, as the C library gives them to a thread that
/// found no room for a heap.
const RESERVE: usize = 512 << 10;

/// As many are enough beside those of a session that stands.
const LEAST: usize = RESERVE / 2;

/// More than a worker takes in one step.
const STEP: usize = 128 << 10;

/// Memory that a worker keeps in reserve, in blocks into which nothing is ever put.
#[derive(Drop)]
pub(crate) struct Reserve {
    alloc: Global,
    block: Vec<u8>,
    /// It is there only while it is asked whether a step's memory can be had.
    trial: Vec<u8>,
}

impl Reserve {
    /// Nothing is in reserve.
    pub fn none(alloc: Global) -> Reserve {
        Reserve {
            alloc,
            block: Vec::new(alloc),
            trial: Vec::new(alloc),
        }
    }

    /// Whether nothing is in reserve.
    pub fn is_empty(&self) -> bool {
        self.block.capacity() == 0
    }

    /// Whether all of it is there.
    pub fn is_full(&self) -> bool {
        self.block.capacity() >= RESERVE
    }

    /// Whether the memory of a step can be had beside what is in reserve.
    pub fn has_step(&mut self) -> bool {
        let has = self.try_step();
        self.end_trial();
        has
    }

    /// A step's memory is taken, if it can be had. It is given back by another function, since a
    /// compiler may leave out both where it sees both.
    #[inline(never)]
    fn try_step(&mut self) -> bool {
        self.trial.reserve(STEP).is_ok()
    }

    /// What was taken to see whether it can be had is given back.
    #[inline(never)]
    fn end_trial(&mut self) {
        self.trial = Vec::new(self.alloc);
    }

    /// All of it is given back.
    pub fn release(&mut self) {
        self.block = Vec::new(self.alloc);
    }

    /// Takes into reserve what is missing there, as far as it can be had.
    pub fn fill(&mut self) {
        for size in [RESERVE, LEAST] {
            if self.block.capacity() >= size {
                return;
            }
            if let Ok(block) = Vec::with_capacity(self.alloc, size) {
                self.block = block;
                return;
            }
        }
    }
}
