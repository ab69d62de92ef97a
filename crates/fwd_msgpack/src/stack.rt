//! The containers that a scan stands in.

ghost use Rattle.std.specs.Prelude.{◌≡◌, ◌+◌, ◌<◌, ◌≤◌, ◌^◌, [], ◌∷◌, length, sum, Some, None, if◌then◌else◌};
ghost use Rattle.fwd_msgpack.specs.Scans.{after_value};
ghost use Rattle.fwd_msgpack.specs.Stacks.{innermost, less_by};

use crate::limits::MAX_DEPTH;
use std::marker::Model;

/// The open containers, from the innermost: how many
/// members each still lacks after the one in progress.
/// The two counts stand apart, so that each is added to by itself. Side by side, the compiler would
/// load both at once, and that load would wait for two stores.
#[derive(Drop)]
pub struct Stack {
    depth: usize,
    lacking: [u32; MAX_DEPTH as usize],
    owed: u64,
}

impl Model for Stack {
    ghost use Rattle.std.specs.Prelude.{◌≡◌, ◌≤◌, List, ℕ, sum};
    ghost use Rattle.fwd_msgpack.specs.declared.limits.TheConstants.{MAX_DEPTH};
    ghost use Rattle.fwd_msgpack.specs.Stacks.{from_last};

    ghost Value = { List ℕ };

    ghost view = { λ s. from_last s.depth s.lacking };

    ghost invariant = { λ s.
        (s.depth ≤ MAX_DEPTH) × (s.owed ≡ sum (from_last s.depth s.lacking)) };
}

impl Stack {
    /// No open container.
    #[inline(always)]
    pub fn new() -> Self
        ensures { result ≡ [] }
    {
        Stack {
            depth: 0,
            lacking: [0; MAX_DEPTH as usize],
            owed: 0,
        }
    }

    /// Closes all containers.
    #[inline(always)]
    pub fn clear(&mut self)
        ensures { self.new ≡ [] }
    {
        self.depth = 0;
        self.owed = 0;
    }

    /// How many containers are open.
    #[inline(always)]
    pub fn len(&self) -> usize
        ensures len { result ≡ length self.now }
        ensures most { length self.now ≤ MAX_DEPTH }
    {
        self.depth
    }

    /// How many values they lack in all.
    #[inline(always)]
    pub fn owed(&self) -> u64
        ensures { result ≡ sum self.now }
    {
        self.owed
    }

    /// How many members the innermost container lacks after
    /// the one in progress; 0 where none is open.
    #[inline(always)]
    pub fn innermost(&self) -> u32
        ensures { result ≡ innermost self.now }
    {
        if self.depth > 0 {
            self.lacking[self.depth - 1]
        } else {
            0
        }
    }

    /// Ends so many values in the innermost container, which goes on behind them.
    #[inline(always)]
    pub fn end_values(&mut self, items: u32)
        requires { items ≤ innermost self.old }
        ensures { self.new ≡ less_by items self.old }
    {
        if self.depth > 0 {
            self.lacking[self.depth - 1] -= items;
            self.owed -= u64::from(items);
        }
    }

    /// Opens a container that lacks so many members after its first.
    #[inline(always)]
    pub fn push(&mut self, lacking: u32)
        requires room { length self.old < MAX_DEPTH }
        requires fits { sum self.old + lacking < 2 ^ 64 }
        ensures { self.new ≡ lacking ∷ self.old }
    {
        self.lacking[self.depth] = lacking;
        self.depth += 1;
        self.owed += u64::from(lacking);
    }

    /// Ends a value in the innermost container, and each container that lacks nothing then. Whether
    /// one is left open, which goes on to its next member.
    #[inline(always)]
    pub fn end_value(&mut self) -> bool
        ensures { after_value self.old ≡ (if result then Some self.new else None) }
    {
        while self.depth > 0 {
            let innermost = self.depth - 1;
            let lacking = self.lacking[innermost];
            if lacking > 0 {
                self.lacking[innermost] = lacking - 1;
                self.owed -= 1;
                return true;
            }
            self.depth = innermost;
        }
        false
    }
}
