//! The front of a head that is cut off.

ghost use Rattle.std.specs.Prelude.{◌≡◌, ◌≤◌, ◌<◌, [], ◌∷◌, ◌++◌, length};
ghost use Rattle.fwd_msgpack.specs.Heads.{reading_of};

use crate::head::{HeadRead, read_head};
use std::marker::Model;

/// The most bytes that a head has.
const MAX_HEAD: usize = 9;

/// The first bytes of a head.
#[derive(Drop)]
pub struct Front {
    bytes: [u8; MAX_HEAD],
    len: usize,
}

impl Model for Front {
    ghost use Rattle.std.specs.Prelude.{◌≤◌, List, ℕ, take};
    ghost use Rattle.fwd_msgpack.specs.declared.front.TheConstants.{MAX_HEAD};

    ghost Value = { List ℕ };

    ghost view = { λ f. take f.len f.bytes };

    ghost invariant = { λ f. f.len ≤ MAX_HEAD };
}

impl Front {
    /// No byte of a head.
    #[inline(always)]
    pub fn new() -> Self
        ensures { result ≡ [] }
    {
        Front {
            bytes: [0; MAX_HEAD],
            len: 0,
        }
    }

    /// How many bytes there are.
    #[inline(always)]
    pub fn len(&self) -> usize
        ensures len { result ≡ length self.now }
        ensures most { length self.now ≤ MAX_HEAD }
    {
        self.len
    }

    /// Forgets the bytes.
    #[inline(always)]
    pub fn clear(&mut self)
        ensures { self.new ≡ [] }
    {
        self.len = 0;
    }

    /// Takes one byte more.
    pub fn push(&mut self, byte: u8)
        requires { length self.old < MAX_HEAD }
        ensures { self.new ≡ self.old ++ byte ∷ [] }
    {
        self.bytes[self.len] = byte;
        self.len += 1;
    }

    /// Keeps these bytes in place of what there was.
    pub fn keep(&mut self, front: &[u8])
        requires { length front.now ≤ MAX_HEAD }
        ensures { self.new ≡ front.now }
    {
        self.bytes[..front.len()].copy_from_slice(front);
        self.len = front.len();
    }

    /// What the bytes read as.
    pub fn read(&self) -> HeadRead
        ensures { result ≡ reading_of self.now }
    {
        read_head(&self.bytes[..self.len])
    }
}
