//! Bytes that were written out for the link.

ghost use Rattle.std.specs.Prelude.{◌≡◌, ◌≤◌, ◌==◌, [], ◌++◌, length, take, drop, min, OnOk, OnErr};

use std::alloc::{AllocError, Global};
use std::marker::Model;

/// Bytes that were written out for the link, of which some are sent.
#[derive(Drop)]
pub(crate) struct Written {
    bytes: Vec<u8>,
    /// How many of them are sent.
    sent: usize,
}

impl Model for Written {
    ghost use Rattle.std.specs.Prelude.{List, ℕ, ◌≤◌, length, drop};

    ghost Value = { List ℕ };

    ghost view = { λ w. drop w.sent w.bytes.items };

    ghost invariant = { λ w. w.sent ≤ length w.bytes.items };
}

impl Written {
    /// No bytes.
    pub(crate) fn new(alloc: Global) -> Self
        ensures { result ≡ [] }
    {
        Written::of(Vec::new(alloc))
    }

    /// These bytes.
    pub(crate) fn of(bytes: Vec<u8>) -> Self
        ensures { result ≡ bytes.items }
    {
        Written { bytes, sent: 0 }
    }

    /// The bytes that are left.
    pub(crate) fn as_slice(&self) -> &[u8]
        ensures { result.now ≡ self.now }
    {
        &self.bytes[self.sent..]
    }

    /// Puts bytes behind those that are left, which are not copied where none is. On an error
    /// nothing has changed.
    pub(crate) fn append(&mut self, bytes: Vec<u8>) -> Result<(), AllocError>
        ensures ok { OnOk result (self.new ≡ self.old ++ bytes.items) }
        ensures err { OnErr result (self.new ≡ self.old) }
    {
        if self.sent == self.bytes.len() {
            self.bytes = bytes;
            self.sent = 0;
            return Ok(());
        }
        self.bytes.extend_from_slice(&bytes)
    }

    /// So many bytes more are sent.
    pub(crate) fn advance(&mut self, count: usize)
        requires { count ≤ length self.old }
        ensures { self.new ≡ drop count self.old }
    {
        self.sent += count;
    }

    /// Copies the first of the bytes that are left into a room, as many as fit: how many.
    pub(crate) fn gather(&self, room: &mut [u8]) -> usize
        ensures count { result ≡ min (length room.old) (length self.now) }
        ensures bytes { room.new ≡ take result self.now ++ drop result room.old }
    {
        let bytes = self.as_slice();
        let count = bytes.len().min(room.len());
        room[..count].copy_from_slice(&bytes[..count]);
        count
    }

    /// No byte is left.
    pub(crate) fn clear(&mut self)
        ensures { self.new ≡ [] }
    {
        self.bytes.clear();
        self.sent = 0;
    }
}
