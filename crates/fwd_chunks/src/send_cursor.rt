//! A chunk's bytes that are still to be sent. They are read as by the `bytes` crate's `Buf`.

ghost use Rattle.std.specs.Prelude.{
  ◌≡◌,
  ◌≤◌,
  ◌<◌,
  ◌==◌,
  ◌+◌,
  ◌-◌,
  ◌++◌,
  length,
  take,
  drop,
  min,
};
ghost use Rattle.std.specs.List.{concat};
ghost use Rattle.std.specs.Arc.{arc_value};
ghost use Rattle.fwd_chunks.specs.Rows.{joined};
ghost use Rattle.fwd_chunks.specs.Lending.{IsLent};

use crate::entry_slices::EntrySlices;
use crate::write_slices::WriteSlices;
use std::marker::Model;
use std::sync::Arc;

/// The bytes of a chunk that are still to be sent, in memory that its requests share.
#[derive(Drop)]
pub struct SendCursor {
    slices: Arc<EntrySlices>,
    /// How many slices are sent.
    passed: usize,
    /// How many bytes of the next one are.
    sent: usize,
    /// How many bytes are left in all.
    left: usize,
}

impl Model for SendCursor {
    ghost use Rattle.std.specs.Prelude.{List, ℕ, ◌≡◌, length};
    ghost use Rattle.std.specs.Arc.{arc_value};
    ghost use Rattle.fwd_chunks.specs.Rows.{bytes_behind};

    ghost Value = { List ℕ };

    ghost view = { λ u. bytes_behind u.passed u.sent (arc_value u.slices) };

    ghost use Rattle.fwd_chunks.specs.Rows.{StandsIn};

    ghost invariant = { λ u. StandsIn u.passed u.sent u.left (arc_value u.slices) };
}

/// Copies the first of these bytes into a room, behind so many that are there, as many as fit: how
/// many are there then.
fn put(room: &mut [u8], filled: usize, bytes: &[u8]) -> usize
    requires { filled ≤ length room.old }
    ensures count { result ≡ min (length room.old) (filled + length bytes.now) }
    ensures bytes { room.new
        ≡ take filled room.old ++ take (result - filled) bytes.now ++ drop result room.old }
{
    let count = bytes.len().min(room.len() - filled);
    room[filled..filled + count].copy_from_slice(&bytes[..count]);
    filled + count
}

impl SendCursor {
    /// All bytes of these slices.
    pub(crate) fn new(slices: Arc<EntrySlices>) -> Self
        ensures { result ≡ concat (joined (arc_value slices)) }
    {
        let _slices = slices.as_slice(); // for the proof
        let left = slices.size() as usize;
        SendCursor {
            slices,
            passed: 0,
            sent: 0,
            left,
        }
    }

    /// How many bytes are left.
    pub fn len(&self) -> usize
        ensures { result ≡ length self.now }
    {
        self.left
    }

    /// Whether no byte is left.
    pub fn is_empty(&self) -> bool
        ensures { result ≡ (length self.now == 0) }
    {
        self.left == 0
    }

    /// The first of the bytes that are left, as far as they lie in one piece: none only where none
    /// is left.
    pub fn front(&self) -> &[u8]
        ensures front { result.now ≡ take (length result.now) self.now }
        ensures some { 0 < length self.now → 0 < length result.now }
    {
        match self.slices.as_slice().get(self.passed) {
            None => &[],
            Some(slice) => slice.part().bytes().split_at(self.sent).1,
        }
    }

    /// So many bytes more are sent, or as many as the next piece has: how many.
    fn step(&mut self, count: usize) -> usize
        requires some { 0 < count }
        requires within { count ≤ length self.old }
        ensures sent { self.new ≡ drop result self.old }
        ensures some { 0 < result }
        ensures within { result ≤ count }
    {
        let Some(slice) = self.slices.as_slice().get(self.passed) else {
            return count;
        };
        let len = slice.part().bytes().len() - self.sent;
        if count < len {
            self.sent += count;
            self.left -= count;
            return count;
        }
        self.passed += 1;
        self.sent = 0;
        self.left -= len;
        len
    }

    /// So many bytes more are sent.
    pub fn advance(&mut self, count: usize)
        requires { count ≤ length self.old }
        ensures { self.new ≡ drop count self.old }
    {
        let mut rest = count;
        while rest > 0 {
            rest -= self.step(rest);
        }
    }

    /// Copies the first of the bytes that are left into a room, as many as fit, whatever the pieces
    /// are that they lie in: how many.
    pub fn gather(&self, room: &mut [u8]) -> usize
        ensures count { result ≡ min (length room.old) (length self.now) }
        ensures bytes { room.new ≡ take result self.now ++ drop result room.old }
    {
        let mut rest = self.slices.as_slice().split_at(self.passed).1;
        let mut sent = self.sent;
        let mut filled = 0;
        while let Some((slice, slices)) = rest.split_first() {
            let piece = slice.part().bytes().split_at(sent).1;
            filled = put(room, filled, piece);
            if filled == room.len() {
                break;
            }
            rest = slices;
            sent = 0;
        }
        filled
    }

    /// Puts the pieces that the bytes that are left lie in behind others, as many as there is place
    /// for.
    pub fn lend<'a>(&'a self, pieces: WriteSlices<'a>) -> WriteSlices<'a>
        ensures { IsLent pieces.entry self.now result }
    {
        let mut rest = self.slices.as_slice().split_at(self.passed).1;
        let mut sent = self.sent;
        let mut lent = pieces;
        while let Some((slice, slices)) = rest.split_first() {
            if lent.is_full() {
                break;
            }
            lent = lent.with(slice.part().bytes().split_at(sent).1);
            rest = slices;
            sent = 0;
        }
        lent
    }
}
