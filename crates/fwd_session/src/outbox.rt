//! The frames that wait to be sent.

ghost use Rattle.std.specs.Prelude.{
  ◌≡◌,
  ◌≤◌,
  ◌<◌,
  ◌^◌,
  ◌==◌,
  [],
  ◌∷◌,
  ◌++◌,
  length,
  take,
  drop,
  min,
  OnOk,
  OnErr,
};
ghost use Rattle.std.specs.List.{concat};
ghost use Rattle.fwd_chunks.specs.Lending.{IsLent};
ghost use Rattle.fwd_session.specs.ServerAcks.{frame_of};
ghost use Rattle.fwd_session.specs.Flights.{unsent_after};

use crate::frame::Frame;
use fwd_chunks::{Carried, WriteSlices};
use std::alloc::{AllocError, Global};
use std::collections::VecDeque;
use std::marker::Model;

/// How many bytes wait at most: as many as a vector may have.
const MOST: u64 = 0x7fff_ffff_ffff_ffff;

/// The frames that wait to be sent, or what is left of them: of each a byte at least.
#[derive(Drop)]
pub(crate) struct Outbox {
    frames: VecDeque<Frame>,
    /// How many bytes that are.
    left: u64,
}

impl Model for Outbox {
    ghost use Rattle.std.specs.Prelude.{List, ℕ, ◌≡◌, ◌<◌, ◌^◌, length};
    ghost use Rattle.std.specs.List.{concat, AllByRecursion};

    ghost Value = { List (List ℕ) };

    ghost view = { λ o. o.frames.items };

    ghost invariant = { λ o. AllByRecursion (λ f. 0 < length f) o.frames.items
        × (o.left ≡ length (concat o.frames.items))
        × (o.left < 2 ^ 63) };
}

/// The first frame waits no more.
fn drop_first(frames: &mut VecDeque<Frame>)
    ensures { frames.new.items ≡ drop 1 frames.old.items }
{
    let _first = frames.pop_front();
}

impl Outbox {
    /// No frames.
    pub(crate) fn new(alloc: Global) -> Self
        ensures { result ≡ [] }
    {
        Outbox {
            frames: VecDeque::new(alloc),
            left: 0,
        }
    }

    /// How many frames wait.
    pub(crate) fn count(&self) -> usize
        ensures { result ≡ length self.now }
    {
        self.frames.len()
    }

    /// How many bytes wait.
    pub(crate) fn len(&self) -> u64
        ensures value { result ≡ length (concat self.now) }
        ensures bound { result < 2 ^ 63 }
    {
        self.left
    }

    /// The first of the bytes that wait, as far as they lie in one piece: none only where none
    /// waits.
    pub(crate) fn front(&self) -> &[u8]
        ensures front { result.now ≡ take (length result.now) (concat self.now) }
        ensures some { 0 < length (concat self.now) → 0 < length result.now }
    {
        match self.frames.front() {
            None => &[],
            Some(frame) => frame.front(),
        }
    }

    /// Puts the frame of a chunk behind those that wait. On an error nothing has changed.
    pub(crate) fn load(&mut self, alloc: Global, chunk: &Carried) -> Result<(), AllocError>
        ensures ok { OnOk result (self.new ≡ self.old ++ frame_of chunk.now ∷ []) }
        ensures err { OnErr result (self.new ≡ self.old) }
    {
        let frame = Frame::of(alloc, chunk)?;
        self.push(frame)
    }

    /// Puts a frame behind those that wait. On an error nothing has changed.
    fn push(&mut self, frame: Frame) -> Result<(), AllocError>
        requires { 0 < length frame }
        ensures ok { OnOk result (self.new ≡ self.old ++ frame ∷ []) }
        ensures err { OnErr result (self.new ≡ self.old) }
    {
        let len = frame.len().ok_or(AllocError)?;
        let left = self.left.checked_add(len).ok_or(AllocError)?;
        if left > MOST {
            return Err(AllocError);
        }
        if self.frames.push_back(frame).is_err() {
            return Err(AllocError);
        }
        self.left = left;
        Ok(())
    }

    /// So many bytes more are sent, or as many as the next piece has: how many.
    fn step(&mut self, count: usize) -> usize
        requires some { 0 < count }
        requires within { count ≤ length (concat self.old) }
        ensures sent { self.new ≡ unsent_after result self.old }
        ensures some { 0 < result }
        ensures within { result ≤ count }
    {
        if self.frames.is_empty() {
            return count;
        }
        let len = self.frames[0].front().len();
        let step = self.frames[0].step(count.min(len));
        self.left -= step as u64;
        if self.frames[0].is_empty() {
            drop_first(&mut self.frames);
        }
        step
    }

    /// So many bytes more are sent.
    pub(crate) fn advance(&mut self, count: usize)
        requires { count ≤ length (concat self.old) }
        ensures { self.new ≡ unsent_after count self.old }
    {
        let _ = &self.frames;
        let mut rest = count;
        while rest > 0 {
            rest -= self.step(rest);
        }
    }

    /// Copies the first of the bytes that wait into a room, as many as fit: how many.
    pub(crate) fn gather(&self, room: &mut [u8]) -> usize
        ensures count { result ≡ min (length room.old) (length (concat self.now)) }
        ensures bytes { room.new ≡ take result (concat self.now) ++ drop result room.old }
    {
        let mut filled = 0;
        for place in 0..self.frames.len() {
            if filled == room.len() {
                break;
            }
            filled += self.frames[place].gather(room.split_at_mut(filled).1);
        }
        filled
    }

    /// Puts the pieces that the bytes that wait lie in behind others, as many as there is place
    /// for.
    pub(crate) fn lend<'a>(&'a self, pieces: WriteSlices<'a>) -> WriteSlices<'a>
        ensures { IsLent pieces.entry (concat self.now) result }
    {
        let mut lent = pieces;
        for place in 0..self.frames.len() {
            if lent.is_full() {
                break;
            }
            lent = self.frames[place].lend(lent);
        }
        lent
    }

    /// No byte waits any more.
    pub(crate) fn clear(&mut self)
        ensures { self.new ≡ [] }
    {
        self.frames.clear();
        self.left = 0;
    }
}
