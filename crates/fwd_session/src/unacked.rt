//! The chunks that are awaited while a piece is judged.

ghost use Rattle.std.specs.Prelude.{
  ◌≡◌,
  ◌≤◌,
  ◌<◌,
  length,
  nat_lt,
  remove,
  slice_get,
  find,
  Some,
  None,
  option_map,
  IfSome,
  IfNone,
};
ghost use Rattle.std.specs.List.{list_any};
ghost use Rattle.std.specs.Str.{bytes_eq};
ghost use Rattle.fwd_session.specs.Flights.{PendingChunk, pending_of};
ghost use Rattle.fwd_session.specs.Hearing.{IsFirst};

use crate::limits::WINDOW_LIMIT;
use arrayvec::ArrayVec;
use fwd_chunks::Carried;
use std::marker::Model;

/// The chunks whose acknowledgement is awaited, in the order of their loads. Those that a piece
/// acknowledges leave them while the piece is judged.
#[derive(Drop)]
pub(crate) struct Unacked<'a> {
    chunks: &'a [Carried],
    /// Of how many of them, the first, the frames are handed on.
    handed_on: usize,
    /// The places of those that are not acknowledged yet.
    left: ArrayVec<usize, WINDOW_LIMIT>,
}

impl<'a> Model for Unacked<'a> {
    ghost use Rattle.std.specs.Prelude.{◌<◌, List, length, map};
    ghost use Rattle.std.specs.List.{AllByRecursion};
    ghost use Rattle.fwd_session.specs.Flights.{PendingChunk, pending_at};

    ghost Value = { List PendingChunk };

    ghost view = { λ u. map (pending_at u.handed_on u.chunks.now) u.left.items };

    ghost invariant = { λ u. AllByRecursion (λ place. place < length u.chunks.now) u.left.items };
}

/// Whether any of these places is below a bound.
fn any_below(places: &[usize], bound: usize) -> bool
    ensures { result ≡ list_any (λ place. nat_lt place bound) places.now }
{
    places.iter().any(|place| *place < bound)
}

impl<'a> Unacked<'a> {
    /// These chunks, where the frames of the first so many are handed on.
    pub(crate) fn of(chunks: &'a [Carried], handed_on: usize) -> Self
        requires { length chunks.now ≤ WINDOW_LIMIT }
        ensures { result ≡ pending_of handed_on chunks.entry.now }
    {
        let mut left = ArrayVec::new();
        for place in 0..chunks.len() {
            left.push(place);
        }
        Unacked {
            chunks,
            handed_on,
            left,
        }
    }

    /// Whether the frame of any is handed on.
    pub(crate) fn any_handed_on(&self) -> bool
        ensures { result ≡ list_any (λ p. p.is_handed_on) self.now }
    {
        any_below(self.left.as_slice(), self.handed_on)
    }

    /// The place of the first with this name.
    pub(crate) fn find(&self, name: &[u8]) -> Option<usize>
        ensures some { IfSome result (λ place. (one : PendingChunk)
            × IsFirst (λ p. bytes_eq name.now p.chunk.name) self.now place one) }
        ensures none { IfNone result
            (find (λ p. bytes_eq name.now p.chunk.name) self.now ≡ None) }
    {
        for place in 0..self.left.len() {
            if name == self.chunk(place).name() {
                return Some(place);
            }
        }
        None
    }

    /// Whether the frame of the one at a place is handed on.
    pub(crate) fn is_handed_on(&self, place: usize) -> bool
        requires { place < length self.now }
        ensures { option_map (λ p. p.is_handed_on) (slice_get self.now place) ≡ Some result }
    {
        self.left[place] < self.handed_on
    }

    /// The chunk at a place.
    pub(crate) fn chunk(&self, place: usize) -> &Carried
        requires { place < length self.now }
        ensures { option_map (λ p. p.chunk) (slice_get self.now place) ≡ Some result.now }
    {
        &self.chunks[self.left[place]]
    }

    /// The one at a place is acknowledged.
    pub(crate) fn remove(&mut self, place: usize)
        requires { place < length self.old }
        ensures { self.new ≡ remove self.old place }
    {
        self.left.remove(place);
    }
}
