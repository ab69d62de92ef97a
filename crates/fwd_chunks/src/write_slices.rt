//! Pieces of bytes that are lent.

ghost use Rattle.std.specs.Prelude.{◌≡◌, ◌≤◌, ◌==◌, [], length, map, nat_le};
ghost use Rattle.std.specs.List.{list_any};
ghost use Rattle.fwd_chunks.specs.Lending.{IsLent};

use arrayvec::ArrayVec;
use std::marker::Model;

/// The most pieces that are lent at once. A link writes as many by one call of the system.
pub const PIECE_LIMIT: usize = 4;

/// Pieces of bytes in memory that is lent, in their order: four at most.
#[derive(Drop)]
pub struct WriteSlices<'a> {
    pieces: ArrayVec<&'a [u8], PIECE_LIMIT>,
}

impl<'a> Model for WriteSlices<'a> {
    ghost use Rattle.std.specs.Prelude.{List, ℕ, map};

    ghost Value = { List (List ℕ) };

    ghost view = { λ p. map (λ piece. piece.now) p.pieces.items };
}

/// Whether one of these pieces has so many bytes or more.
fn any_large(pieces: &[&[u8]], least: usize) -> bool
    ensures { result ≡ list_any (λ piece. nat_le least (length piece.now)) pieces.now }
{
    pieces.iter().any(|piece| least <= piece.len())
}

impl<'a> WriteSlices<'a> {
    /// No pieces.
    pub fn none() -> Self
        ensures { result ≡ [] }
    {
        WriteSlices {
            pieces: ArrayVec::new(),
        }
    }

    /// Whether no piece more is taken.
    pub fn is_full(&self) -> bool
        ensures value { result ≡ (length self.now == PIECE_LIMIT) }
        ensures few { length self.now ≤ PIECE_LIMIT }
    {
        self.pieces.is_full()
    }

    /// These pieces and one more behind them, but not where they are full or it has no byte.
    pub fn with(self, piece: &'a [u8]) -> Self
        ensures { IsLent self.entry piece.entry.now result }
    {
        if piece.is_empty() || self.is_full() {
            return self;
        }
        let mut pieces = self.pieces;
        pieces.push(piece);
        WriteSlices { pieces }
    }

    /// The pieces in their order.
    pub fn as_slice(&self) -> &[&'a [u8]]
        ensures { map (λ piece. piece.now) result.now ≡ self.now }
    {
        self.pieces.as_slice()
    }

    /// Whether one of the pieces has so many bytes or more.
    pub fn has_large(&self, least: usize) -> bool
        ensures { result ≡ list_any (λ piece. nat_le least (length piece)) self.now }
    {
        any_large(&self.pieces, least)
    }
}
