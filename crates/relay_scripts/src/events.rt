//! The events of a script, a line each, and the same bytes in other pieces.

use crate::answers::{lines_of, split_last_word};
use fwd_script::split_script;
use std::alloc::{AllocError, Global};

/// A line that brings bytes of a connection (`piece`) or of a session's link (`heard`).
#[derive(Clone, Copy)]
pub struct Piece<'a> {
    /// The words before the bytes, with the blank behind them.
    words: &'a [u8],
    /// Two digits for each byte.
    digits: &'a [u8],
}

impl<'a> Piece<'a> {
    /// The piece of a line, if it brings any bytes.
    pub fn of_line(line: &'a [u8]) -> Option<Piece<'a>> {
        if !line.starts_with(b"piece ") && !line.starts_with(b"heard ") {
            return None;
        }
        let (words, digits) = split_last_word(line)?;
        if digits == b"-".as_slice() {
            return None;
        }
        Some(Piece { words, digits })
    }

    /// How many bytes it brings.
    pub fn count(&self) -> usize {
        self.digits.len() / 2
    }

    /// The first bytes, so many of them, and the rest, each as a piece.
    fn cut(self, bytes: usize) -> Option<(Piece<'a>, Piece<'a>)> {
        let (first, second) = self.digits.split_at_checked(bytes.saturating_mul(2))?;
        let words = self.words;
        Some((
            Piece {
                words,
                digits: first,
            },
            Piece {
                words,
                digits: second,
            },
        ))
    }
}

/// A script by its lines.
#[derive(Drop)]
pub struct Events<'a> {
    /// The settings, with the line that ends them.
    head: &'a [u8],
    /// The events, a line each.
    lines: Vec<&'a [u8]>,
}

impl<'a> Events<'a> {
    /// The events of a script.
    pub fn of_script(alloc: Global, script: &'a [u8]) -> Result<Events<'a>, AllocError> {
        let events = split_script(script).events;
        Ok(Events {
            head: &script[..script.len() - events.len()],
            lines: lines_of(alloc, events)?,
        })
    }

    /// The lines.
    pub fn lines(&self) -> &[&'a [u8]] {
        self.lines.as_slice()
    }

    /// The text up to the event at this place.
    fn text_before(&self, alloc: Global, place: usize) -> Result<Vec<u8>, AllocError> {
        let mut text = Vec::from_slice(alloc, self.head)?;
        for line in self.lines.iter().take(place) {
            push_line(&mut text, &[*line])?;
        }
        Ok(text)
    }

    /// Appends the events from this place on.
    fn push_from(&self, text: &mut Vec<u8>, place: usize) -> Result<(), AllocError> {
        for line in self.lines.iter().skip(place) {
            push_line(text, &[*line])?;
        }
        Ok(())
    }

    /// The script, where the bytes of the piece at this
    /// place come in two, so many of them in the first.
    pub fn cut(
        &self,
        alloc: Global,
        place: usize,
        piece: Piece<'_>,
        bytes: usize,
    ) -> Result<Vec<u8>, AllocError> {
        let mut text = self.text_before(alloc, place)?;
        if let Some((first, second)) = piece.cut(bytes) {
            push_line(&mut text, &[first.words, first.digits])?;
            push_line(&mut text, &[second.words, second.digits])?;
        }
        self.push_from(&mut text, place.saturating_add(1))?;
        Ok(text)
    }

    /// The script, where the bytes of the pieces at this place and behind it come in one: nothing
    /// where there are no two pieces of one connection, or of one link.
    pub fn joined(&self, alloc: Global, place: usize) -> Result<Option<Vec<u8>>, AllocError> {
        let Some((first, second)) = self.pieces_at(place) else {
            return Ok(None);
        };
        let mut text = self.text_before(alloc, place)?;
        push_line(&mut text, &[first.words, first.digits, second.digits])?;
        self.push_from(&mut text, place.saturating_add(2))?;
        Ok(Some(text))
    }

    /// The pieces at this place and behind it, if both stand
    /// there and are of one connection, or of one link.
    fn pieces_at(&self, place: usize) -> Option<(Piece<'a>, Piece<'a>)> {
        let first = Piece::of_line(*self.lines.get(place)?)?;
        let second = Piece::of_line(*self.lines.get(place.saturating_add(1))?)?;
        if first.words == second.words {
            Some((first, second))
        } else {
            None
        }
    }
}

/// Appends a line of these parts.
fn push_line(text: &mut Vec<u8>, parts: &[&[u8]]) -> Result<(), AllocError> {
    for part in parts {
        text.extend_from_slice(*part)?;
    }
    text.push(b'\n')?;
    Ok(())
}
