//! Where the answers of a script are not those that must come.

use crate::answers::{are_parts_of, lines_of, replayed};
use crate::events::{Events, Piece};
use fwd_script::{End, Status, tell};
use std::alloc::{AllocError, Global};
use std::{fmt, io};

/// The most bytes of a piece that is cut at each of them. A longer one is cut near its ends.
const CUT_WHOLE: usize = 4096;

/// How near its ends a longer piece is cut, in bytes.
const NEAR: usize = 64;

/// The first event, counted from 1, to which the answer is another one.
#[derive(Clone, Copy)]
pub enum Difference {
    /// In the script as it stands.
    Whole(usize),
    /// Where the bytes of this event come in two, so many of them in the first.
    Cut(usize, usize),
    /// Where the bytes of this event and of the one behind it come in one.
    Joined(usize),
}

impl fmt::Display for Difference {
    fn fmt<W: fmt::Write>(&self, f: &mut fmt::Formatter<W>) -> fmt::Result {
        match self {
            Difference::Whole(event) => write!(f, "event {event} has another answer"),
            Difference::Cut(event, bytes) => {
                write!(
                    f,
                    "another answer where event {event} is cut behind {bytes} bytes"
                )
            }
            Difference::Joined(event) => {
                write!(
                    f,
                    "another answer where event {event} is joined with the next one"
                )
            }
        }
    }
}

/// Where a replay of the script comes to something else than the text that must come.
pub fn difference_of(
    alloc: Global,
    script: &[u8],
    wanted: &[u8],
) -> io::Result<Option<Difference>> {
    let (written, status) = replayed(alloc, script);
    if let Some(line) = other_line(alloc, &written, status, wanted)? {
        return Ok(Some(Difference::Whole(line)));
    }
    Ok(piece_difference(alloc, script, &written)?)
}

/// The number of the first line of a replay that is another one than must come.
fn other_line(
    alloc: Global,
    written: &[u8],
    status: Status,
    wanted: &[u8],
) -> io::Result<Option<usize>> {
    let mut text = Vec::from_slice(alloc, written)?;
    tell(&mut text, &End::Ran(status))?;
    if text.as_slice() == wanted {
        return Ok(None);
    }
    let lines = lines_of(alloc, &text)?;
    let wanted = lines_of(alloc, wanted)?;
    Ok(Some(first_other(&lines, &wanted)))
}

/// Where a replay whose pieces are cut, or joined, comes to something else than was written.
fn piece_difference(
    alloc: Global,
    script: &[u8],
    written: &[u8],
) -> Result<Option<Difference>, AllocError> {
    let events = Events::of_script(alloc, script)?;
    let answers = lines_of(alloc, written)?;
    if let Some(difference) = cut_difference(alloc, &events, &answers)? {
        return Ok(Some(difference));
    }
    joined_difference(alloc, &events, &answers)
}

/// The number, from 1, of the first line that is another one.
fn first_other(lines: &[&[u8]], others: &[&[u8]]) -> usize {
    for (index, line) in lines.iter().enumerate() {
        if others.get(index) != Some(line) {
            return index.saturating_add(1);
        }
    }
    lines.len().saturating_add(1)
}

/// Where the answers differ once the bytes of a piece come in
/// two. An event behind the last answer is none that was asked.
fn cut_difference(
    alloc: Global,
    events: &Events<'_>,
    answers: &[&[u8]],
) -> Result<Option<Difference>, AllocError> {
    for (place, line) in events.lines().iter().take(answers.len()).enumerate() {
        let Some(piece) = Piece::of_line(*line) else {
            continue;
        };
        if let Some(bytes) = bad_cut(alloc, events, answers, place, piece)? {
            return Ok(Some(Difference::Cut(place.saturating_add(1), bytes)));
        }
    }
    Ok(None)
}

/// Whether a piece of so many bytes is cut behind this many.
fn is_cut(count: usize, bytes: usize) -> bool {
    count <= CUT_WHOLE || bytes <= NEAR || count.saturating_sub(bytes) <= NEAR
}

/// The first cut of a piece, by the bytes before it, after which the answers are others.
fn bad_cut(
    alloc: Global,
    events: &Events<'_>,
    answers: &[&[u8]],
    place: usize,
    piece: Piece<'_>,
) -> Result<Option<usize>, AllocError> {
    for bytes in 1..piece.count() {
        if !is_cut(piece.count(), bytes) {
            continue;
        }
        let text = events.cut(alloc, place, piece, bytes)?;
        let (written, _status) = replayed(alloc, &text);
        if !are_parts_of(&lines_of(alloc, &written)?, answers, place) {
            return Ok(Some(bytes));
        }
    }
    Ok(None)
}

/// Where the answers differ once the bytes of two pieces come in one.
fn joined_difference(
    alloc: Global,
    events: &Events<'_>,
    answers: &[&[u8]],
) -> Result<Option<Difference>, AllocError> {
    for place in 0..answers.len().saturating_sub(1) {
        let Some(text) = events.joined(alloc, place)? else {
            continue;
        };
        let (written, _status) = replayed(alloc, &text);
        if !are_parts_of(answers, &lines_of(alloc, &written)?, place) {
            return Ok(Some(Difference::Joined(place.saturating_add(1))));
        }
    }
    Ok(None)
}
