//! The answers of a replay, and when the answers to two pieces stand for the answer to one. How
//! many requests wait between the two is not compared; the scripts `NAME-byte-by-byte` have that.

use fwd_script::{Status, replay};
use std::alloc::{AllocError, Global};

/// What a replay of the script writes, and how it ends.
pub fn replayed(alloc: Global, script: &[u8]) -> (Vec<u8>, Status) {
    let mut reader = script;
    let mut writer = Vec::new(alloc);
    let status = replay(alloc, &mut reader, &mut writer);
    (writer, status)
}

/// The lines of a text, each without its line feed.
pub fn lines_of(alloc: Global, text: &[u8]) -> Result<Vec<&[u8]>, AllocError> {
    let mut lines = Vec::new(alloc);
    for line in text.split(|byte| *byte == b'\n') {
        lines.push(line)?;
    }
    if text.is_empty() || text.ends_with(b"\n") {
        lines.pop();
    }
    Ok(lines)
}

/// A text in two, its last blank at the end of the first: nothing where it has no blank.
pub fn split_last_word(text: &[u8]) -> Option<(&[u8], &[u8])> {
    let mut parts = None;
    for (index, byte) in text.iter().enumerate() {
        if *byte == b' ' {
            parts = text.split_at_checked(index.saturating_add(1));
        }
    }
    parts
}

/// Whether the answers to two pieces stand for this answer to one that has the bytes of both.
///
/// After a fault or a refusal the second piece is refused, and the answer is the first one. Else it
/// is the second one, with the bytes that both append.
fn stand_for(first: &[u8], second: &[u8], whole: &[u8]) -> bool {
    if first.starts_with(b"fault ") || first.starts_with(b"refused ") {
        return whole == first && second.starts_with(b"refused ");
    }
    let Some((_, appended)) = split_last_word(first) else {
        return false;
    };
    if appended == b"-".as_slice() {
        return whole == second;
    }
    let Some((words, more)) = split_last_word(second) else {
        return false;
    };
    let more = if more == b"-".as_slice() {
        b"".as_slice()
    } else {
        more
    };
    let Some(digits) = whole.strip_prefix(words) else {
        return false;
    };
    digits.strip_prefix(appended) == Some(more)
}

/// Whether these answers are the others, but that the answer at
/// this place and the one behind it stand for the one there.
pub fn are_parts_of(parts: &[&[u8]], answers: &[&[u8]], place: usize) -> bool {
    if parts.len().checked_sub(1) != Some(answers.len()) {
        return false;
    }
    for (number, answer) in answers.iter().enumerate() {
        let is_same = if number < place {
            parts[number] == *answer
        } else if number == place {
            stand_for(parts[number], parts[number + 1], *answer)
        } else {
            parts[number + 1] == *answer
        };
        if !is_same {
            return false;
        }
    }
    true
}
