//! Bytes, and what is read of them: the kind of their value with its number, length or count, and
//! the shortest spelling of its head; or `short`; or the fault.
//!
//! A line is a front in hex, and where more follow, a unit and how many times it stands behind the
//! front. tests/tables/vectors.py has the cases.

use crate::tables::heads::{fault_word, head_words, shortest};
use crate::tables::members::is_read;
use crate::tables::words::{bytes_of_word, push_times};
use anyhow::Result;
use fwd_msgpack::{Cut, HeadRead, Limits, Value, cut, read_head};
use std::alloc::Global;

/// How long and how deep a source's values may be.
const LIMITS: Limits = Limits {
    bytes: 16_777_216,
    depth: 64,
};

/// The bytes of a line.
fn bytes_of_line(alloc: Global, line: &str) -> Result<Vec<u8>> {
    let mut words = line.split(' ');
    let mut digits = String::from_str(alloc, words.next().unwrap_or(""))?;
    let unit = words.next().unwrap_or("");
    push_times(&mut digits, unit, words.next().unwrap_or("0"))?;
    bytes_of_word(alloc, digits.as_str())
}

/// Whether the bytes are less than a value without the last of them.
fn is_short_before(bytes: &[u8]) -> bool {
    match bytes.split_last() {
        Some((_, front)) => matches!(cut(front, LIMITS), Cut::Short),
        None => false,
    }
}

/// Whether all that is read of a value is said by its head and by the bytes behind it.
fn is_whole(value: Value<'_>, bytes: &[u8]) -> bool {
    match read_head(bytes) {
        HeadRead::Whole(head, used) => {
            value.bytes() == bytes
                && value.head() == head
                && is_read(value, head, bytes.get(used..).unwrap_or(&[]))
                && is_short_before(bytes)
        }
        _ => false,
    }
}

/// What is read of some bytes.
fn answer_to_bytes(alloc: Global, bytes: &[u8]) -> Result<String> {
    match cut(bytes, LIMITS) {
        Cut::Whole(value, used) => {
            if used != bytes.len() || !is_whole(value, bytes) {
                return Ok(String::from_str(alloc, "misread")?);
            }
            let words = head_words(alloc, value.head())?;
            let head = shortest(alloc, value.head())?;
            Ok(format!(in alloc; "{words} {head}")?)
        }
        Cut::Short => Ok(String::from_str(alloc, "short")?),
        Cut::Bad(fault) => Ok(String::from_str(alloc, fault_word(fault))?),
    }
}

/// What is read of the bytes of a line.
fn answer_to_line(alloc: Global, line: &str) -> Result<String> {
    let bytes = bytes_of_line(alloc, line)?;
    answer_to_bytes(alloc, &bytes)
}

/// Prints what is read of the bytes of each line.
pub(crate) fn print_values<R: Print + AllocGlobal>(rt: &R, text: &str) -> Result<()> {
    for line in text.lines() {
        let answer = answer_to_line(rt.alloc(), line)?;
        println!(rt; "{answer}")?;
    }
    Ok(())
}
