//! The words of a line, and the bytes and texts that they spell.

use anyhow::Result;
use std::alloc::{AllocError, Global};

/// The words of a line, with a blank between each two.
pub(crate) fn words_of_line(alloc: Global, line: &str) -> Result<Vec<&str>, AllocError> {
    line.split(' ').collect(alloc)
}

/// The bytes of a word: two digits for each, or `-` for none.
pub(crate) fn bytes_of_word(alloc: Global, word: &str) -> Result<Vec<u8>> {
    if word == "-" {
        return Ok(Vec::new(alloc));
    }
    Ok(hex::decode(alloc, word)?)
}

/// The word of some bytes.
pub(crate) fn word_of_bytes(alloc: Global, bytes: &[u8]) -> Result<String> {
    if bytes.is_empty() {
        return Ok(String::from_str(alloc, "-")?);
    }
    Ok(hex::encode(alloc, bytes)?)
}

/// Appends a unit to a text, as many times as a word counts.
pub(crate) fn push_times(text: &mut String, unit: &str, count: &str) -> Result<()> {
    let count: u32 = count.parse()?;
    for _ in 0..count {
        text.push_str(unit)?;
    }
    Ok(())
}
