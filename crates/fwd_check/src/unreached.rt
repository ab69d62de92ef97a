//! Outputs that get nothing, since each tag that they take goes to one before them.
//!
//! An output's words are tried as tags at the patterns of the outputs before it: a `*` as a part
//! that only a `*` or a `**` of theirs takes, and a `**` as no, one, two and more such parts. One
//! part more than any word of theirs has is enough: then a `**` of theirs takes one of the parts at
//! least, and would take any further ones.

use crate::file::SettingsFile;
use fwd_base::Text;
use fwd_settings::OutputSettings;
use std::alloc::{AllocError, Global};
use toml::Table;

/// A part of a tag that no pattern spells.
const OTHER: &str = "*";

/// The most parts of a word that are tried for: with more nothing is said.
const PARTS: usize = 64;

/// The text of an output's pattern, by its document.
pub(crate) fn match_text(root: &Table, output: usize) -> Option<&str> {
    let outputs = root.get("output")?.as_array()?;
    outputs.get(output)?.as_table()?.get("match")?.as_str()
}

/// Adds the texts of the patterns of so many outputs, by the document in a file. Where memory runs
/// out the last are left out.
pub fn add_patterns(
    alloc: Global,
    file: &SettingsFile<'_>,
    outputs: usize,
    patterns: &mut Vec<Text>,
) {
    let Some(root) = file.document(alloc) else {
        return;
    };
    for output in 0..outputs {
        let text = match_text(&root, output).unwrap_or("");
        let Ok(text) = Text::from_str(alloc, text) else {
            return;
        };
        if patterns.push(text).is_err() {
            return;
        }
    }
}

/// Adds a text to words, with each of the alternatives and then the tail behind it.
fn add_each(
    words: &mut Vec<String>,
    alloc: Global,
    text: &str,
    alternatives: &str,
    tail: &str,
) -> Result<(), AllocError> {
    for alternative in alternatives.split(',') {
        let mut word = String::from_str(alloc, text)?;
        word.push_str(alternative)?;
        word.push_str(tail)?;
        words.push(word)?;
    }
    Ok(())
}

/// The texts, each with one of the alternatives and then the tail behind it.
fn with_each(
    alloc: Global,
    texts: &[String],
    alternatives: &str,
    tail: &str,
) -> Result<Vec<String>, AllocError> {
    let mut words = Vec::new(alloc);
    for text in texts {
        add_each(&mut words, alloc, text.as_str(), alternatives, tail)?;
    }
    Ok(words)
}

/// The words that a word with braces stands for.
fn expanded(alloc: Global, word: &str) -> Result<Vec<String>, AllocError> {
    let mut words = vec![in alloc; String::new(alloc)]?;
    for piece in word.split('{') {
        let (alternatives, tail) = piece.split_once('}').unwrap_or(("", piece));
        words = with_each(alloc, words.as_slice(), alternatives, tail)?;
    }
    Ok(words)
}

/// Puts a part behind a tag's front, so many times, each with a dot behind it.
fn add_part(front: &mut String, part: &str, times: usize) -> Result<(), AllocError> {
    for _ in 0..times {
        front.push_str(part)?;
        front.push_str(".")?;
    }
    Ok(())
}

/// The tag of a word, with so many parts in place of each `**`.
fn tag_of(alloc: Global, word: &str, count: usize) -> Result<String, AllocError> {
    let mut tag = String::new(alloc);
    for part in word.split('.') {
        if part == "**" {
            add_part(&mut tag, OTHER, count)?;
        } else {
            add_part(&mut tag, part, 1)?;
        }
    }
    let _last_dot = tag.pop();
    Ok(tag)
}

/// Whether some of the outputs take a tag.
fn take(outputs: &[OutputSettings], tag: &str) -> bool {
    outputs
        .iter()
        .any(|output| output.pattern.matches(tag.as_bytes()))
}

/// Whether some of the outputs take each tag that a word without braces stands for, if no word of
/// theirs has more parts than so many. Of a word with more than one `**` it asks whether they take
/// all tags.
fn take_word(
    alloc: Global,
    outputs: &[OutputSettings],
    word: &str,
    parts: usize,
) -> Result<bool, AllocError> {
    let many = word.split('.').filter(|part| *part == "**").count();
    let word = if many > 1 { "**" } else { word };
    for count in 0..parts.saturating_add(2) {
        let tag = tag_of(alloc, word, count)?;
        if !take(outputs, tag.as_str()) {
            return Ok(false);
        }
    }
    Ok(true)
}

/// Whether some of the outputs take each tag that a word stands for, whose braces are not expanded.
fn take_group(
    alloc: Global,
    outputs: &[OutputSettings],
    group: &str,
    parts: usize,
) -> Result<bool, AllocError> {
    for word in &expanded(alloc, group)? {
        if !take_word(alloc, outputs, word.as_str(), parts)? {
            return Ok(false);
        }
    }
    Ok(true)
}

/// Whether some of the outputs take each tag that a pattern's text stands for.
fn take_pattern(
    alloc: Global,
    outputs: &[OutputSettings],
    text: &str,
    parts: usize,
) -> Result<bool, AllocError> {
    for group in text.split([' ', '\t']) {
        if !group.is_empty() && !take_group(alloc, outputs, group, parts)? {
            return Ok(false);
        }
    }
    Ok(true)
}

/// The most parts that a word of the outputs before one may have, by their document.
fn most_parts(root: &Table, output: usize) -> usize {
    let mut most = 0usize;
    for before in 0..output {
        if let Some(text) = match_text(root, before) {
            let dots = text.split('.').count();
            most = most.max(dots);
        }
    }
    most
}

/// Whether each tag that an output takes goes to one of those before it, by their document.
pub(crate) fn is_unreached(
    alloc: Global,
    root: &Table,
    before: &[OutputSettings],
    output: usize,
) -> Result<bool, AllocError> {
    let parts = most_parts(root, output);
    if before.is_empty() || parts > PARTS {
        return Ok(false);
    }
    match match_text(root, output) {
        Some(text) => take_pattern(alloc, before, text, parts),
        None => Ok(false),
    }
}
