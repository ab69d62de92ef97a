//! Tags and patterns, and which of the patterns a tag matches.
//!
//! A line is a tag and a pattern or more, a tab before each pattern. With one pattern it is told
//! whether the tag matches; with more, the place of the first one that does, as a relay with these
//! outputs has it; or why the first bad one is no pattern. A text `#FRONT#UNIT#COUNT#BACK` has the
//! unit so many times between the two ends.

use crate::tables::words::push_times;
use anyhow::{Result, bail};
use fwd_match::{Pattern, Routes};
use std::alloc::Global;

/// The text of these parts.
fn text_of_parts(alloc: Global, parts: &[&str]) -> Result<String> {
    let [front, unit, count, back] = *parts else {
        bail!("no text of {} parts", parts.len());
    };
    let mut text = String::from_str(alloc, front)?;
    push_times(&mut text, unit, count)?;
    text.push_str(back)?;
    Ok(text)
}

/// The text that a field spells.
fn text_of_field(alloc: Global, field: &str) -> Result<String> {
    let Some(parts) = field.strip_prefix('#') else {
        return Ok(String::from_str(alloc, field)?);
    };
    let parts: Vec<&str> = parts.split('#').collect(alloc)?;
    text_of_parts(alloc, &parts)
}

/// What is told of a tag and one pattern.
fn match_of(alloc: Global, tag: &str, pattern: &Pattern) -> Result<String> {
    let word = if pattern.matches(tag.as_bytes()) {
        "match"
    } else {
        "no match"
    };
    Ok(String::from_str(alloc, word)?)
}

/// What is told of a tag and the patterns of a relay's outputs.
fn route_of(alloc: Global, tag: &str, patterns: Vec<Pattern>) -> Result<String> {
    if patterns.len() > 64 {
        bail!("{} patterns", patterns.len());
    }
    match Routes::new(patterns).first(tag.as_bytes()) {
        Some(output) => Ok(format!(in alloc; "output {output}")?),
        None => Ok(String::from_str(alloc, "no output")?),
    }
}

/// What is told of a line.
fn answer_to_line(alloc: Global, line: &str) -> Result<String> {
    let mut fields = line.split('\t');
    let tag = text_of_field(alloc, fields.next().unwrap_or(""))?;
    let mut patterns = Vec::new(alloc);
    for field in fields {
        let text = text_of_field(alloc, field)?;
        match Pattern::read(alloc, text.as_str()) {
            Ok(pattern) => patterns.push(pattern)?,
            Err(fault) => return Ok(format!(in alloc; "fault {}", fault.number())?),
        }
    }
    match patterns.as_slice() {
        [pattern] => match_of(alloc, tag.as_str(), pattern),
        _ => route_of(alloc, tag.as_str(), patterns),
    }
}

/// Prints what is told of each line, and the line.
pub(crate) fn print_patterns<R: Print + AllocGlobal>(rt: &R, text: &str) -> Result<()> {
    for line in text.lines() {
        let answer = answer_to_line(rt.alloc(), line)?;
        println!(rt; "{answer}\t{line}")?;
    }
    Ok(())
}
