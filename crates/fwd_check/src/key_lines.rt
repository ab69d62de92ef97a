//! Where a key of the settings stands in their text. It is found with the one reader of TOML, by
//! reading the text up to the end of each line. A second reader, which knew lines, might take a
//! text for another one.

use std::alloc::Global;
use toml::{Table, Value};

/// What stands under a part of a key, as `relay` or `output[0]`.
fn child<'a>(table: &'a Table, part: &str) -> Option<&'a Value> {
    match part.split_once('[') {
        None => table.get(part),
        Some((name, place)) => {
            let place = place.strip_suffix(']')?;
            let members = table.get(name)?.as_array()?;
            members.get(place.parse::<usize>().ok()?)
        }
    }
}

/// What stands under a key, as `output[0].server[1].address`.
pub(crate) fn value_at<'a>(root: &'a Table, key: &str) -> Option<&'a Value> {
    let mut parts = key.split('.');
    let mut value = child(root, parts.next()?)?;
    for part in parts {
        value = child(value.as_table()?, part)?;
    }
    Some(value)
}

/// The line, counted from 1, of a place in a text.
pub(crate) fn line_at(text: &[u8], place: usize) -> usize {
    let mut line = 1usize;
    for byte in text.iter().take(place) {
        if *byte == b'\n' {
            line = line.saturating_add(1);
        }
    }
    line
}

/// Whether a text is TOML and something stands under a key of it. Where memory is refused, nothing
/// is known.
fn shows(alloc: Global, text: &[u8], key: &str) -> Option<bool> {
    match toml::table_from_slice(alloc, text) {
        Ok(root) => Some(value_at(&root, key).is_some()),
        Err(error) if error.is_memory() => None,
        Err(_) => Some(false),
    }
}

/// The line of a key in a text that is TOML: the first, from 1, at whose end the text so far is
/// TOML and has the key. Where memory is refused, none is found: a later line would be wrong.
pub(crate) fn line_of(alloc: Global, text: &[u8], key: &str) -> Option<usize> {
    let mut end = 0usize;
    let mut number = 0usize;
    for line in text.split_inclusive(|byte| *byte == b'\n') {
        end = end.saturating_add(line.len()).min(text.len());
        number = number.saturating_add(1);
        if shows(alloc, &text[..end], key)? {
            return Some(number);
        }
    }
    None
}
