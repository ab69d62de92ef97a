//! A line beside the journal: why the program came to no more, and what it advises.

use std::fmt;
use std::io::Write;

/// Says a text on a line. It takes no memory, and what cannot be written is lost.
pub fn say<E: Write, T: fmt::Display>(errors: &mut E, text: &T) {
    let _ = writeln!(errors, "{text}");
}
