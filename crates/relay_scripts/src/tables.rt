//! The tables: files of cases, and what is told of each case behind a line `== FILE`. What a
//! table's lines are says the module that reads them. Scripts of tests/tables compute all anew but
//! those of the pieces and of the patterns.

mod handshakes;
mod heads;
mod keys;
mod members;
mod parties;
mod patterns;
mod pieces;
mod servers;
mod settings;
mod values;
mod words;

use crate::tables::handshakes::print_handshakes;
use crate::tables::patterns::print_patterns;
use crate::tables::pieces::print_pieces;
use crate::tables::servers::print_servers;
use crate::tables::settings::print_settings;
use crate::tables::values::print_values;
use anyhow::Result;
use std::fs;
use std::rt::Files;

/// A table.
#[derive(Clone, Copy)]
enum Table {
    Values,
    Pieces,
    Settings,
    Patterns,
    Servers,
    Handshakes,
}

/// The tables, and their files.
static TABLES: [(Table, &str); 6] = [
    (Table::Values, "values.txt"),
    (Table::Pieces, "pieces.txt"),
    (Table::Settings, "settings.txt"),
    (Table::Patterns, "patterns.txt"),
    (Table::Servers, "servers.txt"),
    (Table::Handshakes, "handshakes.txt"),
];

impl Table {
    /// Prints what is told of the cases of a text.
    fn print<R: Print + AllocGlobal>(self, rt: &R, text: &str) -> Result<()> {
        match self {
            Table::Values => print_values(rt, text),
            Table::Pieces => print_pieces(rt, text),
            Table::Settings => print_settings(rt, text),
            Table::Patterns => print_patterns(rt, text),
            Table::Servers => print_servers(rt, text),
            Table::Handshakes => print_handshakes(rt, text),
        }
    }
}

/// Prints what is told of the cases of each table, behind its heading.
fn print_tables<R: Files + Print + AllocGlobal>(rt: &R) -> Result<()> {
    for (table, file) in &TABLES {
        println!(rt; "== {file}")?;
        let text = fs::read_to_string(rt, *file)?;
        table.print(rt, text.as_str())?;
    }
    Ok(())
}

/// The same, and prints why that fails.
pub fn tell_tables<R: Files + Print + AllocGlobal>(rt: &R) -> Option<()> {
    match print_tables(rt) {
        Ok(()) => Some(()),
        Err(error) => {
            let _ = println!(rt; "{error}");
            None
        }
    }
}
