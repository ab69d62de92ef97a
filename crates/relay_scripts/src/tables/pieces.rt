//! Values whose bytes come in pieces, and what a scanner tells of each piece: `more`; `end` with
//! how many bytes of the piece end the value; or the fault.
//!
//! A line is the most bytes and the greatest depth of a value, and then its pieces, in hex. A piece
//! `UNITxCOUNT` has the unit so many times. Each piece of a line is fed, also behind a fault;
//! behind an end the scanner is restarted.

ghost use Rattle.std.specs.Prelude.{◌≡◌};
ghost use Rattle.fwd_msgpack.specs.Scans.{verdict_of, whole_len};

use crate::tables::heads::fault_word;
use crate::tables::words::{bytes_of_word, push_times, words_of_line};
use anyhow::{Result, bail};
use fwd_msgpack::{Fed, Limits, MAX_DEPTH, Scanner};
use std::alloc::Global;

/// The bytes of a piece.
fn bytes_of_piece(alloc: Global, word: &str) -> Result<Vec<u8>> {
    let Some((unit, count)) = word.split_once('x') else {
        return bytes_of_word(alloc, word);
    };
    let mut digits = String::new(alloc);
    push_times(&mut digits, unit, count)?;
    bytes_of_word(alloc, digits.as_str())
}

/// The limits of two words.
fn limits_of(bytes: &str, depth: &str) -> Result<Limits> {
    let bytes: u32 = bytes.parse()?;
    let depth: u8 = depth.parse()?;
    if depth > MAX_DEPTH {
        bail!("a depth of {depth}");
    }
    Ok(Limits { bytes, depth })
}

/// What a scanner tells of the next piece, ready for another.
fn answer_to_piece(alloc: Global, scanner: &mut Scanner, piece: &[u8]) -> Result<String>
    requires { whole_len (verdict_of scanner.old.state) ≡ None }
    ensures { whole_len (verdict_of scanner.new.state) ≡ None }
{
    match scanner.feed(piece) {
        Fed::More => Ok(String::from_str(alloc, "more")?),
        Fed::End(used) => {
            scanner.restart();
            Ok(format!(in alloc; "end {used}")?)
        }
        Fed::Bad(fault) => Ok(String::from_str(alloc, fault_word(fault))?),
    }
}

/// What a scanner tells of each piece.
fn answers_to_pieces(alloc: Global, limits: Limits, pieces: &[&str]) -> Result<Vec<String>> {
    let mut answers = Vec::new(alloc);
    let mut scanner = Scanner::new(limits);
    for piece in pieces {
        let bytes = bytes_of_piece(alloc, piece)?;
        answers.push(answer_to_piece(alloc, &mut scanner, &bytes)?)?;
    }
    Ok(answers)
}

/// What is told of a line.
fn answer_to_line(alloc: Global, line: &str) -> Result<String> {
    let words = words_of_line(alloc, line)?;
    let [bytes, depth, pieces @ ..] = words.as_slice() else {
        bail!("no limits");
    };
    let answers = answers_to_pieces(alloc, limits_of(bytes, depth)?, pieces)?;
    Ok(answers.join(alloc, " ")?)
}

/// Prints what is told of each line.
pub(crate) fn print_pieces<R: Print + AllocGlobal>(rt: &R, text: &str) -> Result<()> {
    for line in text.lines() {
        let answer = answer_to_line(rt.alloc(), line)?;
        println!(rt; "{answer}")?;
    }
    Ok(())
}
