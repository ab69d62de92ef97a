//! What the program says of itself: its version, and which calls it knows.

ghost use Rattle.std.specs.Prelude.{◌≡◌, ◌↔◌, [], ◌∷◌, map, IsTrue, MatchOption, IfOk, MatchResult};
ghost use Rattle.std.specs.String.{string_bytes};
ghost use Rattle.fwd_script.specs.Program.{words_behind};
ghost use Rattle.fwd_program.specs.Shows.{AsksToShow, Shows, shown_text};
ghost use Rattle.fwd_program.specs.declared.showing.Showing.{Showing as Shown};

use fwd_monitor::VERSION;
use fwd_script::{Status, flush, write_all};
use std::alloc::{AllocError, Global};
use std::io::Write;

/// A line for each call.
const HELP: &str = concat!(
    "usage: forward_relay run CONFIG [TURNS]     run the relay by the settings in CONFIG\n",
    "       forward_relay stop CONFIG [SECONDS]  have it deliver what it holds, then end\n",
    "       forward_relay check CONFIG           say whether the settings are good\n",
    "       forward_relay replay                 answer the script on standard input\n",
    "       forward_relay version                print the version, as does --version\n",
    "       forward_relay help                   print these lines, as does --help\n"
);

/// What words can ask to be shown.
#[derive(Clone, Copy)]
pub enum Showing {
    /// The program's name and version.
    Version,
    /// A line for each call.
    Help,
}

/// Whether words are this one alone, the program's own name before it.
fn are(words: &[String], word: &str) -> bool
    ensures { IsTrue result ↔ (words_behind (map string_bytes words.now) ≡ word.now ∷ []) }
{
    if words.len() != 2 {
        return false;
    }
    words[1].as_str() == word
}

/// What words ask to be shown, the program's own name before them: the version by `--version` or
/// `version`, the calls by `--help` or `help`. It takes no memory.
pub(crate) fn asked_showing(words: &[String]) -> Option<Showing>
    ensures { MatchOption result
        ((showing : Shown) → ¬ AsksToShow (words_behind (map string_bytes words.now)) showing)
        (λ showing. AsksToShow (words_behind (map string_bytes words.now)) showing) }
{
    if are(words, "--version") || are(words, "version") {
        Some(Showing::Version)
    } else if are(words, "--help") || are(words, "help") {
        Some(Showing::Help)
    } else {
        None
    }
}

/// What is shown.
fn print_shown(alloc: Global, showing: Showing) -> Result<String, AllocError>
    ensures { IfOk result (λ text. string_bytes text ≡ shown_text showing) }
{
    match showing {
        Showing::Version => format!(in alloc; "forward_relay {VERSION}\n"),
        Showing::Help => String::from_str(alloc, HELP),
    }
}

/// Writes what is shown.
fn write_shown<W: Write>(alloc: Global, showing: Showing, writer: &mut W) -> Result<(), Status>
    ensures { MatchResult result
        (λ _. Shows Status.Done showing (W.contents writer.old) (W.contents writer.new))
        (λ status. Shows status showing (W.contents writer.old) (W.contents writer.new)) }
{
    let text = print_shown(alloc, showing)?;
    Ok(write_all(writer, text.as_bytes())?)
}

/// Writes what is shown, and flushes the writer. A failed write or flush is `Output`, and behind it
/// a front of the text was written. `Memory` has written nothing.
pub(crate) fn show<W: Write>(alloc: Global, showing: Showing, writer: &mut W) -> Status
    ensures { Shows result showing (W.contents writer.old) (W.contents writer.new) }
{
    let status = match write_shown(alloc, showing, writer) {
        Ok(()) => Status::Done,
        Err(status) => status,
    };
    status.flushed(flush(writer))
}
