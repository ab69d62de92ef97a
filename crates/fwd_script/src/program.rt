//! The program over its words and streams: what the words ask for, and what each end prints and
//! returns.

ghost use Rattle.std.specs.Prelude.{◌≡◌, ◌≢◌, ◌↔◌, ℕ, List, [], ◌∷◌, map, codes, IsTrue, MatchOption, OnOk, IfOk, IfErr};
ghost use Rattle.std.specs.String.{string_bytes};
ghost use Rattle.std.specs.IoError.{error_kind};
ghost use Rattle.std.specs.Io.KnownBytes.{Appends, Keeps};
ghost use Rattle.fwd_script.specs.Program.{Asks, CarriesOut, Performs, end_code, told, words_behind};

use crate::checking::check_file;
use crate::run::replay;
use crate::status::Status;
use std::alloc::Global;
use std::io::{BufWriter, ErrorKind, Read, Write};
use std::rt::{Env, Files};
use std::{env, fmt, io};

/// What the program's words ask for.
#[derive(Clone, Copy)]
pub enum Command<'a> {
    /// Answer the script on standard input.
    Replay,
    /// Check the settings in the file of this path.
    Check(&'a str),
}

/// How the program ended.
#[derive(Drop)]
pub enum End {
    /// Its words ask for nothing that it knows.
    Usage,
    /// It did what they ask for, and that ended so.
    Ran(Status),
}

impl End {
    /// The exit status.
    pub fn exit_code(&self) -> u8
        ensures { result ≡ end_code self.now }
    {
        match self {
            End::Usage => 2,
            End::Ran(status) => status.exit_code(),
        }
    }
}

/// What is told on standard error, without its line feed: nothing where all is done.
impl fmt::Display for End {
    ghost use Rattle.std.specs.Prelude.{Some};
    ghost use Rattle.fwd_script.specs.Program.{end_text};

    ghost output = { λ end. Some (end_text end) };

    fn fmt<W: fmt::Write>(&self, f: &mut fmt::Formatter<W>) -> fmt::Result {
        match self {
            End::Usage => write!(
                f,
                "usage: forward_relay run CONFIG [TURNS] | stop CONFIG [SECONDS] | check CONFIG | replay"
            ),
            End::Ran(status) => write!(f, "{status}"),
        }
    }
}

/// Whether words ask for a replay.
fn is_replay(words: &[String]) -> bool
    ensures { IsTrue result ↔ (words_behind (map string_bytes words.now) ≡ codes "replay"
        ∷ []) }
{
    if words.len() != 2 {
        return false;
    }
    words[1].as_str() == "replay"
}

/// The path of the settings that words ask to check.
fn checked_path(words: &[String]) -> Option<&str>
    ensures { MatchOption result
        ((path : List ℕ)
        → words_behind (map string_bytes words.now) ≢ codes "check" ∷ path ∷ [])
        (λ path. words_behind (map string_bytes words.now) ≡ codes "check" ∷ path.now ∷ []) }
{
    if words.len() != 3 {
        return None;
    }
    if words[1].as_str() == "check" {
        Some(words[2].as_str())
    } else {
        None
    }
}

/// What words ask for, the program's own name before them: `replay` or `check CONFIG`, or nothing
/// that the program knows.
pub fn asked(words: &[String]) -> Option<Command<'_>>
    ensures { Asks (words_behind (map string_bytes words.now)) result }
{
    if is_replay(words) {
        return Some(Command::Replay);
    }
    match checked_path(words) {
        Some(path) => Some(Command::Check(path)),
        None => None,
    }
}

/// The program's words, its own name before them. They are an error when out of memory, of that
/// kind, and where one is not UTF-8.
pub fn words<R: Env + AllocGlobal>(rt: &R) -> io::Result<Vec<String>> {
    Ok(env::args(rt)?.collect(rt.alloc())?)
}

/// How the program ends where its words could not be had: that is when out of memory, or since
/// one is not UTF-8.
fn wordless(error: &io::Error) -> End
    ensures memory { error_kind error.now ≡ ErrorKind.OutOfMemory
        → result ≡ End.Ran Status.Memory }
    ensures other { error_kind error.now ≢ ErrorKind.OutOfMemory → result ≡ End.Usage }
{
    if error.kind() == ErrorKind::OutOfMemory {
        End::Ran(Status::Memory)
    } else {
        End::Usage
    }
}

/// Does what a command says, over these streams.
fn carry_out<F: Files, R: Read, W: Write>(
    alloc: Global,
    files: &F,
    command: Command<'_>,
    input: &mut R,
    output: &mut W,
) -> Status
    ensures { CarriesOut command.entry result (R.remaining input.old)
        (W.contents output.old) (W.contents output.new) }
{
    match command {
        Command::Replay => replay(alloc, input, output),
        Command::Check(path) => check_file(alloc, files, path, output),
    }
}

/// Does what the program's words ask for. `replay` reads the input and writes to the output,
/// `check CONFIG` reads a file and writes to the output; all other words are `Usage`, and so are
/// words that are not UTF-8. Where memory runs out before the words are had it is `Memory`.
pub fn perform<F: Files, R: Read, W: Write>(
    alloc: Global,
    files: &F,
    words: io::Result<Vec<String>>,
    input: &mut R,
    output: &mut W,
) -> End
    ensures asked { IfOk words (λ list. Performs (words_behind (map string_bytes list.items))
        result (R.remaining input.old) (W.contents output.old) (W.contents output.new)) }
    ensures memory { IfErr words (λ error. error_kind error ≡ ErrorKind.OutOfMemory
        → result ≡ End.Ran Status.Memory) }
    ensures other { IfErr words (λ error. error_kind error ≢ ErrorKind.OutOfMemory
        → result ≡ End.Usage) }
    ensures kept { IfErr words (λ _. Keeps (W.contents output.old) (W.contents output.new)) }
{
    let words = match words {
        Ok(words) => words,
        Err(error) => return wordless(&error),
    };
    match asked(words.as_slice()) {
        Some(command) => End::Ran(carry_out(alloc, files, command, input, output)),
        None => End::Usage,
    }
}

/// Tells how the program ended, on a line of its own: nothing where all is done.
pub fn tell<E: Write>(errors: &mut E, end: &End) -> io::Result<()>
    ensures { OnOk result (Appends (E.contents errors.old) (E.contents errors.new) (told end.now)) }
{
    match end {
        End::Ran(Status::Done) => Ok(()),
        end => writeln!(errors, "{end}"),
    }
}

/// The whole program, but for where its words and streams come from: it does what the words ask
/// for, as `perform` does, tells how that ended, as `tell` does, and returns the exit status. An
/// end that cannot be told has the same exit status.
pub fn run_program<R: Files + AllocGlobal, I: Read, W: Write, E: Write>(
    rt: &R,
    words: io::Result<Vec<String>>,
    input: &mut I,
    output: &mut W,
    errors: &mut E,
) -> u8
    ensures asked { IfOk words (λ list. (end : End) × (result ≡ end_code end)
        × Performs (words_behind (map string_bytes list.items))
        end (I.remaining input.old) (W.contents output.old) (W.contents output.new)) }
    ensures memory { IfErr words (λ error. error_kind error ≡ ErrorKind.OutOfMemory
        → result ≡ 4) }
    ensures other { IfErr words (λ error. error_kind error ≢ ErrorKind.OutOfMemory
        → result ≡ 2) }
    ensures kept { IfErr words (λ _. Keeps (W.contents output.old) (W.contents output.new)) }
{
    let end = perform(rt.alloc(), rt, words, input, output);
    let _told = tell(errors, &end);
    end.exit_code()
}

/// Standard output behind a buffer, or without one where there is no memory for it.
pub fn buffered<R: Print + AllocGlobal>(rt: &R) -> BufWriter<io::Printer<'_, R>> {
    match BufWriter::new(rt.alloc(), io::writer(rt)) {
        Ok(writer) => writer,
        Err(_) => BufWriter::with_capacity(rt.alloc(), 0, io::writer(rt)).unwrap(),
    }
}
