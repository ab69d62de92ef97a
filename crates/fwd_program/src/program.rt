//! The program over its words and streams.

ghost use Rattle.std.specs.Prelude.{◌≡◌, ◌≢◌, ℕ, List, Option, map, IfOk, IfErr};
ghost use Rattle.std.specs.String.{string_bytes};
ghost use Rattle.std.specs.IoError.{error_kind};
ghost use Rattle.std.specs.Io.KnownBytes.{Keeps};
ghost use Rattle.fwd_script.specs.declared.program.End.{End};
ghost use Rattle.fwd_script.specs.Program.{Performs, end_code, words_behind};
ghost use Rattle.fwd_script.specs.Statuses.{exit_code};
ghost use Rattle.fwd_script.specs.declared.status.Status.{Status as TheStatus};
ghost use Rattle.fwd_journal.specs.RunEnds.{run_code};
ghost use Rattle.fwd_journal.specs.declared.ending.RunEnd.{RunEnd as TheEnd};
ghost use Rattle.fwd_program.specs.Asked.{AsksRun, AsksStop};
ghost use Rattle.fwd_program.specs.Ends.{Runs};
ghost use Rattle.fwd_program.specs.declared.stopping.StopEnd.{StopEnd as TheStop};
ghost use Rattle.fwd_program.specs.declared.showing.Showing.{Showing as Shown};
ghost use Rattle.fwd_program.specs.Shows.{AsksToShow, Shows};
ghost use Rattle.fwd_program.specs.Stops.{stop_code};

use crate::asked::asked_run;
use crate::asked_stop::{StopCall, asked_stop};
use crate::running::run_file;
use crate::showing::{Showing, asked_showing, show};
use crate::stopping::{Progress, StopEnd, stop_relay};
use fwd_check::check_said;
use fwd_journal::{Log, RunEnd};
use fwd_loop::Platform;
use fwd_script::{Command, End, Status, asked, run_program, tell as tell_end};
use std::fs::File;
use std::io;
use std::io::{ErrorKind, Read, Write};
use std::net::{Net, TcpListener, TcpStream};
use std::rt::{Clock, Files};
use std::sync::Wait;
use std::thread::Threads;

/// Tells how a run ended, on a line of its own: nothing where all is done.
fn tell<E: Write>(errors: &mut E, end: &RunEnd) -> io::Result<()> {
    match end {
        RunEnd::Ran(Status::Done) => Ok(()),
        end => writeln!(errors, "{end}"),
    }
}

/// Has a relay stop, tells how that ended, on a line of its own, and returns the exit status.
fn do_stop<R: Net + Clock + Files + AllocGlobal, W: Write, E: Write>(
    rt: &R,
    call: StopCall<'_>,
    progress: Progress,
    output: &mut W,
    errors: &mut E,
) -> u8
    ensures { (end : TheStop) × (result ≡ stop_code end) }
{
    let end = stop_relay(rt, call, progress, output, errors);
    let _told = match &end {
        StopEnd::Ran(Status::Done) => Ok(()),
        end => writeln!(errors, "{end}"),
    };
    end.exit_code()
}

/// Shows what the program says of itself, tells a fault of that, and returns the exit status.
fn do_show<R: AllocGlobal, W: Write, E: Write>(
    rt: &R,
    showing: Showing,
    output: &mut W,
    errors: &mut E,
) -> u8
    ensures { (status : TheStatus) × (result ≡ exit_code status)
        × Shows status showing (W.contents output.old) (W.contents output.new) }
{
    let end = End::Ran(show(rt.alloc(), showing, output));
    let _told = tell_end(errors, &end);
    end.exit_code()
}

/// Does what words ask for that ask for no run, no stop and nothing to be shown, and returns the
/// exit status.
fn do_other<R: Files + AllocGlobal, I: Read, W: Write, E: Write>(
    rt: &R,
    words: Vec<String>,
    input: &mut I,
    output: &mut W,
    errors: &mut E,
) -> u8
    ensures { (end : End) × (result ≡ end_code end)
        × Performs (words_behind (map string_bytes words.items))
        end (I.remaining input.old) (W.contents output.old) (W.contents output.new) }
{
    match asked(words.as_slice()) {
        Some(Command::Check(path)) => {
            let end = End::Ran(check_said(rt, path, output, errors));
            let _told = tell_end(errors, &end);
            end.exit_code()
        }
        _ => run_program(rt, Ok(words), input, output, errors),
    }
}

/// Does what words ask for that ask for no run and no stop, and returns the exit status.
fn do_shown<R: Files + AllocGlobal, I: Read, W: Write, E: Write>(
    rt: &R,
    words: Vec<String>,
    input: &mut I,
    output: &mut W,
    errors: &mut E,
) -> u8
    ensures shown { (showing : Shown)
        → AsksToShow (words_behind (map string_bytes words.items)) showing
        → (status : TheStatus) × (result ≡ exit_code status)
        × Shows status showing (W.contents output.old) (W.contents output.new) }
    ensures other { ((showing : Shown)
        → ¬ AsksToShow (words_behind (map string_bytes words.items)) showing)
        → (end : End) × (result ≡ end_code end)
        × Performs (words_behind (map string_bytes words.items))
        end (I.remaining input.old) (W.contents output.old) (W.contents output.new) }
{
    match asked_showing(words.as_slice()) {
        Some(showing) => do_show(rt, showing, output, errors),
        None => do_other(rt, words, input, output, errors),
    }
}

/// What the program is called with: its words, its own name first, and whether a run says what it
/// comes to.
#[derive(Drop)]
pub struct Invocation {
    pub words: Vec<String>,
    pub log: Log,
    /// How what a relay answers is shown that is asked to stop.
    pub progress: Progress,
}

/// Does what words ask for that ask for no run, and returns the exit status.
fn do_rest<R: Net + Clock + Files + AllocGlobal, I: Read, W: Write, E: Write>(
    rt: &R,
    call: Invocation,
    input: &mut I,
    output: &mut W,
    errors: &mut E,
) -> u8
    ensures stop { (path : List ℕ) (seconds : Option ℕ)
        → AsksStop (words_behind (map string_bytes call.words.items)) path seconds
        → (end : TheStop) × (result ≡ stop_code end) }
    ensures shown { ((path : List ℕ) (seconds : Option ℕ)
        → ¬ AsksStop (words_behind (map string_bytes call.words.items)) path seconds)
        → (showing : Shown)
        → AsksToShow (words_behind (map string_bytes call.words.items)) showing
        → (status : TheStatus) × (result ≡ exit_code status)
        × Shows status showing (W.contents output.old) (W.contents output.new) }
    ensures other { ((path : List ℕ) (seconds : Option ℕ)
        → ¬ AsksStop (words_behind (map string_bytes call.words.items)) path seconds)
        → ((showing : Shown)
        → ¬ AsksToShow (words_behind (map string_bytes call.words.items)) showing)
        → (end : End) × (result ≡ end_code end)
        × Performs (words_behind (map string_bytes call.words.items))
        end (I.remaining input.old) (W.contents output.old) (W.contents output.new) }
{
    match asked_stop(call.words.as_slice()) {
        Some(stop) => do_stop(rt, stop, call.progress, output, errors),
        None => do_shown(rt, call.words, input, output, errors),
    }
}

/// Does what words ask for, and returns the exit status.
fn run_words<R: Platform + Files<File = File>, I: Read, W: Write, E: Write>(
    rt: &R,
    call: Invocation,
    input: &mut I,
    output: &mut W,
    errors: &mut E,
) -> u8
    ensures run { (path : List ℕ) (turns : ℕ)
        → AsksRun (words_behind (map string_bytes call.words.items)) path turns
        → (end : TheEnd) × (result ≡ run_code end) × (text : List ℕ)
        × Runs end text (W.contents output.old) (W.contents output.new) }
    ensures stop { ((path : List ℕ) (turns : ℕ)
        → ¬ AsksRun (words_behind (map string_bytes call.words.items)) path turns)
        → (path : List ℕ) (seconds : Option ℕ)
        → AsksStop (words_behind (map string_bytes call.words.items)) path seconds
        → (end : TheStop) × (result ≡ stop_code end) }
    ensures shown { ((path : List ℕ) (turns : ℕ)
        → ¬ AsksRun (words_behind (map string_bytes call.words.items)) path turns)
        → ((path : List ℕ) (seconds : Option ℕ)
        → ¬ AsksStop (words_behind (map string_bytes call.words.items)) path seconds)
        → (showing : Shown)
        → AsksToShow (words_behind (map string_bytes call.words.items)) showing
        → (status : TheStatus) × (result ≡ exit_code status)
        × Shows status showing (W.contents output.old) (W.contents output.new) }
    ensures other { ((path : List ℕ) (turns : ℕ)
        → ¬ AsksRun (words_behind (map string_bytes call.words.items)) path turns)
        → ((path : List ℕ) (seconds : Option ℕ)
        → ¬ AsksStop (words_behind (map string_bytes call.words.items)) path seconds)
        → ((showing : Shown)
        → ¬ AsksToShow (words_behind (map string_bytes call.words.items)) showing)
        → (end : End) × (result ≡ end_code end)
        × Performs (words_behind (map string_bytes call.words.items))
        end (I.remaining input.old) (W.contents output.old) (W.contents output.new) }
{
    match asked_run(call.words.as_slice(), call.log) {
        Some(run) => {
            let end = run_file(rt, run, output, errors);
            let _told = tell(errors, &end);
            end.exit_code()
        }
        None => do_rest(rt, call, input, output, errors),
    }
}

/// The whole program, but for where its words and streams come from: where the words ask for a run
/// it runs, as `run_file` does, and tells how that ended; where they ask that a relay stops it asks
/// that relay, and shows and tells what comes of it; where they ask for the version or the calls it
/// shows these; all other words it answers as `fwd_script::run_program` does, and says of a check
/// why the settings are refused, or what is foolish in them. It returns the exit status. An end
/// that cannot be told has the same exit status.
///
/// What it asks of its runtime is that of a `Platform`, in full: a caller with a runtime of its own
/// has to meet its sockets' and its files' types by name.
pub fn run_all<
    R: Net<Listener = TcpListener, Stream = TcpStream>
        + Threads
        + Wait
        + Clock
        + Files<File = File>
        + AllocGlobal
        + Sync,
    I: Read,
    W: Write,
    E: Write,
>(rt: &R, call: io::Result<Invocation>, input: &mut I, output: &mut W, errors: &mut E) -> u8
    ensures run { IfOk call (λ call. (path : List ℕ) (turns : ℕ)
        → AsksRun (words_behind (map string_bytes call.words.items)) path turns
        → (end : TheEnd) × (result ≡ run_code end) × (text : List ℕ)
        × Runs end text (W.contents output.old) (W.contents output.new)) }
    ensures stop { IfOk call (λ call.
        ((path : List ℕ) (turns : ℕ)
        → ¬ AsksRun (words_behind (map string_bytes call.words.items)) path turns)
        → (path : List ℕ) (seconds : Option ℕ)
        → AsksStop (words_behind (map string_bytes call.words.items)) path seconds
        → (end : TheStop) × (result ≡ stop_code end)) }
    ensures shown { IfOk call (λ call.
        ((path : List ℕ) (turns : ℕ)
        → ¬ AsksRun (words_behind (map string_bytes call.words.items)) path turns)
        → ((path : List ℕ) (seconds : Option ℕ)
        → ¬ AsksStop (words_behind (map string_bytes call.words.items)) path seconds)
        → (showing : Shown)
        → AsksToShow (words_behind (map string_bytes call.words.items)) showing
        → (status : TheStatus) × (result ≡ exit_code status)
        × Shows status showing (W.contents output.old) (W.contents output.new)) }
    ensures asked { IfOk call (λ call.
        ((path : List ℕ) (turns : ℕ)
        → ¬ AsksRun (words_behind (map string_bytes call.words.items)) path turns)
        → ((path : List ℕ) (seconds : Option ℕ)
        → ¬ AsksStop (words_behind (map string_bytes call.words.items)) path seconds)
        → ((showing : Shown)
        → ¬ AsksToShow (words_behind (map string_bytes call.words.items)) showing)
        → (end : End) × (result ≡ end_code end)
        × Performs (words_behind (map string_bytes call.words.items))
        end (I.remaining input.old) (W.contents output.old) (W.contents output.new)) }
    ensures memory { IfErr call (λ error. error_kind error ≡ ErrorKind.OutOfMemory
        → result ≡ 4) }
    ensures other { IfErr call (λ error. error_kind error ≢ ErrorKind.OutOfMemory
        → result ≡ 2) }
    ensures kept { IfErr call (λ _. Keeps (W.contents output.old) (W.contents output.new)) }
{
    match call {
        Ok(call) => run_words(rt, call, input, output, errors),
        Err(error) => run_program(rt, Err(error), input, output, errors),
    }
}
