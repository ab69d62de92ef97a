//! A run by the settings in a file.

ghost use Rattle.std.specs.Prelude.{◌≡◌, ◌<◌, ℕ, List, length, true, Err, IfOk, IfErr, MatchResult};
ghost use Rattle.fwd_run.specs.Pages.{page_count};
ghost use Rattle.fwd_settings.specs.Ranges.{in_range};
ghost use Rattle.fwd_loop.specs.Ends.{AddUp};
ghost use Rattle.fwd_loop.specs.Loops.{relay_by};
ghost use Rattle.fwd_script.specs.Statuses.{refused_status};
ghost use Rattle.fwd_script.specs.declared.status.Status.TheVariants as statuses;
ghost use Rattle.fwd_journal.specs.RunEnds.{ended_as};
ghost use Rattle.fwd_journal.specs.declared.ending.RunEnd.TheVariants as ends;
ghost use Rattle.fwd_check.specs.Found.{Found};
ghost use Rattle.fwd_program.specs.Ends.{Runs};

use crate::asked::Run;
use crate::process_observer::ProcessObserver;
use fwd_base::{Report, Text};
use fwd_check::{SettingsFile, add_patterns, say_of_addresses, say_refused, say_unheard};
use fwd_journal::{Journal, Log, RunEnd};
use fwd_loop::{Ending, Left, Loop, Observer, Platform, StartFault};
use fwd_monitor::page;
use fwd_run::OpenedRun;
use fwd_script::{Status, WriteFailed, flush, write_all};
use fwd_settings::{Settings, SettingsFault};
use std::fs::File;
use std::io::Write;
use std::marker::Brand;
use std::net::Net;
use std::rt::Files;

/// How a run goes that has settings.
#[derive(Drop)]
struct Terms {
    /// How many turns the loop and each worker make.
    turns: u64,
    /// The match patterns of the outputs, as the settings have them.
    patterns: Vec<Text>,
}

/// The settings in a file, whose match patterns it adds to some. It says why they are refused, or
/// that no run by them can start.
fn settings_at<R: Files + AllocGlobal, E: Write>(
    rt: &R,
    path: &str,
    patterns: &mut Vec<Text>,
    errors: &mut E,
) -> Result<Settings, SettingsFault>
    ensures range { IfOk result (λ settings. in_range settings ≡ true) }
    ensures found { (text : List ℕ) × Found result text }
{
    let file = SettingsFile::read(rt, path);
    let found = file.settings(rt.alloc());
    match &found {
        Ok(settings) => {
            say_of_addresses(&settings.relay, errors);
            add_patterns(rt.alloc(), &file, settings.outputs.len(), patterns);
        }
        Err(fault) => say_refused(rt.alloc(), &file, fault, errors),
    }
    found
}

/// The relay of these settings, whose outputs' match patterns are these.
fn relay_of<J: fwd_history::Run + Send + Sync, R: Net + Files<File = File> + AllocGlobal>(
    rt: &R,
    opened: OpenedRun,
    settings: Settings,
    patterns: Vec<Text>,
) -> Result<Loop<J>, StartFault>
    requires range { in_range settings ≡ true }
    requires book { opened.book ≡ J.book }
    requires pages { opened.pages ≡ page_count }
    ensures { IfOk result (λ relay. relay ≡ relay_by settings) }
{
    let relay = Loop::new(rt, opened, settings)?;
    Ok(relay.with_patterns(patterns))
}

/// Runs a relay of these settings under an observer: what its outputs came to, and why it ended.
/// All that it does has one history, in proofs alone, which begins here.
fn run_relay<J: fwd_history::Run + Send + Sync, R: Platform + Files<File = File>, V: Observer>(
    rt: &R,
    opened: OpenedRun,
    settings: Settings,
    terms: Terms,
    observer: &mut V,
) -> Result<(Vec<Report>, Ending), StartFault>
    requires range { in_range settings ≡ true }
    requires book { opened.book ≡ J.book }
    requires pages { opened.pages ≡ page_count }
    ensures count { IfOk result (λ o. length o.0.items ≡ length settings.outputs) }
    ensures add_up { IfOk result (λ o. AddUp o.0.items) }
{
    let relay = relay_of::<J, R>(rt, opened, settings, terms.patterns)?;
    let mut told = ProcessObserver { rt, observer };
    let outcome = relay.run_to_end(rt, &mut told, terms.turns)?;
    Ok((outcome.reports, outcome.ending))
}

/// Runs by the settings that were found, under an observer, and writes the page of the last
/// reports: nothing else is written before. It answers why the run ended.
fn run_found<R: Platform + Files<File = File>, V: Observer, W: Write>(
    rt: &R,
    found: Result<Settings, SettingsFault>,
    terms: Terms,
    observer: &mut V,
    output: &mut W,
) -> Result<Ending, RunEnd>
    requires { IfOk found (λ settings. in_range settings ≡ true) }
    ensures refused { IfErr found (λ fault. result ≡ Err (ends.Ran (refused_status fault))) }
    ensures runs { (text : List ℕ) → Found found text → MatchResult result
        (λ _. Runs (ends.Ran statuses.Done) text (W.contents output.old) (W.contents output.new))
        (λ end. Runs end text (W.contents output.old) (W.contents output.new)) }
{
    let settings = found?;
    let opened = OpenedRun::new(usize::MAX);
    let (reports, ending) = run_relay::<Brand, R, V>(rt, opened, settings, terms, observer)?;
    let text = page(rt.alloc(), &reports)?;
    write_all(output, text.as_bytes())?;
    Ok(ending)
}

/// The same as words ask for it, with the outputs' match patterns, under a journal where the log
/// asks for one, which begins with what runs and ends with why it does no more.
fn run_told<R: Platform + Files<File = File>, W: Write, E: Write>(
    rt: &R,
    found: Result<Settings, SettingsFault>,
    run: (Run<'_>, Vec<Text>),
    output: &mut W,
    errors: &mut E,
) -> Result<Ending, RunEnd>
    requires { IfOk found (λ settings. in_range settings ≡ true) }
    ensures { (text : List ℕ) → Found found text → MatchResult result
        (λ _. Runs (ends.Ran statuses.Done) text (W.contents output.old) (W.contents output.new))
        (λ end. Runs end text (W.contents output.old) (W.contents output.new)) }
{
    let (run, patterns) = run;
    let terms = Terms {
        turns: run.turns,
        patterns,
    };
    match run.log {
        Log::Off => run_found(rt, found, terms, &mut (), output),
        Log::Info => {
            let mut journal = Journal::new(rt, errors);
            if let Ok(settings) = &found {
                journal.begin(run.path, settings.outputs.len());
            }
            let ran = run_found(rt, found, terms, &mut journal, output);
            journal.close();
            journal.end(&ran);
            ran
        }
    }
}

/// How a run ended, by what came of it.
fn ended(ran: Result<Ending, RunEnd>) -> RunEnd
    ensures { MatchResult ran (λ ending. result ≡ ended_as ending) (λ end. result ≡ end) }
{
    match ran {
        Ok(Ending::Left(left)) => RunEnd::Left(left),
        Ok(_) => RunEnd::Ran(Status::Done),
        Err(end) => end,
    }
}

/// How a run ended that left something, by what came of flushing its output.
fn left_flushed(left: Left, flush: Result<(), WriteFailed>) -> RunEnd
    ensures { MatchResult flush
        (λ _. result ≡ ends.Left left)
        (λ failed. result ≡ ends.Ran (statuses.Output failed)) }
{
    match flush {
        Ok(()) => RunEnd::Left(left),
        Err(failed) => RunEnd::Ran(Status::Output(failed)),
    }
}

/// Says what is known of why a relay did not start, if it did not.
fn say_no_start<R: Net + Files<File = File>, E: Write>(
    rt: &R,
    ran: &Result<Ending, RunEnd>,
    errors: &mut E,
) {
    if let Err(RunEnd::Start(fault)) = ran {
        say_unheard(rt, fault, errors);
    }
}

/// Runs by the settings in a file, under a journal where the log asks for one, and writes the page
/// of the last reports. It says why a run came to no more.
fn run_logged<R: Platform + Files<File = File>, W: Write, E: Write>(
    rt: &R,
    run: Run<'_>,
    output: &mut W,
    errors: &mut E,
) -> RunEnd
    ensures { (text : List ℕ)
        × Runs result text (W.contents output.old) (W.contents output.new) }
{
    let mut patterns = Vec::new(rt.alloc());
    let found = settings_at(rt, run.path, &mut patterns, errors);
    let ran = run_told(rt, found, (run, patterns), output, errors);
    say_no_start(rt, &ran, errors);
    ended(ran)
}

/// Runs a relay by the settings in a file, and writes the monitor's page of the last reports, one
/// of each output. A file that cannot be read is `Ran(BadSettings(Unreadable))`, and so are refused
/// settings with their own fault; where the relay was asked to stop and something is left it is
/// `Left`, and the page is written; a failed write or flush is `Ran(Output)`, and behind it nothing
/// was written or a front of the page; out of memory is `Ran(Memory)`. Behind all other ends but
/// `Done` and `Left` nothing was written. The errors say why settings or an address are refused
/// and, where the log asks for it, what the run comes to.
pub fn run_file<R: Platform + Files<File = File>, W: Write, E: Write>(
    rt: &R,
    run: Run<'_>,
    output: &mut W,
    errors: &mut E,
) -> RunEnd
    ensures { (text : List ℕ)
        × Runs result text (W.contents output.old) (W.contents output.new) }
{
    match run_logged(rt, run, output, errors) {
        RunEnd::Ran(status) => RunEnd::Ran(status.flushed(flush(output))),
        RunEnd::Left(left) => left_flushed(left, flush(output)),
        end => end,
    }
}
