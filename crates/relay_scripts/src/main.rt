//! The program: `relay_scripts TASK..`. It does one task after the other, each of these:
//!
//!     scripts FOLDER
//!     steps FILE
//!     settings FILE.. --
//!     lines
//!     tables
//!     values count|speed cut|requests|feed:BYTES|hear:BYTES TURNS FILE
//!     mutants COUNT
//!     entries COUNT
//!     calls
//!     joins
//!     buffers requests|count|speed|output|reports ENTRIES TAGS SIZE REQUEST TURNS
//!
//! `scripts` replays each script of a folder and compares its answers, and `steps` makes each step
//! of a script again where memory is refused; `settings` checks files of settings; `lines` says of
//! each line on standard input whether it is an event's; `tables` tells what is made of tables of
//! cases. `values` goes over the values of a stream of MessagePack, `mutants` judges requests that
//! are changed, `entries` reads random entries in two spellings, `calls` makes each call that takes
//! memory, `joins` joins entries beside a plain table, and `buffers` admits requests to a buffer
//! and settles them.
//!
//! Where a task is none of these, or fails, or memory runs out, it ends with 1; that a line could
//! not be printed is not told.
#![tactic(auto)]

mod answers;
mod buffers;
mod differences;
mod digits;
mod entries;
mod events;
mod growing;
mod growing_chunks;
mod joins;
mod lines;
mod load;
mod mutants;
mod outputs;
mod pairs;
mod pieces;
mod reports;
mod requests;
mod scripts;
mod settings;
mod steps;
mod streams;
mod table;
mod tables;
mod turns;
mod values;
mod watch;

use std::env::{self, Args};
use std::io;
use std::process::ExitCode;
use std::rt::Runtime;

/// The number of the next word.
fn next_number(words: &mut Args) -> Option<u32> {
    words.next()?.parse().ok()
}

/// Measures, or makes calls, by this word and those behind it.
fn measure<R: Runtime + AllocGlobal>(rt: &R, words: &mut Args, task: &str) -> Option<()> {
    match task {
        "values" => streams::measure(rt, words),
        "joins" => joins::count(rt),
        "mutants" => mutants::count(rt, words),
        "entries" => entries::count(rt, words),
        "calls" => growing::call_all(rt),
        "buffers" => buffers::measure(rt, words),
        _ => None,
    }
}

/// Does the task of this word and of those behind it.
fn do_task(rt: &HostRuntime, words: &mut Args, task: &str) -> Option<()> {
    match task {
        "scripts" => scripts::judge_next(rt, words),
        "steps" => steps::print_refused(rt, &words.next()?).ok(),
        "settings" => settings::print_settings(rt, words).ok(),
        "lines" => lines::print_lines(rt).ok(),
        "tables" => tables::tell_tables(rt),
        _ => measure(rt, words, task),
    }
}

/// Does each task: the first that it could not do, if there is one.
fn first_undone(rt: &HostRuntime, words: &mut Args) -> Option<String> {
    for _ in 0..u64::MAX {
        let task = words.next()?;
        if do_task(rt, words, &task).is_none() {
            return Some(task);
        }
    }
    None
}

fn main(rt: HostRuntime) -> io::Result<ExitCode> {
    let mut words = match env::args(&rt) {
        Ok(words) => words,
        Err(_) => env::args(&rt)?,
    };
    let _program = words.next();
    match first_undone(&rt, &mut words) {
        None => Ok(ExitCode::SUCCESS),
        Some(task) => {
            let _ = eprintln!(rt; "{task}: it failed, or is no task");
            Ok(ExitCode::FAILURE)
        }
    }
}
