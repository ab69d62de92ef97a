//! A buffer: `buffers requests|count|speed|output|reports ENTRIES TAGS SIZE REQUEST TURNS`.
//!
//! In each turn requests are admitted to a buffer until it has so many entries, all chunks are
//! closed, and each of them is taken and settled. Each request has REQUEST entries of SIZE bytes,
//! and the requests go round TAGS tags. It is printed what the buffer was left with; under `speed`
//! also how long each part took, and beside it a copy of the same bytes and the taking of a chunk
//! behind many. Under `requests` the requests alone are made, so that the memory of the two can be
//! told apart. Under `output` the same is done through an output, with a session that sends each
//! chunk and hears its reply, and collects. Under `reports` what is held of each tag is reported,
//! once all is admitted.

use crate::load::{Load, batches, next_load};
use crate::next_number;
use crate::outputs::output_turn;
use crate::reports::report_turn;
use crate::turns::{behind_turn, buffer_turn, copy_turn};
use fwd_modes::Batch;
use std::env::Args;
use std::rt::Runtime;

/// What is done in a turn.
#[derive(Clone, Copy)]
enum Mode {
    /// Nothing: the requests are made, and no more.
    Requests,
    /// All of it.
    Count,
    /// All of it, and times are printed too.
    Speed,
    /// The same through an output, which also keeps who is owed an answer.
    Output,
    /// What is held of each tag is reported.
    Reports,
}

/// The mode of the next word.
fn next_mode(words: &mut Args) -> Option<Mode> {
    match words.next()?.as_str() {
        "requests" => Some(Mode::Requests),
        "count" => Some(Mode::Count),
        "speed" => Some(Mode::Speed),
        "output" => Some(Mode::Output),
        "reports" => Some(Mode::Reports),
        _ => None,
    }
}

/// Does one turn.
fn do_turn<R: Runtime + AllocGlobal>(
    rt: &R,
    mode: Mode,
    load: Load,
    batches: &Vec<Batch>,
) -> Option<()> {
    match mode {
        Mode::Requests => {
            let _ = println!(rt; "requests {}", batches.len());
            Some(())
        }
        Mode::Count => buffer_turn(rt, load, batches, false),
        Mode::Speed => {
            buffer_turn(rt, load, batches, true)?;
            copy_turn(rt, load, batches)?;
            behind_turn(rt, load, batches)
        }
        Mode::Output => output_turn(rt, load, batches),
        Mode::Reports => report_turn(rt, load, batches),
    }
}

/// Does what the next words ask.
pub fn measure<R: Runtime + AllocGlobal>(rt: &R, words: &mut Args) -> Option<()> {
    let mode = next_mode(words)?;
    let load = next_load(words)?;
    let turns = next_number(words)?;
    let batches = batches(rt.alloc(), load)?;
    for _ in 0..turns {
        do_turn(rt, mode, load, &batches)?;
    }
    Some(())
}
