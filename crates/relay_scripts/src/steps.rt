//! A script's events where memory is refused once: each event that is answered `memory` is stepped
//! again, and so is each other call that memory was refused to.
//!
//! The answers of the steps are printed, and behind `== run` those of one run over all events; an
//! event that such a run answers `memory` is not had again. Behind `== kept` come the answers of a
//! run over the events that were not answered so. Each has a relay of its own.

use crate::answers::lines_of;
use fwd_core::Relay;
use fwd_model::{Answer, Event};
use fwd_script::{print_answer, read_config, read_event, split_script};
use std::alloc::{AllocError, Global};
use std::{fs, io};

/// What a call gives, at the second try where the first one was refused memory.
macro_rules! again {
    ($call:expr) => {
        match $call {
            Ok(given) => given,
            Err(_) => $call?,
        }
    };
}

/// A relay by a script's settings, or nothing where these are bad or memory is refused.
fn try_open(alloc: Global, settings: &[u8]) -> Option<Relay> {
    let config = read_config(alloc, settings).ok()?;
    Relay::new(alloc, config).ok()
}

/// A relay by a script's settings, or nothing where these are bad.
fn open(alloc: Global, settings: &[u8]) -> Option<Relay> {
    match try_open(alloc, settings) {
        Some(relay) => Some(relay),
        None => try_open(alloc, settings),
    }
}

/// The events of a text's lines, up to the first line that is none.
fn events_of(alloc: Global, text: &[u8]) -> Result<Vec<Event>, AllocError> {
    let mut events = Vec::new(alloc);
    for line in &lines_of(alloc, text)? {
        let Some(event) = read_event(alloc, *line)? else {
            break;
        };
        events.push(event)?;
    }
    Ok(events)
}

/// Prints the line of an answer.
fn print<R: Print + AllocGlobal>(rt: &R, answer: &Answer) -> io::Result<()> {
    let text = again!(print_answer(rt.alloc(), answer));
    println!(rt; "{text}")
}

/// Prints the lines of answers.
fn print_all<R: Print + AllocGlobal>(rt: &R, answers: &Vec<Answer>) -> io::Result<()> {
    for answer in answers {
        print(rt, answer)?;
    }
    Ok(())
}

/// Steps an event, and says whether it was answered `memory`.
fn step_one<R: Print + AllocGlobal>(rt: &R, relay: &mut Relay, event: &Event) -> io::Result<bool> {
    let answer = relay.step(rt.alloc(), event);
    let printed = print(rt, &answer);
    let is_memory = matches!(answer, Answer::Memory);
    printed?;
    Ok(is_memory)
}

/// Steps each event, and again where it is answered `memory`.
fn step_all<R: Print + AllocGlobal>(
    rt: &R,
    relay: &mut Relay,
    events: &Vec<Event>,
) -> io::Result<()> {
    for event in events {
        if step_one(rt, relay, event)? {
            step_one(rt, relay, event)?;
        }
    }
    Ok(())
}

/// Prints the answers of the steps, where the settings are good.
fn print_steps<R: Print + AllocGlobal>(
    rt: &R,
    settings: &[u8],
    events: &Vec<Event>,
) -> io::Result<()> {
    match open(rt.alloc(), settings) {
        Some(mut relay) => step_all(rt, &mut relay, events),
        None => Ok(()),
    }
}

/// The answers of one run, and none where the settings are bad.
fn answers_of(
    alloc: Global,
    settings: &[u8],
    events: &Vec<Event>,
) -> Result<Vec<Answer>, AllocError> {
    let Some(mut relay) = open(alloc, settings) else {
        return Ok(Vec::new(alloc));
    };
    match relay.run(alloc, events) {
        Ok(answers) => Ok(answers),
        Err(_) => relay.run(alloc, events),
    }
}

/// The events that were not answered `memory`.
fn kept(
    alloc: Global,
    events: Vec<Event>,
    answers: &Vec<Answer>,
) -> Result<Vec<Event>, AllocError> {
    let mut kept = again!(Vec::with_capacity(alloc, events.len()));
    let mut place: usize = 0;
    for event in events {
        if !matches!(answers.get(place), Some(Answer::Memory)) {
            kept.push(event)?;
        }
        place = place.saturating_add(1);
    }
    Ok(kept)
}

/// Prints the answers to the events of this text, by relays of these settings.
fn print_parts<R: Print + AllocGlobal>(rt: &R, settings: &[u8], text: &[u8]) -> io::Result<()> {
    let alloc = rt.alloc();
    let events = again!(events_of(alloc, text));
    print_steps(rt, settings, &events)?;
    println!(rt; "== run")?;
    let answers = answers_of(alloc, settings, &events)?;
    print_all(rt, &answers)?;
    println!(rt; "== kept")?;
    let kept = kept(alloc, events, &answers)?;
    print_all(rt, &answers_of(alloc, settings, &kept)?)
}

/// Prints the answers to the script in a file.
pub fn print_refused(rt: &HostRuntime, path: &str) -> io::Result<()> {
    let text = again!(fs::read(rt, path));
    let script = split_script(&text);
    print_parts(rt, script.settings, script.events)
}
