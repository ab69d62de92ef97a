//! A stream of MessagePack: `values count|speed MEASURE TURNS FILE`, where FILE is `-` for
//! standard input.
//!
//! The values of the stream are gone over, turn after turn, and it is printed what one turn found;
//! under `speed` also how fast the fastest turn was.

use crate::next_number;
use crate::values::{Found, Measure, fastest};
use std::env::Args;
use std::io::Read;
use std::rt::Runtime;
use std::{fs, io};

/// The measure of a word: `cut`, `requests`, `feed:BYTES` or `hear:BYTES`, the bytes of a piece.
fn measure_of(word: &str) -> Option<Measure> {
    match word.split_once(':') {
        Some(("feed", size)) => Some(Measure::Feed(size.parse().ok()?)),
        Some(("hear", size)) => Some(Measure::Hear(size.parse().ok()?)),
        None if word == "cut" => Some(Measure::Cut),
        None if word == "requests" => Some(Measure::Requests),
        _ => None,
    }
}

/// The measure of the next word.
fn next_measure(words: &mut Args) -> Option<Measure> {
    measure_of(&words.next()?)
}

/// Whether the next word asks for the speed too.
fn next_is_speed(words: &mut Args) -> Option<bool> {
    Some(words.next()?.as_str() == "speed")
}

/// The bytes of a file, or of standard input.
fn read_stream<R: Runtime + AllocGlobal>(rt: &R, file: &str) -> io::Result<Vec<u8>> {
    if file != "-" {
        return fs::read(rt, file);
    }
    let mut stream = Vec::new(rt.alloc());
    rt.reader().read_to_end(&mut stream)?;
    Ok(stream)
}

/// The stream of the next word.
fn next_stream<R: Runtime + AllocGlobal>(rt: &R, words: &mut Args) -> Option<Vec<u8>> {
    read_stream(rt, &words.next()?).ok()
}

/// Does what the next words ask.
pub fn measure<R: Runtime + AllocGlobal>(rt: &R, words: &mut Args) -> Option<()> {
    let is_speed = next_is_speed(words)?;
    let measure = next_measure(words)?;
    let turns = next_number(words)?;
    let stream = next_stream(rt, words)?;
    let (found, took) = fastest(rt, measure, turns, &stream)?;
    let Found {
        values,
        requests,
        entries,
        rest,
    } = found;
    let _ = println!(rt; "values {values} requests {requests} entries {entries} rest {rest}");
    if is_speed {
        let megabytes_a_second = 1000 * stream.len() as u128 / took.as_nanos().max(1);
        let _ = println!(rt; "{megabytes_a_second} MB/s");
    }
    Some(())
}
