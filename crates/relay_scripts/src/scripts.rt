//! The scripts of a folder, and whether they have their answers: as the script stands, with the
//! bytes of each piece in two at each byte (of a piece above 4,096 bytes near its ends alone), and
//! with the bytes of two pieces in one. `NAME.script` is what `forward_relay replay` reads.
//! `NAME.answers` is what must come: what the program writes on standard output, and behind that
//! what it tells on standard error. A script is these two files and nothing else.

use crate::differences::{Difference, difference_of};
use std::env::Args;
use std::rt::Files;
use std::{fs, io};

/// The names of the scripts in a folder, in order.
fn script_names<R: Files + AllocGlobal + Clone + Drop>(
    rt: &R,
    folder: &str,
) -> io::Result<Vec<String>> {
    let mut names = Vec::new(rt.alloc());
    for entry in fs::read_dir(rt, folder)? {
        let entry = entry?;
        if let Some(name) = entry.file_name().strip_suffix(".script") {
            names.push(String::from_str(rt.alloc(), name)?)?;
        }
    }
    names.sort()?;
    Ok(names)
}

/// Where the answers of the script of this name are not those that must come.
fn judged<R: Files + AllocGlobal>(
    rt: &R,
    folder: &str,
    name: &str,
) -> io::Result<Option<Difference>> {
    let alloc = rt.alloc();
    let script = format!(in alloc; "{folder}/{name}.script")?;
    let answers = format!(in alloc; "{folder}/{name}.answers")?;
    let script = fs::read(rt, script.as_str())?;
    let answers = fs::read(rt, answers.as_str())?;
    difference_of(alloc, &script, &answers)
}

/// Whether all scripts of a folder have their answers. It tells on standard error which have them,
/// and writes what is wrong with the others.
fn have_answers<R: Files + Print + Eprint + AllocGlobal>(
    rt: &R,
    folder: &str,
    names: &[String],
) -> io::Result<bool> {
    let mut has_all = true;
    for name in names {
        match judged(rt, folder, name.as_str()) {
            Ok(None) => eprintln!(rt; "{name}: same answers")?,
            Ok(Some(difference)) => {
                println!(rt; "{name}: {difference}")?;
                has_all = false;
            }
            Err(error) => {
                println!(rt; "{name}: {error}")?;
                has_all = false;
            }
        }
    }
    Ok(has_all)
}

/// Judges all scripts of a folder, and prints that each has its answers, or what is wrong. It
/// answers true only where there are any and all have their answers.
fn judge_scripts<R: Files + Print + Eprint + AllocGlobal + Clone + Drop>(
    rt: &R,
    folder: &str,
) -> io::Result<bool> {
    let names = script_names(rt, folder)?;
    if names.is_empty() {
        println!(rt; "no scripts")?;
        return Ok(false);
    }
    if !have_answers(rt, folder, names.as_slice())? {
        return Ok(false);
    }
    println!(rt; "each script has its answers")?;
    Ok(true)
}

/// Judges the scripts of the folder of the next word.
pub fn judge_next<R: Files + Print + Eprint + AllocGlobal + Clone + Drop>(
    rt: &R,
    words: &mut Args,
) -> Option<()> {
    match judge_scripts(rt, &words.next()?) {
        Ok(true) => Some(()),
        _ => None,
    }
}
