//! Texts of settings, a line `---` or `===` behind each, and what is told of them: `good`, or the
//! first fault; behind `===` what each key is set to. tests/tables/settings.py has the cases.

use crate::tables::keys::print_keys;
use anyhow::Result;
use fwd_settings::{Settings, SettingsFault, read_settings};
use std::alloc::AllocError;

/// Prints what is told of a text.
fn print_text<R: Print + AllocGlobal>(rt: &R, text: &str, has_keys: bool) -> Result<()> {
    match read_settings(rt.alloc(), text.as_bytes()) {
        Ok(settings) => print_good(rt, &settings, has_keys),
        Err(fault) => print_fault(rt, &fault),
    }
}

/// Prints what is told of good settings.
fn print_good<R: Print + AllocGlobal>(rt: &R, settings: &Settings, has_keys: bool) -> Result<()> {
    if has_keys {
        return print_keys(rt, settings);
    }
    Ok(println!(rt; "good")?)
}

/// Prints why settings are bad.
fn print_fault<R: Print>(rt: &R, fault: &SettingsFault) -> Result<()> {
    Ok(println!(rt; "{fault}")?)
}

/// Appends a line to a text.
fn push_line(text: &mut String, line: &str) -> Result<(), AllocError> {
    text.push_str(line)?;
    text.push('\n')
}

/// Prints what is told of each text.
pub(crate) fn print_settings<R: Print + AllocGlobal>(rt: &R, texts: &str) -> Result<()> {
    let mut text = String::new(rt.alloc());
    for line in texts.lines() {
        if line == "---" || line == "===" {
            print_text(rt, text.as_str(), line == "===")?;
            text.clear();
        } else {
            push_line(&mut text, line)?;
        }
    }
    Ok(())
}
