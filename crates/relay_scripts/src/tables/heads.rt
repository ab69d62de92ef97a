//! Heads and faults as text.

ghost use Rattle.std.specs.Bool.{OnTrue};
ghost use Rattle.fwd_msgpack.specs.Heads.{IsSpelled};

use crate::tables::words::word_of_bytes;
use anyhow::{Result, bail};
use fwd_msgpack::{Head, ScanFault, write_head};
use std::alloc::{AllocError, Global};

/// The word of a fault.
pub(crate) fn fault_word(fault: ScanFault) -> &'static str {
    match fault {
        ScanFault::Reserved => "reserved",
        ScanFault::TooDeep => "too deep",
        ScanFault::TooLong => "too long",
    }
}

/// The kind of a head, and its number, length or count.
pub(crate) fn head_words(alloc: Global, head: Head) -> Result<String, AllocError> {
    match head {
        Head::Nil => String::from_str(alloc, "nil"),
        Head::Bool(truth) => format!(in alloc; "{truth}"),
        Head::Int { neg: true, mag } => format!(in alloc; "int -{mag}"),
        Head::Int { neg: false, mag } => format!(in alloc; "int {mag}"),
        Head::Float { len } => format!(in alloc; "float {len}"),
        Head::Str(len) => format!(in alloc; "str {len}"),
        Head::Bin(len) => format!(in alloc; "bin {len}"),
        Head::Arr(count) => format!(in alloc; "arr {count}"),
        Head::Map(count) => format!(in alloc; "map {count}"),
        Head::Ext { kind, len } => format!(in alloc; "ext {kind} {len}"),
    }
}

/// Whether a head has a spelling.
fn is_spelled(head: Head) -> bool
    ensures { OnTrue result (IsSpelled head) }
{
    match head {
        Head::Int { neg: true, mag } => 1 <= mag && mag <= 1 << 63,
        Head::Float { len } => len == 4 || len == 8,
        _ => true,
    }
}

/// The shortest spelling of a head, in hex.
pub(crate) fn shortest(alloc: Global, head: Head) -> Result<String> {
    if !is_spelled(head) {
        bail!("no spelling of {head:?}");
    }
    let mut out = Vec::new(alloc);
    write_head(&mut out, head)?;
    word_of_bytes(alloc, &out)
}
