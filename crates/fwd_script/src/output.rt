//! Writes that say what was written where they fail.

ghost use Rattle.std.specs.Prelude.{OnOk, OnErr};
ghost use Rattle.std.specs.Io.KnownBytes.{Appends};
ghost use Rattle.fwd_script.specs.Writes.{AppendsFront};

use crate::writing::{WriteFailed, Writes, write_some};
use std::io::Write;

/// Writes all of the bytes. A write that was interrupted is tried again. Where a write fails, what
/// was written is a front of the bytes. That is why it is a loop of its own: the kit's `write_all`
/// does not say so after an error.
pub fn write_all<W: Write>(writer: &mut W, bytes: &[u8]) -> Result<(), WriteFailed>
    ensures all { OnOk result (Appends (W.contents writer.old) (W.contents writer.new) bytes.now) }
    ensures front { OnErr result
        (AppendsFront (W.contents writer.old) (W.contents writer.new) bytes.now) }
{
    let mut writes = Writes::all();
    let mut rest = bytes;
    while !rest.is_empty() {
        let count = write_some(writer, rest, &mut writes)?;
        rest = &rest[count..];
    }
    Ok(())
}
