//! One write and one flush of a writer. What says that one of them failed is made here alone. The
//! kit's `Write` does not say when a call fails, so no clause can.

ghost use Rattle.std.specs.Prelude.{◌≡◌, ◌≤◌, ◌<◌, ◌-◌, ◌^◌, length, take, MatchResult};
ghost use Rattle.std.specs.Io.KnownBytes.{Appends, Keeps};

use std::io::{ErrorKind, Write};
use std::marker::Model;

/// A write failed or took nothing, or a flush failed, or 2^64 - 1 writes did not take all of some
/// bytes. Only `write_some` and `flush` make one.
#[derive(Clone, Copy, Debug)]
pub struct WriteFailed(());

/// How many more writes some bytes may take.
#[derive(Drop)]
pub struct Writes {
    left: u64,
}

impl Model for Writes {
    ghost use Rattle.std.specs.Prelude.{ℕ};

    ghost Value = { ℕ };

    ghost view = { λ writes. writes.left };
}

impl Writes {
    /// Before the first write: 2^64 - 1.
    pub fn all() -> Writes
        ensures { result ≡ 2 ^ 64 - 1 }
    {
        Writes { left: u64::MAX }
    }
}

/// Writes some of the bytes, and answers how many: none where the write was interrupted. It is one
/// of the writes that are left.
pub fn write_some<W: Write>(
    writer: &mut W,
    bytes: &[u8],
    writes: &mut Writes,
) -> Result<usize, WriteFailed>
    ensures { MatchResult result
        (λ count. (count ≤ length bytes.now) × (writes.new < writes.old)
        × Appends (W.contents writer.old) (W.contents writer.new) (take count bytes.now))
        (λ _. Keeps (W.contents writer.old) (W.contents writer.new)) }
{
    let failed = WriteFailed(());
    if writes.left == 0 {
        return Err(failed);
    }
    writes.left -= 1;
    match writer.write(bytes) {
        Ok(0) => Err(failed),
        Ok(count) => Ok(count),
        Err(error) if error.kind() == ErrorKind::Interrupted => Ok(0),
        Err(_) => Err(failed),
    }
}

/// Flushes the writer.
pub fn flush<W: Write>(writer: &mut W) -> Result<(), WriteFailed>
    ensures { Keeps (W.contents writer.old) (W.contents writer.new) }
{
    match writer.flush() {
        Ok(()) => Ok(()),
        Err(_) => Err(WriteFailed(())),
    }
}
