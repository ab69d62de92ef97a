//! One read of a reader. What says that it failed is made here alone. The kit's `Read` does not say
//! when a call fails, so no clause can.

ghost use Rattle.std.specs.Prelude.{◌≡◌, ◌<◌, ◌^◌, MatchResult};
ghost use Rattle.std.specs.Io.KnownBytes.{Keeps};
ghost use Rattle.fwd_script.specs.Reads.{Gives};

use std::io::{ErrorKind, Read};
use std::marker::Model;

/// A read failed, or an input had no end in 2^32 reads. Only `read_some` makes one.
#[derive(Clone, Copy, Debug)]
pub struct ReadFailed(());

/// How many more reads an input may take.
#[derive(Drop)]
pub struct Reads {
    left: u64,
}

impl Model for Reads {
    ghost use Rattle.std.specs.Prelude.{ℕ};

    ghost Value = { ℕ };

    ghost view = { λ reads. reads.left };
}

impl Reads {
    /// Before the first read: 2^32.
    pub fn all() -> Reads
        ensures { result ≡ 2 ^ 32 }
    {
        Reads {
            left: 0x1_0000_0000,
        }
    }
}

/// Reads some bytes into the buffer, and answers how many: none at the end of the input. Where the
/// read was interrupted it answers `None`. It is one of the reads that are left.
pub fn read_some<R: Read>(
    reader: &mut R,
    buffer: &mut [u8],
    reads: &mut Reads,
) -> Result<Option<usize>, ReadFailed>
    ensures { MatchResult result
        (λ count. (reads.new < reads.old)
        × Gives count (R.remaining reader.old) (R.remaining reader.new) buffer.new)
        (λ _. Keeps (R.remaining reader.old) (R.remaining reader.new)) }
{
    let failed = ReadFailed(());
    if reads.left == 0 {
        return Err(failed);
    }
    reads.left -= 1;
    match reader.read(buffer) {
        Ok(count) => Ok(Some(count)),
        Err(error) if error.kind() == ErrorKind::Interrupted => Ok(None),
        Err(_) => Err(failed),
    }
}
