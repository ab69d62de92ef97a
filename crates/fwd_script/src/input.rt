ghost use Rattle.std.specs.Prelude.{◌≡◌, IfOk, IfErr, IfSome, OnOk};
ghost use Rattle.std.specs.Io.KnownBytes.{Consumes, IsAtEnd};
ghost use Rattle.fwd_script.specs.declared.input.InputError.TheVariants.{Memory, Failed};
ghost use Rattle.fwd_script.specs.Reads.{Unread};

use crate::reading::{ReadFailed, Reads, read_some};
use std::alloc::{AllocError, Global};
use std::io::Read;

/// Why the input could not be read to its end.
#[derive(Clone, Copy, Debug)]
pub enum InputError {
    /// Memory ran out.
    Memory,
    /// A read failed, or the input had no end.
    Failed(ReadFailed),
}

impl From<AllocError> for InputError {
    ghost from_gives = { λ _ error. error ≡ Memory };

    fn from(_error: AllocError) -> InputError {
        InputError::Memory
    }
}

impl From<ReadFailed> for InputError {
    ghost from_gives = { λ failed error. error ≡ Failed failed };

    fn from(failed: ReadFailed) -> InputError {
        InputError::Failed(failed)
    }
}

/// All bytes that the reader has left, in at most 2^32 reads. A read that was interrupted is tried
/// again, as one of them.
///
/// It answers `Memory` only behind a read that gave bytes, and `Failed` where a read failed or
/// 2^32 reads came to no end; what was read until then is a front of the bytes.
pub fn read_input<R: Read>(alloc: Global, reader: &mut R) -> Result<Vec<u8>, InputError>
    ensures whole { IfOk result
        (λ bytes. IfSome (R.remaining reader.old) (λ left. bytes.items ≡ left)) }
    ensures taken { IfOk result
        (λ bytes. Consumes (R.remaining reader.old) (R.remaining reader.new) bytes.items) }
    ensures end { OnOk result (IsAtEnd (R.remaining reader.new)) }
    ensures unread { IfErr result
        (λ error. Unread error (R.remaining reader.old) (R.remaining reader.new)) }
{
    let mut bytes = Vec::new(alloc);
    let mut buffer = [0; 8192];
    let mut reads = Reads::all();
    loop {
        match read_some(reader, &mut buffer, &mut reads)? {
            None => {}
            Some(0) => return Ok(bytes),
            Some(count) => bytes.extend_from_slice(&buffer[..count])?,
        }
    }
}
