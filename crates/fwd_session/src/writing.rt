//! The frame of a chunk, written out.

ghost use Rattle.std.specs.Prelude.{◌≡◌, IfOk};
ghost use Rattle.fwd_session.specs.ServerAcks.{frame_of};

use fwd_chunks::Carried;
use fwd_modes::{write_chunk_head, write_chunk_tail};
use std::alloc::{AllocError, Global};

/// The frame of a chunk (Forward Protocol Specification v1, "PackedForward Mode"), with its size
/// and its name, in one piece of memory. The only error is out of memory.
#[tactic(auto, unfolding(fwd_modes::specs::Frames::chunk_frame))]
pub fn frame_of(alloc: Global, chunk: &Carried) -> Result<Vec<u8>, AllocError>
    ensures { IfOk result (λ frame. frame.items ≡ frame_of chunk.now) }
{
    let mut frame = write_chunk_head(alloc, chunk.tag(), chunk.body().size() as u32)?;
    for part in chunk.parts() {
        frame.extend_from_slice(part)?;
    }
    let tail = write_chunk_tail(alloc, chunk.count() as u64, chunk.name())?;
    frame.extend_from_slice(&tail)?;
    Ok(frame)
}
