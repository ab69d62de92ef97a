//! Acknowledgements (Forward Protocol Specification v1, "Response").

ghost use Rattle.std.specs.Prelude.{◌≡◌, None, IfOk, OnErr};
ghost use Rattle.std.specs.Option.{option_map};
ghost use Rattle.fwd_msgpack.specs.Values.{bytes_of};
ghost use Rattle.fwd_modes.specs.Acks.{ack_text, ack_name};

use fwd_msgpack::{Head, Value, write_head, write_text};
use std::alloc::{AllocError, Global};

/// A value acknowledges nothing: it is no map, or its last `ack`
/// is no str and no bin, or it has none. This is refusal 17.
#[derive(Clone, Copy, Debug)]
pub struct NoAck;

/// The acknowledgement of a chunk, whose value is handed in as its own bytes, head included.
#[tactic(auto, unfolding(crate::specs::Acks::ack_text))]
pub fn write_ack(alloc: Global, chunk: &[u8]) -> Result<Vec<u8>, AllocError>
    ensures { IfOk result (λ ack. ack.items ≡ ack_text chunk.now) }
{
    let mut out = Vec::new(alloc);
    write_head(&mut out, Head::Map(1))?;
    write_text(&mut out, b"ack")?;
    out.extend_from_slice(chunk)?;
    Ok(out)
}

/// The name that a value acknowledges, without its head. It takes no memory.
#[tactic(auto, unfolding(crate::specs::Acks::ack_name))]
pub fn read_ack<'a>(value: Value<'a>) -> Result<&'a [u8], NoAck>
    ensures name { IfOk result (λ name. ack_name (bytes_of value.entry) ≡ Some name.now) }
    ensures none { OnErr result (ack_name (bytes_of value.entry) ≡ None) }
{
    let pairs = value.pairs().ok_or(NoAck)?;
    let name = pairs.last_under(b"ack").ok_or(NoAck)?;
    name.text().ok_or(NoAck)
}
