//! What sources, the relay and servers say.

use anyhow::{Result, anyhow};

/// A Message under the tag `a` that asks to be acknowledged as `x`.
pub const MESSAGE: &[u8] = b"\x94\xa1a\x01\x80\x81\xa5chunk\xa1x";

/// What its source is told.
pub const TOLD: &[u8] = b"\x81\xa3ack\xa1x";

/// A request of no entries, in Forward mode, that asks to be acknowledged as `x`: its source is
/// told so at once.
pub const EMPTY: &[u8] = b"\x93\xa1a\x90\x81\xa5chunk\xa1x";

/// What an acknowledgement begins with: a map of one, `ack`, and a str of 24 bytes.
const ACK: &[u8] = b"\x81\xa3ack\xb8";

/// The acknowledgement of a frame's chunk, whose name is the last bytes of both.
pub fn ack(frame: &[u8]) -> Result<[u8; 30]> {
    let Some(name) = frame.last_chunk::<24>() else {
        return Err(anyhow!("no name"));
    };
    let mut ack = [0; 30];
    ack[..6].copy_from_slice(ACK);
    ack[6..].copy_from_slice(name);
    Ok(ack)
}
