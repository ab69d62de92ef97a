//! A chunk that a server seems to refuse, as it is told.

use crate::link::LossReason;

/// How many bytes of a tag are told.
const SHOWN: usize = 64;

/// The first bytes of a tag, at most 64.
#[derive(Clone, Copy)]
pub struct TextFront {
    bytes: [u8; SHOWN],
    count: usize,
}

impl TextFront {
    /// The first bytes of this tag.
    pub fn of(tag: &[u8]) -> TextFront {
        let mut bytes = [0; SHOWN];
        for (to, byte) in bytes.iter_mut().zip(tag) {
            *to = *byte;
        }
        let count = tag.len().min(SHOWN);
        TextFront { bytes, count }
    }

    /// These bytes.
    pub fn as_slice(&self) -> &[u8] {
        let count = self.count.min(SHOWN);
        &self.bytes[..count]
    }
}

/// A chunk that was lost three times or more, the last time at a server that had acknowledged
/// others since it was lost before: the server seems to refuse just this chunk.
#[derive(Clone, Copy)]
pub struct Refused {
    /// The server, by its place in the output's list.
    pub server: u16,
    /// The first bytes of the chunk's tag.
    pub tag: TextFront,
    /// The bytes of its entries.
    pub size: u64,
    /// How often it was lost, where 66 stands for every greater count.
    pub losses: u8,
    /// Why its last session ended.
    pub why: LossReason,
}
