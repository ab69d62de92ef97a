//! What an output begins with.

use fwd_chunks::BufferLimits;

/// What an output begins with.
#[derive(Clone, Copy)]
pub struct OutputSetup<'a> {
    pub limits: BufferLimits,
    /// The bytes that the chunks of its run have.
    pub run: [u8; 6],
    /// The output's number.
    pub output: u16,
    /// Which of its servers are standbys.
    pub standby: &'a [bool],
}
