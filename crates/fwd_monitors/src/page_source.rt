//! What pages are made of.

use crate::shared_tally::SharedTally;
use fwd_chunks::Report;
use fwd_monitor::OutputFigures;
use std::alloc::{AllocError, Global};
use std::sync::Wait;

/// Tells what pages are made of: of the outputs, each time, and what was counted of them.
pub trait PageSource {
    /// What is known of each output at a moment (milliseconds) beside its report, in their order,
    /// without their patterns. The only error is out of memory.
    fn figures<R: Wait>(
        &self,
        rt: &R,
        alloc: Global,
        now: u64,
    ) -> Result<Vec<OutputFigures>, AllocError>;

    /// What each output has to do with, in all and of each tag, in their order. The only error is
    /// out of memory.
    fn reports<R: Wait>(&self, rt: &R, alloc: Global) -> Result<Vec<Report>, AllocError>;

    /// What was counted.
    fn tally(&self) -> &SharedTally;
}
