//! What monitors' pages are made of.

use crate::output::{Output, figures_of, reports_of};
use fwd_chunks::Report;
use fwd_history::Run;
use fwd_monitor::OutputFigures;
use fwd_monitors::{PageSource, SharedTally, add_output, nothing_counted};
use std::alloc::{AllocError, Global};
use std::sync::Wait;

/// What pages are made of.
#[derive_where(Clone, Copy)]
pub struct PageParts<'a, J: Run> {
    pub outputs: &'a [Output<J>],
    /// What was counted.
    pub tally: &'a SharedTally,
}

impl<'a, J: Run> PageSource for PageParts<'a, J> {
    fn figures<R: Wait>(
        &self,
        rt: &R,
        alloc: Global,
        now: u64,
    ) -> Result<Vec<OutputFigures>, AllocError> {
        figures_of(rt, alloc, self.outputs, now)
    }

    fn reports<R: Wait>(&self, rt: &R, alloc: Global) -> Result<Vec<Report>, AllocError> {
        reports_of(rt, alloc, self.outputs)
    }

    fn tally(&self) -> &SharedTally {
        self.tally
    }
}

/// Nothing was counted of these outputs; and nothing will be, where it is not kept. The only error
/// is out of memory.
pub fn tally_of<J: Run>(
    alloc: Global,
    outputs: &[Output<J>],
    is_kept: bool,
) -> Result<SharedTally, AllocError> {
    let mut tally = nothing_counted(alloc);
    for (number, output) in (0..u16::MAX).zip(outputs) {
        add_output(&mut tally, number, &output.servers)?;
    }
    Ok(SharedTally::new(alloc, tally, is_kept))
}
