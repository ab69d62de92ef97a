//! What a worker's turn has at hand.

use fwd_chunks::FlushKind;
use fwd_environment::{Clock, Hub};
use fwd_output::{SharedOutput, Tally};
use std::sync::Wait;

/// What a worker's turn has at hand: the runtime, the output, the moment (milliseconds), and which
/// open chunks may be closed for the worker.
pub(crate) struct TurnContext<'a, A: Tally, S: Tally, R: Wait> {
    pub(crate) rt: &'a R,
    pub(crate) out: &'a SharedOutput<A, S>,
    pub(crate) now: u64,
    pub(crate) closes: FlushKind,
}

impl<'a, A: Tally, S: Tally, R: Wait> Drop for TurnContext<'a, A, S, R> {
    fn drop(self) {
        let TurnContext {
            rt: _,
            out: _,
            now: _,
            closes: _,
        } = self;
    }
}

/// What a worker asks of the outside in a turn: links, and the moment behind one that could not be
/// had, which may have taken long.
pub(crate) struct Outside<'a, H: Hub, C: Clock> {
    pub(crate) hub: &'a mut H,
    pub(crate) clock: &'a mut C,
}

impl<'a, H: Hub, C: Clock> Drop for Outside<'a, H, C> {
    fn drop(self) {
        let Outside { hub: _, clock: _ } = self;
    }
}
