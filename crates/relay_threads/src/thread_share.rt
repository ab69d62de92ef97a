//! What one of many threads holds.

ghost use Rattle.std.specs.Prelude.{◌≡◌};

use fwd_output::Seat;
use std::sync::ledger::Ledger;

/// What a thread works with, and its seat, which has one part of its ledger.
#[derive(Drop)]
pub struct Hand<L: Ledger, T: Drop> {
    pub tool: T,
    pub seat: Seat<L>,
    ghost one_part: { seat.parts ≡ 1 },
}
