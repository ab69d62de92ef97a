//! What part of a value a scanner is within.

ghost use Rattle.std.specs.Prelude.{◌≡◌, ◌≤◌, ◌<◌, ◌+◌, ◌^◌, ℕ, [], sum};
ghost use Rattle.fwd_msgpack.specs.Scans.{head_found, value_ended};
ghost use Rattle.fwd_msgpack.specs.ScanStates.{state_shown, IsScanState};

use crate::fault::ScanFault;
use crate::head::Head;
use crate::limits::Limits;
use crate::scan::head_fault;
use crate::stack::Stack;

/// What part of a value a scanner is within.
#[derive(Clone, Copy)]
pub enum ScanState {
    /// A head, of which no byte has come or some have.
    Head,
    /// A payload of which so many bytes are still to come.
    Payload(u32),
    /// None: the value has ended.
    Ended,
    /// None: there was a fault.
    Failed(ScanFault),
}

/// What comes behind a value inside these containers.
#[inline(always)]
pub fn behind_value(stack: &mut Stack) -> ScanState
    ensures state { (used : ℕ)
        → state_shown used stack.new [] result ≡ value_ended used stack.old }
    ensures stage { (limit used : ℕ) → used + sum stack.old ≤ limit
        → IsScanState limit used (sum stack.new) [] result }
{
    if stack.end_value() {
        ScanState::Head
    } else {
        ScanState::Ended
    }
}

/// What comes behind a complete head inside these containers, where `used` bytes end with it.
pub fn behind_head(head: Head, used: usize, stack: &mut Stack, limits: Limits) -> ScanState
    requires { sum stack.old < 2 ^ 32 }
    ensures state { state_shown used stack.new [] result
        ≡ head_found limits.bytes limits.depth used stack.old head }
    ensures stage { IsScanState limits.bytes used (sum stack.new) [] result }
{
    if let Some(fault) = head_fault(head, used, stack, limits) {
        return ScanState::Failed(fault);
    }
    if head.payload() > 0 {
        return ScanState::Payload(head.payload());
    }
    if head.members() > 0 {
        stack.push((head.members() - 1) as u32);
        return ScanState::Head;
    }
    behind_value(stack)
}
