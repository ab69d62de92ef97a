//! What a monitor is sent.

ghost use Rattle.std.specs.Prelude.{◌≤◌, length};
ghost use Rattle.std.specs.Arc.{arc_value};

use std::sync::Arc;

/// What a monitor is sent, and how much of it was sent.
#[derive(Drop)]
pub(crate) struct Sending {
    pub reply: Arc<Vec<u8>>,
    pub sent: usize,
    ghost within: { sent ≤ length (arc_value reply).items },
}
