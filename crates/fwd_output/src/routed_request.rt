//! A request that is led to an output.

use fwd_modes::{Batch, Origin};

/// A request of a connection that is led to an output.
#[derive(Drop)]
pub struct RoutedRequest {
    /// The output's number.
    pub output: u16,
    /// Of which connection it is, and which of that connection's.
    pub origin: Origin,
    pub batch: Batch,
}
