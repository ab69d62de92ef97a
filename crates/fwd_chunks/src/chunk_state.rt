ghost use Rattle.std.specs.Prelude.{◌≡◌};
ghost use Rattle.fwd_chunks.specs.Filling.{stage_last};

/// Where a chunk stands that is not settled.
#[derive(Clone, Copy)]
pub enum ChunkState {
    /// It may take more entries.
    Open,
    /// It takes no more entries, and waits for a worker.
    Closed,
    /// The worker of this number has it.
    Taken(u16),
}

/// Where a chunk stands, which is closed where another one follows.
pub(crate) fn stage_of(last: bool) -> ChunkState
    ensures { result ≡ stage_last last }
{
    if last {
        ChunkState::Open
    } else {
        ChunkState::Closed
    }
}
