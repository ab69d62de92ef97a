ghost use Rattle.std.specs.Prelude.{◌<◌, ◌^◌};

/// What a buffer is limited to. Sizes are in bytes, times in milliseconds.
#[derive(Clone, Copy, Debug, PartialEq, Eq)]
pub struct BufferLimits {
    /// The most bytes of a chunk that more than one entry shares.
    pub chunk: u32,
    /// The most bytes of all entries that are not settled.
    pub total: u64,
    /// How old the first entry of a chunk is when a flush closes it.
    pub interval: u64,
    /// How long a chunk waits after its first loss. The wait doubles with each further one.
    pub retry_wait: u64,
    /// The longest wait.
    pub retry_max: u64,
    ghost bounded: { retry_max < 2 ^ 64 },
    /// The number of the first chunk.
    pub first: u64,
}
