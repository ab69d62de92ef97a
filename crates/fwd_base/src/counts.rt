/// What an output has to do with: its entries, in numbers, their bytes, and its chunks.
#[derive(Clone, Copy, Debug, PartialEq, Eq)]
pub struct Counts {
    /// The entries ever accepted.
    pub accepted: u64,
    /// The entries that are settled.
    pub settled: u64,
    /// The entries that are not settled.
    pub held: u64,
    /// The bytes of the entries that are not settled.
    pub bytes: u64,
    /// The chunks that have such entries.
    pub chunks: u64,
}
