use fwd_chunks::Carried;

/// Why a chunk was not loaded.
#[derive(Clone, Copy, Debug)]
pub enum LoadError {
    /// The session takes no chunk now. This is number 7 of the session faults.
    NotUp,
    /// There is no memory for its frame.
    Memory,
}

/// A chunk that was not loaded, and why.
pub struct LoadFailed {
    pub chunk: Carried,
    pub error: LoadError,
}
