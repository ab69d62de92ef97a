//! The limits of a request. Clauses, definitions and code name these constants: a constant of a
//! type would have no name in definitions.

/// The most bytes of a tag.
pub const TAG_LIMIT: usize = 1024;

/// The most bytes of the text of a request's `chunk`, which its head of at most five bytes comes
/// before.
pub const CHUNK_LIMIT: usize = 256;
