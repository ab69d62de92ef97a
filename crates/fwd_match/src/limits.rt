/// The most words that a pattern may stand for.
pub const WORD_LIMIT: usize = 64;
