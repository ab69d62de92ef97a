/// The most headers that a monitor's request may have.
pub const MAX_HEADERS: usize = 64;

/// How many bytes without a whole head are too many.
pub const HEAD_LIMIT: usize = 8192;

/// The most tags that have samples of their own on the metrics page.
pub const MAX_TAGS: usize = 1000;
