//! How long and how deep a server's reply may be, and how many chunks a session may have.

use fwd_msgpack::Limits;

/// The most bytes of a reply.
pub const REPLY_LIMIT: u32 = 65_536;

/// The most arrays and maps, empty ones included, that may stand one in another.
pub const REPLY_NESTING: u8 = 64;

/// Both limits.
pub const REPLY_LIMITS: Limits = Limits {
    bytes: REPLY_LIMIT,
    depth: REPLY_NESTING,
};

/// The most chunks that a session may have at once. A session makes room for so many when it
/// begins, so that `acked` and `end` take no memory, and finds a chunk by its name without an
/// index.
pub const WINDOW_LIMIT: usize = 8;
