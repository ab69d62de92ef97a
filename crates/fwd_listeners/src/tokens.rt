//! The tokens by which the system tells a reader of all but its connections, whose tokens are their
//! keys.

use mio::Token;

/// What tells that sources wait at the listener.
pub const SOURCES: Token = Token(usize::MAX);

/// What tells that monitors wait at theirs.
pub const MONITORS: Token = Token(usize::MAX - 1);

/// What tells that a worker told something.
pub const WAKER: Token = Token(usize::MAX - 2);

/// What tells that somebody is at the control socket.
pub const CONTROL: Token = Token(usize::MAX - 3);
