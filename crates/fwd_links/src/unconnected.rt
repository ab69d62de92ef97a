//! Why no connection to a server could be had, as the system says it.

use crate::system_limits::{lacks_descriptors, lacks_memory};
use fwd_environment::LinkFault;
use std::io::{Error, ErrorKind};

/// The system knows no way to the server's network (Linux's ENETUNREACH).
const NETWORK: i32 = 101;

/// Nothing came back in the system's own time (Linux's ETIMEDOUT).
const TIME: i32 = 110;

/// Nobody listens there, or a firewall says so (Linux's ECONNREFUSED).
const REFUSED: i32 = 111;

/// The system knows no way to the server, or nobody has its address (Linux's EHOSTUNREACH).
const HOST: i32 = 113;

/// Why a link could not be had, by the error of its socket.
pub(crate) fn unconnected(error: &Error) -> LinkFault {
    if lacks_descriptors(error) {
        return LinkFault::Descriptors;
    }
    if lacks_memory(error) {
        return LinkFault::Memory;
    }
    if error.kind() == ErrorKind::TimedOut {
        return LinkFault::Unanswered;
    }
    match error.raw_os_error() {
        Some(REFUSED) => LinkFault::Refused,
        Some(TIME) => LinkFault::Unanswered,
        Some(NETWORK | HOST) => LinkFault::Unreachable,
        _ => LinkFault::Connect,
    }
}
