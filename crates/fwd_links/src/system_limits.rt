//! What the system says where it has nothing left for a socket.

use std::io::{Error, ErrorKind};

/// The process has as many open files as it may have (Linux's EMFILE).
const PROCESS: i32 = 24;

/// The system has as many open files as it may have (Linux's ENFILE).
const SYSTEM: i32 = 23;

/// The system has no memory for a socket's buffers (Linux's ENOBUFS).
const BUFFERS: i32 = 105;

/// Whether an error of a socket says that no descriptor is left for it.
pub fn lacks_descriptors(error: &Error) -> bool {
    match error.raw_os_error() {
        Some(code) => code == PROCESS || code == SYSTEM,
        None => false,
    }
}

/// Whether an error of a socket says that no memory is left for it.
pub(crate) fn lacks_memory(error: &Error) -> bool {
    error.kind() == ErrorKind::OutOfMemory || error.raw_os_error() == Some(BUFFERS)
}
