//! The files of Unix sockets, which stay where the process that made one has ended.
//!
//! Whether a path is free is one question, and to take it another call: so whoever takes a path, or
//! frees it, locks it, by a file beside it that is there no longer than that.

use arrayvec::ArrayString;
use fwd_peers::SocketPath;
use fwd_settings::ranges::CONTROL_MAX;
use mio::net::{UnixListener, UnixStream};
use std::fmt::Write as _;
use std::fs::{File, OpenOptions, TryLockError};
use std::io::ErrorKind;
use std::net::Net;
use std::os::unix::fs::{FileTypeExt, MetadataExt, OpenOptionsExt};
use std::rt::Files;
use std::{fs, io};

/// What the name of a lock has behind the path.
const LOCK: &str = ".lock";

/// The most bytes of a lock's path.
const LOCK_PATH: usize = CONTROL_MAX + 5;

/// Linux's number of the error that an address is in use.
const IN_USE: i32 = 98;

/// The file of a socket at which this process listened. Its path may name another file by now.
#[derive(Clone, Copy)]
pub struct SocketFile {
    path: SocketPath,
    device: u64,
    inode: u64,
}

impl SocketFile {
    /// The file that is at a path now.
    fn at<R: Files>(rt: &R, path: SocketPath) -> io::Result<SocketFile> {
        let found = fs::symlink_metadata(rt, path.as_str())?;
        Ok(SocketFile {
            path,
            device: found.dev(),
            inode: found.ino(),
        })
    }

    /// Whether its path still names it.
    fn is_there<R: Files>(self, rt: &R) -> bool {
        match SocketFile::at(rt, self.path) {
            Ok(now) => now.device == self.device && now.inode == self.inode,
            Err(_) => false,
        }
    }
}

/// The error that an address is in use.
fn in_use() -> io::Error {
    io::Error::from_raw_os_error(IN_USE)
}

/// A path that nobody else takes or frees meanwhile.
#[derive(Drop)]
struct PathLock {
    /// The file beside it, which is locked.
    file: File,
    path: ArrayString<LOCK_PATH>,
}

impl PathLock {
    /// Locks a path. Where another process has it locked the path is in use.
    fn take<R: Files<File = File>>(rt: &R, path: SocketPath) -> io::Result<PathLock> {
        let mut beside = ArrayString::new();
        let path = path.as_str();
        if write!(beside, "{path}{LOCK}").is_err() {
            return Err(io::Error::from(ErrorKind::InvalidInput));
        }
        let file = lock_file(rt, beside.as_str())?;
        if is_locked(&file) || !is_at(rt, &file, beside.as_str()) {
            return Err(in_use());
        }
        Ok(PathLock { file, path: beside })
    }

    /// Gives it back: the file goes first, while it is locked.
    fn release<R: Files>(self, rt: &R) {
        let PathLock { file, path } = self;
        let _ = fs::remove_file(rt, path.as_str());
        drop(file);
    }
}

/// The file of a lock, which a process that was killed may have left. No link is followed where it
/// is made.
fn lock_file<R: Files<File = File>>(rt: &R, path: &str) -> io::Result<File> {
    let mut options = OpenOptions::new();
    options.write(true).mode(0o600).create_new(true);
    match options.open(rt, path) {
        Err(error) if error.kind() == ErrorKind::AlreadyExists => {
            options.create_new(false);
            options.open(rt, path)
        }
        made => made,
    }
}

/// Whether another process has a file locked. If not this one has, unless its file system has no
/// locks.
fn is_locked(file: &File) -> bool {
    matches!(file.try_lock(), Err(TryLockError::WouldBlock))
}

/// Whether a path still names an open file: else who had it locked removed it.
fn is_at<R: Files>(rt: &R, file: &File, path: &str) -> bool {
    match (file.metadata(), fs::symlink_metadata(rt, path)) {
        (Ok(file), Ok(found)) => file.dev() == found.dev() && file.ino() == found.ino(),
        _ => false,
    }
}

/// Makes room at a path that is locked, and says whether there is some: a socket at which nobody
/// answers is removed, and nothing else.
fn make_room<R: Net + Files>(rt: &R, path: &str) -> bool {
    let Ok(found) = fs::symlink_metadata(rt, path) else {
        return true;
    };
    if !found.file_type().is_socket() {
        return false;
    }
    match UnixStream::connect(rt, path) {
        Err(error) if error.kind() == ErrorKind::ConnectionRefused => {
            fs::remove_file(rt, path).is_ok()
        }
        _ => false,
    }
}

/// Listens at a path that is locked.
fn listen_locked<R: Net + Files>(
    rt: &R,
    path: SocketPath,
) -> io::Result<(UnixListener, SocketFile)> {
    if !make_room(rt, path.as_str()) {
        return Err(in_use());
    }
    let listener = UnixListener::bind(rt, path.as_str())?;
    let file = SocketFile::at(rt, path)?;
    Ok((listener, file))
}

/// Listens at a path, where a socket that an earlier process left is replaced. The path is in use
/// if somebody answers there, if it is no socket, or if another process is taking it.
pub fn listen_at<R: Net + Files<File = File>>(
    rt: &R,
    path: SocketPath,
) -> io::Result<(UnixListener, SocketFile)> {
    let lock = PathLock::take(rt, path)?;
    let listening = listen_locked(rt, path);
    lock.release(rt);
    listening
}

/// Removes the file of a socket that is closed, unless its path names another by now, or another
/// process is taking it.
pub fn remove_socket<R: Net + Files<File = File>>(rt: &R, file: SocketFile) {
    let Ok(lock) = PathLock::take(rt, file.path) else {
        return;
    };
    if file.is_there(rt) {
        make_room(rt, file.path.as_str());
    }
    lock.release(rt);
}
