//! A runtime without files.

use std::alloc::{Allocator, Global};
use std::fs::{File, Files, Metadata, OpenOptions};
use std::io;
use std::io::{Error, ErrorKind};
use std::net::{Net, SocketAddr};

/// What gives the sockets and the memory of a runtime, and no file. A relay whose settings have a
/// seed asks for none.
#[derive(Clone, Copy)]
pub struct Sealed<'a, R> {
    rt: &'a R,
}

impl<'a, R> Sealed<'a, R> {
    /// The same runtime without its files.
    pub fn new(rt: &'a R) -> Sealed<'a, R> {
        Sealed { rt }
    }
}

impl<'a, R: AllocGlobal> Alloc for Sealed<'a, R> {
    type A = Global;

    fn alloc(&self) -> Global {
        self.rt.alloc()
    }
}

impl<'a, R: Net> Net for Sealed<'a, R> {
    type Stream = R::Stream;

    type Listener = R::Listener;

    fn bind(&self, addr: SocketAddr) -> io::Result<R::Listener> {
        self.rt.bind(addr)
    }

    fn connect(&self, addr: SocketAddr) -> io::Result<R::Stream> {
        self.rt.connect(addr)
    }
}

/// What each call for a file comes to.
fn refused() -> Error {
    Error::from(ErrorKind::PermissionDenied)
}

impl<'a, R> Files for Sealed<'a, R> {
    type File = File;

    type Dir = File;

    fn open_file(&self, _how: &OpenOptions, _path: &str) -> io::Result<File> {
        Err(refused())
    }

    fn open_dir(&self, _path: &str) -> io::Result<File> {
        Err(refused())
    }

    fn metadata(&self, _path: &str) -> io::Result<Metadata> {
        Err(refused())
    }

    fn symlink_metadata(&self, _path: &str) -> io::Result<Metadata> {
        Err(refused())
    }

    fn copy(&self, _from: &str, _to: &str) -> io::Result<u64> {
        Err(refused())
    }

    fn rename(&self, _from: &str, _to: &str) -> io::Result<()> {
        Err(refused())
    }

    fn remove_file(&self, _path: &str) -> io::Result<()> {
        Err(refused())
    }

    fn create_dir(&self, _path: &str) -> io::Result<()> {
        Err(refused())
    }

    fn remove_dir(&self, _path: &str) -> io::Result<()> {
        Err(refused())
    }

    fn remove_dir_all<B: Allocator>(&self, _alloc: B, _path: &str) -> io::Result<()> {
        Err(refused())
    }
}
