//! How runs end.

use anyhow::Result;
use fwd_loop::Platform;
use fwd_program::{Invocation, Log, Progress, run_all};
use std::alloc::Global;
use std::fs::File;
use std::io::{ErrorKind, Write};
use std::net::{Ipv4Addr, Net, SocketAddr, TcpListener, TcpStream};
use std::rt::{Clock, Files};
use std::sync::Wait;
use std::thread::Threads;
use std::{fs, io};

/// What a writer does.
#[derive(Clone, Copy)]
enum Manner {
    /// It takes all, and gives it on when it is flushed.
    Gives,
    /// It takes all, and cannot be flushed.
    Keeps,
    /// It takes nothing.
    IsFull,
}

/// Such a writer.
#[derive(Drop)]
struct Pipe {
    manner: Manner,
    held: Vec<u8>,
    given: Vec<u8>,
}

impl Pipe {
    /// A writer that nothing was written to.
    fn new(alloc: Global, manner: Manner) -> Pipe {
        Pipe {
            manner,
            held: Vec::new(alloc),
            given: Vec::new(alloc),
        }
    }
}

impl Write for Pipe {
    fn write(&mut self, buf: &[u8]) -> io::Result<usize> {
        if self.manner == Manner::IsFull {
            return Err(io::Error::from(ErrorKind::StorageFull));
        }
        self.held.extend_from_slice(buf)?;
        Ok(buf.len())
    }

    fn flush(&mut self) -> io::Result<()> {
        if self.manner == Manner::Keeps {
            return Err(io::Error::from(ErrorKind::Other));
        }
        self.given.extend_from_slice(&self.held)?;
        self.held.clear();
        Ok(())
    }
}

/// A call of the program over a writer.
#[derive(Clone, Copy)]
struct Call {
    words: &'static [&'static str],
    manner: Manner,
}

/// Calls: with settings that are not there, that are refused, and of an address that no machine
/// has, some of them checked too; a run that ends behind its turns; words that ask for no run; and
/// outputs that cannot be flushed, or written.
static CALLS: [Call; 14] = [
    Call {
        words: &["run", "missing.toml", "1"],
        manner: Manner::Gives,
    },
    Call {
        words: &["run", "refused.toml", "1"],
        manner: Manner::Gives,
    },
    Call {
        words: &["check", "refused.toml"],
        manner: Manner::Gives,
    },
    Call {
        words: &["run", "taken.toml", "1"],
        manner: Manner::Gives,
    },
    Call {
        words: &["check", "taken.toml"],
        manner: Manner::Gives,
    },
    Call {
        words: &["run", "good.toml", "1"],
        manner: Manner::Gives,
    },
    Call {
        words: &["run", "good.toml", "01"],
        manner: Manner::Gives,
    },
    Call {
        words: &["run"],
        manner: Manner::Gives,
    },
    Call {
        words: &["version"],
        manner: Manner::IsFull,
    },
    Call {
        words: &["help"],
        manner: Manner::Gives,
    },
    Call {
        words: &["--help"],
        manner: Manner::Keeps,
    },
    Call {
        words: &["help", "run"],
        manner: Manner::Gives,
    },
    Call {
        words: &["run", "good.toml", "1"],
        manner: Manner::Keeps,
    },
    Call {
        words: &["run", "good.toml", "1"],
        manner: Manner::IsFull,
    },
];

impl Call {
    /// Its words as the system gives them, the program's own name before them.
    fn words(self, alloc: Global) -> io::Result<Vec<String>> {
        let mut words = Vec::new(alloc);
        words.push(String::from_str(alloc, "relay")?)?;
        for word in self.words {
            words.push(String::from_str(alloc, word)?)?;
        }
        Ok(words)
    }

    /// Calls the whole program, and says its exit status, what it wrote, and what it told.
    fn say<R: Platform + Files<File = File> + Print>(self, rt: &R) -> Result<()> {
        let alloc = rt.alloc();
        let mut output = Pipe::new(alloc, self.manner);
        let mut errors = Vec::new(alloc);
        let log = Log::Off;
        let progress = Progress::Lines;
        let call = self.words(alloc).map(|words| Invocation {
            words,
            log,
            progress,
        });
        let mut input = b"".as_slice();
        let status = run_all(rt, call, &mut input, &mut output, &mut errors);
        let written = String::from_utf8_lossy(alloc, &output.given)?;
        let told = String::from_utf8_lossy(alloc, &errors)?;
        let words = self.words;
        let _ = println!(rt; "{words:?}: {status} {written:?} {told:?}");
        Ok(())
    }
}

/// A free port of this machine, at a host of its own.
fn free_address<R: Net<Listener = TcpListener, Stream = TcpStream>>(rt: &R) -> Result<SocketAddr> {
    let host = Ipv4Addr::new(127, 0, 0, 78);
    let listener = TcpListener::bind(rt, SocketAddr::from((host, 0)))?;
    Ok(listener.local_addr()?)
}

/// Writes good settings to a file: of a relay at a free port of this machine, to a server that is
/// not there.
fn write_good<R: Net<Listener = TcpListener, Stream = TcpStream> + Files + AllocGlobal>(
    rt: &R,
) -> Result<()> {
    let address = free_address(rt)?;
    let text = format!(in rt.alloc();
        "[relay]\nlisten = \"{address}\"\n[[output]]\nmatch = \"**\"\n\
        [[output.server]]\naddress = \"127.0.0.78:1\"\n"
    )?;
    Ok(fs::write(rt, "good.toml", text.as_str())?)
}

/// Writes the good settings, and makes the calls.
fn try_ends<R: Platform + Files<File = File> + Print>(rt: &R) -> Result<()> {
    write_good(rt)?;
    for call in &CALLS {
        call.say(rt)?;
    }
    Ok(fs::remove_file(rt, "good.toml")?)
}

/// Says how runs end.
pub fn say_ends<
    R: Net<Listener = TcpListener, Stream = TcpStream>
        + Threads
        + Wait
        + Clock
        + Files<File = File>
        + Print
        + AllocGlobal
        + Sync,
>(rt: &R) {
    if let Err(error) = try_ends(rt) {
        let _ = println!(rt; "failed: {error}");
    }
}
