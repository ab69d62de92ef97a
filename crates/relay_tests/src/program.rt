//! The program over its words and streams: what is told where these fail.

ghost use Rattle.std.specs.Io.{WritesAtMost};

use fwd_script::{End, check, run_program, tell};
use std::alloc::Global;
use std::env::{Env, FillError};
use std::io;
use std::io::{ErrorKind, Read, Write};

/// What a run of the program told.
#[derive(Drop)]
struct Outcome {
    code: u8,
    out: Vec<u8>,
    errors: Vec<u8>,
}

impl Outcome {
    fn is(&self, code: u8, out: &[u8], errors: &str) -> bool {
        self.code == code
            && self.out.as_slice() == out
            && self.errors.as_slice() == errors.as_bytes()
    }
}

/// A reader, or a writer, that is interrupted before each call that is good, moves a byte a call,
/// and fails once so many calls were good. What was written is given on by a flush alone.
#[derive(Drop)]
struct Stream<'a> {
    left: &'a [u8],
    held: Vec<u8>,
    given: Vec<u8>,
    good: usize,
    is_interrupted: bool,
    flush_fails: bool,
}

impl<'a> Stream<'a> {
    fn new(alloc: Global, left: &'a [u8], good: usize, flush_fails: bool) -> Self {
        Stream {
            left,
            held: Vec::new(alloc),
            given: Vec::new(alloc),
            good,
            is_interrupted: false,
            flush_fails,
        }
    }

    /// One of the good calls is made, or it fails.
    fn call(&mut self) -> io::Result<()> {
        self.is_interrupted = !self.is_interrupted;
        if self.is_interrupted {
            return Err(io::Error::from(ErrorKind::Interrupted));
        }
        match self.good.checked_sub(1) {
            Some(good) => {
                self.good = good;
                Ok(())
            }
            None => Err(io::Error::from(ErrorKind::Other)),
        }
    }
}

impl Read for Stream<'_> {
    fn read(&mut self, buf: &mut [u8]) -> io::Result<usize> {
        self.call()?;
        match self.left {
            [first, rest @ ..] if !buf.is_empty() => {
                buf[0] = *first;
                self.left = rest;
                Ok(1)
            }
            _ => Ok(0),
        }
    }
}

impl Write for Stream<'_> {
    fn write(&mut self, buf: &[u8]) -> io::Result<usize> {
        self.call()?;
        let count = buf.len().min(1);
        self.held.extend_from_slice(&buf[..count])?;
        Ok(count)
    }

    fn flush(&mut self) -> io::Result<()> {
        if self.flush_fails {
            return Err(io::Error::from(ErrorKind::Other));
        }
        self.given.extend_from_slice(self.held.as_slice())?;
        self.held.clear();
        Ok(())
    }
}

/// How the streams of a run fail: how many reads and writes are good, and whether a flush fails.
#[derive(Clone, Copy)]
struct Fails {
    reads: usize,
    writes: usize,
    flush: bool,
}

const GOOD: Fails = Fails {
    reads: usize::MAX,
    writes: usize::MAX,
    flush: false,
};

/// Words as the system gives them.
fn words(alloc: Global, texts: &[&str]) -> io::Result<Vec<String>> {
    let mut words = Vec::new(alloc);
    for text in texts {
        words.push(String::from_str(alloc, text)?)?;
    }
    Ok(words)
}

/// What a run of the program with these words and this input tells over such streams.
fn ran(rt: &HostRuntime, list: io::Result<Vec<String>>, input: &str, fails: Fails) -> Outcome {
    let alloc = rt.alloc();
    let mut reader = Stream::new(alloc, input.as_bytes(), fails.reads, false);
    let mut writer = Stream::new(alloc, b"", fails.writes, fails.flush);
    let mut errors = Vec::new(alloc);
    let code = run_program(rt, list, &mut reader, &mut writer, &mut errors);
    let Stream { given: out, .. } = writer;
    Outcome { code, out, errors }
}

const USAGE: &str =
    "usage: forward_relay run CONFIG [TURNS] | stop CONFIG [SECONDS] | check CONFIG | replay\n";

/// Words that ask for nothing that this program knows.
const UNKNOWN: &[&[&str]] = &[
    &[],
    &["relay"],
    &["relay", ""],
    &["relay", "Replay"],
    &["relay", "replay", "more"],
    &["relay", "check"],
    &["relay", "check", "one", "two"],
    &["relay", "run"],
    &["replay"],
    &["relay", "--help"],
];

#[test]
fn words_are_known_or_a_usage_fault(rt: HostRuntime) {
    for list in UNKNOWN {
        assert!(rt; ran(&rt, words(rt.alloc(), list), "---\n", GOOD).is(2, b"", USAGE));
    }
    let list = words(rt.alloc(), &["relay", "check", "no such file"]);
    assert!(rt; ran(&rt, list, "", GOOD).is(1, b"", "settings: unreadable\n"));
}

/// Words that could not be had: one is not UTF-8, or memory ran out.
#[test]
fn words_that_are_not_had(rt: HostRuntime) {
    for (kind, code, errors) in [
        (ErrorKind::InvalidData, 2, USAGE),
        (ErrorKind::OutOfMemory, 4, "memory\n"),
    ] {
        let list = Err(io::Error::from(kind));
        assert!(rt; ran(&rt, list, "---\n", GOOD).is(code, b"", errors));
    }
}

/// An environment of one word behind the program's own name, and of no variable.
#[derive(Clone, Copy)]
struct Word<'a> {
    bytes: &'a [u8],
}

/// Bytes at the front of a buffer.
fn fill(bytes: &[u8], buf: &mut [u8]) -> Result<usize, FillError>
    ensures { WritesAtMost result buf.new }
{
    match buf.get_mut(..bytes.len()) {
        Some(front) => {
            front.copy_from_slice(bytes);
            Ok(bytes.len())
        }
        None => Err(FillError::TooLong),
    }
}

impl Env for Word<'_> {
    fn arg(&self, i: usize, buf: &mut [u8]) -> Result<usize, FillError> {
        match i {
            0 => fill(b"relay", buf),
            1 => fill(self.bytes, buf),
            _ => Err(FillError::NotPresent),
        }
    }

    fn var(&self, _name: &str, _buf: &mut [u8]) -> Result<usize, FillError> {
        Err(FillError::NotPresent)
    }

    fn var_at(&self, _i: usize, _buf: &mut [u8]) -> Result<usize, FillError> {
        Err(FillError::NotPresent)
    }
}

#[test]
fn words_are_had_where_each_is_text(rt: HostRuntime) {
    for (bytes, code, out, errors) in [
        (b"replay".as_slice(), 0, b"closed 0\n".as_slice(), ""),
        (b"\xff", 2, b"", USAGE),
    ] {
        let list = fwd_script::words(&(Word { bytes }, rt.alloc()));
        assert!(rt; ran(&rt, list, "---\nflush 0 0 all\n", GOOD).is(code, out, errors));
    }
}

const TWO_LINES: &str = "---\nflush 0 0 all\nflush 0 0 due\n";

/// The same with a bad line behind them.
const AND_BAD: &str = "---\nflush 0 0 all\nflush 0 0 due\nx\n";

const BOTH: &[u8] = b"closed 0\nclosed 0\n";

const BAD_LINE: &str = "line 4: bad event\n";

/// What a replay of a script over such streams tells.
fn replayed(rt: &HostRuntime, script: &str, fails: Fails) -> Outcome {
    ran(rt, words(rt.alloc(), &["relay", "replay"]), script, fails)
}

const UNREAD: Fails = Fails {
    reads: TWO_LINES.len(),
    ..GOOD
};

const JUST_FITS: Fails = Fails {
    writes: BOTH.len(),
    ..GOOD
};

const UNFLUSHED: Fails = Fails {
    flush: true,
    ..GOOD
};

/// Scripts, how their streams fail, and what is told. A bad line is told where the answers before
/// it fit, and else the failed write.
const ENDS: &[(&str, Fails, u8, &[u8], &str)] = &[
    (TWO_LINES, GOOD, 0, BOTH, ""),
    (AND_BAD, GOOD, 3, BOTH, BAD_LINE),
    ("x\n---\nx\n", GOOD, 1, b"", "settings: not toml\n"),
    (TWO_LINES, UNREAD, 5, b"", "input\n"),
    (AND_BAD, JUST_FITS, 3, BOTH, BAD_LINE),
    (TWO_LINES, UNFLUSHED, 5, b"", "output\n"),
    (AND_BAD, UNFLUSHED, 5, b"", "output\n"),
    ("---\n", UNFLUSHED, 5, b"", "output\n"),
];

#[test]
fn each_end_has_its_status_and_text(rt: HostRuntime) {
    for (script, fails, code, out, errors) in ENDS {
        assert!(rt;
            replayed(&rt, script, *fails).is(*code, out, errors),
            "{script}"
        );
    }
}

/// A read or a write that fails at once, or behind good ones, is told. What was written before is a
/// front of all that would have been.
#[test]
fn a_stream_that_fails_is_told(rt: HostRuntime) {
    for good in 0..BOTH.len() {
        let read = replayed(
            &rt,
            TWO_LINES,
            Fails {
                reads: good,
                ..GOOD
            },
        );
        assert!(rt; read.is(5, b"", "input\n"), "{good}");
        let written = replayed(
            &rt,
            AND_BAD,
            Fails {
                writes: good,
                ..GOOD
            },
        );
        assert!(rt; written.is(5, &BOTH[..good], "output\n"), "{good}");
    }
}

/// Good settings of one output.
const SETTINGS: &str = "[[output]]\nmatch = \"a\"\n[[output.server]]\naddress = \"1.2.3.4:5\"\n";

const GOOD_LINE: &[u8] = b"settings are good, outputs: 1\n";

/// What a check of the good settings tells over such streams.
fn checked(alloc: Global, fails: Fails) -> Outcome {
    let mut reader = Stream::new(alloc, SETTINGS.as_bytes(), fails.reads, false);
    let mut writer = Stream::new(alloc, b"", fails.writes, fails.flush);
    let mut errors = Vec::new(alloc);
    let end = End::Ran(check(alloc, &mut reader, &mut writer));
    let _told = tell(&mut errors, &end);
    let Stream { given: out, .. } = writer;
    let code = end.exit_code();
    Outcome { code, out, errors }
}

const CHECKS: &[(Fails, u8, &[u8], &str)] = &[
    (GOOD, 0, GOOD_LINE, ""),
    (
        Fails {
            reads: SETTINGS.len(),
            ..GOOD
        },
        1,
        b"",
        "settings: unreadable\n",
    ),
    (Fails { writes: 7, ..GOOD }, 5, b"setting", "output\n"),
    (UNFLUSHED, 5, b"", "output\n"),
];

#[test]
fn a_check_that_fails_is_told(rt: HostRuntime) {
    for (fails, code, out, errors) in CHECKS {
        assert!(rt;
            checked(rt.alloc(), *fails).is(*code, out, errors),
            "{code}"
        );
    }
}
