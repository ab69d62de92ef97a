//! What a run says on standard error. A line takes no memory, so that want of memory can be said.

use crate::ending::RunEnd;
use crate::journal_line::{JournalLine, Subject};
use crate::line_limits::{LeftOut, LineLimits};
use arrayvec::ArrayString;
use fwd_listeners::Ending;
use fwd_monitor::{Figures, VERSION};
use fwd_monitors::{JournalEvent, Observer};
use jiff::Timestamp;
use std::env::Env;
use std::fmt::Write as _;
use std::io::Write;
use std::rt::Clock;
use std::{env, fmt};

/// The variable of the environment that has a run say what it comes to. Without it the journal is
/// silent, since programs read the texts that come on standard error.
const VARIABLE: &str = "FORWARD_RELAY_LOG";

/// The most bytes of a line but the first, with its line feed: the longest has 24 of time, 15 of
/// its kind, 130 of a tag or a reason, 112 of a path, and below 100 of numbers and names.
const LINE: usize = 400;

/// Whether a run says what it comes to.
#[derive(Clone, Copy, Debug)]
pub enum Log {
    /// It says nothing.
    Off,
    /// It says each event, on a line.
    Info,
}

/// What the environment asks for: `Info` where `FORWARD_RELAY_LOG` is `info`.
pub fn asked_log<R: Env + AllocGlobal>(rt: &R) -> Log {
    match env::var(rt, VARIABLE) {
        Ok(word) if word.as_str() == "info" => Log::Info,
        _ => Log::Off,
    }
}

/// Says events, each on a line behind the time in UTC: of one subject at most ten in a second of
/// the clock, and in a later one how many were left out. It takes no memory. A line that cannot be
/// written is left out, and told as that as soon as a line can be written. Where the clock cannot
/// be read it stands, at first at 1970.
#[derive(Drop)]
pub struct Journal<'a, R: Clock, E: Write> {
    clock: &'a R,
    errors: &'a mut E,
    now: Timestamp,
    limits: LineLimits,
    /// How many lines could not be written since that was told last.
    unwritten: u64,
    /// How many lines were left out, and events could not be told, since it began.
    left_out: u64,
    /// The second in which writing was tried last.
    tried: i64,
    /// What runs was said.
    is_begun: bool,
}

impl<'a, R: Clock, E: Write> Journal<'a, R, E> {
    /// Says events by this clock, on these errors.
    pub fn new(clock: &'a R, errors: &'a mut E) -> Self {
        Journal {
            clock,
            errors,
            now: Timestamp::UNIX_EPOCH,
            limits: LineLimits::new(),
            unwritten: 0,
            left_out: 0,
            tried: 0,
            is_begun: false,
        }
    }

    /// Reads the clock.
    fn look(&mut self) {
        if let Ok(now) = Timestamp::now(self.clock) {
            self.now = now;
        }
    }

    /// Writes a line: whether it could be.
    fn write<T: fmt::Display>(&mut self, text: &T) -> bool {
        let mut line: ArrayString<LINE> = ArrayString::new();
        let now = self.now;
        self.tried = now.as_second();
        write!(line, "{now:.3} {text}\n").is_ok()
            && self.errors.write_all(line.as_str().as_bytes()).is_ok()
    }

    /// Tells how many lines could not be written, if any: whether none is left to tell of.
    fn settle_unwritten(&mut self) -> bool {
        let count = self.unwritten;
        if count > 0 && self.write(&Unwritten { count }) {
            self.unwritten = 0;
        }
        self.unwritten == 0
    }

    /// Says a line that stands for so many, behind how many could not be written before it: whether
    /// it could be written.
    fn say<T: fmt::Display>(&mut self, text: &T, lines: u64) -> bool {
        let is_said = self.settle_unwritten() && self.write(text);
        if !is_said {
            self.unwritten = self.unwritten.saturating_add(lines);
        }
        is_said
    }

    /// Says how many lines were left out, by what they were about, if any were: in a second that is
    /// over, or where the run is over in any.
    fn settle(&mut self, second: Option<i64>) {
        for _ in 0..u16::MAX {
            let Some(left_out) = self.limits.owed(second) else {
                return;
            };
            let _ = self.say(&left_out, left_out.count);
        }
    }

    /// Whether there is nothing to tell beside events.
    fn is_quiet(&self) -> bool {
        self.unwritten == 0 && self.limits.is_clear()
    }

    /// Says how many lines were left out, if any were: the run is over.
    pub fn close(&mut self) {
        self.look();
        self.settle(None);
        self.settle_unwritten();
    }

    /// Says what runs: the program by the settings in a file, with so many outputs. It is the first
    /// line, of any length.
    pub fn begin(&mut self, path: &str, outputs: usize) {
        self.is_begun = true;
        self.look();
        let now = self.now;
        let begun = Begun { path, outputs };
        let _ = writeln!(self.errors, "{now:.3} {begun}");
    }

    /// Says why it runs no more, if it was said that it does.
    pub fn end(&mut self, ran: &Result<Ending, RunEnd>) {
        if self.is_begun {
            self.look();
            let _ = self.say(&Stopped { ran }, 1);
        }
    }
}

impl<'a, R: Clock, E: Write> Observer for Journal<'a, R, E> {
    fn observe(&mut self, event: JournalEvent) {
        self.look();
        let second = self.now.as_second();
        self.settle(Some(second));
        let is_said = self.limits.takes(Subject::of(&event), second)
            && self.say(&JournalLine { event }, 1);
        let lost = match event {
            JournalEvent::LeftOut(count) => count,
            _ => 0,
        };
        let left_out = lost.saturating_add(u64::from(!is_said));
        self.left_out = self.left_out.saturating_add(left_out);
    }

    fn complete(&mut self, figures: Figures) -> Figures {
        Figures {
            left_out: self.left_out,
            ..figures
        }
    }

    fn turned(&mut self) {
        if self.is_quiet() {
            return;
        }
        self.look();
        let second = self.now.as_second();
        self.settle(Some(second));
        if self.tried != second {
            self.settle_unwritten();
        }
    }
}

/// What runs: the program by the settings in a file, with so many outputs.
#[derive(Clone, Copy)]
struct Begun<'a> {
    path: &'a str,
    outputs: usize,
}

impl fmt::Display for Begun<'_> {
    fn fmt<W: fmt::Write>(&self, f: &mut fmt::Formatter<W>) -> fmt::Result {
        let Begun { path, outputs } = self;
        write!(
            f,
            "started: forward_relay {VERSION} settings {path} outputs {outputs}"
        )
    }
}

/// Why it runs no more.
#[derive(Clone, Copy)]
struct Stopped<'a> {
    ran: &'a Result<Ending, RunEnd>,
}

impl fmt::Display for Stopped<'_> {
    fn fmt<W: fmt::Write>(&self, f: &mut fmt::Formatter<W>) -> fmt::Result {
        match self.ran {
            Ok(Ending::Turns) => f.write_str("stopped: all turns are made"),
            Ok(Ending::Delivered) => f.write_str("stopped: all is delivered"),
            Ok(Ending::Left(left)) => write!(f, "stopped: {left}"),
            Err(end) => write!(f, "stopped: {end}"),
        }
    }
}

/// How many lines could not be written.
#[derive(Clone, Copy)]
struct Unwritten {
    count: u64,
}

impl fmt::Display for Unwritten {
    fn fmt<W: fmt::Write>(&self, f: &mut fmt::Formatter<W>) -> fmt::Result {
        let Unwritten { count } = self;
        write!(f, "journal: {count} left out")
    }
}

impl fmt::Display for LeftOut {
    fn fmt<W: fmt::Write>(&self, f: &mut fmt::Formatter<W>) -> fmt::Result {
        let LeftOut { subject, count } = self;
        write!(f, "{subject}, {count} left out")
    }
}
