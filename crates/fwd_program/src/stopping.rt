//! A call that has a relay stop: it asks over the relay's control socket, and shows what the relay
//! answers until the relay has ended.

ghost use Rattle.std.specs.Prelude.{◌≡◌};
ghost use Rattle.fwd_program.specs.Stops.{stop_code};

use crate::asked_stop::StopCall;
use arrayvec::ArrayString;
use fwd_base::Text;
use fwd_check::{SettingsFile, say, say_refused};
use fwd_loop::{ControlAnswer, Left};
use fwd_script::Status;
use fwd_settings::{RelaySettings, Settings, SettingsFault};
use std::alloc::Global;
use std::io::{ErrorKind, Read, Write};
use std::net::Net;
use std::os::unix::net::UnixStream;
use std::rt::{Clock, Files};
use std::time::Duration;
use std::{fmt, io, thread};

/// How often the relay is asked to take a connection whose queue of connections is full, and how
/// long the call waits before each further time, in milliseconds: 10 s in all.
const TRIES: u32 = 100;

const PAUSE: u64 = 100;

/// How long the relay may say nothing, in seconds. It says something each second.
const SILENCE: u64 = 30;

/// The most bytes of a line that the relay sends.
const LINE: usize = 160;

/// How a call ended that has a relay stop.
#[derive(Drop)]
pub enum StopEnd {
    /// All is delivered, where it is `Done`. Else the settings are refused, memory is, or a write.
    Ran(Status),
    /// The time was over, and this is left.
    Left(Left),
    /// No relay answers, or it ended before it had answered.
    Unanswered,
}

impl StopEnd {
    /// The exit status.
    pub fn exit_code(&self) -> u8
        ensures { result ≡ stop_code self.now }
    {
        match self {
            StopEnd::Ran(status) => status.exit_code(),
            StopEnd::Left(_) => 6,
            StopEnd::Unanswered => 4,
        }
    }
}

impl From<SettingsFault> for StopEnd {
    fn from(fault: SettingsFault) -> StopEnd {
        StopEnd::Ran(Status::from(fault))
    }
}

/// What is told on standard error, without its line feed: nothing where all is delivered.
impl fmt::Display for StopEnd {
    fn fmt<W: fmt::Write>(&self, f: &mut fmt::Formatter<W>) -> fmt::Result {
        match self {
            StopEnd::Ran(status) => write!(f, "{status}"),
            StopEnd::Left(left) => write!(f, "{left}"),
            StopEnd::Unanswered => f.write_str("stop: no answer"),
        }
    }
}

/// Why a relay does not answer.
#[derive(Drop)]
enum Silence {
    /// It takes no connection.
    Untaken,
    /// It took one, and says nothing.
    Mute,
    /// What the system says.
    Failed(io::Error),
}

impl From<io::Error> for Silence {
    fn from(error: io::Error) -> Silence {
        Silence::Failed(error)
    }
}

impl fmt::Display for Silence {
    fn fmt<W: fmt::Write>(&self, f: &mut fmt::Formatter<W>) -> fmt::Result {
        match self {
            Silence::Untaken => f.write_str("the relay took no connection within 10 s"),
            Silence::Mute => write!(f, "the relay said nothing for {SILENCE} s"),
            Silence::Failed(error) => write!(f, "{error}"),
        }
    }
}

/// Why the relay at a path does not answer.
#[derive(Clone, Copy)]
struct NoAnswer<'a> {
    path: &'a str,
    why: &'a Silence,
}

impl fmt::Display for NoAnswer<'_> {
    fn fmt<W: fmt::Write>(&self, f: &mut fmt::Formatter<W>) -> fmt::Result {
        let NoAnswer { path, why } = self;
        write!(f, "stop: {path}: {why}")
    }
}

/// How what the relay answers is shown.
#[derive(Clone, Copy)]
pub enum Progress {
    /// Each answer on a line of its own.
    Lines,
    /// Each in the place of the one before.
    InPlace,
}

/// What a relay is asked, and where.
#[derive(Drop)]
struct Request {
    /// The control socket's path.
    path: Text,
    /// How long the relay is given, in milliseconds.
    wait: u64,
}

/// The settings in a file. It says why they are refused.
fn settings_at<E: Write>(
    alloc: Global,
    file: &SettingsFile<'_>,
    errors: &mut E,
) -> Result<Settings, StopEnd> {
    let found = file.settings(alloc);
    if let Err(fault) = &found {
        say_refused(alloc, file, fault, errors);
    }
    Ok(found?)
}

/// How a call ends whose settings name no control socket, which it says.
fn without_control<E: Write>(alloc: Global, file: &SettingsFile<'_>, errors: &mut E) -> StopEnd {
    let fault = match Text::from_str(alloc, "relay.control") {
        Ok(key) => SettingsFault::Missing(key),
        Err(_) => SettingsFault::Memory,
    };
    say_refused(alloc, file, &fault, errors);
    StopEnd::from(fault)
}

/// Where a relay is asked to stop, and how long it has then (milliseconds).
struct ControlTerms {
    path: Option<Text>,
    stop_wait: u64,
}

/// Those of these settings.
fn terms_of(settings: Settings) -> ControlTerms {
    let Settings { relay, outputs: _ } = settings;
    let RelaySettings {
        control,
        stop_wait,
        ..
    } = relay;
    ControlTerms {
        path: control,
        stop_wait,
    }
}

/// What the relay of the settings in a file is asked.
fn request_of<R: Files + AllocGlobal, E: Write>(
    rt: &R,
    call: StopCall<'_>,
    errors: &mut E,
) -> Result<Request, StopEnd> {
    let file = SettingsFile::read(rt, call.path);
    let ControlTerms { path, stop_wait } = terms_of(settings_at(rt.alloc(), &file, errors)?);
    let wait = match call.seconds {
        Some(seconds) => seconds.saturating_mul(1_000),
        None => stop_wait,
    };
    match path {
        Some(path) => Ok(Request { path, wait }),
        None => Err(without_control(rt.alloc(), &file, errors)),
    }
}

/// Connects to a relay. One that hangs takes no connection, and once its queue of connections is
/// full a blocking call would wait for ever.
fn connect<R: Net + Clock>(rt: &R, path: &str) -> Result<UnixStream, Silence> {
    for _ in 0..TRIES {
        match mio::net::UnixStream::connect(rt, path) {
            Ok(stream) => return Ok(UnixStream::from(stream)),
            Err(error) if error.kind() == ErrorKind::WouldBlock => {
                thread::sleep(rt, Duration::from_millis(PAUSE));
            }
            Err(error) => return Err(Silence::Failed(error)),
        }
    }
    Err(Silence::Untaken)
}

/// Asks a relay to stop. What it answers comes over this stream.
fn ask<R: Net + Clock>(rt: &R, request: &Request) -> Result<UnixStream, Silence> {
    let mut stream = connect(rt, request.path.as_str())?;
    stream.set_nonblocking(false)?;
    stream.set_read_timeout(Some(Duration::from_secs(SILENCE)))?;
    stream.set_write_timeout(Some(Duration::from_secs(SILENCE)))?;
    let wait = request.wait;
    let mut line: ArrayString<LINE> = ArrayString::new();
    let _ = fmt::Write::write_fmt(&mut line, format_args!("stop {wait}\n"));
    stream.write_all(line.as_str().as_bytes())?;
    Ok(stream)
}

/// Shows what a relay answers.
#[derive(Drop)]
struct Show<'a, W: Write> {
    output: &'a mut W,
    progress: Progress,
    /// The line that comes, so far.
    line: ArrayString<LINE>,
    /// What it answered last.
    last: Option<ControlAnswer>,
}

impl<'a, W: Write> Show<'a, W> {
    /// Takes bytes that a relay sent.
    fn take(&mut self, bytes: &[u8]) {
        for byte in bytes {
            match *byte {
                b'\n' => self.end_line(),
                byte => {
                    let _ = self.line.try_push(char::from(byte));
                }
            }
        }
    }

    /// The line that came is over. One that is no answer is passed over.
    fn end_line(&mut self) {
        if let Some(answer) = ControlAnswer::read(self.line.as_str()) {
            self.last = Some(answer);
            // The relay stops whether it is shown or not.
            let _ = self.write(answer);
        }
        self.line.clear();
    }

    /// Shows an answer: the last one is not of what is held, and stays.
    fn write(&mut self, answer: ControlAnswer) -> io::Result<()> {
        let is_last = !matches!(answer, ControlAnswer::Holds { .. });
        match self.progress {
            Progress::Lines => writeln!(self.output, "{answer}")?,
            Progress::InPlace if is_last => writeln!(self.output, "\r\u{1b}[K{answer}")?,
            Progress::InPlace => write!(self.output, "\r\u{1b}[K{answer}")?,
        }
        self.output.flush()
    }

    /// How a call ended whose relay has ended, too.
    fn end(self) -> StopEnd {
        match self.last {
            Some(ControlAnswer::Delivered) => StopEnd::Ran(Status::Done),
            Some(ControlAnswer::Left(left)) => StopEnd::Left(left),
            _ => StopEnd::Unanswered,
        }
    }
}

/// Shows what a relay answers over a stream until it has ended, or has said nothing for long.
fn watch<W: Write>(stream: &mut UnixStream, show: &mut Show<'_, W>) -> Result<(), Silence> {
    let mut room = [0; LINE];
    for _ in 0..u64::MAX {
        match stream.read(&mut room) {
            Ok(0) => break,
            Ok(count) => show.take(room.get(..count).unwrap_or(&[])),
            Err(error) => match error.kind() {
                ErrorKind::Interrupted => {}
                ErrorKind::WouldBlock => return Err(Silence::Mute),
                _ => return Err(Silence::Failed(error)),
            },
        }
    }
    Ok(())
}

/// Asks a relay to stop, and shows what it answers until it has ended: how the call ended, and why
/// the relay was silent in the end, if it was.
fn ask_and_watch<R: Net + Clock, W: Write>(
    rt: &R,
    request: &Request,
    progress: Progress,
    output: &mut W,
) -> (StopEnd, Result<(), Silence>) {
    let mut stream = match ask(rt, request) {
        Ok(stream) => stream,
        Err(silence) => return (StopEnd::Unanswered, Err(silence)),
    };
    let mut show = Show {
        output,
        progress,
        line: ArrayString::new(),
        last: None,
    };
    let watched = watch(&mut stream, &mut show);
    (show.end(), watched)
}

/// Has the relay of the settings in a file stop, and shows what it answers until it has ended. It
/// ends with `Ran(Done)` where all is delivered, and with `Left` where its time was over before. A
/// file that cannot be read, refused settings and settings without a control socket are
/// `Ran(BadSettings)`; where no relay answers it is `Unanswered`. The errors say why.
pub(crate) fn stop_relay<R: Net + Clock + Files + AllocGlobal, W: Write, E: Write>(
    rt: &R,
    call: StopCall<'_>,
    progress: Progress,
    output: &mut W,
    errors: &mut E,
) -> StopEnd {
    let request = match request_of(rt, call, errors) {
        Ok(request) => request,
        Err(end) => return end,
    };
    let (end, watched) = ask_and_watch(rt, &request, progress, output);
    if let (StopEnd::Unanswered, Err(why)) = (&end, &watched) {
        let path = request.path.as_str();
        say(errors, &NoAnswer { path, why });
    }
    end
}
