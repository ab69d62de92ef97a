//! Requests of several sources to a relay with two primaries and a standby: one at a time, or with
//! several under way while primaries die and come back.

use crate::peer_connection::{Came, PeerConnection};
use crate::polled_server::{Mood, PolledServer};
use crate::record::{Record, TOLD_LEN};
use crate::scene_run::SceneRun;
use crate::transcript::Transcript;
use anyhow::{Result, anyhow};
use std::net::{Net, TcpListener, TcpStream};
use std::rt::Clock;
use std::thread;
use std::time::{Duration, Instant};

/// How many turns are made at most, and how long is waited behind each, in milliseconds.
const TURNS: u32 = 6_000;

const PAUSE: u64 = 2;

/// How long a request takes at most where requests come one at a time, in milliseconds: twice what
/// was lost first waits.
const SOON: u64 = 2_000;

/// How many requests may be late because the machine is busy. A relay that is late is it each time.
const LATE: u32 = 4;

/// How many sources there are where several requests are under way. Each sends one now, in so many
/// turns again, and on while no more than the most requests are owed.
const SOURCES: usize = 4;

const BEAT: u32 = 10;

const MOST: usize = 12;

/// How many chunks are acknowledged before a primary dies, and elsewhere before it comes back.
const FEW: u32 = 3;

/// How far a play with deaths came.
#[derive(Clone, Copy)]
enum Course {
    /// All are well.
    Begins,
    /// The next frame is the last one of its primary.
    Doomed,
    /// A primary is gone, or both are.
    Down,
    /// They came back.
    Back,
    /// One that died serves again, and the standby is left.
    Over,
}

/// The sources and the servers.
#[derive(Drop)]
struct Traffic {
    sources: Vec<PeerConnection>,
    first: PolledServer,
    second: PolledServer,
    third: PolledServer,
    record: Record,
    course: Course,
    /// Whether the second primary dies with the first.
    both: bool,
}

/// So many sources.
fn sources_of<R: Net<Listener = TcpListener, Stream = TcpStream>>(
    rt: &R,
    stage: &SceneRun,
    count: usize,
) -> Result<Vec<PeerConnection>> {
    let mut sources = Vec::new(stage.alloc);
    for _ in 0..count {
        let stream = TcpStream::connect(rt, stage.site.sources)?;
        sources.push(PeerConnection::polled(stage.alloc, stream)?)?;
    }
    Ok(sources)
}

/// A source hears what it is told.
fn hear(source: &mut PeerConnection, record: &mut Record) {
    match source.read() {
        Ok(Came::Bytes | Came::Nothing) => {}
        _ => record.fail("a source is closed"),
    }
    if source.bytes.len() % TOLD_LEN == 0 {
        record.told(&source.bytes);
        source.bytes.clear();
    }
}

impl Traffic {
    /// So many sources, and the stage's servers in these moods, before any request.
    fn new<R: Net<Listener = TcpListener, Stream = TcpStream>>(
        rt: &R,
        stage: &mut SceneRun,
        count: usize,
        moods: [Mood; 3],
    ) -> Result<Traffic> {
        let [first, second, third] = moods;
        Ok(Traffic {
            sources: sources_of(rt, stage, count)?,
            third: PolledServer::new(stage.alloc, stage.servers.pop(), third),
            second: PolledServer::new(stage.alloc, stage.servers.pop(), second),
            first: PolledServer::new(stage.alloc, stage.servers.pop(), first),
            record: Record::new(stage.alloc),
            course: Course::Begins,
            both: false,
        })
    }

    /// Each source sends a request.
    fn send(&mut self) {
        for source in &self.sources {
            if source.send(&self.record.next()).is_err() {
                self.record.fail("a source is closed");
            }
        }
    }

    /// All servers and sources look what came, and a while passes.
    fn turn<R: Clock>(&mut self, rt: &R) {
        self.first.turn(&mut self.record);
        self.second.turn(&mut self.record);
        self.third.turn(&mut self.record);
        for source in &mut self.sources {
            hear(source, &mut self.record);
        }
        thread::sleep(rt, Duration::from_millis(PAUSE));
    }

    /// Turns until all requests are told, or something went wrong.
    fn settle<R: Clock>(&mut self, rt: &R) -> Result<()> {
        for _ in 0..TURNS {
            if self.record.owed() == 0 || self.record.fault.is_some() {
                break;
            }
            self.turn(rt);
        }
        match self.record.fault {
            Some(fault) => Err(anyhow!("{fault}")),
            None if self.record.owed() > 0 => Err(anyhow!("not all requests are told")),
            None => Ok(()),
        }
    }

    /// Sends requests, one behind the other, until one is told soon: whether one is.
    fn ask<R: Clock>(&mut self, rt: &R) -> Result<bool> {
        for _ in 0..LATE {
            let start = Instant::now(rt)?;
            self.send();
            self.settle(rt)?;
            if start.elapsed(rt)? < Duration::from_millis(SOON) {
                return Ok(true);
            }
        }
        Ok(false)
    }

    /// The primaries that are to die do so at their next frames.
    fn doom(&mut self) {
        self.first.set_mood(Mood::Dies);
        if self.both {
            self.second.set_mood(Mood::Dies);
        }
        self.course = Course::Doomed;
    }

    /// A primary died at a frame. The other one dies with it, or serves alone.
    fn fall(&mut self) {
        if self.both {
            self.first.die();
            self.second.die();
        } else {
            self.second.set_mood(Mood::Serves);
        }
        self.course = Course::Down;
    }

    /// The primaries that are gone come back.
    fn rise<R: Net<Listener = TcpListener, Stream = TcpStream>>(&mut self, rt: &R) {
        if self.first.revive(rt).is_err() || self.second.revive(rt).is_err() {
            self.record.fail("a server does not come back");
        }
        self.course = Course::Back;
    }

    /// How many frames were acknowledged in place of those that are gone.
    fn rescued(&self) -> u32 {
        if self.both {
            self.third.acked
        } else {
            self.second.acked
        }
    }

    /// Whether a primary that died acknowledged a frame since it came back.
    fn is_back(&self) -> bool {
        self.first.acked > 0 || self.both && self.second.acked > 0
    }

    /// Whether a primary is gone.
    fn is_down(&self) -> bool {
        self.first.mood == Mood::Dead || self.second.mood == Mood::Dead
    }

    /// Goes on where it is time.
    fn go_on<R: Net<Listener = TcpListener, Stream = TcpStream>>(&mut self, rt: &R) {
        let acked = self.first.acked.saturating_add(self.second.acked);
        match self.course {
            Course::Begins if acked >= FEW => self.doom(),
            Course::Doomed if self.is_down() => self.fall(),
            Course::Down if self.rescued() >= FEW => self.rise(rt),
            Course::Back if self.is_back() && self.third.is_left() => self.course = Course::Over,
            _ => {}
        }
    }

    /// Sends requests, several under way, until all is over, or something went wrong.
    fn flow<R: Net<Listener = TcpListener, Stream = TcpStream> + Clock>(&mut self, rt: &R) {
        for turn in 0..TURNS {
            if self.course == Course::Over || self.record.fault.is_some() {
                break;
            }
            if turn % BEAT == 0 && self.record.owed() <= MOST {
                self.send();
            }
            self.turn(rt);
            self.go_on(rt);
        }
    }
}

/// Requests of one source, one behind the other: whether one is told soon, and whether one behind
/// that is, and whether the standby was connected to.
fn tell_alone<R: Clock>(rt: &R, traffic: &mut Traffic, told: &mut Transcript) -> Result<()> {
    told.put("soon", &traffic.ask(rt)?)?;
    told.put("soon_again", &traffic.ask(rt)?)?;
    told.put("standby", &traffic.third.is_met)
}

/// Requests that are under way while the first primary dies, or both do, and come back: all are
/// told, whether a primary serves again, and whether the standby was connected to and is left.
fn tell_deaths<R: Net<Listener = TcpListener, Stream = TcpStream> + Clock>(
    rt: &R,
    traffic: &mut Traffic,
    told: &mut Transcript,
) -> Result<()> {
    traffic.send();
    traffic.send();
    traffic.send();
    traffic.flow(rt);
    traffic.settle(rt)?;
    told.put("over", &(traffic.course == Course::Over))?;
    told.put("back", &traffic.is_back())?;
    told.put("standby", &traffic.third.is_met)?;
    told.put("left", &traffic.third.is_left())
}

/// A source sends requests, one behind the other, beside servers in these moods.
pub fn play_alone<R: Net<Listener = TcpListener, Stream = TcpStream> + Clock>(
    rt: &R,
    stage: &mut SceneRun,
    moods: [Mood; 3],
) -> Result<()> {
    let mut traffic = Traffic::new(rt, stage, 1, moods)?;
    tell_alone(rt, &mut traffic, &mut stage.told)
}

/// Requests are under way while the first primary dies, or both do, and come back.
pub fn play_deaths<R: Net<Listener = TcpListener, Stream = TcpStream> + Clock>(
    rt: &R,
    stage: &mut SceneRun,
    both: bool,
) -> Result<()> {
    let mut traffic = Traffic::new(rt, stage, SOURCES, [Mood::Serves; 3])?;
    traffic.both = both;
    tell_deaths(rt, &mut traffic, &mut stage.told)
}
