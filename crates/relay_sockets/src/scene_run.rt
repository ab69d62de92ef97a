//! The stage of a scene, where its steps are played.

use crate::extremes::{flood, is_drained, random_bytes, send_large};
use crate::frame::{EMPTY, MESSAGE, TOLD, ack};
use crate::peer_connection::PeerConnection;
use crate::server::Server;
use crate::step::Step;
use crate::test_relay::TestRelay;
use crate::transcript::Transcript;
use anyhow::{Result, anyhow};
use hex::encode;
use std::alloc::Global;
use std::io::Read;
use std::net::{Net, SocketAddr, TcpListener, TcpStream};
use std::rt::Clock;
use std::time::{Duration, Instant};
use std::{mem, thread};

/// How often a connection is looked for where any of several servers may have it, and how long is
/// waited before the next look, in milliseconds.
const LOOKS: u32 = 10_000;

const PAUSE: u64 = 2;

/// How many connections a listener that accepts none takes at most, and some more.
const CROWD: usize = 140;

/// How long a connection that is not answered is waited for, in milliseconds.
const ANSWER: u64 = 300;

/// The front of a head for the page, and the rest of it.
const FRONT: &[u8] = b"GET / HT";

const BACK: &[u8] = b"TP/1.1\r\nHost: relay\r\n\r\n";

/// What the page of an output that took nothing begins with, and what it ends with.
const PAGE: &[u8] = b"HTTP/1.1 200 OK\r\nContent-Type: text/plain\r\n";

const END: &[u8] = b"\noutput 0 accepted 0 settled 0 held 0 bytes 0 chunks 0\n";

/// Sources of random bytes: from so many seeds, from 1 on. The first value of each is whole within
/// its first 256 bytes, and is no array.
const SEEDS: u64 = 8;

/// Where a scene is played: its servers, the connections, and what was seen.
#[derive(Drop)]
pub struct SceneRun {
    pub alloc: Global,
    pub site: TestRelay,
    pub servers: Vec<Server>,
    lines: Vec<Option<PeerConnection>>,
    /// Connections that no server takes.
    crowd: Vec<TcpStream>,
    start: Instant,
    /// How many bytes a source sent that reads nothing.
    flood: usize,
    pub told: Transcript,
}

/// Three servers at the host of this number.
fn servers_at<R: Net<Listener = TcpListener, Stream = TcpStream>>(
    rt: &R,
    alloc: Global,
    host: u8,
) -> Result<Vec<Server>> {
    let mut servers = Vec::new(alloc);
    for _ in 0..3 {
        servers.push(Server::new(rt, host)?)?;
    }
    Ok(servers)
}

/// The number of the connection over which a step is played that tells nothing, if it is one.
fn number_of(step: Step) -> Option<usize> {
    match step {
        Step::Send(number, _) | Step::Pieces(number, _) => Some(number),
        Step::Fill(number, _) | Step::Acks(number, _) => Some(number),
        Step::Large(number) | Step::Skip(number) | Step::Await(number) => Some(number),
        _ => None,
    }
}

/// Plays such a step over its connection.
fn play_over(line: &mut PeerConnection, step: Step) -> Result<()> {
    match step {
        Step::Send(_, bytes) => line.send(bytes),
        Step::Pieces(_, bytes) => line.send_pieces(bytes),
        Step::Fill(_, count) => line.fill(count),
        Step::Large(_) => send_large(line),
        Step::Skip(_) => line.next(),
        Step::Acks(_, places) => line.acknowledge(places),
        Step::Await(_) => line.await_more(),
        _ => Err(anyhow!("no such step")),
    }
}

impl SceneRun {
    /// Three servers and two free ports for a relay, all at the host of this number.
    pub fn new<R: Net<Listener = TcpListener, Stream = TcpStream> + Clock>(
        rt: &R,
        alloc: Global,
        host: u8,
    ) -> Result<SceneRun> {
        let start = Instant::now(rt)?;
        let servers = servers_at(rt, alloc, host)?;
        let site = TestRelay::new(rt, host, &servers)?;
        Ok(SceneRun {
            alloc,
            site,
            servers,
            lines: Vec::new(alloc),
            crowd: Vec::new(alloc),
            start,
            flood: 0,
            told: Transcript::new(alloc),
        })
    }

    /// Nobody stands any more.
    pub fn clear(&mut self) {
        self.lines.clear();
        self.servers.clear();
    }

    /// All that was told, as a line.
    pub fn take_text(&mut self) -> String {
        let _ = self.told.text.push('\n');
        mem::replace(&mut self.told.text, String::new(self.alloc))
    }

    /// The connection of this number.
    fn line(&mut self, number: usize) -> Result<&mut PeerConnection> {
        match self.lines.get_mut(number) {
            Some(Some(line)) => Ok(line),
            _ => Err(anyhow!("no such connection")),
        }
    }

    /// The server of this number.
    fn server(&self, number: usize) -> Result<&Server> {
        match self.servers.get(number) {
            Some(server) => Ok(server),
            None => Err(anyhow!("no such server")),
        }
    }

    /// A further connection.
    fn add(&mut self, stream: TcpStream) -> Result<()> {
        let line = PeerConnection::new(self.alloc, stream)?;
        Ok(self.lines.push(Some(line))?)
    }

    /// A side closes its connection.
    fn close(&mut self, number: usize) {
        if let Some(line) = self.lines.get_mut(number) {
            *line = None;
        }
    }

    /// A server is gone.
    fn leave(&mut self, number: usize) {
        if let Some(server) = self.servers.get_mut(number) {
            server.close();
        }
    }

    /// A side connects to the relay, and sends these bytes.
    fn open<R: Net<Listener = TcpListener, Stream = TcpStream>>(
        &mut self,
        rt: &R,
        address: SocketAddr,
        bytes: &[u8],
    ) -> Result<()> {
        let line = PeerConnection::open(rt, self.alloc, address, bytes)?;
        Ok(self.lines.push(Some(line))?)
    }

    /// The next connection to a server.
    fn accept<R: Clock>(&mut self, rt: &R, number: usize) -> Result<()> {
        let stream = self.server(number)?.accept(rt)?;
        self.add(stream)
    }
}

/// Steps that see what comes over connections.
impl SceneRun {
    /// The next value comes, and is told.
    fn tell(&mut self, field: &str, number: usize) -> Result<()> {
        let alloc = self.alloc;
        let line = self.line(number)?;
        line.next()?;
        let digits = encode(alloc, line.last())?;
        self.told.put(field, &digits)
    }

    /// So many values come, and are told, the least first.
    fn tell_values(&mut self, field: &str, number: usize, count: usize) -> Result<()> {
        let alloc = self.alloc;
        let line = self.line(number)?;
        let mut values = Vec::new(alloc);
        for _ in 0..count {
            line.next()?;
            values.push(encode(alloc, line.last())?)?;
        }
        values.sort()?;
        self.told.put(field, &values)
    }

    /// So many frames come, each once the one before it was acknowledged, and are told.
    fn tell_alone(&mut self, field: &str, number: usize, count: usize) -> Result<()> {
        let alloc = self.alloc;
        let line = self.line(number)?;
        let mut frames = Vec::new(alloc);
        for _ in 0..count {
            line.next()?;
            if !line.is_silent()? {
                return Err(anyhow!("a frame came beside another"));
            }
            frames.push(encode(alloc, line.last())?)?;
            line.send(&ack(line.last())?)?;
        }
        self.told.put(field, &frames)
    }

    /// The last frame of a connection is acknowledged.
    fn acknowledge(&mut self, number: usize) -> Result<()> {
        let line = self.line(number)?;
        line.send(&ack(line.last())?)
    }

    /// Whether nothing comes for a while.
    fn tell_silence(&mut self, field: &str, number: usize) -> Result<()> {
        let is_silent = self.line(number)?.is_silent()?;
        self.told.put(field, &is_silent)
    }

    /// How many bytes come up to the close.
    fn tell_rest(&mut self, field: &str, number: usize) -> Result<()> {
        let line = self.line(number)?;
        line.read_rest()?;
        let count = line.bytes.len();
        self.told.put(field, &count)
    }

    /// The text that comes up to the close.
    fn tell_text(&mut self, field: &str, number: usize) -> Result<()> {
        let alloc = self.alloc;
        let line = self.line(number)?;
        line.read_rest()?;
        let text = String::from_utf8_lossy(alloc, &line.bytes)?;
        self.told.put(field, &text)
    }

    /// So many bytes come, and the others are not read.
    fn tell_front(&mut self, field: &str, number: usize, count: usize) -> Result<()> {
        let mut reader = &self.line(number)?.stream;
        for _ in 0..count {
            reader.read_exact(&mut [0; 1])?;
        }
        self.told.put(field, &count)
    }

    /// How many bytes the values of a connection have in all.
    fn tell_size(&mut self, field: &str, number: usize) -> Result<()> {
        let mut size = 0_usize;
        for value in &self.line(number)?.values {
            size = size.saturating_add(value.len());
        }
        self.told.put(field, &size)
    }

    /// Whether all that came over a connection up to its close came over the other one too, where
    /// the value that was not whole is.
    fn tell_again(&mut self, field: &str, number: usize, other: usize) -> Result<()> {
        self.line(number)?.read_rest()?;
        let is_again = match (self.lines.get(number), self.lines.get(other)) {
            (Some(Some(line)), Some(Some(other))) => other.has_again(line),
            _ => false,
        };
        self.told.put(field, &is_again)
    }

    /// A source sends a request, a server acknowledges the frame, and the source is told.
    fn tell_round(&mut self, field: &str, source: usize, link: usize) -> Result<()> {
        self.line(source)?.send(MESSAGE)?;
        self.line(link)?.next()?;
        self.acknowledge(link)?;
        let source = self.line(source)?;
        source.next()?;
        let is_told = source.last() == TOLD;
        self.told.put(field, &is_told)
    }

    /// How many of so many monitors are told the page once they asked.
    fn tell_pages(&mut self, field: &str, from: usize, count: usize) -> Result<()> {
        let mut told = 0_usize;
        for number in from..from.saturating_add(count) {
            let line = self.line(number)?;
            line.send(BACK)?;
            line.read_rest()?;
            if line.bytes.starts_with(PAGE) && line.bytes.ends_with(END) {
                told = told.saturating_add(1);
            }
        }
        self.told.put(field, &told)
    }

    /// A source sends requests and reads nothing, until the relay reads no more.
    fn tell_flood(&mut self, field: &str, number: usize) -> Result<()> {
        let alloc = self.alloc;
        let sent = flood(alloc, self.line(number)?)?;
        self.flood = sent;
        self.told.put(field, &(sent > 0))
    }

    /// It reads: whether it is told of all of them.
    fn tell_drained(&mut self, field: &str, number: usize) -> Result<()> {
        let sent = self.flood;
        let is_told = is_drained(self.line(number)?, sent)?;
        self.told.put(field, &is_told)
    }

    /// Whether nobody waits at a server, nor came.
    fn tell_unmet(&mut self, field: &str, number: usize) -> Result<()> {
        let is_unmet = self.server(number)?.poll().is_none();
        self.told.put(field, &is_unmet)
    }

    /// Plays a step over connections that stand.
    fn look(&mut self, step: Step) -> Result<()> {
        if let Some(number) = number_of(step) {
            return play_over(self.line(number)?, step);
        }
        match step {
            Step::Told(field, number) => self.tell(field, number),
            Step::Values(field, number, count) => self.tell_values(field, number, count),
            Step::Alone(field, number, count) => self.tell_alone(field, number, count),
            Step::Ack(number) => self.acknowledge(number),
            Step::Silent(field, number) => self.tell_silence(field, number),
            Step::Rest(field, number) => self.tell_rest(field, number),
            Step::Text(field, number) => self.tell_text(field, number),
            Step::Front(field, number, count) => self.tell_front(field, number, count),
            Step::Size(field, number) => self.tell_size(field, number),
            Step::Again(field, number, other) => self.tell_again(field, number, other),
            Step::Round(field, source, link) => self.tell_round(field, source, link),
            Step::Pages(field, from, count) => self.tell_pages(field, from, count),
            Step::Flood(field, number) => self.tell_flood(field, number),
            Step::Drain(field, number) => self.tell_drained(field, number),
            Step::Unmet(field, number) => self.tell_unmet(field, number),
            _ => Err(anyhow!("no such step")),
        }
    }
}

/// Steps that make connections, or take time.
impl SceneRun {
    /// So many monitors send the front of a request for the page.
    fn crowd_monitors<R: Net<Listener = TcpListener, Stream = TcpStream>>(
        &mut self,
        rt: &R,
        count: usize,
    ) -> Result<()> {
        for _ in 0..count {
            self.open(rt, self.site.monitors, FRONT)?;
        }
        Ok(())
    }

    /// The servers before this one close each connection, until this one has one.
    fn seek<R: Clock>(&mut self, rt: &R, number: usize) -> Result<()> {
        for _ in 0..LOOKS {
            for before in 0..number {
                drop(self.server(before)?.poll());
            }
            if let Some(stream) = self.server(number)?.poll() {
                return self.add(stream);
            }
            thread::sleep(rt, Duration::from_millis(PAUSE));
        }
        Err(anyhow!("nobody connects"))
    }

    /// A server comes back.
    fn come_back<R: Net<Listener = TcpListener, Stream = TcpStream>>(
        &mut self,
        rt: &R,
        number: usize,
    ) -> Result<()> {
        match self.servers.get_mut(number) {
            Some(server) => server.reopen(rt),
            None => Err(anyhow!("no such server")),
        }
    }

    /// Connections that a server does not take, until one is not answered.
    fn crowd_server<R: Net<Listener = TcpListener, Stream = TcpStream>>(
        &mut self,
        rt: &R,
        number: usize,
    ) -> Result<()> {
        let address = self.server(number)?.address;
        let patience = Duration::from_millis(ANSWER);
        for _ in 0..CROWD {
            match TcpStream::connect_timeout(rt, &address, patience) {
                Ok(stream) => self.crowd.push(stream)?,
                Err(_) => return Ok(()),
            }
        }
        Err(anyhow!("all are answered"))
    }

    /// The relay's loop makes a whole turn: a source sends a request of no entries, and is told.
    fn tell_turn<R: Net<Listener = TcpListener, Stream = TcpStream>>(
        &mut self,
        rt: &R,
        field: &str,
    ) -> Result<()> {
        let mut source = PeerConnection::open(rt, self.alloc, self.site.sources, EMPTY)?;
        source.next()?;
        let is_told = source.last() == TOLD;
        self.told.put(field, &is_told)
    }

    /// How many bytes sources of random bytes are told before they are closed. The relay keeps of
    /// each no more than one unfinished value.
    fn tell_random<R: Net<Listener = TcpListener, Stream = TcpStream>>(
        &mut self,
        rt: &R,
        field: &str,
    ) -> Result<()> {
        let mut told = 0_usize;
        for seed in 1..=SEEDS {
            let mut source = PeerConnection::open(rt, self.alloc, self.site.sources, b"")?;
            // The relay may close in the middle of it.
            let _ = source.send(&random_bytes(seed));
            source.read_rest()?;
            told = told.saturating_add(source.bytes.len());
        }
        self.told.put(field, &told)
    }

    /// Whether no more than so many milliseconds have passed since the watch was set.
    fn tell_within<R: Clock>(&mut self, rt: &R, field: &str, most: u64) -> Result<()> {
        let is_within = self.start.elapsed(rt)? < Duration::from_millis(most);
        self.told.put(field, &is_within)
    }

    /// Has a relay spend its turns: each connection to its monitor is worth a few.
    pub fn hurry<R: Net<Listener = TcpListener, Stream = TcpStream>>(&mut self, rt: &R) {
        for _ in 0..LOOKS {
            if self.ask_once(rt).is_err() {
                return;
            }
        }
    }

    /// A monitor asks for the page.
    fn ask_once<R: Net<Listener = TcpListener, Stream = TcpStream>>(&self, rt: &R) -> Result<()> {
        let mut monitor = PeerConnection::open(rt, self.alloc, self.site.monitors, FRONT)?;
        monitor.send(BACK)?;
        monitor.read_rest()
    }

    /// Plays a step.
    pub fn play<R: Net<Listener = TcpListener, Stream = TcpStream> + Clock>(
        &mut self,
        rt: &R,
        step: Step,
    ) -> Result<()> {
        match step {
            Step::Source(bytes) => self.open(rt, self.site.sources, bytes),
            Step::Monitor(bytes) => self.open(rt, self.site.monitors, bytes),
            Step::Monitors(count) => self.crowd_monitors(rt, count),
            Step::Accept(number) => self.accept(rt, number),
            Step::Shut(number) => self.shut(rt, number),
            Step::Seek(number) => self.seek(rt, number),
            Step::Return(number) => self.come_back(rt, number),
            Step::Crowd(number) => self.crowd_server(rt, number),
            Step::Turn(field) => self.tell_turn(rt, field),
            Step::Random(field) => self.tell_random(rt, field),
            Step::Start => self.set_watch(rt),
            Step::Within(field, most) => self.tell_within(rt, field, most),
            _ => self.play_here(rt, step),
        }
    }

    /// Plays a step that makes no connection.
    fn play_here<R: Clock>(&mut self, rt: &R, step: Step) -> Result<()> {
        match step {
            Step::Close(number) => self.close(number),
            Step::Leave(number) => self.leave(number),
            Step::Pause(millis) => thread::sleep(rt, Duration::from_millis(millis)),
            _ => return self.look(step),
        }
        Ok(())
    }

    /// The relay connects to a server, which closes the connection at once.
    fn shut<R: Clock>(&mut self, rt: &R, number: usize) -> Result<()> {
        drop(self.server(number)?.accept(rt)?);
        Ok(())
    }

    /// A watch is set.
    fn set_watch<R: Clock>(&mut self, rt: &R) -> Result<()> {
        self.start = Instant::now(rt)?;
        Ok(())
    }
}
