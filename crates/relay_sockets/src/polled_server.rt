//! A server that is looked after now and then.

use crate::frame::ack;
use crate::peer_connection::{Came, PeerConnection};
use crate::record::Record;
use crate::server::Server;
use anyhow::Result;
use std::alloc::Global;
use std::mem;
use std::net::{Net, TcpListener, TcpStream};

/// What a server does with connections.
#[derive(Clone, Copy)]
pub enum Mood {
    /// It acknowledges each frame.
    Serves,
    /// It accepts each and closes it.
    Closes,
    /// It is gone at the next frame, which it does not acknowledge.
    Dies,
    /// It is gone.
    Dead,
}

/// A server with its connections.
#[derive(Drop)]
pub struct PolledServer {
    alloc: Global,
    server: Option<Server>,
    pub mood: Mood,
    lines: Vec<PeerConnection>,
    /// Whether anyone ever connected.
    pub is_met: bool,
    /// How many frames it acknowledged since its mood changed.
    pub acked: u32,
}

impl PolledServer {
    /// A server without connections.
    pub fn new(alloc: Global, server: Option<Server>, mood: Mood) -> PolledServer {
        PolledServer {
            alloc,
            server,
            mood,
            lines: Vec::new(alloc),
            is_met: false,
            acked: 0,
        }
    }

    /// Whether no connection stands.
    pub fn is_left(&self) -> bool {
        self.lines.is_empty()
    }

    /// Its mood changes.
    pub fn set_mood(&mut self, mood: Mood) {
        self.mood = mood;
        self.acked = 0;
    }

    /// It is gone, with all its connections.
    pub fn die(&mut self) {
        if let Some(server) = &mut self.server {
            server.close();
        }
        self.lines.clear();
        self.set_mood(Mood::Dead);
    }

    /// It comes back to its address, where it is gone.
    pub fn revive<R: Net<Listener = TcpListener, Stream = TcpStream>>(
        &mut self,
        rt: &R,
    ) -> Result<()> {
        if self.mood == Mood::Dead {
            if let Some(server) = &mut self.server {
                server.reopen(rt)?;
            }
            self.set_mood(Mood::Serves);
        }
        Ok(())
    }

    /// The next connection, if one waits.
    fn poll(&self) -> Option<TcpStream> {
        self.server.as_ref()?.poll()
    }

    /// Takes a connection that waits.
    fn meet(&mut self) -> Result<()> {
        if let Some(stream) = self.poll() {
            self.is_met = true;
            if self.mood != Mood::Closes {
                self.lines
                    .push(PeerConnection::polled(self.alloc, stream)?)?;
            }
        }
        Ok(())
    }

    /// It hears a frame over a connection, and acknowledges it, or is gone.
    fn hear(&mut self, line: &PeerConnection, record: &mut Record) -> Result<()> {
        record.heard(line.last());
        if self.mood == Mood::Dies {
            self.die();
            return Ok(());
        }
        record.acked(line.last());
        self.acked = self.acked.saturating_add(1);
        line.send(&ack(line.last())?)
    }

    /// Reads what came over a connection: whether it still stands.
    fn look(&mut self, line: &mut PeerConnection, record: &mut Record) -> Result<bool> {
        if self.mood == Mood::Dead || line.read()? == Came::Close {
            return Ok(false);
        }
        if line.take()? {
            self.hear(line, record)?;
        }
        Ok(self.mood != Mood::Dead)
    }

    /// Takes a connection that waits, and reads all that stand.
    fn try_turn(&mut self, record: &mut Record) -> Result<()> {
        self.meet()?;
        let lines = mem::replace(&mut self.lines, Vec::new(self.alloc));
        for line in lines {
            let mut line = line;
            if self.look(&mut line, record)? {
                self.lines.push(line)?;
            }
        }
        Ok(())
    }

    /// The same, of which is recorded what went wrong.
    pub fn turn(&mut self, record: &mut Record) {
        if self.try_turn(record).is_err() {
            record.fail("a server fails");
        }
    }
}
