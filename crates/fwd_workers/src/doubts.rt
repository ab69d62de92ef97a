//! What a worker remembers of losses, by which it chooses with which chunk it tries a server.

ghost use Rattle.std.specs.Prelude.{◌≡◌, ◌<◌, None, IfSome};
ghost use Rattle.fwd_chunks.specs.Cells.{size_of};
ghost use Rattle.fwd_workers.specs.Doubting.{doubts_begin, doubts_load, doubts_lose, doubts_settle};

use crate::ending::EndReason;
use crate::refused::Suspect;
use crate::turn_context::TurnContext;
use fwd_chunks::Carried;
use fwd_environment::{Denial, Refused};
use fwd_output::Tally;
use std::mem;
use std::sync::Wait;

/// How often a chunk was lost before, where one loss more says that its server refuses it.
const SUSPECT: u8 = 2;

/// What a worker remembers of losses.
#[derive(Clone, Copy)]
pub(crate) struct Doubts {
    /// How often the chunk that it took last was lost before.
    pub losses: u8,
    /// No chunk is added to those of its session: one of them was lost before, or one that was
    /// waits until they are acknowledged.
    pub alone: bool,
    /// The server that it asks once more, with the next free chunk: it took the connection and a
    /// chunk that was lost.
    pub ask: Option<u16>,
    /// Its session asks a server once more.
    pub is_asking: bool,
    /// The chunk of its session, where it was lost twice before and its server is known to work.
    pub suspect: Option<Suspect>,
    /// The chunk that its server refused in this turn, until it is told.
    pub refused: Option<Refused>,
    /// The server that let it not in in this turn, until it is told.
    pub denial: Option<Denial>,
    /// Its session was sought, and the next chunk was lost there and is to go elsewhere.
    pub leaves: bool,
    /// The chunk for which its session was sought elsewhere, by its number.
    pub errand: Option<u64>,
}

impl Doubts {
    /// None.
    pub(crate) fn none() -> Doubts {
        Doubts {
            losses: 0,
            alone: false,
            ask: None,
            is_asking: false,
            suspect: None,
            refused: None,
            denial: None,
            leaves: false,
            errand: None,
        }
    }

    /// A session begins with a server that is tried for its own sake: nothing is asked once more.
    pub(crate) fn begin(&mut self)
        ensures { self.new ≡ doubts_begin self.old }
    {
        self.ask = None;
        self.is_asking = false;
        self.leaves = false;
        self.errand = None;
    }

    /// What is told of a chunk if its session ends now: it was lost twice before, and its server is
    /// known to work.
    pub(crate) fn suspect<A: Tally, S: Tally, R: Wait>(
        &self,
        context: &TurnContext<'_, A, S, R>,
        server: u16,
        chunk: &Carried,
    ) -> Option<Suspect>
        ensures few { self.now.losses < SUSPECT → result ≡ None }
        ensures of { IfSome result (λ s. (s.size ≡ size_of chunk.now.entries)
            × (s.losses ≡ self.now.losses)) }
    {
        if self.losses < SUSPECT || context.out.is_doubted(context.rt, server) {
            return None;
        }
        Some(Suspect::of(chunk, self.losses))
    }

    /// The first chunk of a session is loaded, which may be one that its server refuses.
    pub(crate) fn load(&mut self, suspect: Option<Suspect>)
        ensures { self.new ≡ doubts_load self.old suspect }
    {
        self.alone = 0 < self.losses;
        self.suspect = suspect;
    }

    /// A chunk of the session was settled: its server works.
    pub(crate) fn settle(&mut self)
        ensures { self.new ≡ doubts_settle self.old }
    {
        self.is_asking = false;
        self.suspect = None;
    }

    /// A session with this server ended with chunks that are lost. The server is asked once more,
    /// unless it just was.
    pub(crate) fn lose(&mut self, server: u16, why: EndReason)
        ensures { self.new ≡ doubts_lose self.old server why }
    {
        let was_asking = mem::replace(&mut self.is_asking, false);
        self.ask = if was_asking { None } else { Some(server) };
        self.refused = match self.suspect.take() {
            None => None,
            Some(suspect) => suspect.refused(server, why),
        };
    }
}
