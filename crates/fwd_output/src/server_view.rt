//! What a worker looks for a chunk for, and what it sees of its output before it takes one.

ghost use Rattle.std.specs.Prelude.{◌≡◌, ◌&&◌, not, if◌then◌else◌};
ghost use Rattle.fwd_output.specs.Looks.{is_server, may_look, takes};
ghost use Rattle.fwd_output.specs.Elsewhere.{has_server, or_try, server_with, way_over};

use crate::offer::{Found, Offer};
use fwd_chunks::FlushKind;
use std::alloc::AllocError;

/// What a worker looks for a free chunk for.
#[derive(Clone, Copy)]
pub enum ChunkUse {
    /// To begin a session with it.
    Begin,
    /// For its session with this server, which has no other, whatever server is to be tried.
    Keep(u16),
    /// For its session with this server, which has no other, or for another server that is to be
    /// tried in its place.
    Follow(u16),
    /// For its session with this server, beside those that it has.
    Join(u16),
    /// To see whether there is one to ask this server with, which is not the one to try.
    Ask(u16),
}

/// How a worker looks for a free chunk.
#[derive(Clone, Copy)]
pub struct ChunkSearch {
    /// The worker's number.
    pub worker: u16,
    /// What it looks for one for.
    pub chunk_use: ChunkUse,
    /// Which open chunks may be closed if none is free: those that are due, or all.
    pub closes: FlushKind,
}

/// What a worker sees of its output before it takes a chunk.
#[derive(Clone, Copy)]
pub struct ServerView {
    /// Free chunks are left to another worker, which claims them.
    pub is_claimed: bool,
    /// The server that the worker is to try, if one is usable.
    pub server: Option<u16>,
    /// That server was lost since it last settled a chunk: it is not known to work.
    pub is_doubted: bool,
    /// The first server in the worker's order that was not lost since it last settled a chunk.
    pub trusted: Option<u16>,
}

impl ServerView {
    /// The server for a chunk that was lost before: one that is known to work, where there is one,
    /// and else this one, which the worker is to try.
    pub fn server_for_lost(self, server: u16) -> u16
        ensures { result ≡ if self.is_doubted then or_try self.trusted server else server }
    {
        match self.trusted {
            Some(trusted) if self.is_doubted => trusted,
            _ => server,
        }
    }

    /// The server that a worker without a session begins one with for a chunk, where this is the
    /// one to try.
    pub fn server_with(self, offer: &Offer, server: u16) -> u16
        ensures { result ≡ server_with offer.now.losses offer.now.elsewhere self.is_doubted
            self.trusted server }
    {
        match offer.elsewhere {
            Some(elsewhere) => elsewhere,
            None if offer.was_lost() => self.server_for_lost(server),
            None => server,
        }
    }

    /// The server that the worker is to go over to from its own for a chunk, if that is another. A
    /// chunk that was lost before stays with the session that is there, unless it was lost there
    /// and may go elsewhere. A session that works is left only for a chunk: an idle worker connects
    /// to nobody, and a dead primary costs a try and no chunk.
    pub fn way_of(self, offer: &Offer, own: u16) -> Option<u16>
        ensures { result ≡ way_over offer.now.losses (has_server offer.now.lost_at.members own)
            offer.now.elsewhere self.server own }
    {
        if offer.was_lost() {
            return offer.away_from(own);
        }
        let server = self.server?;
        if server == own { None } else { Some(server) }
    }

    /// Whether the worker looks for a chunk for this use: what another worker claims is left to it,
    /// unless a session was sought for it. A session is begun only where there is a server to try,
    /// a chunk is added to others only where their server is the one to try, and known to work, and
    /// a server is asked once more only where that is another.
    pub fn may_look(self, chunk_use: ChunkUse) -> bool
        ensures { result ≡ may_look self chunk_use }
    {
        match chunk_use {
            ChunkUse::Begin => !self.is_claimed && self.server.is_some(),
            ChunkUse::Keep(_) => true,
            ChunkUse::Follow(_) => !self.is_claimed,
            ChunkUse::Join(own) => !self.is_claimed && self.trusts(own),
            ChunkUse::Ask(server) => !self.is_claimed && self.server != Some(server),
        }
    }

    /// Whether the worker takes this free chunk for its use. One that goes to another server than
    /// its session's, or that was lost where it would join others, stays free, and so does one that
    /// is only to be seen.
    pub fn takes(self, chunk_use: ChunkUse, offer: &Offer) -> bool
        ensures { result ≡ takes self chunk_use offer.now }
    {
        match chunk_use {
            ChunkUse::Begin => true,
            ChunkUse::Keep(own) => offer.away_from(own).is_none(),
            ChunkUse::Follow(own) => self.way_of(offer, own).is_none(),
            ChunkUse::Join(_) => !offer.was_lost(),
            ChunkUse::Ask(_) => false,
        }
    }

    /// Whether the worker's own server is the one that it is to try, and is known to work.
    fn trusts(self, own: u16) -> bool
        ensures { result ≡ (is_server self.server own && not self.is_doubted) }
    {
        self.server == Some(own) && !self.is_doubted
    }

    /// Whether the worker's own server is the one that it is to try, and is not known to work.
    pub(crate) fn doubts(self, own: u16) -> bool
        ensures { result ≡ (is_server self.server own && self.is_doubted) }
    {
        self.server == Some(own) && self.is_doubted
    }
}

/// What a worker sees of its output, and what it found by that. A chunk that it took must be spent.
pub struct Look {
    pub view: ServerView,
    /// What it found. It is an error that memory was refused for the chunk that it was to take.
    pub found: Result<Found, AllocError>,
}
