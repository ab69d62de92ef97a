//! The connections that stand, by their ids, and what becomes of one.

ghost use Rattle.std.specs.Prelude.{◌≡◌, ◌<◌, ◌++◌, IfOk, IsOk, OnOk, OnErr, MatchOption, None, [], true, false};
ghost use Rattle.std.specs.Arc.{arc_value};
ghost use Rattle.fwd_msgpack.specs.Scans.{Bad, first_of};
ghost use Rattle.fwd_msgpack.specs.declared.fault.ScanFault.{ScanFault};
ghost use Rattle.fwd_source.specs.Asked.{IsRefused};
ghost use Rattle.fwd_source.specs.Live.{source_gives_first};
ghost use Rattle.fwd_model.specs.Setups.{setup_of};
ghost use Rattle.fwd_core.specs.Places.{IsPlace};
ghost use Rattle.fwd_core.specs.Relays.{new_live_connection};
ghost use Rattle.fwd_model.specs.Live.{live_source_at, without, lives};
ghost use Rattle.fwd_core.specs.Runs.{is_free};
ghost use Rattle.fwd_model.specs.Outcome.{answer_of, state_of};
ghost use Rattle.fwd_model.specs.Step.{piece, drained};

use fwd_handshake::{Nonces, Security};
use fwd_model::{Answer, Refusal};
use fwd_msgpack::Limits;
use fwd_source::{Piece, Source};
use std::alloc::{AllocError, Global};
use std::marker::Model;
use std::sync::Arc;

/// A connection.
#[derive(Drop)]
pub struct Connection {
    pub id: u64,
    pub source: Source,
}

impl Model for Connection {
    ghost use Rattle.fwd_model.specs.Live.{LiveConnection};

    ghost Value = { LiveConnection };

    ghost view = { λ c. record { id = c.id; source = c.source.live } };
}

impl Connection {
    /// A connection before its first byte.
    pub fn new(
        alloc: Global,
        id: u64,
        security: &Arc<Security>,
        limits: Limits,
        nonces: Nonces,
    ) -> Result<Connection, AllocError>
        ensures { IfOk result (λ c.
            c ≡ new_live_connection
            (setup_of (arc_value security.now) limits id nonces.nonce nonces.auth)) }
    {
        let security = Arc::try_clone(security)?;
        let source = Source::new(alloc, id, security, nonces, limits)?;
        Ok(Connection { id, source })
    }

    /// The bytes that wait to be sent to it.
    pub fn out(&self) -> &[u8]
        ensures { result.now ≡ self.now.source.unsent }
    {
        self.source.out()
    }
}

/// The place of the connection with this id.
pub fn place_of(id: u64, connections: &[Connection]) -> Option<usize>
    ensures { MatchOption result (live_source_at id connections.now ≡ None) (λ place.
        IsPlace id connections.now place) }
{
    for place in 0..connections.len() {
        let connection = &connections[place];
        if connection.id == id {
            return Some(place);
        }
    }
    None
}

/// The connections but this one.
pub fn leave(id: u64, connections: &mut Vec<Connection>)
    ensures { connections.new.items ≡ without id connections.old.items }
{
    connections.retain(|c| c.id != id);
}

/// More bytes come from a connection. On an error nothing has changed.
#[tactic(auto, unfolding(fwd_source::specs::Live::source_hears))]
pub fn hear_piece(alloc: Global, source: &mut Source, bytes: &[u8]) -> Result<Answer, AllocError>
    ensures answer { IfOk result (λ a. a ≡ answer_of (piece lives source.old.live bytes.now)) }
    ensures sure { is_free (answer_of (piece lives source.old.live bytes.now)) ≡ true
        → IsOk result }
    ensures fault { let limits = source.old.live.setup.limits in
        (fault : ScanFault)
        → first_of limits.bytes limits.depth (source.old.live.rest ++ bytes.now) ≡ Bad fault
        → IsOk result }
    ensures refused { source.old.live.awaits ≡ false → source.old.live.rest ≡ []
        → IsRefused source.old.live.setup.limits bytes.now → IsOk result }
    ensures next { OnOk result (source.new.live
        ≡ state_of source.old.live (piece lives source.old.live bytes.now)) }
    ensures err { OnErr result (source.new.live ≡ source.old.live) }
{
    let told = source.piece(alloc, bytes)?;
    let out = told.out;
    Ok(match told.piece {
        Piece::Waiting(waiting) => Answer::Requests { waiting, out },
        Piece::Fault(fault) => Answer::Faulted {
            fault,
            waiting: source.waiting(),
            out,
        },
        Piece::Closed => Answer::Refused(Refusal::Closed),
    })
}

/// The first request that waits is given away.
pub fn give(source: &mut Source)
    ensures { source.new.live ≡ source_gives_first source.old.live source.old.live.waiting }
{
    let _given = source.next();
}

/// A connection's link took so many of the bytes that wait to be sent.
pub fn drain(source: &mut Source, count: u64) -> Answer
    ensures answer { result ≡ answer_of (drained lives source.old.live count) }
    ensures next { source.new.live
        ≡ state_of source.old.live (drained lives source.old.live count) }
{
    if count > source.out().len() as u64 {
        return Answer::Refused(Refusal::NotNow);
    }
    source.drained(count as usize);
    Answer::Done
}
