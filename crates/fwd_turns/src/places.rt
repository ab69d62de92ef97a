//! Which source gives its place to a new one where all places are taken.
//!
//! Three kinds do, in this order. A source that is idle, or waits at an output with a request that
//! it sends again, for so long as `relay.idle_limit` says. And where sources that wait at outputs
//! take more than three quarters of the places, and there is another output for whose sources a
//! quarter is left, one of these: so a full output does not keep out the sources of the others.
//! Who asked for acknowledgements goes first, since it sends again; who did not loses what it sent,
//! which the journal tells.
//!
//! A source whose other side is gone, and of which requests are kept, takes no place
//! (`Connections::note_kept`).

ghost use Rattle.std.specs.Prelude.{
  ◌≡◌,
  ◌≢◌,
  ◌⊎◌,
  ◌-◌,
  ◌/◌,
  ℕ,
  None,
  Some,
  false,
  nat_lt,
  IfSome,
};
ghost use Rattle.fwd_reader.specs.Idling.{IsCrowding, IsIdlest};
ghost use Rattle.fwd_reader.specs.OpenConnections.{connection_at, without};

use crate::visiting::tell_end;
use fwd_book::AdmitRefusal;
use fwd_history::Run;
use fwd_monitors::Observer;
use fwd_peers::CloseReason;
use fwd_reader::{Connections, Peer, Router};
use std::sync::Wait;

/// Of so many parts of the places sources that wait may take all but one.
const PARTS: usize = 4;

/// Whether sources that wait, so many, take more than their share of so many places.
pub(crate) fn is_crowded(waiting: usize, places: usize) -> bool
    ensures { result ≡ nat_lt (places - places / PARTS) waiting }
{
    waiting > places - places / PARTS
}

/// Which sources may give their places at a moment.
#[derive(Clone, Copy)]
pub(crate) struct PlaceRule {
    /// How long a source has to be idle, or to have waited with a request that it sends again, in
    /// milliseconds, if any gives its place for that.
    pub idle_limit: Option<u64>,
    /// Sources that wait take more than their share.
    pub is_crowded: bool,
    /// In milliseconds.
    pub now: u64,
}

impl PlaceRule {
    /// The key of the source that gives its place, if one does.
    fn choice<J: Run>(self, connections: &Connections<J>) -> Option<usize>
        ensures reason { IfSome result (λ key. ((limit : ℕ) × (self.idle_limit ≡ Some limit)
            × IsIdlest connections.now limit self.now key) ⊎ IsCrowding connections.now key) }
        ensures none { self.idle_limit ≡ None → self.is_crowded ≡ false → result ≡ None }
    {
        if let Some(limit) = self.idle_limit {
            let idlest = connections.idlest(limit, self.now);
            if idlest.is_some() {
                return idlest;
            }
        }
        if self.is_crowded {
            connections.crowded_out()
        } else {
            None
        }
    }
}

/// Closes the source that gives its place, and says whether one does.
pub(crate) fn free_place<J: Run, R: Wait, W: Observer>(
    rt: &R,
    connections: &mut Connections<J>,
    router: &mut Router<'_, J>,
    observer: &mut W,
    rule: PlaceRule,
) -> bool {
    let Some(key) = rule.choice(connections) else {
        return false;
    };
    let why = reason_for(connections, key);
    tell_closed(connections, key, why, observer);
    part(rt, connections, router, key);
    true
}

/// Why the source of a key gives its place: it is idle, or waits at an output, which is full.
fn reason_for<J: Run>(connections: &mut Connections<J>, key: usize) -> CloseReason {
    let Some(Peer::Source(source)) = connections.at(key) else {
        return CloseReason::Idle;
    };
    match source.waiting_place() {
        None => CloseReason::Idle,
        Some(place) => CloseReason::Refused(place.output, AdmitRefusal::Full),
    }
}

/// The connection of a key is about to go, and an observer is told why, where it is a source.
pub(crate) fn tell_closed<J: Run, W: Observer>(
    connections: &mut Connections<J>,
    key: usize,
    why: CloseReason,
    observer: &mut W,
) {
    if let Some(Peer::Source(source)) = connections.at(key) {
        source.refuse(why);
        let _ = tell_end(source, observer);
    }
}

/// The connection of a key waits at no output any more.
fn leave<J: Run, R: Wait>(
    rt: &R,
    connections: &mut Connections<J>,
    router: &mut Router<'_, J>,
    key: usize,
)
    ensures others { (other : ℕ) → other ≢ key
        → connection_at connections.new other ≡ connection_at connections.old other }
    ensures router { router.new ≡ router.old }
{
    if let Some(Peer::Source(source)) = connections.at(key) {
        router.leave(rt, source);
    }
}

/// The connection of a key goes, and waits at no output any more.
#[tactic(auto, using(crate::proofs::Keeping::gone_then))]
pub(crate) fn part<J: Run, R: Wait>(
    rt: &R,
    connections: &mut Connections<J>,
    router: &mut Router<'_, J>,
    key: usize,
)
    ensures gone { connection_at connections.new ≡ without key (connection_at connections.old) }
    ensures router { router.new ≡ router.old }
{
    leave(rt, connections, router, key);
    connections.remove(key);
}
