//! The servers of an output in a worker's order, and which of them may be tried. The output keeps
//! the same of its servers, and tells only the first that may be tried.

ghost use Rattle.std.specs.Prelude.{◌≡◌, ◌≤◌, ◌<◌, true, false, length, find, IfOk};
ghost use Rattle.fwd_failover.specs.Choices.{places};
ghost use Rattle.fwd_failover.specs.Live.{is_live_usable};
ghost use Rattle.fwd_output.specs.Elsewhere.{elsewhere, may_go};

use crate::server_set::ServerSet;
use fwd_base::{Losses, Retry};
use fwd_failover::with_loss;
use std::alloc::{AllocError, Global};
use std::marker::Model;

/// The servers of an output, by their places in its list, and what was lost at each since it last
/// settled a chunk.
#[derive(Drop)]
pub struct ServerOrder {
    primaries: Vec<u16>,
    standbys: Vec<u16>,
    losses: Vec<Option<Losses>>,
    retry: Retry,
}

impl Model for ServerOrder {
    ghost use Rattle.fwd_failover.specs.Live.{LiveServers};

    ghost Value = { LiveServers };

    ghost view = { λ s. record {
      primaries = s.primaries.items;
      standbys = s.standbys.items;
      retry_wait = s.retry.wait;
      retry_max = s.retry.max;
      losses = s.losses.items;
      moment = 0;
    } };
}

/// The numbers of the standbys, or of the others, in file order.
fn numbers_of(alloc: Global, standby: &[bool], kind: bool) -> Result<Vec<u16>, AllocError>
    requires { length standby.now ≤ 16 }
    ensures { IfOk result (λ numbers. numbers.items ≡ places kind standby.now) }
{
    let mut numbers = Vec::new(alloc);
    for (number, flag) in standby.iter().enumerate() {
        if *flag == kind {
            numbers.push(number as u16)?;
        }
    }
    Ok(numbers)
}

impl ServerOrder {
    /// The servers of an output before any loss, by a flag for each that says whether it is a
    /// standby, and their waits in milliseconds: after a first loss, and the longest. The only
    /// error is out of memory.
    pub fn new(
        alloc: Global,
        standby: &[bool],
        retry_wait: u64,
        retry_max: u64,
    ) -> Result<Self, AllocError>
        requires few { length standby.now ≤ 16 }
        ensures primaries { IfOk result (λ order. order.primaries ≡ places false standby.now) }
        ensures standbys { IfOk result (λ order. order.standbys ≡ places true standby.now) }
    {
        Ok(ServerOrder {
            primaries: numbers_of(alloc, standby, false)?,
            standbys: numbers_of(alloc, standby, true)?,
            losses: vec![in alloc; None; standby.len()]?,
            retry: Retry {
                wait: retry_wait,
                max: retry_max,
            },
        })
    }

    /// Whether there is just one.
    pub(crate) fn is_single(&self) -> bool {
        self.losses.len() == 1
    }

    /// A server was lost at a moment (milliseconds), which changes nothing while it waits after an
    /// earlier loss.
    pub(crate) fn lost(&mut self, server: u16, now: u64) {
        if let Some(losses) = self.losses.get_mut(usize::from(server)) {
            *losses = with_loss(self.retry, *losses, now);
        }
    }

    /// A server settled a chunk: its losses count no more.
    pub(crate) fn settled(&mut self, server: u16) {
        if let Some(losses) = self.losses.get_mut(usize::from(server)) {
            *losses = None;
        }
    }

    /// Whether a server may be tried at a moment (milliseconds).
    fn is_usable(&self, server: u16, now: u64) -> bool
        ensures { result ≡ is_live_usable self.now now server }
    {
        match self.losses.get(usize::from(server)) {
            None => true,
            Some(losses) => self.retry.is_over(*losses, now),
        }
    }

    /// The first of some servers that may be tried at a moment, and is not among those where the
    /// chunk was lost.
    fn first(&self, servers: &[u16], lost_at: &ServerSet, now: u64) -> Option<u16>
        ensures { result ≡ find (may_go self.now now lost_at.now.members) servers.now }
    {
        servers.iter().copied().find(|server| self.is_usable(*server, now) && !lost_at.has(*server))
    }

    /// The server that a chunk goes to at a moment (milliseconds) which was lost at these: the
    /// first in the worker's order that may be tried, and at which the chunk was not lost. An
    /// output has a primary.
    pub(crate) fn elsewhere(&self, worker: u16, lost_at: &ServerSet, now: u64) -> Option<u16>
        ensures { 0 < length self.now.primaries
            → result ≡ elsewhere self.now worker now lost_at.now.members }
    {
        if self.primaries.is_empty() {
            return None;
        }
        let place = usize::from(worker) % self.primaries.len();
        let (passed, ahead) = self.primaries.split_at(place);
        self.first(ahead, lost_at, now)
            .or(self.first(passed, lost_at, now))
            .or(self.first(&self.standbys, lost_at, now))
    }
}
