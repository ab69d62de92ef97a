//! What a run told.

use crate::test_relay::TestRelay;
use crate::transcript::Transcript;
use anyhow::Result;
use fwd_loop::{CloseReason, JournalEvent, ListenerKind, Observer, PeerAddress};
use fwd_session::SessionFault;
use fwd_workers::{LinkFault, LossReason};
use std::alloc::Global;
use std::net::SocketAddr;

/// What a run told.
#[derive(Drop)]
pub struct RunEvents {
    sources_at: Option<PeerAddress>,
    monitors_at: Option<PeerAddress>,
    /// Who was one too many last.
    over_limit: Option<ListenerKind>,
    /// Why it closed its sources, in its order. One for which memory is refused is left out.
    closings: Vec<CloseReason>,
    /// How often a server was lost.
    lost: u32,
    /// The first one, and its output.
    first_lost: Option<(u16, SocketAddr)>,
    /// Of those, how often it could not be connected to.
    unreached: u32,
    /// The faults of servers, in their order. One for which memory is refused is left out.
    faults: Vec<SessionFault>,
    /// How often a server that was lost came back.
    back: u32,
    /// How often a worker sent its chunk to another server than the one before.
    changed: u32,
    /// What else was told.
    others: u32,
}

/// What is said of that.
#[derive(Clone, Copy)]
pub enum Said {
    /// Whether it told where it listens.
    Listening,
    OverLimit,
    /// How often a server was lost, and whether one was.
    Losses,
    IsLost,
    /// Which was lost first: its output, and whether it is the first server.
    FirstLost,
    /// Whether one could not be connected to.
    IsUnreached,
    Faults,
    /// How often a server came back, and whether one did.
    Returns,
    IsBack,
    /// Whether a worker went to another server.
    IsChanged,
    Others,
}

impl RunEvents {
    /// Nothing.
    pub fn new(alloc: Global) -> RunEvents {
        RunEvents {
            sources_at: None,
            monitors_at: None,
            over_limit: None,
            closings: Vec::new(alloc),
            lost: 0,
            first_lost: None,
            unreached: 0,
            faults: Vec::new(alloc),
            back: 0,
            changed: 0,
            others: 0,
        }
    }

    /// A server of an output is lost.
    fn lose(&mut self, output: u16, server: SocketAddr, why: LossReason) {
        self.lost = self.lost.saturating_add(1);
        self.first_lost = self.first_lost.or(Some((output, server)));
        match why {
            LossReason::Link(
                LinkFault::Connect
                | LinkFault::Refused
                | LinkFault::Unanswered
                | LinkFault::Unreachable,
            ) => self.unreached = self.unreached.saturating_add(1),
            LossReason::Fault(fault) => {
                let _ = self.faults.push(fault);
            }
            _ => {}
        }
    }

    /// Whether it told that it listens here.
    fn is_listening(&self, site: TestRelay) -> bool {
        self.sources_at == Some(PeerAddress::Tcp(site.sources))
            && self.monitors_at == Some(PeerAddress::Tcp(site.monitors))
    }

    /// Appends one of the things that it told.
    pub fn put(&self, said: Said, site: TestRelay, told: &mut Transcript) -> Result<()> {
        let first = Some((0, site.servers[0]));
        match said {
            Said::Listening => told.put("listening", &self.is_listening(site)),
            Said::OverLimit => told.put("over the limit", &self.over_limit),
            Said::Losses => told.put("lost", &self.lost),
            Said::IsLost => told.put("lost", &(self.lost > 0)),
            Said::FirstLost => told.put("first", &(self.first_lost == first)),
            Said::IsUnreached => told.put("unreached", &(self.unreached > 0)),
            Said::Faults => told.put("faults", &self.faults),
            Said::Returns => told.put("back", &self.back),
            Said::IsBack => told.put("back", &(self.back > 0)),
            Said::IsChanged => told.put("changed", &(self.changed > 0)),
            Said::Others => told.put("others", &self.others),
        }
    }

    /// Appends why it closed sources, if it did.
    pub fn put_closings(&self, told: &mut Transcript) -> Result<()> {
        if self.closings.is_empty() {
            return Ok(());
        }
        told.begin_line();
        told.put("closed", &self.closings)
    }
}

impl Observer for RunEvents {
    fn observe(&mut self, event: JournalEvent) {
        match event {
            JournalEvent::Listening { listener, address } => match listener {
                ListenerKind::Source => self.sources_at = Some(address),
                ListenerKind::Monitor => self.monitors_at = Some(address),
            },
            JournalEvent::OverLimit { listener, peer: _ } => self.over_limit = Some(listener),
            JournalEvent::SourceClosed { peer: _, why } => {
                let _ = self.closings.push(why);
            }
            JournalEvent::Unrouted { .. } => {
                let _ = self.closings.push(CloseReason::NoRoute);
            }
            JournalEvent::ServerLost {
                output,
                server,
                why,
                said: _,
            } => self.lose(output, server, why),
            JournalEvent::ServerBack { .. } => self.back = self.back.saturating_add(1),
            JournalEvent::ServerChanged { .. } => self.changed = self.changed.saturating_add(1),
            _ => self.others = self.others.saturating_add(1),
        }
    }
}
