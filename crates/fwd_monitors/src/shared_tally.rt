//! What a relay counts for its metrics page, as its threads share it.

use crate::counting::{count_accepted, count_event, count_news, count_settled};
use crate::observer::{JournalEvent, Observer};
use fwd_base::Text;
use fwd_chunks::Report;
use fwd_links::Notices;
use fwd_monitor::{
    Figures, MemoryRefused, OutputTally, OverLimit, RelayTally, RequestsRefused, ServerTally,
    SessionsLost, SourcesClosed,
};
use std::alloc::{AllocError, Global};
use std::net::SocketAddr;
use std::sync::{Mutex, Wait};

/// No request was refused.
const NONE_REFUSED: RequestsRefused = RequestsRefused {
    memory: 0,
    not_now: 0,
    full: 0,
    numbers_spent: 0,
};

/// No source was closed.
const NONE_CLOSED: SourcesClosed = SourcesClosed {
    reserved: 0,
    too_deep: 0,
    too_long: 0,
    bad_shape: 0,
    bad_tag: 0,
    bad_entry: 0,
    bad_option: 0,
    compressed: 0,
    not_ping: 0,
    denied: 0,
    closed: 0,
    no_route: 0,
    no_login: 0,
    idle: 0,
    refused: NONE_REFUSED,
};

/// No session was lost.
const NONE_LOST: SessionsLost = SessionsLost {
    connect: 0,
    read: 0,
    write: 0,
    descriptors: 0,
    memory: 0,
    closed: 0,
    bad_reply: 0,
    wrong_ack: 0,
    early_ack: 0,
    not_helo: 0,
    denied: 0,
    bad_digest: 0,
    late: 0,
};

/// What a relay counts, which its threads share. A relay without a metrics page counts nothing.
#[derive(Drop)]
pub struct SharedTally {
    tally: Mutex<RelayTally>,
    is_kept: bool,
    /// The match patterns of the outputs, as the settings have them.
    pub patterns: Vec<Text>,
}

/// What an output accepted.
#[derive(Clone, Copy)]
pub struct Accepted {
    /// So many entries whose sources asked for no acknowledgement.
    pub without_ack: u64,
    /// So many bytes of entries, of all sources.
    pub bytes: u64,
}

impl Accepted {
    /// Nothing.
    pub const NOTHING: Accepted = Accepted {
        without_ack: 0,
        bytes: 0,
    };
}

/// A tally at nothing, of no outputs.
pub fn nothing_counted(alloc: Global) -> RelayTally {
    RelayTally {
        closed: NONE_CLOSED,
        over_limit: OverLimit {
            sources: 0,
            monitors: 0,
        },
        memory: MemoryRefused {
            source: 0,
            monitor: 0,
            output: 0,
            news: 0,
            pause: 0,
        },
        outputs: Vec::new(alloc),
        servers: Vec::new(alloc),
    }
}

/// Adds the output of this number, with its servers, of which nothing was counted. The only error
/// is out of memory.
pub fn add_output(
    tally: &mut RelayTally,
    number: u16,
    servers: &[SocketAddr],
) -> Result<(), AllocError> {
    tally.outputs.push(OutputTally {
        refused: NONE_REFUSED,
        without_ack: 0,
        accepted_bytes: 0,
        settled_bytes: 0,
        chunks_refused: 0,
    })?;
    add_servers(&mut tally.servers, number, servers)
}

/// Adds the servers of the output of this number, of which nothing was counted. The only error is
/// out of memory.
fn add_servers(
    servers: &mut Vec<ServerTally>,
    output: u16,
    addresses: &[SocketAddr],
) -> Result<(), AllocError> {
    for (place, address) in (0..u16::MAX).zip(addresses) {
        servers.push(ServerTally {
            output,
            place,
            address: *address,
            lost: NONE_LOST,
            acknowledged: 0,
            resent: 0,
            is_lost: false,
        })?;
    }
    Ok(())
}

impl SharedTally {
    /// So much was counted; and no more will be, where it is not kept.
    pub fn new(alloc: Global, tally: RelayTally, is_kept: bool) -> SharedTally {
        SharedTally {
            tally: Mutex::new(tally),
            is_kept,
            patterns: Vec::new(alloc),
        }
    }

    /// An event is counted, if it is of a kind that is.
    pub fn observe<R: Wait>(&self, rt: &R, event: JournalEvent) {
        if self.is_kept {
            count_event(&mut self.tally.lock(rt), event);
        }
    }

    /// What workers told of their servers is counted.
    pub fn hear<R: Wait>(&self, rt: &R, notices: &Notices) {
        if !self.is_kept || notices.all.is_empty() {
            return;
        }
        let mut tally = self.tally.lock(rt);
        for notice in &notices.all {
            count_news(&mut tally.servers, notice.output, notice.event);
        }
    }

    /// The output of this number accepted so much.
    pub fn accept<R: Wait>(&self, rt: &R, output: u16, accepted: Accepted) {
        if self.is_kept && accepted.bytes > 0 {
            count_accepted(&mut self.tally.lock(rt).outputs, output, accepted);
        }
    }

    /// Counts what is settled in a copy of what was counted, by reports that are later than it, and
    /// keeps that, so that it never falls.
    pub(crate) fn settle<R: Wait>(&self, rt: &R, copy: &mut RelayTally, reports: &[Report]) {
        let mut tally = self.tally.lock(rt);
        for (place, report) in reports.iter().enumerate() {
            let (Some(own), Some(kept)) = (
                copy.outputs.get_mut(place),
                tally.outputs.get_mut(place),
            ) else {
                return;
            };
            count_settled(kept, report.counts.bytes, own.accepted_bytes);
            own.settled_bytes = kept.settled_bytes;
        }
    }

    /// A copy of what was counted so far. The only error is out of memory.
    pub(crate) fn copy<R: Wait>(&self, rt: &R, alloc: Global) -> Result<RelayTally, AllocError> {
        self.tally.lock(rt).to_owned(alloc)
    }
}

/// An observer that is told what it comes to once that was counted.
#[derive(Drop)]
pub struct TallyObserver<'a, R, W> {
    pub rt: &'a R,
    pub tally: &'a SharedTally,
    pub observer: &'a mut W,
}

impl<'a, R: Wait, W: Observer> Observer for TallyObserver<'a, R, W> {
    fn observe(&mut self, event: JournalEvent) {
        self.tally.observe(self.rt, event);
        self.observer.observe(event);
    }

    fn complete(&mut self, figures: Figures) -> Figures {
        self.observer.complete(figures)
    }
}
