//! What a run tells of itself as it goes on.

use fwd_environment::{LossReason, TextFront};
use fwd_monitor::Figures;
use fwd_peers::{CloseReason, PeerAddress, PeerEnd};
use std::net::SocketAddr;

/// Who connects to a listener.
#[derive(Clone, Copy, Debug)]
pub enum ListenerKind {
    Source,
    Monitor,
}

/// What memory was refused for.
#[derive(Clone, Copy)]
pub enum MemoryFor {
    /// For a source, which is closed.
    Source(PeerAddress),
    /// For a monitor, which is closed.
    Monitor,
    /// For the receipts of the output of this number: they are asked for again.
    Output(u16),
    /// For what workers tell: all outputs are looked at in place of it.
    News,
    /// For a worker, which goes on with what it keeps in reserve, or for a source: no source is
    /// read for a while.
    Pause,
}

/// What a run tells of itself.
#[derive(Clone, Copy)]
pub enum JournalEvent {
    /// It listens at an address.
    Listening {
        listener: ListenerKind,
        address: PeerAddress,
    },
    /// It closes a source.
    SourceClosed {
        peer: PeerAddress,
        why: CloseReason,
    },
    /// It closes a source, since no output takes the tag of its request, which begins so.
    Unrouted {
        peer: PeerAddress,
        tag: TextFront,
    },
    /// A source, which is not asked to log in, has said nothing since it came.
    Silent {
        peer: PeerAddress,
    },
    /// A server of the output of this number is lost.
    ServerLost {
        output: u16,
        server: SocketAddr,
        why: LossReason,
        /// What the server said, if it did not let a worker in.
        said: Option<TextFront>,
    },
    /// A server that was lost acknowledged a chunk.
    ServerBack {
        output: u16,
        server: SocketAddr,
    },
    /// A worker of an output sends its chunk to another server than the one before.
    ServerChanged {
        output: u16,
        worker: u16,
        server: SocketAddr,
    },
    /// A server seems to refuse a chunk of an output: that was lost three times or more, the last
    /// time at this server, which had acknowledged others since it was lost before.
    ChunkRefused {
        output: u16,
        server: SocketAddr,
        /// The first bytes of the chunk's tag.
        tag: TextFront,
        /// The bytes of its entries.
        size: u64,
        /// How often it was lost.
        losses: u8,
        why: LossReason,
    },
    /// A connection is one too many, and is closed at once.
    OverLimit {
        listener: ListenerKind,
        peer: PeerAddress,
    },
    /// The output of this number is full, and so many sources wait until it has room.
    Full {
        output: u16,
        sources: usize,
    },
    /// None has waited there for a while.
    Room {
        output: u16,
    },
    /// Memory was refused.
    Memory(MemoryFor),
    /// The process may have so many files open, which leaves room for so many sources at a time,
    /// fewer than are set.
    FewFiles {
        files: u64,
        sources: usize,
    },
    /// A connection waits for which no descriptor is left: it is tried again.
    Descriptors(ListenerKind),
    /// So many events of readers that are not in front are not told.
    LeftOut(u64),
    /// It was asked to stop, and holds so many entries.
    Stopping {
        held: u64,
    },
}

impl JournalEvent {
    /// What there is to tell of a source that the relay closed, whose first request that waits has
    /// this tag.
    pub fn of_source(peer: PeerAddress, end: PeerEnd, tag: Option<&[u8]>) -> JournalEvent {
        match end {
            PeerEnd::Closed(CloseReason::NoRoute) => {
                let tag = TextFront::of(tag.unwrap_or(&[]));
                JournalEvent::Unrouted { peer, tag }
            }
            PeerEnd::Closed(why) => JournalEvent::SourceClosed { peer, why },
            PeerEnd::Memory => JournalEvent::Memory(MemoryFor::Source(peer)),
        }
    }
}

/// Is told what a run comes to. It is called in the thread of the loop alone. So the loop knows
/// neither the clock on the wall nor standard error; workers put their news where they put settled
/// chunks.
pub trait Observer {
    /// An event is told, when it happens or within a turn of it.
    fn observe(&mut self, event: JournalEvent);

    /// What is known of the relay, with what the observer knows beside: what it left out, and what
    /// the system tells of the process. It is called for each metrics page.
    fn complete(&mut self, figures: Figures) -> Figures {
        figures
    }

    /// A turn of the loop is over. The next one waits at most 100 milliseconds.
    fn turned(&mut self) {}
}

/// Nobody looks.
impl Observer for () {
    fn observe(&mut self, _event: JournalEvent) {}
}
