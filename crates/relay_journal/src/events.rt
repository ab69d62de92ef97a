//! Each event once, a second apart.

use crate::manual_clock::{ManualClock, START};
use fwd_book::AdmitRefusal;
use fwd_environment::{LinkFault, LossReason, TextFront};
use fwd_journal::Journal;
use fwd_modes::InputFault;
use fwd_monitors::{JournalEvent, ListenerKind, MemoryFor, Observer};
use fwd_msgpack::ScanFault;
use fwd_peers::{CloseReason, PeerAddress};
use fwd_session::SessionFault;
use fwd_source::SourceFault;
use std::io;
use std::net::{Ipv4Addr, Ipv6Addr, SocketAddr};

/// Why sources are closed.
static ENDS: [CloseReason; 17] = [
    CloseReason::Fault(SourceFault::Scan(ScanFault::Reserved)),
    CloseReason::Fault(SourceFault::Scan(ScanFault::TooDeep)),
    CloseReason::Fault(SourceFault::Scan(ScanFault::TooLong)),
    CloseReason::Fault(SourceFault::Input(InputFault::BadShape)),
    CloseReason::Fault(SourceFault::Input(InputFault::BadTag)),
    CloseReason::Fault(SourceFault::Input(InputFault::BadEntry)),
    CloseReason::Fault(SourceFault::Input(InputFault::BadOption)),
    CloseReason::Fault(SourceFault::Input(InputFault::Compressed)),
    CloseReason::Fault(SourceFault::NotPing),
    CloseReason::Fault(SourceFault::Denied),
    CloseReason::Fault(SourceFault::Closed),
    CloseReason::Refused(0, AdmitRefusal::NotNow),
    CloseReason::Refused(65_534, AdmitRefusal::Full),
    CloseReason::TooLarge {
        output: 65_534,
        bytes: 67_108_864,
        limit: 1_048_576,
    },
    CloseReason::Refused(3, AdmitRefusal::NumbersSpent),
    CloseReason::NoLogin,
    CloseReason::Idle,
];

/// Why servers are lost.
static LOSSES: [LossReason; 17] = [
    LossReason::Link(LinkFault::Connect),
    LossReason::Link(LinkFault::Refused),
    LossReason::Link(LinkFault::Unanswered),
    LossReason::Link(LinkFault::Unreachable),
    LossReason::Link(LinkFault::Read),
    LossReason::Link(LinkFault::Write),
    LossReason::Link(LinkFault::Descriptors),
    LossReason::Closed,
    LossReason::Fault(SessionFault::BadReply),
    LossReason::Fault(SessionFault::WrongAck),
    LossReason::Fault(SessionFault::EarlyAck),
    LossReason::Fault(SessionFault::NotHelo),
    LossReason::Fault(SessionFault::Denied),
    LossReason::Fault(SessionFault::BadDigest),
    LossReason::Late,
    LossReason::Memory,
    LossReason::Link(LinkFault::Memory),
];

/// Tags of requests that no output takes.
static TAGS: [&[u8]; 2] = [b"app.\n", b"app.\"web\""];

/// Why servers do not let the relay in, as they say.
static REASONS: [&[u8]; 3] = [b"shared_key mismatch", b"no \"\\\" here", b"a line\n"];

/// What else is told.
static OTHERS: [JournalEvent; 10] = [
    JournalEvent::Memory(MemoryFor::Monitor),
    JournalEvent::Memory(MemoryFor::Output(3)),
    JournalEvent::Memory(MemoryFor::News),
    JournalEvent::FewFiles {
        files: 256,
        sources: 92,
    },
    JournalEvent::Descriptors(ListenerKind::Source),
    JournalEvent::Memory(MemoryFor::Pause),
    JournalEvent::Full {
        output: 63,
        sources: 1_024,
    },
    JournalEvent::Room { output: 63 },
    JournalEvent::LeftOut(3),
    JournalEvent::Stopping { held: 12_345 },
];

/// A journal that is told each event a second after the one before.
#[derive(Drop)]
struct Teller<'a, W: io::Write> {
    clock: &'a ManualClock,
    now: u64,
    journal: Journal<'a, ManualClock, W>,
}

impl<'a, W: io::Write> Teller<'a, W> {
    /// The next event.
    fn tell(&mut self, event: JournalEvent) {
        self.clock.set(Some(self.now));
        self.journal.observe(event);
        self.now = self.now.saturating_add(1_000);
    }
}

/// Says each event.
pub fn say_each(rt: &impl Print) {
    let peer = PeerAddress::Tcp(SocketAddr::from((Ipv4Addr::new(192, 0, 2, 7), 50_000)));
    let server = SocketAddr::from((Ipv6Addr::LOCALHOST, 24_225));
    let clock = ManualClock::new(None);
    let mut out = io::writer(rt);
    let mut teller = Teller {
        clock: &clock,
        now: START,
        journal: Journal::new(&clock, &mut out),
    };
    for listener in &[ListenerKind::Source, ListenerKind::Monitor] {
        let (listener, address) = (*listener, peer);
        teller.tell(JournalEvent::Listening { listener, address });
        teller.tell(JournalEvent::OverLimit { listener, peer });
    }
    say_closed_sources(&mut teller, peer);
    say_lost_servers(&mut teller, server);
    teller.tell(JournalEvent::Silent { peer });
    let (output, worker) = (0, 15);
    teller.tell(JournalEvent::ServerBack { output, server });
    teller.tell(JournalEvent::ServerChanged {
        output,
        worker,
        server,
    });
    teller.tell(JournalEvent::Memory(MemoryFor::Source(peer)));
    for event in &OTHERS {
        teller.tell(*event);
    }
}

/// Says each reason why a source is closed.
fn say_closed_sources<W: io::Write>(teller: &mut Teller<'_, W>, peer: PeerAddress) {
    for why in &ENDS {
        teller.tell(JournalEvent::SourceClosed { peer, why: *why });
    }
    for tag in &TAGS {
        let tag = TextFront::of(tag);
        teller.tell(JournalEvent::Unrouted { peer, tag });
    }
}

/// Says each reason why a server is lost, and what servers say.
fn say_lost_servers<W: io::Write>(teller: &mut Teller<'_, W>, server: SocketAddr) {
    for why in &LOSSES {
        teller.tell(JournalEvent::ServerLost {
            output: 65_534,
            server,
            why: *why,
            said: None,
        });
    }
    for said in &REASONS {
        teller.tell(JournalEvent::ServerLost {
            output: 0,
            server,
            why: LossReason::Fault(SessionFault::Denied),
            said: Some(TextFront::of(said)),
        });
    }
}
