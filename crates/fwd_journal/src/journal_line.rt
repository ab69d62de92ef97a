//! What is said of an event.

ghost use Rattle.std.specs.Prelude.{◌≡◌, ◌↔◌, ◌<◌, true, Some, slice_get};
ghost use Rattle.fwd_journal.specs.Subjects.{AreSame, AreOthers};
ghost use Rattle.fwd_journal.specs.declared.journal_line.TheConstants.LineKind.{ALL};

use crate::shown_text::ShownText;
use fwd_book::AdmitRefusal;
use fwd_environment::{LinkFault, LossReason, TextFront};
use fwd_monitors::{JournalEvent, ListenerKind, MemoryFor};
use fwd_peers::{CloseReason, PeerAddress};
use fwd_script::{session_fault_name, source_fault_name};
use std::fmt;
use std::net::SocketAddr;

/// The kinds of events.
#[derive(Clone, Copy, PartialEq, Eq)]
pub enum LineKind {
    Listening = 0,
    SourceClosed = 1,
    ServerLost = 2,
    ServerBack = 3,
    ServerChanged = 4,
    OverLimit = 5,
    Memory = 6,
    FewFiles = 7,
    Descriptors = 8,
    ChunkRefused = 9,
    OutputFull = 10,
    LeftOut = 11,
    Stopping = 12,
    SourceSilent = 13,
}

impl LineKind {
    /// How many kinds there are.
    pub const COUNT: usize = 14;

    /// Each kind once.
    pub const ALL: [LineKind; 14] = [
        LineKind::Listening,
        LineKind::SourceClosed,
        LineKind::ServerLost,
        LineKind::ServerBack,
        LineKind::ServerChanged,
        LineKind::OverLimit,
        LineKind::Memory,
        LineKind::FewFiles,
        LineKind::Descriptors,
        LineKind::ChunkRefused,
        LineKind::OutputFull,
        LineKind::LeftOut,
        LineKind::Stopping,
        LineKind::SourceSilent,
    ];

    /// Its place among all.
    pub fn place(self) -> usize
        ensures place { slice_get ALL result ≡ Some self }
        ensures within { result < 14 }
    {
        self as usize
    }

    /// The one at a place.
    pub fn at(place: usize) -> LineKind
        requires { place < 14 }
        ensures { slice_get ALL place ≡ Some result }
    {
        LineKind::ALL[place]
    }

    /// The kind of an event.
    pub fn of(event: &JournalEvent) -> LineKind {
        match event {
            JournalEvent::Listening { .. } => LineKind::Listening,
            JournalEvent::SourceClosed { .. } | JournalEvent::Unrouted { .. } =>
                LineKind::SourceClosed,
            JournalEvent::ServerLost { .. } => LineKind::ServerLost,
            JournalEvent::ServerBack { .. } => LineKind::ServerBack,
            JournalEvent::ServerChanged { .. } => LineKind::ServerChanged,
            JournalEvent::OverLimit { .. } => LineKind::OverLimit,
            JournalEvent::Memory(_) => LineKind::Memory,
            JournalEvent::FewFiles { .. } => LineKind::FewFiles,
            JournalEvent::Descriptors(_) => LineKind::Descriptors,
            JournalEvent::ChunkRefused { .. } => LineKind::ChunkRefused,
            JournalEvent::Full { .. } | JournalEvent::Room { .. } => LineKind::OutputFull,
            JournalEvent::LeftOut(_) => LineKind::LeftOut,
            JournalEvent::Stopping { .. } => LineKind::Stopping,
            JournalEvent::Silent { .. } => LineKind::SourceSilent,
        }
    }
}

/// What each line of the kind begins with.
impl fmt::Display for LineKind {
    fn fmt<W: fmt::Write>(&self, f: &mut fmt::Formatter<W>) -> fmt::Result {
        f.write_str(match self {
            LineKind::Listening => "listening",
            LineKind::SourceClosed => "source closed",
            LineKind::ServerLost => "server lost",
            LineKind::ServerBack => "server back",
            LineKind::ServerChanged => "server changed",
            LineKind::OverLimit => "over the limit",
            LineKind::Memory => "memory",
            LineKind::FewFiles => "few files",
            LineKind::Descriptors => "no descriptor",
            LineKind::ChunkRefused => "chunk refused",
            LineKind::OutputFull => "output full",
            LineKind::LeftOut => "journal",
            LineKind::Stopping => "stopping",
            LineKind::SourceSilent => "source silent",
        })
    }
}

/// What lines are about that are limited together: the kind, and the name and the output where
/// they have any.
#[derive(Clone, Copy, PartialEq, Eq)]
pub struct Subject {
    pub kind: LineKind,
    name: &'static str,
    output: Option<u16>,
}

impl Subject {
    /// What an event is about.
    pub fn of(event: &JournalEvent) -> Subject {
        let kind = LineKind::of(event);
        let (name, output) = match event {
            JournalEvent::Listening { listener, .. } => (listener_name(*listener), None),
            JournalEvent::SourceClosed { why, .. } => (close_reason_name(*why), output_of(*why)),
            JournalEvent::Unrouted { .. } => (close_reason_name(CloseReason::NoRoute), None),
            JournalEvent::ServerLost { output, why, .. } => (loss_name(*why), Some(*output)),
            JournalEvent::ServerBack { output, .. } => ("", Some(*output)),
            JournalEvent::ServerChanged { output, .. } => ("", Some(*output)),
            JournalEvent::OverLimit { listener, .. } => (listener_name(*listener), None),
            JournalEvent::Memory(MemoryFor::Output(output)) => ("", Some(*output)),
            JournalEvent::Memory(purpose) => (purpose_name(*purpose), None),
            JournalEvent::FewFiles { .. } => ("", None),
            JournalEvent::Descriptors(listener) => (listener_name(*listener), None),
            JournalEvent::ChunkRefused { output, .. } => ("", Some(*output)),
            JournalEvent::Full { output, .. } | JournalEvent::Room { output } => (
                "",
                Some(*output),
            ),
            JournalEvent::LeftOut(_)
            | JournalEvent::Stopping { .. }
            | JournalEvent::Silent { .. } => ("", None),
        };
        Subject { kind, name, output }
    }

    /// Other lines of a kind.
    pub fn others(kind: LineKind) -> Subject
        ensures { AreOthers kind result }
    {
        let (name, output) = ("others", None);
        Subject { kind, name, output }
    }

    /// Whether both are one subject.
    pub fn is_same(&self, other: &Subject) -> bool
        ensures { result ≡ true ↔ AreSame self.now other.now }
    {
        self == other
    }
}

/// What lines of the subject have in common.
impl fmt::Display for Subject {
    fn fmt<W: fmt::Write>(&self, f: &mut fmt::Formatter<W>) -> fmt::Result {
        let Subject { kind, name, output } = self;
        write!(f, "{kind}:")?;
        if let Some(output) = output {
            write!(f, " output {output}")?;
        }
        if name.is_empty() {
            return Ok(());
        }
        write!(f, " {name}")
    }
}

/// An event in words, on one line, without its line feed. Bytes of a peer stand in it as
/// `ShownText` shows them.
#[derive(Clone, Copy)]
pub struct JournalLine {
    pub event: JournalEvent,
}

impl fmt::Display for JournalLine {
    fn fmt<W: fmt::Write>(&self, f: &mut fmt::Formatter<W>) -> fmt::Result {
        let kind = LineKind::of(&self.event);
        if kind != LineKind::OutputFull {
            write!(f, "{kind}: ")?;
        }
        write_event(f, self.event)
    }
}

/// What is said of an event behind its kind.
fn write_event<W: fmt::Write>(f: &mut fmt::Formatter<W>, event: JournalEvent) -> fmt::Result {
    match event {
        JournalEvent::Listening { listener, address } => write_listening(f, listener, address),
        JournalEvent::SourceClosed { peer, why } => write_closed(f, peer, why),
        JournalEvent::Unrouted { peer, tag } => write_unrouted(f, peer, tag),
        JournalEvent::ServerLost {
            output,
            server,
            why,
            said,
        } => write_loss(f, output, server, why, said),
        JournalEvent::ServerBack { output, server } => write!(f, "output {output} {server}"),
        JournalEvent::ServerChanged {
            output,
            worker,
            server,
        } => write!(f, "output {output} worker {worker} {server}"),
        JournalEvent::OverLimit { listener, peer } => write_over_limit(f, listener, peer),
        JournalEvent::Memory(purpose) => tell_purpose(f, purpose),
        JournalEvent::FewFiles { files, sources } => {
            write!(f, "{files} open at most, {sources} sources")
        }
        JournalEvent::Descriptors(listener) => f.write_str(listener_name(listener)),
        JournalEvent::ChunkRefused {
            output,
            server,
            tag,
            size,
            losses,
            why,
        } => {
            write_chunk(f, output, tag, size, losses)?;
            write_refuser(f, server, why)
        }
        JournalEvent::Full { output, sources } => {
            write!(f, "output {output} full: {sources} sources wait")
        }
        JournalEvent::Room { output } => write!(f, "output {output} has room"),
        JournalEvent::LeftOut(count) => write!(f, "{count} left out"),
        JournalEvent::Stopping { held } => write!(f, "asked, {held} entries held"),
        JournalEvent::Silent { peer } => write!(f, "{peer} may wait for a HELO"),
    }
}

/// A listener, and where it listens.
fn write_listening<W: fmt::Write>(
    f: &mut fmt::Formatter<W>,
    listener: ListenerKind,
    address: PeerAddress,
) -> fmt::Result {
    let listener = listener_name(listener);
    write!(f, "{listener}s at {address}")
}

/// A connection that is one too many.
fn write_over_limit<W: fmt::Write>(
    f: &mut fmt::Formatter<W>,
    listener: ListenerKind,
    peer: PeerAddress,
) -> fmt::Result {
    let listener = listener_name(listener);
    write!(f, "{listener} {peer}")
}

/// A source that is closed, and why.
fn write_closed<W: fmt::Write>(
    f: &mut fmt::Formatter<W>,
    peer: PeerAddress,
    why: CloseReason,
) -> fmt::Result {
    let name = close_reason_name(why);
    write!(f, "{peer} {name}")?;
    write_place(f, why)
}

/// A source that is closed for the tag of its request.
fn write_unrouted<W: fmt::Write>(
    f: &mut fmt::Formatter<W>,
    peer: PeerAddress,
    tag: TextFront,
) -> fmt::Result {
    let name = close_reason_name(CloseReason::NoRoute);
    let bytes = tag.as_slice();
    let tag = ShownText { bytes };
    write!(f, "{peer} {name} tag {tag}")
}

/// A server that is lost, why, and what it said.
fn write_loss<W: fmt::Write>(
    f: &mut fmt::Formatter<W>,
    output: u16,
    server: SocketAddr,
    why: LossReason,
    said: Option<TextFront>,
) -> fmt::Result {
    let name = loss_name(why);
    write!(f, "output {output} {server} {name}")?;
    write_cause(f, why)?;
    match said {
        None => Ok(()),
        Some(said) => {
            let bytes = said.as_slice();
            let said = ShownText { bytes };
            write!(f, " {said}")
        }
    }
}

/// A chunk that a server seems to refuse.
fn write_chunk<W: fmt::Write>(
    f: &mut fmt::Formatter<W>,
    output: u16,
    tag: TextFront,
    size: u64,
    losses: u8,
) -> fmt::Result {
    let bytes = tag.as_slice();
    let tag = ShownText { bytes };
    write!(f, "output {output} tag {tag} bytes {size} losses {losses}")
}

/// The server that seems to refuse a chunk, and why it was lost.
fn write_refuser<W: fmt::Write>(
    f: &mut fmt::Formatter<W>,
    server: SocketAddr,
    why: LossReason,
) -> fmt::Result {
    let name = loss_name(why);
    write!(f, " server {server} {name}")
}

/// The output that closes a source, where one does, and how long the request is that it never
/// admits.
fn write_place<W: fmt::Write>(f: &mut fmt::Formatter<W>, why: CloseReason) -> fmt::Result {
    if let Some(output) = output_of(why) {
        write!(f, " output {output}")?;
    }
    match why {
        CloseReason::TooLarge { bytes, limit, .. } => write!(f, " bytes {bytes} limit {limit}"),
        _ => Ok(()),
    }
}

/// Why a server could not be connected to, where the system says it.
fn write_cause<W: fmt::Write>(f: &mut fmt::Formatter<W>, why: LossReason) -> fmt::Result {
    match why {
        LossReason::Link(LinkFault::Refused) => f.write_str(" refused"),
        LossReason::Link(LinkFault::Unanswered) => f.write_str(" unanswered"),
        LossReason::Link(LinkFault::Unreachable) => f.write_str(" unreachable"),
        _ => Ok(()),
    }
}

/// What memory was refused for.
fn tell_purpose<W: fmt::Write>(f: &mut fmt::Formatter<W>, purpose: MemoryFor) -> fmt::Result {
    match purpose {
        MemoryFor::Source(peer) => write!(f, "source {peer}"),
        MemoryFor::Output(output) => write!(f, "output {output}"),
        purpose => f.write_str(purpose_name(purpose)),
    }
}

/// What memory was refused for, but for an output.
fn purpose_name(purpose: MemoryFor) -> &'static str {
    match purpose {
        MemoryFor::Source(_) => "source",
        MemoryFor::Monitor => "monitor",
        MemoryFor::Output(_) => "output",
        MemoryFor::News => "news of workers",
        MemoryFor::Pause => "no source is read",
    }
}

/// Who connects to a listener.
fn listener_name(listener: ListenerKind) -> &'static str {
    match listener {
        ListenerKind::Source => "source",
        ListenerKind::Monitor => "monitor",
    }
}

/// The name of why a source is closed.
fn close_reason_name(why: CloseReason) -> &'static str {
    match why {
        CloseReason::Fault(fault) => source_fault_name(fault),
        CloseReason::Refused(_, refusal) => admit_refusal_name(refusal),
        CloseReason::TooLarge { .. } => admit_refusal_name(AdmitRefusal::Full),
        CloseReason::NoRoute => "NoRoute",
        CloseReason::NoLogin => "NoLogin",
        CloseReason::Idle => "Idle",
    }
}

/// The output that closes a source, where one does.
fn output_of(why: CloseReason) -> Option<u16> {
    match why {
        CloseReason::Refused(output, _) | CloseReason::TooLarge { output, .. } => Some(output),
        _ => None,
    }
}

/// The name of why an output does not admit a request.
fn admit_refusal_name(refusal: AdmitRefusal) -> &'static str {
    match refusal {
        AdmitRefusal::Memory => "Memory",
        AdmitRefusal::NotNow => "NotNow",
        AdmitRefusal::Full => "Full",
        AdmitRefusal::NumbersSpent => "NumbersSpent",
    }
}

/// The name of why a server is lost.
fn loss_name(why: LossReason) -> &'static str {
    match why {
        LossReason::Link(
            LinkFault::Connect
            | LinkFault::Refused
            | LinkFault::Unanswered
            | LinkFault::Unreachable,
        ) => "Connect",
        LossReason::Link(LinkFault::Read) => "Read",
        LossReason::Link(LinkFault::Write) => "Write",
        LossReason::Link(LinkFault::Descriptors) => "Descriptors",
        LossReason::Link(LinkFault::Memory) => "Memory",
        LossReason::Closed => "Closed",
        LossReason::Fault(fault) => session_fault_name(fault),
        LossReason::Late => "Late",
        LossReason::Memory => "Memory",
    }
}
