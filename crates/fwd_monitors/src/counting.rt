//! What is counted of an event, and of what a worker tells.

ghost use Rattle.std.specs.Prelude.{◌≡◌};
ghost use Rattle.fwd_monitors.specs.Counting.{
  listener_after,
  closed_after,
  down_after,
  end_after,
  fault_after,
  link_after,
  lost_after,
  memory_after,
  over_limit_after,
  raised,
  raised_by,
  read_after,
  refused_after,
  scanned_after,
  server_after,
  settled_after,
  settled_bytes,
  purpose_after,
};

use crate::observer::{JournalEvent, ListenerKind, MemoryFor};
use crate::shared_tally::Accepted;
use fwd_book::AdmitRefusal;
use fwd_environment::{LinkFault, LossReason, WorkerEvent};
use fwd_modes::InputFault;
use fwd_monitor::{
    MemoryRefused, OutputTally, OverLimit, RelayTally, RequestsRefused, ServerTally, SessionsLost,
    SourcesClosed,
};
use fwd_msgpack::ScanFault;
use fwd_peers::CloseReason;
use fwd_session::SessionFault;
use fwd_source::SourceFault;

/// There are so many more. Above 2^64 - 1 a count stands.
fn raise_by(count: &mut u64, more: u64)
    ensures { count.new ≡ raised_by more count.old }
{
    *count = count.saturating_add(more);
}

/// There is one more.
fn raise(count: &mut u64)
    ensures { count.new ≡ raised count.old }
{
    raise_by(count, 1);
}

/// Counts an event, if it is of a kind that is counted.
pub(crate) fn count_event(tally: &mut RelayTally, event: JournalEvent)
    ensures closed { tally.new.closed ≡ closed_after event tally.old.closed }
    ensures over_limit { tally.new.over_limit ≡ over_limit_after event tally.old.over_limit }
    ensures memory { tally.new.memory ≡ memory_after event tally.old.memory }
    ensures servers { tally.new.servers ≡ tally.old.servers }
{
    count_closed(&mut tally.closed, event);
    count_over_limit(&mut tally.over_limit, event);
    count_memory(&mut tally.memory, event);
    count_refused(&mut tally.outputs, event);
    count_chunk(&mut tally.outputs, event);
}

/// Counts a source that is closed, if the event is of one.
fn count_closed(closed: &mut SourcesClosed, event: JournalEvent)
    ensures { closed.new ≡ closed_after event closed.old }
{
    match event {
        JournalEvent::SourceClosed { peer: _, why } => count_end(closed, why),
        JournalEvent::Unrouted { peer: _, tag: _ } => raise(&mut closed.no_route),
        _ => {}
    }
}

/// Counts a source that is closed.
fn count_end(closed: &mut SourcesClosed, why: CloseReason)
    ensures { closed.new ≡ end_after why closed.old }
{
    match why {
        CloseReason::Fault(fault) => count_fault(closed, fault),
        CloseReason::Refused(_, refusal) => count_refusal(&mut closed.refused, refusal),
        CloseReason::TooLarge { .. } => count_refusal(&mut closed.refused, AdmitRefusal::Full),
        CloseReason::NoRoute => raise(&mut closed.no_route),
        CloseReason::NoLogin => raise(&mut closed.no_login),
        CloseReason::Idle => raise(&mut closed.idle),
    }
}

/// Counts a source that is closed for a fault.
fn count_fault(closed: &mut SourcesClosed, fault: SourceFault)
    ensures { closed.new ≡ fault_after fault closed.old }
{
    match fault {
        SourceFault::Scan(fault) => count_scan(closed, fault),
        SourceFault::Input(fault) => count_input(closed, fault),
        SourceFault::NotPing => raise(&mut closed.not_ping),
        SourceFault::Denied => raise(&mut closed.denied),
        SourceFault::Closed => raise(&mut closed.closed),
    }
}

/// Counts a source whose bytes begin no value.
fn count_scan(closed: &mut SourcesClosed, fault: ScanFault)
    ensures { closed.new ≡ scanned_after fault closed.old }
{
    match fault {
        ScanFault::Reserved => raise(&mut closed.reserved),
        ScanFault::TooDeep => raise(&mut closed.too_deep),
        ScanFault::TooLong => raise(&mut closed.too_long),
    }
}

/// Counts a source of which a value is no request.
fn count_input(closed: &mut SourcesClosed, fault: InputFault)
    ensures { closed.new ≡ read_after fault closed.old }
{
    match fault {
        InputFault::BadShape => raise(&mut closed.bad_shape),
        InputFault::BadTag => raise(&mut closed.bad_tag),
        InputFault::BadEntry => raise(&mut closed.bad_entry),
        InputFault::BadOption => raise(&mut closed.bad_option),
        InputFault::Compressed => raise(&mut closed.compressed),
    }
}

/// Counts a request that is not admitted.
fn count_refusal(refused: &mut RequestsRefused, refusal: AdmitRefusal)
    ensures { refused.new ≡ refused_after refusal refused.old }
{
    match refusal {
        AdmitRefusal::Memory => raise(&mut refused.memory),
        AdmitRefusal::NotNow => raise(&mut refused.not_now),
        AdmitRefusal::Full => raise(&mut refused.full),
        AdmitRefusal::NumbersSpent => raise(&mut refused.numbers_spent),
    }
}

/// Counts a connection that is one too many, if the event is of one.
fn count_over_limit(over: &mut OverLimit, event: JournalEvent)
    ensures { over.new ≡ over_limit_after event over.old }
{
    match event {
        JournalEvent::OverLimit { listener, peer: _ } => count_listener(over, listener),
        _ => {}
    }
}

/// Counts a connection that is one too many.
fn count_listener(over: &mut OverLimit, listener: ListenerKind)
    ensures { over.new ≡ listener_after listener over.old }
{
    match listener {
        ListenerKind::Source => raise(&mut over.sources),
        ListenerKind::Monitor => raise(&mut over.monitors),
    }
}

/// Counts that memory was refused, if the event is of that.
fn count_memory(memory: &mut MemoryRefused, event: JournalEvent)
    ensures { memory.new ≡ memory_after event memory.old }
{
    match event {
        JournalEvent::Memory(purpose) => count_want(memory, purpose),
        _ => {}
    }
}

/// Counts that memory was refused.
fn count_want(memory: &mut MemoryRefused, purpose: MemoryFor)
    ensures { memory.new ≡ purpose_after purpose memory.old }
{
    match purpose {
        MemoryFor::Source(_) => raise(&mut memory.source),
        MemoryFor::Monitor => raise(&mut memory.monitor),
        MemoryFor::Output(_) => raise(&mut memory.output),
        MemoryFor::News => raise(&mut memory.news),
        MemoryFor::Pause => raise(&mut memory.pause),
    }
}

/// Counts a request that an output did not admit, if the event is of one.
fn count_refused(outputs: &mut Vec<OutputTally>, event: JournalEvent) {
    let JournalEvent::SourceClosed { peer: _, why } = event else {
        return;
    };
    let (output, refusal) = match why {
        CloseReason::Refused(output, refusal) => (output, refusal),
        CloseReason::TooLarge { output, .. } => (output, AdmitRefusal::Full),
        _ => return,
    };
    if let Some(own) = outputs.get_mut(output as usize) {
        count_refusal(&mut own.refused, refusal);
    }
}

/// Counts a chunk that a server seems to refuse, if the event is of one.
fn count_chunk(outputs: &mut Vec<OutputTally>, event: JournalEvent) {
    let JournalEvent::ChunkRefused { output, .. } = event else {
        return;
    };
    if let Some(own) = outputs.get_mut(output as usize) {
        raise(&mut own.chunks_refused);
    }
}

/// Counts what the output of this number accepted.
pub(crate) fn count_accepted(outputs: &mut Vec<OutputTally>, output: u16, accepted: Accepted) {
    if let Some(own) = outputs.get_mut(output as usize) {
        raise_by(&mut own.without_ack, accepted.without_ack);
        raise_by(&mut own.accepted_bytes, accepted.bytes);
    }
}

/// The bytes that are settled of those that an output accepted, where it holds so many, and so many
/// were settled before. What is accepted is counted later than it is held: so it is no less than
/// before.
fn settled_bytes(accepted: u64, held: u64, before: u64) -> u64
    ensures { result ≡ settled_bytes accepted held before }
{
    accepted.saturating_sub(held).max(before)
}

/// Counts what is settled at an output that holds so many bytes, by what was counted of it before
/// these were looked at.
pub(crate) fn count_settled(own: &mut OutputTally, held: u64, accepted: u64)
    ensures { own.new ≡ settled_after accepted held own.old }
{
    own.settled_bytes = settled_bytes(accepted, held, own.settled_bytes);
}

/// Counts what a worker of the output of this number told of a server.
pub(crate) fn count_news(servers: &mut Vec<ServerTally>, output: u16, event: WorkerEvent) {
    let at = match event {
        WorkerEvent::Settled { number: _, server } => server,
        WorkerEvent::Lost {
            server,
            why: _,
            chunks: _,
        } => server,
        WorkerEvent::Went { server: _ } => return,
    };
    let place = servers
        .iter()
        .position(|server| server.output == output && server.place == at);
    let Some(place) = place else {
        return;
    };
    if let Some(server) = servers.get_mut(place) {
        count_news_of(server, event);
    }
}

/// Counts what a worker told of this server.
fn count_news_of(server: &mut ServerTally, event: WorkerEvent)
    ensures { server.new ≡ server_after event server.old }
{
    match event {
        WorkerEvent::Settled {
            number: _,
            server: _,
        } => {
            raise(&mut server.acknowledged);
            server.is_lost = false;
        }
        WorkerEvent::Lost {
            server: _,
            why,
            chunks,
        } => {
            count_loss(&mut server.lost, why);
            raise_by(&mut server.resent, chunks);
            server.is_lost = true;
        }
        WorkerEvent::Went { server: _ } => {}
    }
}

/// Counts a session that was lost.
fn count_loss(lost: &mut SessionsLost, why: LossReason)
    ensures { lost.new ≡ lost_after why lost.old }
{
    match why {
        LossReason::Link(fault) => count_link(lost, fault),
        LossReason::Closed => raise(&mut lost.closed),
        LossReason::Fault(fault) => count_down(lost, fault),
        LossReason::Late => raise(&mut lost.late),
        LossReason::Memory => raise(&mut lost.memory),
    }
}

/// Counts a session whose link could not be had, or failed.
fn count_link(lost: &mut SessionsLost, fault: LinkFault)
    ensures { lost.new ≡ link_after fault lost.old }
{
    match fault {
        LinkFault::Connect | LinkFault::Refused | LinkFault::Unanswered | LinkFault::Unreachable =>
            raise(&mut lost.connect),
        LinkFault::Read => raise(&mut lost.read),
        LinkFault::Write => raise(&mut lost.write),
        LinkFault::Descriptors => raise(&mut lost.descriptors),
        LinkFault::Memory => raise(&mut lost.memory),
    }
}

/// Counts a session that what the server sent put down.
fn count_down(lost: &mut SessionsLost, fault: SessionFault)
    ensures { lost.new ≡ down_after fault lost.old }
{
    match fault {
        SessionFault::BadReply => raise(&mut lost.bad_reply),
        SessionFault::WrongAck => raise(&mut lost.wrong_ack),
        SessionFault::EarlyAck => raise(&mut lost.early_ack),
        SessionFault::NotHelo => raise(&mut lost.not_helo),
        SessionFault::Denied => raise(&mut lost.denied),
        SessionFault::BadDigest => raise(&mut lost.bad_digest),
    }
}
