//! What the metrics page says of what was counted.

ghost use Rattle.std.specs.Prelude.{◌≡◌, ◌++◌, IfOk, OnOk, codes};
ghost use Rattle.std.specs.Net.Text.{socket_text};
ghost use Rattle.std.specs.String.{string_bytes};
ghost use Rattle.fwd_monitor.specs.Tallies as tallies;
ghost use Rattle.fwd_monitor.specs.Tallies.{
  by_count,
  by_server,
  closed_lines,
  closed_text,
  flag,
  lost_lines,
  lost_samples,
  memory_lines,
  memory_text,
  output_tally_text,
  over_limit_lines,
  over_limit_text,
  place_front,
  reason_front,
  refused,
  refused_lines,
  refused_samples,
  refused_text,
  relay_tally_text,
  server_samples,
  value_line,
};

use crate::measure::{OutputCount, ServerMeasure};
use crate::samples::{push_head, push_sample, push_word};
use crate::tally::{
    MemoryRefused, OutputTally, OverLimit, RelayTally, RequestsRefused, ServerTally, SessionsLost,
    SourcesClosed,
};
use std::alloc::{AllocError, Global};
use std::net::SocketAddr;

/// Adds what was counted of the relay.
pub(crate) fn push_relay_tally(text: &mut String, tally: &RelayTally) -> Result<(), AllocError>
    ensures { OnOk result
        (string_bytes text.new ≡ string_bytes text.old ++ relay_tally_text tally.now) }
{
    push_closed(text, tally.closed)?;
    push_over_limit(text, tally.over_limit)?;
    push_memory(text, tally.memory)
}

/// Adds the sources that were closed.
fn push_closed(text: &mut String, closed: SourcesClosed) -> Result<(), AllocError>
    ensures { OnOk result (string_bytes text.new ≡ string_bytes text.old ++ closed_text closed) }
{
    let name = "forward_relay_sources_closed_total";
    push_head(
        text,
        name,
        "counter",
        "Sources that the relay closed, by why.",
    )?;
    push_closed_lines(text, "forward_relay_sources_closed_total{reason=\"", closed)?;
    Ok(())
}

/// Adds the samples of sources that were closed, behind this text each.
#[tactic(auto, unfolding(crate::specs::Tallies::closed_lines))]
fn push_closed_lines(
    text: &mut String,
    front: &str,
    closed: SourcesClosed,
) -> Result<(), AllocError>
    ensures { OnOk result (string_bytes text.new
        ≡ string_bytes text.old ++ closed_lines front.now closed) }
{
    let SourcesClosed {
        reserved,
        too_deep,
        too_long,
        bad_shape,
        bad_tag,
        bad_entry,
        bad_option,
        compressed,
        not_ping,
        denied,
        closed,
        no_route,
        no_login,
        idle,
        refused,
    } = closed;
    push_word(text, front, "Reserved", reserved)?;
    push_word(text, front, "TooDeep", too_deep)?;
    push_word(text, front, "TooLong", too_long)?;
    push_word(text, front, "BadShape", bad_shape)?;
    push_word(text, front, "BadTag", bad_tag)?;
    push_word(text, front, "BadEntry", bad_entry)?;
    push_word(text, front, "BadOption", bad_option)?;
    push_word(text, front, "Compressed", compressed)?;
    push_word(text, front, "NotPing", not_ping)?;
    push_word(text, front, "Denied", denied)?;
    push_word(text, front, "Closed", closed)?;
    push_word(text, front, "NoRoute", no_route)?;
    push_word(text, front, "NoLogin", no_login)?;
    push_word(text, front, "Idle", idle)?;
    push_refused_lines(text, front, refused)?;
    Ok(())
}

/// Adds the samples of requests that were not admitted, behind this text each.
#[tactic(auto, unfolding(crate::specs::Tallies::refused_lines))]
fn push_refused_lines(
    text: &mut String,
    front: &str,
    refused: RequestsRefused,
) -> Result<(), AllocError>
    ensures { OnOk result (string_bytes text.new
        ≡ string_bytes text.old ++ refused_lines front.now refused) }
{
    let RequestsRefused {
        memory,
        not_now,
        full,
        numbers_spent,
    } = refused;
    push_word(text, front, "Memory", memory)?;
    push_word(text, front, "NotNow", not_now)?;
    push_word(text, front, "Full", full)?;
    push_word(text, front, "NumbersSpent", numbers_spent)?;
    Ok(())
}

/// Adds the connections that were too many.
fn push_over_limit(text: &mut String, over: OverLimit) -> Result<(), AllocError>
    ensures { OnOk result (string_bytes text.new ≡ string_bytes text.old ++ over_limit_text over) }
{
    let help = "Connections that were closed at once, since they were too many.";
    push_head(text, "forward_relay_over_limit_total", "counter", help)?;
    push_over_limit_lines(text, "forward_relay_over_limit_total{caller=\"", over)?;
    Ok(())
}

/// Adds the samples of connections that were too many, behind this text each.
#[tactic(auto, unfolding(crate::specs::Tallies::over_limit_lines))]
fn push_over_limit_lines(text: &mut String, front: &str, over: OverLimit) -> Result<(), AllocError>
    ensures { OnOk result (string_bytes text.new
        ≡ string_bytes text.old ++ over_limit_lines front.now over) }
{
    let OverLimit { sources, monitors } = over;
    push_word(text, front, "source", sources)?;
    push_word(text, front, "monitor", monitors)
}

/// Adds how often memory was refused.
fn push_memory(text: &mut String, memory: MemoryRefused) -> Result<(), AllocError>
    ensures { OnOk result (string_bytes text.new ≡ string_bytes text.old ++ memory_text memory) }
{
    let name = "forward_relay_memory_refused_total";
    push_head(
        text,
        name,
        "counter",
        "Times that memory was refused, by what for.",
    )?;
    push_memory_lines(text, "forward_relay_memory_refused_total{what=\"", memory)?;
    Ok(())
}

/// Adds the samples of memory that was refused, behind this text each.
#[tactic(auto, unfolding(crate::specs::Tallies::memory_lines))]
fn push_memory_lines(
    text: &mut String,
    front: &str,
    memory: MemoryRefused,
) -> Result<(), AllocError>
    ensures { OnOk result (string_bytes text.new
        ≡ string_bytes text.old ++ memory_lines front.now memory) }
{
    let MemoryRefused {
        source,
        monitor,
        output,
        news,
        pause,
    } = memory;
    push_word(text, front, "source", source)?;
    push_word(text, front, "monitor", monitor)?;
    push_word(text, front, "output", output)?;
    push_word(text, front, "news of workers", news)?;
    push_word(text, front, "no source is read", pause)
}

/// Adds what was counted of outputs and their servers.
pub(crate) fn push_output_tally(
    alloc: Global,
    text: &mut String,
    tally: &RelayTally,
) -> Result<(), AllocError>
    ensures { OnOk result (string_bytes text.new ≡ string_bytes text.old
        ++ output_tally_text tally.now.outputs.items tally.now.servers.items) }
{
    let RelayTally {
        outputs,
        servers,
        ..
    } = tally;
    push_refused(alloc, text, outputs)?;
    push_by_count(text, OutputCount::WithoutAck, outputs)?;
    push_by_count(text, OutputCount::AcceptedBytes, outputs)?;
    push_by_count(text, OutputCount::SettledBytes, outputs)?;
    push_by_count(text, OutputCount::ChunksRefused, outputs)?;
    push_by_server(alloc, text, ServerMeasure::Lost, servers)?;
    push_by_server(alloc, text, ServerMeasure::Acknowledged, servers)?;
    push_by_server(alloc, text, ServerMeasure::Resent, servers)?;
    push_by_server(alloc, text, ServerMeasure::IsLost, servers)
}

/// Adds the requests that outputs did not admit.
fn push_refused(alloc: Global, text: &mut String, outputs: &[OutputTally]) -> Result<(), AllocError>
    ensures { OnOk result
        (string_bytes text.new ≡ string_bytes text.old ++ refused_text outputs.now) }
{
    let help = "Requests that an output did not admit, by why.";
    push_refused_by(
        alloc,
        text,
        "forward_relay_requests_refused_total",
        help,
        outputs,
    )
}

/// Adds a counter that says so of each output.
#[tactic(auto, unfolding(crate::specs::Tallies::refused))]
fn push_refused_by(
    alloc: Global,
    text: &mut String,
    name: &str,
    help: &str,
    outputs: &[OutputTally],
) -> Result<(), AllocError>
    ensures { OnOk result (string_bytes text.new
        ≡ string_bytes text.old ++ refused name.now help.now outputs.now) }
{
    push_head(text, name, "counter", help)?;
    for (output, tally) in outputs.iter().enumerate() {
        push_refused_at(alloc, text, name, output, tally)?;
    }
    Ok(())
}

/// Adds the samples of the output of this number.
fn push_refused_at(
    alloc: Global,
    text: &mut String,
    name: &str,
    output: usize,
    tally: &OutputTally,
) -> Result<(), AllocError>
    ensures { OnOk result (string_bytes text.new
        ≡ string_bytes text.old ++ refused_samples name.now (output, tally.now)) }
{
    let mut front = String::new(alloc);
    push_reason_front(&mut front, name, output)?;
    push_refused_lines(text, &front, tally.refused)
}

/// Adds the front of an output's samples by a reason.
fn push_reason_front(text: &mut String, name: &str, output: usize) -> Result<(), AllocError>
    ensures { OnOk result (string_bytes text.new
        ≡ string_bytes text.old ++ reason_front name.now output) }
{
    write!(text, "{name}{{output=\"{output}\",reason=\"")
}

/// Adds a counter with a sample for each output.
#[tactic(auto, unfolding(crate::specs::Tallies::by_count))]
fn push_by_count(
    text: &mut String,
    count: OutputCount,
    outputs: &[OutputTally],
) -> Result<(), AllocError>
    ensures { OnOk result
        (string_bytes text.new ≡ string_bytes text.old ++ by_count count outputs.now) }
{
    push_head(text, count.name(), "counter", count.help())?;
    for (output, tally) in outputs.iter().enumerate() {
        push_sample(text, count.name(), output, count.of(tally))?;
    }
    Ok(())
}

/// Adds a metric with the samples of each server.
#[tactic(auto, unfolding(crate::specs::Tallies::by_server))]
fn push_by_server(
    alloc: Global,
    text: &mut String,
    measure: ServerMeasure,
    servers: &[ServerTally],
) -> Result<(), AllocError>
    ensures { OnOk result
        (string_bytes text.new ≡ string_bytes text.old ++ by_server measure servers.now) }
{
    push_head(text, measure.name(), measure.kind(), measure.help())?;
    for server in servers {
        push_server(alloc, text, measure, server)?;
    }
    Ok(())
}

/// Adds the samples of a server.
fn push_server(
    alloc: Global,
    text: &mut String,
    measure: ServerMeasure,
    server: &ServerTally,
) -> Result<(), AllocError>
    ensures { OnOk result (string_bytes text.new
        ≡ string_bytes text.old ++ server_samples measure server.now) }
{
    let front = server_front(alloc, measure.name(), server)?;
    match measure {
        ServerMeasure::Lost => push_lost(alloc, text, &front, server.lost),
        ServerMeasure::Acknowledged => push_value(text, &front, server.acknowledged),
        ServerMeasure::Resent => push_value(text, &front, server.resent),
        ServerMeasure::IsLost => push_value(text, &front, u64::from(server.is_lost)),
    }
}

/// The front of a server's samples.
fn server_front(alloc: Global, name: &str, server: &ServerTally) -> Result<String, AllocError>
    ensures { IfOk result
        (λ front. string_bytes front ≡ tallies.server_front name.now server.now) }
{
    let mut front = String::new(alloc);
    push_place(&mut front, name, server.output, server.place)?;
    push_address(&mut front, server.address)?;
    Ok(front)
}

/// Adds what stands in it in front of the address.
fn push_place(text: &mut String, name: &str, output: u16, place: u16) -> Result<(), AllocError>
    ensures { OnOk result (string_bytes text.new
        ≡ string_bytes text.old ++ place_front name.now output place) }
{
    write!(
        text,
        "{name}{{output=\"{output}\",place=\"{place}\",server=\""
    )
}

/// Adds an address and the end of its label.
fn push_address(text: &mut String, address: SocketAddr) -> Result<(), AllocError>
    ensures { OnOk result (string_bytes text.new
        ≡ string_bytes text.old ++ (socket_text address ++ codes "\"")) }
{
    write!(text, "{address}\"")
}

/// Adds a sample behind this front.
#[tactic(auto, unfolding(crate::specs::Tallies::value_line))]
fn push_value(text: &mut String, front: &str, value: u64) -> Result<(), AllocError>
    ensures { OnOk result
        (string_bytes text.new ≡ string_bytes text.old ++ value_line front.now value) }
{
    write!(text, "{front}}} {value}\n")
}

/// Adds the samples of sessions that were lost, behind this front each.
#[tactic(auto, unfolding(crate::specs::Tallies::lost_samples))]
fn push_lost(
    alloc: Global,
    text: &mut String,
    front: &str,
    lost: SessionsLost,
) -> Result<(), AllocError>
    ensures { OnOk result
        (string_bytes text.new ≡ string_bytes text.old ++ lost_samples front.now lost) }
{
    let front = format!(in alloc; "{front},reason=\"")?;
    push_lost_lines(text, &front, lost)
}

/// Adds the samples of sessions that were lost, behind this text each.
#[tactic(auto, unfolding(crate::specs::Tallies::lost_lines))]
fn push_lost_lines(text: &mut String, front: &str, lost: SessionsLost) -> Result<(), AllocError>
    ensures { OnOk result (string_bytes text.new
        ≡ string_bytes text.old ++ lost_lines front.now lost) }
{
    let SessionsLost {
        connect,
        read,
        write,
        descriptors,
        memory,
        closed,
        bad_reply,
        wrong_ack,
        early_ack,
        not_helo,
        denied,
        bad_digest,
        late,
    } = lost;
    push_word(text, front, "Connect", connect)?;
    push_word(text, front, "Read", read)?;
    push_word(text, front, "Write", write)?;
    push_word(text, front, "Descriptors", descriptors)?;
    push_word(text, front, "Memory", memory)?;
    push_word(text, front, "Closed", closed)?;
    push_word(text, front, "BadReply", bad_reply)?;
    push_word(text, front, "WrongAck", wrong_ack)?;
    push_word(text, front, "EarlyAck", early_ack)?;
    push_word(text, front, "NotHelo", not_helo)?;
    push_word(text, front, "Denied", denied)?;
    push_word(text, front, "BadDigest", bad_digest)?;
    push_word(text, front, "Late", late)?;
    Ok(())
}
