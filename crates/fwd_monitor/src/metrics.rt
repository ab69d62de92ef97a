//! The metrics page, in Prometheus' text format.

ghost use Rattle.std.specs.Prelude.{◌≡◌, ◌++◌, IfOk, OnOk, codes, take};
ghost use Rattle.std.specs.List.{flat_map};
ghost use Rattle.std.specs.String.{string_bytes};
ghost use Rattle.fwd_monitor.specs.Metrics.{
  build_text,
  by_figure,
  by_output,
  by_tag,
  end_text,
  figures_text,
  flag_value,
  info_head,
  info_line,
  info_lines,
  infos_text,
  known_text,
  left_out,
  left_out_text,
  metrics_of,
  output_figures_text,
  outputs_text,
  process_text,
  start_text,
  tag_sample,
  text_label,
};

use crate::figures::{Figures, OutputFigures, ProcessFigures};
use crate::labels::push_label;
use crate::limits::MAX_TAGS;
use crate::measure::{Measure, OutputFigure, TagMeasure};
use crate::samples::{
    push_counter, push_gauge, push_gauge_if, push_head, push_sample, push_seconds_if, push_word,
};
use crate::tallies::{push_output_tally, push_relay_tally};
use crate::tally::RelayTally;
use crate::version::VERSION;
use fwd_base::{Report, TagCount, Text};
use std::alloc::{AllocError, Global};

/// The metrics page in Prometheus' text format 0.0.4: what is known of the relay and its process
/// and what it counted, what each output has to do with, the most bytes that it holds, how old its
/// oldest chunk is and what waits to be taken, what was counted of it and of its servers, which
/// tags each output takes, and what is held of the first `MAX_TAGS` tags, with how many of each
/// output's are left out. Outputs are numbered from 0 on. Its only error is out of memory.
pub fn metrics_page(
    alloc: Global,
    figures: Figures,
    outputs: &[OutputFigures],
    reports: &[Report],
    tally: &RelayTally,
) -> Result<Vec<u8>, AllocError>
    ensures { IfOk result
        (λ page. page.items ≡ metrics_of figures outputs.now reports.now tally.now) }
{
    let mut text = String::new(alloc);
    push_figures(&mut text, figures)?;
    push_relay_tally(&mut text, tally)?;
    push_outputs(&mut text, reports)?;
    push_output_figures(&mut text, outputs)?;
    push_output_tally(alloc, &mut text, tally)?;
    push_left_out(&mut text, reports)?;
    let mut page = text.into_bytes();
    push_end(alloc, &mut page, outputs, reports)?;
    Ok(page)
}

/// Adds the end of the page: which tags each output takes, and what is held of them.
fn push_end(
    alloc: Global,
    page: &mut Vec<u8>,
    outputs: &[OutputFigures],
    reports: &[Report],
) -> Result<(), AllocError>
    ensures { OnOk result
        (page.new.items ≡ page.old.items ++ end_text outputs.now reports.now) }
{
    push_infos(alloc, page, outputs)?;
    push_by_tag(alloc, page, TagMeasure::Entries, reports)?;
    push_by_tag(alloc, page, TagMeasure::EntryBytes, reports)?;
    Ok(())
}

/// Adds what is said of the relay itself.
fn push_figures(text: &mut String, figures: Figures) -> Result<(), AllocError>
    ensures { OnOk result (string_bytes text.new ≡ string_bytes text.old ++ figures_text figures) }
{
    push_build(text)?;
    push_known(text, figures)?;
    push_counter(
        text,
        "forward_relay_journal_lines_left_out_total",
        "Lines that the journal left out, and events that could not be told.",
        figures.left_out,
    )?;
    push_process(text, figures.process)?;
    Ok(())
}

/// Adds what is known of the relay itself.
fn push_known(text: &mut String, figures: Figures) -> Result<(), AllocError>
    ensures { OnOk result (string_bytes text.new ≡ string_bytes text.old ++ known_text figures) }
{
    let Figures {
        start,
        uptime,
        sources,
        source_limit,
        is_draining,
        left_out: _,
        process: _,
    } = figures;
    push_start(text, start)?;
    push_gauge(
        text,
        "forward_relay_uptime_seconds",
        "Whole seconds since the relay started.",
        uptime / 1_000,
    )?;
    push_gauge(
        text,
        "forward_relay_sources_open",
        "Sources that are connected.",
        sources,
    )?;
    push_gauge(
        text,
        "forward_relay_sources_limit",
        "The most sources at a time.",
        source_limit,
    )?;
    push_gauge(
        text,
        "forward_relay_draining",
        "Whether the relay was asked to stop, and delivers what it holds: 1 or 0.",
        flag_value(is_draining),
    )?;
    Ok(())
}

/// Adds which version runs.
fn push_build(text: &mut String) -> Result<(), AllocError>
    ensures { OnOk result (string_bytes text.new ≡ string_bytes text.old ++ build_text) }
{
    let name = "forward_relay_build_info";
    push_head(text, name, "gauge", "The version that runs: always 1.")?;
    push_word(text, "forward_relay_build_info{version=\"", VERSION, 1)?;
    Ok(())
}

/// Adds what is known of the process.
fn push_process(text: &mut String, process: ProcessFigures) -> Result<(), AllocError>
    ensures { OnOk result (string_bytes text.new ≡ string_bytes text.old ++ process_text process) }
{
    let ProcessFigures {
        resident,
        open_files,
        most_files,
        processor,
        start,
    } = process;
    let help = "Memory that the process has, in bytes.";
    push_gauge_if(text, "process_resident_memory_bytes", help, resident)?;
    let help = "Files that the process has open.";
    push_gauge_if(text, "process_open_fds", help, open_files)?;
    let help = "The most files that the process may have open.";
    push_gauge_if(text, "process_max_fds", help, most_files)?;
    let help = "Processor time of the process, in seconds.";
    push_seconds_if(
        text,
        "process_cpu_seconds_total",
        "counter",
        help,
        processor,
    )?;
    let help = "When the process started, in seconds since 1970.";
    push_seconds_if(text, "process_start_time_seconds", "gauge", help, start)?;
    Ok(())
}

/// What a gauge says of a flag: 1 or 0.
fn flag_value(flag: bool) -> u64
    ensures { result ≡ flag_value flag }
{
    if flag { 1 } else { 0 }
}

/// Adds when the relay started, where that is known.
fn push_start(text: &mut String, start: Option<u64>) -> Result<(), AllocError>
    ensures { OnOk result (string_bytes text.new ≡ string_bytes text.old ++ start_text start) }
{
    let help = "When the relay started, in seconds since 1970.";
    push_gauge_if(text, "forward_relay_start_time_seconds", help, start)
}

/// Adds what each output has to do with.
fn push_outputs(text: &mut String, reports: &[Report]) -> Result<(), AllocError>
    ensures { OnOk result
        (string_bytes text.new ≡ string_bytes text.old ++ outputs_text reports.now) }
{
    push_by_output(text, Measure::Accepted, reports)?;
    push_by_output(text, Measure::Settled, reports)?;
    push_by_output(text, Measure::Held, reports)?;
    push_by_output(text, Measure::HeldBytes, reports)?;
    push_by_output(text, Measure::Chunks, reports)
}

/// Adds a metric with a sample for each output.
#[tactic(auto, unfolding(crate::specs::Metrics::by_output))]
fn push_by_output(text: &mut String, measure: Measure, reports: &[Report]) -> Result<(), AllocError>
    ensures { OnOk result
        (string_bytes text.new ≡ string_bytes text.old ++ by_output measure reports.now) }
{
    push_head(text, measure.name(), measure.kind(), measure.help())?;
    for (output, report) in reports.iter().enumerate() {
        push_sample(text, measure.name(), output, measure.of(&report.counts))?;
    }
    Ok(())
}

/// Adds the most bytes that each output holds, how old its oldest chunk is, and what waits to be
/// taken.
fn push_output_figures(text: &mut String, outputs: &[OutputFigures]) -> Result<(), AllocError>
    ensures { OnOk result
        (string_bytes text.new ≡ string_bytes text.old ++ output_figures_text outputs.now) }
{
    push_by_figure(text, OutputFigure::TotalLimit, outputs)?;
    push_by_figure(text, OutputFigure::OldestAge, outputs)?;
    push_by_figure(text, OutputFigure::WaitingSources, outputs)?;
    push_by_figure(text, OutputFigure::WaitingBytes, outputs)
}

/// Adds a gauge with a sample for each output.
#[tactic(auto, unfolding(crate::specs::Metrics::by_figure))]
fn push_by_figure(
    text: &mut String,
    figure: OutputFigure,
    outputs: &[OutputFigures],
) -> Result<(), AllocError>
    ensures { OnOk result
        (string_bytes text.new ≡ string_bytes text.old ++ by_figure figure outputs.now) }
{
    push_head(text, figure.name(), "gauge", figure.help())?;
    for (output, figures) in outputs.iter().enumerate() {
        push_sample(text, figure.name(), output, figure.of(figures))?;
    }
    Ok(())
}

/// Adds which tags each output takes.
fn push_infos(
    alloc: Global,
    page: &mut Vec<u8>,
    outputs: &[OutputFigures],
) -> Result<(), AllocError>
    ensures { OnOk result (page.new.items ≡ page.old.items ++ infos_text outputs.now) }
{
    push_info_head(alloc, page)?;
    push_info_lines(alloc, page, "forward_relay_output_info", outputs)?;
    Ok(())
}

/// Adds what stands in front of the samples that say so.
fn push_info_head(alloc: Global, page: &mut Vec<u8>) -> Result<(), AllocError>
    ensures { OnOk result (page.new.items ≡ page.old.items ++ info_head) }
{
    let mut head = String::new(alloc);
    let help = "The match pattern of an output: always 1.";
    push_head(&mut head, "forward_relay_output_info", "gauge", help)?;
    page.extend_from_slice(head.as_bytes())
}

/// Adds the samples that say so, under this name.
#[tactic(auto, unfolding(crate::specs::Metrics::info_lines))]
fn push_info_lines(
    alloc: Global,
    page: &mut Vec<u8>,
    name: &str,
    outputs: &[OutputFigures],
) -> Result<(), AllocError>
    ensures { OnOk result (page.new.items ≡ page.old.items ++ info_lines name.now outputs.now) }
{
    for (output, figures) in outputs.iter().enumerate() {
        push_info(alloc, page, name, output, figures)?;
    }
    Ok(())
}

/// Adds the sample of an output that says which tags it takes.
#[tactic(auto, unfolding(crate::specs::Metrics::info_line))]
fn push_info(
    alloc: Global,
    page: &mut Vec<u8>,
    name: &str,
    output: usize,
    figures: &OutputFigures,
) -> Result<(), AllocError>
    ensures { OnOk result
        (page.new.items ≡ page.old.items ++ info_line name.now (output, figures.now)) }
{
    let front = format!(in alloc; "{name}{{output=\"{output}\",")?;
    page.extend_from_slice(front.as_bytes())?;
    push_pattern(alloc, page, &figures.pattern)?;
    page.extend_from_slice(b"} 1\n")
}

/// Adds the label of a pattern.
fn push_pattern(alloc: Global, page: &mut Vec<u8>, pattern: &Text) -> Result<(), AllocError>
    ensures { OnOk result
        (page.new.items ≡ page.old.items ++ text_label (codes "match") pattern.now) }
{
    push_label(alloc, page, "match", pattern.as_str().as_bytes())
}

/// Adds how many tags of each output have no samples.
fn push_left_out(text: &mut String, reports: &[Report]) -> Result<(), AllocError>
    ensures { OnOk result
        (string_bytes text.new ≡ string_bytes text.old ++ left_out_text reports.now) }
{
    let help = "Tags with entries that are not settled and no samples here.";
    push_left_out_by(text, "forward_relay_tags_left_out", help, reports)
}

/// Adds a gauge that says how many tags of each output have no samples.
#[tactic(auto, unfolding(crate::specs::Metrics::left_out))]
fn push_left_out_by(
    text: &mut String,
    name: &str,
    help: &str,
    reports: &[Report],
) -> Result<(), AllocError>
    ensures { OnOk result (string_bytes text.new
        ≡ string_bytes text.old ++ left_out name.now help.now reports.now) }
{
    push_head(text, name, "gauge", help)?;
    let mut room = MAX_TAGS;
    for (output, report) in reports.iter().enumerate() {
        let tags = report.tags.as_slice().len();
        push_sample(text, name, output, tags.saturating_sub(room) as u64)?;
        room = room.saturating_sub(tags);
    }
    Ok(())
}

/// Adds a metric with samples of the first `MAX_TAGS` tags.
fn push_by_tag(
    alloc: Global,
    page: &mut Vec<u8>,
    measure: TagMeasure,
    reports: &[Report],
) -> Result<(), AllocError>
    ensures { OnOk result (page.new.items ≡ page.old.items ++ by_tag measure reports.now) }
{
    let mut head = String::new(alloc);
    push_head(&mut head, measure.name(), "gauge", measure.help())?;
    page.extend_from_slice(head.as_bytes())?;
    let mut room = MAX_TAGS;
    for (output, report) in reports.iter().enumerate() {
        let tags = report.tags.as_slice();
        push_tags(alloc, page, measure, output, front(tags, room))?;
        room = room.saturating_sub(tags.len());
    }
    Ok(())
}

/// The first so many tags.
fn front(tags: &[TagCount], room: usize) -> &[TagCount]
    ensures { result.now ≡ take room tags.now }
{
    &tags[..room.min(tags.len())]
}

/// Adds the samples of an output's tags.
fn push_tags(
    alloc: Global,
    page: &mut Vec<u8>,
    measure: TagMeasure,
    output: usize,
    tags: &[TagCount],
) -> Result<(), AllocError>
    ensures { OnOk result
        (page.new.items ≡ page.old.items ++ flat_map (tag_sample measure output) tags.now) }
{
    for tag in tags {
        push_tag(alloc, page, measure, output, tag)?;
    }
    Ok(())
}

/// Adds the sample of a tag.
fn push_tag(
    alloc: Global,
    page: &mut Vec<u8>,
    measure: TagMeasure,
    output: usize,
    tag: &TagCount,
) -> Result<(), AllocError>
    ensures { OnOk result
        (page.new.items ≡ page.old.items ++ tag_sample measure output tag.now) }
{
    let name = measure.name();
    let front = format!(in alloc; "{name}{{output=\"{output}\",")?;
    page.extend_from_slice(front.as_bytes())?;
    push_label(alloc, page, "tag", tag.tag.as_slice())?;
    let value = measure.of(tag);
    let back = format!(in alloc; "}} {value}\n")?;
    page.extend_from_slice(back.as_bytes())
}
