ghost use Rattle.std.specs.Prelude.{◌≡◌, ◌++◌, IfOk, OnOk};
ghost use Rattle.std.specs.String.{string_bytes};
ghost use Rattle.fwd_monitor.specs.Page.{hex_text, line_of, page_of, report_lines, tag_line_of};

use fwd_base::{Counts, Report, TagCount};
use std::alloc::{AllocError, Global};

/// A line for each output, by rising number from 0: its number, and its counts in decimal. Behind
/// it stands a line for each of its tags, in their order: the tag in lower-case hexadecimal digits,
/// `-` for the empty one, and its counts in decimal. Its only error is out of memory. A tag has any
/// bytes; as digits it cannot end a line or look like another line.
pub fn page(alloc: Global, reports: &[Report]) -> Result<String, AllocError>
    ensures { IfOk result (λ text. string_bytes text ≡ page_of reports.now) }
{
    let mut text = String::new(alloc);
    for (output, report) in reports.iter().enumerate() {
        push_report(alloc, &mut text, output, report)?;
    }
    Ok(text)
}

/// Adds the lines of one output and its tags.
fn push_report(
    alloc: Global,
    text: &mut String,
    output: usize,
    report: &Report,
) -> Result<(), AllocError>
    ensures { OnOk result
        (string_bytes text.new ≡ string_bytes text.old ++ report_lines (output, report.now)) }
{
    push_counts(text, output, &report.counts)?;
    for tag in report.tags.as_slice() {
        push_tag(alloc, text, tag)?;
    }
    Ok(())
}

/// Adds the line of one output.
fn push_counts(text: &mut String, output: usize, counts: &Counts) -> Result<(), AllocError>
    ensures { OnOk result
        (string_bytes text.new ≡ string_bytes text.old ++ line_of output counts.now) }
{
    let Counts {
        accepted,
        settled,
        held,
        bytes,
        chunks,
    } = *counts;
    write!(
        text,
        "output {output} accepted {accepted} settled {settled} held {held} \
        bytes {bytes} chunks {chunks}\n"
    )
}

/// Adds the line of one tag.
fn push_tag(alloc: Global, text: &mut String, count: &TagCount) -> Result<(), AllocError>
    ensures { OnOk result
        (string_bytes text.new ≡ string_bytes text.old ++ tag_line_of count.now) }
{
    let TagCount { tag, held, bytes } = count;
    let tag = hex_word(alloc, tag.as_slice())?;
    write!(text, "tag {tag} held {held} bytes {bytes}\n")
}

/// The bytes in lower-case hexadecimal digits, or `-` for no bytes.
fn hex_word(alloc: Global, bytes: &[u8]) -> Result<String, AllocError>
    ensures { IfOk result (λ text. string_bytes text ≡ hex_text bytes.now) }
{
    if bytes.is_empty() {
        return String::from_str(alloc, "-");
    }
    hex::encode(alloc, bytes)
}
