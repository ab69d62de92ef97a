//! The lines of Prometheus' text format.

ghost use Rattle.std.specs.Prelude.{◌≡◌, ◌++◌, OnOk};
ghost use Rattle.std.specs.String.{string_bytes};
ghost use Rattle.fwd_monitor.specs.Samples.{
  counter,
  gauge,
  gauge_if,
  head_lines_of,
  hundredths_line,
  output_line,
  seconds_if,
  word_line,
};

use std::alloc::AllocError;

/// Adds a metric that has one value.
#[tactic(auto, unfolding(crate::specs::Samples::gauge))]
pub(crate) fn push_gauge(
    text: &mut String,
    name: &str,
    help: &str,
    value: u64,
) -> Result<(), AllocError>
    ensures { OnOk result
        (string_bytes text.new ≡ string_bytes text.old ++ gauge name.now help.now value) }
{
    push_head(text, name, "gauge", help)?;
    write!(text, "{name} {value}\n")
}

/// Adds a metric that has one value, which only rises.
#[tactic(auto, unfolding(crate::specs::Samples::counter))]
pub(crate) fn push_counter(
    text: &mut String,
    name: &str,
    help: &str,
    value: u64,
) -> Result<(), AllocError>
    ensures { OnOk result
        (string_bytes text.new ≡ string_bytes text.old ++ counter name.now help.now value) }
{
    push_head(text, name, "counter", help)?;
    write!(text, "{name} {value}\n")
}

/// Adds a metric that has one value, where that is known.
#[tactic(auto, unfolding(crate::specs::Samples::gauge_if))]
pub(crate) fn push_gauge_if(
    text: &mut String,
    name: &str,
    help: &str,
    value: Option<u64>,
) -> Result<(), AllocError>
    ensures { OnOk result
        (string_bytes text.new ≡ string_bytes text.old ++ gauge_if name.now help.now value) }
{
    match value {
        Some(value) => push_gauge(text, name, help, value),
        None => Ok(()),
    }
}

/// Adds a metric of seconds that has one value in hundredths, where that is known.
#[tactic(auto, unfolding(crate::specs::Samples::seconds_if))]
pub(crate) fn push_seconds_if(
    text: &mut String,
    name: &str,
    kind: &str,
    help: &str,
    value: Option<u64>,
) -> Result<(), AllocError>
    ensures { OnOk result (string_bytes text.new
        ≡ string_bytes text.old ++ seconds_if name.now kind.now help.now value) }
{
    let Some(value) = value else {
        return Ok(());
    };
    push_head(text, name, kind, help)?;
    push_hundredths(text, name, value)
}

/// Adds a sample of hundredths, as a number of units with two digits behind a point.
#[tactic(auto, unfolding(crate::specs::Samples::hundredths_line))]
fn push_hundredths(text: &mut String, name: &str, value: u64) -> Result<(), AllocError>
    ensures { OnOk result
        (string_bytes text.new ≡ string_bytes text.old ++ hundredths_line name.now value) }
{
    let (whole, tenths, rest) = (value / 100, value % 100 / 10, value % 10);
    write!(text, "{name} {whole}.{tenths}{rest}\n")
}

/// Adds the lines in front of a metric's samples.
pub(crate) fn push_head(
    text: &mut String,
    name: &str,
    kind: &str,
    help: &str,
) -> Result<(), AllocError>
    ensures { OnOk result (string_bytes text.new
        ≡ string_bytes text.old ++ head_lines_of name.now kind.now help.now) }
{
    write!(text, "# HELP {name} {help}\n# TYPE {name} {kind}\n")
}

/// Adds a sample of an output.
pub(crate) fn push_sample(
    text: &mut String,
    name: &str,
    output: usize,
    value: u64,
) -> Result<(), AllocError>
    ensures { OnOk result
        (string_bytes text.new ≡ string_bytes text.old ++ output_line name.now output value) }
{
    write!(text, "{name}{{output=\"{output}\"}} {value}\n")
}

/// Adds a sample in which a word is the last label's value, behind this text.
#[tactic(auto, unfolding(crate::specs::Samples::word_line))]
pub(crate) fn push_word(
    text: &mut String,
    front: &str,
    word: &str,
    value: u64,
) -> Result<(), AllocError>
    ensures { OnOk result (string_bytes text.new
        ≡ string_bytes text.old ++ word_line front.now word.now value) }
{
    write!(text, "{front}{word}\"}} {value}\n")
}
