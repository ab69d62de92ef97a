//! What is said over the control socket. Who connects asks by one line, `stop MILLISECONDS`, and is
//! answered by lines: at once and each second what is held, and in the end what came of it.

ghost use Rattle.std.specs.Prelude.{◌≡◌, ◌≢◌, ◌≤◌, [], codes, IfSome};
ghost use Rattle.fwd_listeners.specs.Answers.{answer_text, entries_text, left_text, said};
ghost use Rattle.fwd_listeners.specs.Asked.{asked_of, wait_in};

use crate::left::Left;
use fwd_script::number;
use fwd_settings::ranges::WAIT_MAX;
use std::fmt;

/// The most bytes of what is asked, with its line feed.
pub(crate) const REQUEST: usize = 32;

/// The most bytes of an answer, with its line feed.
pub(crate) const ANSWER: usize = 160;

/// What the relay answers whoever asked it to stop.
#[derive(Clone, Copy, Debug, PartialEq, Eq)]
pub enum ControlAnswer {
    /// So many entries are held, and so many sources are connected.
    Holds { entries: u64, sources: u64 },
    /// All that was held is delivered, and the relay ends.
    Delivered,
    /// The time is over, this is not delivered, and the relay ends.
    Left(Left),
}

impl fmt::Display for ControlAnswer {
    fn fmt<W: fmt::Write>(&self, f: &mut fmt::Formatter<W>) -> fmt::Result {
        match self {
            ControlAnswer::Holds { entries, sources } => write!(
                f,
                "held {entries} entries, {sources} sources"
            ),
            ControlAnswer::Delivered => f.write_str("all is delivered"),
            ControlAnswer::Left(left) => write!(f, "{left}"),
        }
    }
}

/// The number between a front and a back of a text, if the text has nothing else. Its digits have
/// no sign and no leading zero.
fn number_within(text: &str, front: &str, back: &str) -> Option<u64>
    ensures { IfSome result (λ n. text.now ≡ said front.now n back.now) }
{
    let digits = text.strip_prefix(front)?.strip_suffix(back)?;
    number(digits.as_bytes())
}

/// How many entries are left, and how many of these nobody sends again, by a text that says it.
fn entries_in(text: &str) -> Option<(u64, u64)>
    ensures { IfSome result (λ left. text.now ≡ entries_text left.0 left.1) }
{
    let (entries, unasked) = text.split_once(", ")?;
    let entries = number_within(entries, "left ", " entries")?;
    let unasked = number_within(unasked, "", " of sources that do not ask")?;
    Some((entries, unasked))
}

/// How many sources were not read to the end, by a text that says it: none is not said.
fn unread_in(text: &str) -> Option<u64>
    ensures { IfSome result (λ sources. (sources ≢ 0)
        × (text.now ≡ said [] sources (codes " sources not read to the end"))) }
{
    match number_within(text, "", " sources not read to the end")? {
        0 => None,
        sources => Some(sources),
    }
}

/// What is left by a line that says it.
fn left_in(line: &str) -> Option<Left>
    ensures { IfSome result (λ left. line.now ≡ left_text left) }
{
    let Some((text, unread)) = line.split_once("; ") else {
        let (entries, unasked) = entries_in(line)?;
        return Some(Left {
            entries,
            unasked,
            sources: 0,
        });
    };
    let (entries, unasked) = entries_in(text)?;
    let sources = unread_in(unread)?;
    Some(Left {
        entries,
        unasked,
        sources,
    })
}

/// What is held by a line that says it.
fn held_in(line: &str) -> Option<ControlAnswer>
    ensures { IfSome result (λ answer. line.now ≡ answer_text answer) }
{
    let (entries, sources) = line.split_once(", ")?;
    Some(ControlAnswer::Holds {
        entries: number_within(entries, "held ", " entries")?,
        sources: number_within(sources, "", " sources")?,
    })
}

impl ControlAnswer {
    /// The answer that a line is, without its line feed, if it is one.
    pub fn read(line: &str) -> Option<ControlAnswer>
        ensures { IfSome result (λ answer. line.now ≡ answer_text answer) }
    {
        if line == "all is delivered" {
            return Some(ControlAnswer::Delivered);
        }
        match left_in(line) {
            Some(left) => Some(ControlAnswer::Left(left)),
            None => held_in(line),
        }
    }
}

/// A time that a relay may be given, in milliseconds.
fn wait_in(wait: Option<u64>) -> Option<u64>
    ensures value { result ≡ wait_in wait }
    ensures range { IfSome result (λ wait. (1 ≤ wait) × (wait ≤ WAIT_MAX)) }
{
    let wait = wait?;
    if 1 <= wait && wait <= WAIT_MAX {
        Some(wait)
    } else {
        None
    }
}

/// How long a line gives the relay, in milliseconds, if it asks it to stop: it has no line feed.
pub(crate) fn asked_wait(line: &[u8]) -> Option<u64>
    ensures value { result ≡ asked_of line.now }
    ensures range { IfSome result (λ wait. (1 ≤ wait) × (wait ≤ WAIT_MAX)) }
{
    match line.strip_prefix(b"stop ".as_slice()) {
        Some(digits) => wait_in(number(digits)),
        None => None,
    }
}
