ghost use Rattle.std.specs.Prelude.{◌≡◌, ℕ, List, ◌^◌, ◌+◌, ◌<◌, ◌⊎◌, ◌++◌, None, Some, Ok, length, MatchResult, IfOk};
ghost use Rattle.std.specs.String.{string_bytes};
ghost use Rattle.std.specs.Io.KnownBytes.{Appends};
ghost use Rattle.fwd_model.specs.declared.event.Event.{Event};
ghost use Rattle.fwd_model.specs.declared.answer.Answer.{Answer};
ghost use Rattle.fwd_model.specs.declared.answer.Answer.TheVariants.{Memory};
ghost use Rattle.fwd_script.specs.Script.{lines_of};
ghost use Rattle.fwd_script.specs.Replay.{answer_line, Ends, MeetsMemory, SplitsAtBad};
ghost use Rattle.fwd_script.specs.Stops.{Stops, stop_status};
ghost use Rattle.fwd_script.specs.declared.status.Status.TheVariants as statuses;
ghost use Rattle.fwd_script.specs.declared.stepping.StopReason.TheVariants as stops;

use crate::event::read_event;
use crate::output::write_all;
use crate::script::{Script, next_line};
use crate::status::Status;
use crate::text::print_answer;
use crate::writing::{WriteFailed, flush};
use fwd_model::{Answer, Event};
use std::alloc::{AllocError, Global};
use std::io::Write;

/// What answers one event after the other, and goes on from state to state.
pub trait Step {
    // The answer to an event in a state.
    ghost answer_to: { Self → Event → Answer };

    // The state after that answer.
    ghost next: { Self → Event → Self };

    /// Answers an event, or answers `Memory` and stays as it was.
    fn step(&mut self, alloc: Global, event: &Event) -> Answer
        ensures answer { (result ≡ Memory)
            ⊎ ((result ≡ answer_to self.old event.now)
            × (self.new ≡ next self.old event.now)) }
        ensures memory { result ≡ Memory → self.new ≡ self.old };
}

/// The bad line is the first that is no event: each line before it is one of the events that are
/// answered, and where there is no bad line each line is.
pub fn bad_line_is_first()
    ensures { (count : ℕ) (lines : List (List ℕ)) → SplitsAtBad count lines }
{}

/// Why a run over lines stops at one.
enum StopReason {
    /// The line is no event.
    Bad,
    /// Memory ran out.
    Memory,
    /// The write of the answer failed.
    Output(WriteFailed),
}

impl StopReason {
    /// How a run ends that stops so at the line of this number.
    fn status(self, number: u64) -> Status
        ensures { result ≡ stop_status self number }
    {
        match self {
            StopReason::Bad => Status::BadLine(number),
            StopReason::Memory => Status::Memory,
            StopReason::Output(failed) => Status::Output(failed),
        }
    }
}

impl From<AllocError> for StopReason {
    ghost from_gives = { λ _ stop. stop ≡ stops.Memory };

    fn from(_error: AllocError) -> StopReason {
        StopReason::Memory
    }
}

impl From<WriteFailed> for StopReason {
    ghost from_gives = { λ failed stop. stop ≡ stops.Output failed };

    fn from(failed: WriteFailed) -> StopReason {
        StopReason::Output(failed)
    }
}

/// Answers one event after the other, a line of the text for each, and writes each answer on a
/// line of its own. It stops at the first line that is no event, where memory runs out, and where
/// a write fails.
pub fn answer_lines<S: Step, W: Write>(
    alloc: Global,
    relay: &mut S,
    text: &[u8],
    lines_before: u64,
    writer: &mut W,
) -> Status
    requires { lines_before + length text.now < 2 ^ 64 }
    ensures ends { Ends result S.answer_to S.next relay.old lines_before (lines_of text.now)
        (W.contents writer.old) (W.contents writer.new) }
    ensures memory { result ≡ statuses.Memory
        → MeetsMemory S.answer_to S.next relay.old relay.new
        (lines_of text.now) (W.contents writer.old) (W.contents writer.new) }
{
    let mut rest = text;
    let mut number = lines_before;
    while let Some((line, after)) = next_line(rest) {
        number += 1;
        match answer_event(alloc, relay, read_event(alloc, line), writer) {
            Ok(()) => rest = after,
            Err(stop) => return stop.status(number),
        }
    }
    Status::Done
}

/// Answers the events of a script, as `answer_lines` does, and flushes the writer.
pub fn answer_script<S: Step, W: Write>(
    alloc: Global,
    relay: &mut S,
    script: Script<'_>,
    writer: &mut W,
) -> Status
    requires { script.lines_before + length script.events.now < 2 ^ 64 }
    ensures ends { Ends result S.answer_to S.next relay.old
        script.entry.lines_before (lines_of script.entry.events.now)
        (W.contents writer.old) (W.contents writer.new) }
    ensures memory { result ≡ statuses.Memory
        → MeetsMemory S.answer_to S.next relay.old relay.new
        (lines_of script.entry.events.now) (W.contents writer.old) (W.contents writer.new) }
{
    let status = answer_lines(alloc, relay, script.events, script.lines_before, writer);
    status.flushed(flush(writer))
}

/// Answers the event that a line was read as, and writes the answer on a line of its own.
fn answer_event<S: Step, W: Write>(
    alloc: Global,
    relay: &mut S,
    read: Result<Option<Event>, AllocError>,
    writer: &mut W,
) -> Result<(), StopReason>
    ensures { MatchResult result
        (λ _. (event : Event) × (read ≡ Ok (Some event))
        × (relay.new ≡ S.next relay.old event)
        × Appends (W.contents writer.old) (W.contents writer.new)
        (answer_line (S.answer_to relay.old event)))
        (λ stop. Stops stop S.answer_to S.next relay.old relay.new read
        (W.contents writer.old) (W.contents writer.new)) }
{
    let Some(event) = read? else {
        return Err(StopReason::Bad);
    };
    let answer = relay.step(alloc, &event);
    if let Answer::Memory = answer {
        return Err(StopReason::Memory);
    }
    let text = print_line(alloc, &answer)?;
    Ok(write_all(writer, text.as_bytes())?)
}

/// The line of an answer, with its line feed.
fn print_line(alloc: Global, answer: &Answer) -> Result<String, AllocError>
    ensures { IfOk result (λ text. string_bytes text ≡ answer_line answer.now) }
{
    let mut text = print_answer(alloc, answer)?;
    text.push_str("\n")?;
    Ok(text)
}
