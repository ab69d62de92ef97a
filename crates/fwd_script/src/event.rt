//! Script lines as events. One row of one table (`forms`) says what a line spells and which lines
//! are events, so that no law lists the events. The names are three chains of tests: one of
//! seventeen takes the prover three times as long.

ghost use Rattle.std.specs.Prelude.{◌≡◌, ◌↔◌, ℕ, List, map, IfOk, IsErr, Some};
ghost use Rattle.std.specs.Str.{IsUtf8};
ghost use Rattle.fwd_model.specs.declared.event.Event.{Event};
ghost use Rattle.fwd_script.specs.Lines.{
  forms,
  output_forms,
  session_forms,
  named,
  event_of,
  IsLineOf,
  HasLines,
  HasOneSpelling,
  Spelling,
};
ghost use Rattle.fwd_script.specs.Words.{HasBytes};

use crate::values::Words;
use crate::word::split_words;
use fwd_model::{Event, Wanted};
use std::alloc::{AllocError, Global};

/// The event of a script line, where the line has the form of one: words with one space between
/// each two, decimal numbers with no sign and no leading zero that fit their width, bytes in
/// lower-case hexadecimal.
#[tactic(auto, unfolding(crate::specs::Lines::of_words))]
pub fn read_event(alloc: Global, line: &[u8]) -> Result<Option<Event>, AllocError>
    ensures { IfOk result (λ e. e ≡ event_of line.now) }
{
    let words = split_words(alloc, line)?;
    match words.as_slice() {
        [] => Ok(None),
        [name, rest @ ..] => event_named(alloc, name, rest),
    }
}

/// A line is an event exactly where it is the line of a row of the table and of values in range
/// that make the event.
pub fn one_spelling()
    ensures { (line : List ℕ) (event : Event) →
        (event_of line ≡ Some event) ↔ IsLineOf event line }
{}

/// Each event that lines tell of is made by one row of the table alone, and there of one list of
/// values alone. No row makes another event.
pub fn one_form()
    ensures one { (event : Event) → HasLines event → HasOneSpelling event }
    ensures none { (event : Event) → Spelling event → HasLines event }
{}

/// A line that is an event is text, so that one which is not UTF-8 is none.
pub fn events_are_text()
    ensures { (line : List ℕ) (event : Event) → event_of line ≡ Some event → IsUtf8 line }
{}

/// Fields in a row, as `Words` reads them.
macro_rules! values {
    () => { () };
    ($field:ident $(, $more:ident)*) => { ($field, values!($($more),*)) };
}

/// The event of just these words, each read as its field's type, and of a value that no word says.
macro_rules! event {
    ($alloc:expr, $words:expr; $event:ident { $($field:ident),* }) => {
        Ok(Words::read_words($alloc, $words)?
            .map(|values!($($field),*)| Event::$event { $($field),* }))
    };
    ($alloc:expr, $words:expr; $event:ident { $($field:ident),*; $unsaid:ident: $value:expr }) => {
        Ok(Words::read_words($alloc, $words)?
            .map(|values!($($field),*)| Event::$event { $($field),*, $unsaid: $value }))
    };
}

fn event_named(alloc: Global, name: &[u8], rest: &[&[u8]]) -> Result<Option<Event>, AllocError>
    ensures value { IfOk result (λ e. e ≡ named forms name.now (map (λ w. w.now) rest.now)) }
    ensures memory { IsErr result → HasBytes (map (λ w. w.now) rest.now) }
{
    if name == b"accept".as_slice() {
        event!(alloc, rest; Accept { conn, nonce, auth })
    } else if name == b"piece".as_slice() {
        event!(alloc, rest; Piece { conn, bytes })
    } else if name == b"admit".as_slice() {
        event!(alloc, rest; Admit { conn, output, now })
    } else if name == b"collect".as_slice() {
        event!(alloc, rest; Collect { conn, output })
    } else if name == b"forget".as_slice() {
        event!(alloc, rest; Forget { conn, output })
    } else if name == b"drained".as_slice() {
        event!(alloc, rest; Drained { conn, count })
    } else if name == b"shut".as_slice() {
        event!(alloc, rest; Shut { conn })
    } else {
        output_event_named(alloc, name, rest)
    }
}

fn output_event_named(
    alloc: Global,
    name: &[u8],
    rest: &[&[u8]],
) -> Result<Option<Event>, AllocError>
    ensures value { IfOk result (λ e. e ≡ named output_forms name.now (map (λ w. w.now) rest.now)) }
    ensures memory { IsErr result → HasBytes (map (λ w. w.now) rest.now) }
{
    if name == b"flush".as_slice() {
        event!(alloc, rest; Flush { output, now, kind })
    } else if name == b"choose".as_slice() {
        event!(alloc, rest; Choose { output, worker, now })
    } else if name == b"take".as_slice() {
        event!(alloc, rest; Take { output, worker, now; wanted: Wanted::Any })
    } else if name == b"settle".as_slice() {
        event!(alloc, rest; Settle { output, worker })
    } else {
        session_event_named(alloc, name, rest)
    }
}

fn session_event_named(
    alloc: Global,
    name: &[u8],
    rest: &[&[u8]],
) -> Result<Option<Event>, AllocError>
    ensures value { IfOk result
        (λ e. e ≡ named session_forms name.now (map (λ w. w.now) rest.now)) }
    ensures memory { IsErr result → HasBytes (map (λ w. w.now) rest.now) }
{
    if name == b"up".as_slice() {
        event!(alloc, rest; Up { output, worker, server, salt, now })
    } else if name == b"load".as_slice() {
        event!(alloc, rest; Load { output, worker, now })
    } else if name == b"wrote".as_slice() {
        event!(alloc, rest; Wrote { output, worker, count })
    } else if name == b"heard".as_slice() {
        event!(alloc, rest; Heard { output, worker, bytes })
    } else if name == b"late".as_slice() {
        event!(alloc, rest; Late { output, worker, now })
    } else if name == b"end".as_slice() {
        event!(alloc, rest; End { output, worker, kind, now })
    } else {
        Ok(None)
    }
}
