//! When the program's words ask that a relay stops.

ghost use Rattle.std.specs.Prelude.{◌≡◌, ℕ, List, Option, map, MatchOption};
ghost use Rattle.std.specs.String.{string_bytes};
ghost use Rattle.fwd_script.specs.Program.{words_behind};
ghost use Rattle.fwd_program.specs.Asked.{AsksStop, seconds_in, seconds_of};

use fwd_script::number;

/// The most seconds that a relay may be given: a day.
const SECONDS_MAX: u64 = 86_400;

/// What a call asks for that has a relay stop.
#[derive(Clone, Copy)]
pub struct StopCall<'a> {
    /// The file of the relay's settings.
    pub path: &'a str,
    /// How many seconds the relay is given, if the words say.
    pub seconds: Option<u64>,
}

/// A number of seconds that a relay may be given.
fn in_day(seconds: Option<u64>) -> Option<u64>
    ensures { result ≡ seconds_in seconds }
{
    let seconds = seconds?;
    if 1 <= seconds && seconds <= SECONDS_MAX {
        Some(seconds)
    } else {
        None
    }
}

/// How many seconds the words behind the path give the relay, if they say: they may be empty.
fn seconds_behind(behind: &[String]) -> Option<Option<u64>>
    ensures { result ≡ seconds_of (map string_bytes behind.now) }
{
    match behind {
        [] => Some(None),
        [seconds] => {
            let seconds = in_day(number(seconds.as_str().as_bytes()))?;
            Some(Some(seconds))
        }
        _ => None,
    }
}

/// The stop that words ask for, the program's own name before them: `stop CONFIG`, or
/// `stop CONFIG SECONDS` with a number from 1 to 86,400 in decimal, with no sign and no leading
/// zero. It takes no memory.
pub(crate) fn asked_stop(words: &[String]) -> Option<StopCall<'_>>
    ensures { MatchOption result
        ((path : List ℕ) (seconds : Option ℕ)
        → ¬ AsksStop (words_behind (map string_bytes words.now)) path seconds)
        (λ stop. AsksStop (words_behind (map string_bytes words.now)) stop.path.now stop.seconds) }
{
    if words.len() < 3 {
        return None;
    }
    if words[1].as_str() == "stop" {
        let seconds = seconds_behind(&words[3..])?;
        let path = words[2].as_str();
        Some(StopCall { path, seconds })
    } else {
        None
    }
}
