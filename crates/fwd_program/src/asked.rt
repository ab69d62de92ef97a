//! When the program's words ask for a run.

ghost use Rattle.std.specs.Prelude.{◌≡◌, ℕ, List, map, MatchOption, IfSome};
ghost use Rattle.std.specs.String.{string_bytes};
ghost use Rattle.fwd_script.specs.Program.{words_behind};
ghost use Rattle.fwd_program.specs.Asked.{AsksRun, turns_of};

use fwd_journal::Log;
use fwd_script::number;

/// What a run is asked for.
#[derive(Clone, Copy)]
pub struct Run<'a> {
    /// The file of the settings.
    pub path: &'a str,
    /// How many turns the loop and each worker make.
    pub turns: u64,
    /// Whether it says what it comes to.
    pub log: Log,
}

/// How many turns the words behind the path ask for.
fn turns_in(behind: &[String]) -> Option<u64>
    ensures { result ≡ turns_of (map string_bytes behind.now) }
{
    match behind {
        [] => Some(u64::MAX),
        [turns] => number(turns.as_str().as_bytes()),
        _ => None,
    }
}

/// The run that words ask for, the program's own name before them: `run CONFIG`, or
/// `run CONFIG TURNS` with a number below 2^64 in decimal, with no sign and no leading zero. It
/// takes no memory.
pub fn asked_run(words: &[String], log: Log) -> Option<Run<'_>>
    ensures log { IfSome result (λ run. run.log ≡ log) }
    ensures asked { MatchOption result
        ((path : List ℕ) (turns : ℕ)
        → ¬ AsksRun (words_behind (map string_bytes words.now)) path turns)
        (λ run. AsksRun (words_behind (map string_bytes words.now)) run.path.now run.turns) }
{
    if words.len() < 3 {
        return None;
    }
    if words[1].as_str() == "run" {
        let turns = turns_in(&words[3..])?;
        let path = words[2].as_str();
        Some(Run { path, turns, log })
    } else {
        None
    }
}
