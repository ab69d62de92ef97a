//! The replay of a script against the relay that runs. All of the input is read before the first
//! answer, so that a failed read answers nothing.

ghost use Rattle.std.specs.Prelude.{◌≡◌, ℕ, List, Ok, Err, IfOk, IfErr, IfSome};
ghost use Rattle.fwd_model.specs.declared.config.Config.{Config};
ghost use Rattle.fwd_model.specs.Delivered.{IsDelivered, IsToldAmong};
ghost use Rattle.fwd_model.specs.History.{opening};
ghost use Rattle.fwd_model.specs.Live.{live};
ghost use Rattle.fwd_script.specs.Reads.{ReadsSome};
ghost use Rattle.fwd_script.specs.Replay.{answer_to, answers, events_of, next, Opens, Replays};
ghost use Rattle.fwd_script.specs.Statuses.{refused_status};
ghost use Rattle.fwd_script.specs.declared.status.Status.TheVariants as statuses;

use crate::config::read_config;
use crate::input::read_input;
use crate::script::split_script;
use crate::status::Status;
use crate::stepping::{Step, answer_script};
use fwd_core::Relay;
use fwd_model::{Answer, Config, Event, live_run_follows};
use fwd_settings::SettingsFault;
use std::alloc::Global;
use std::io::{Read, Write};

impl Step for Relay {
    ghost use Rattle.fwd_model.specs.Outcome.{answer_of, state_of};
    ghost use Rattle.fwd_model.specs.Step.{step};
    ghost use Rattle.fwd_model.specs.Live.{lives};

    ghost answer_to = { λ r e. answer_of (step lives r e) };

    ghost next = { λ r e. state_of r (step lives r e) };

    fn step(&mut self, alloc: Global, event: &Event) -> Answer {
        Relay::step(self, alloc, event)
    }
}

/// A relay before its first event, by what its settings were found to be: a fault of theirs is how
/// a replay ends, and else only out of memory is.
fn opened(alloc: Global, found: Result<Config, SettingsFault>) -> Result<Relay, Status>
    ensures made { IfOk result (λ relay.
        (config : Config) × (found ≡ Ok config) × (relay ≡ live (opening config))) }
    ensures refused { IfErr found (λ fault. result ≡ Err (refused_status fault)) }
    ensures memory { IfOk found (λ _. IfErr result (λ status. status ≡ statuses.Memory)) }
{
    Ok(Relay::new(alloc, found?)?)
}

/// A relay before its first event, by a script's text of settings.
fn open_relay(alloc: Global, text: &[u8]) -> Result<Relay, Status>
    ensures { Opens text.now result }
{
    opened(alloc, read_config(alloc, text))
}

/// Whoever is told by what a replay writes was delivered: where an answer to the events of lines,
/// from the opening state of some settings, tells a connection that its request was acknowledged,
/// the events of the lines before had delivered that request. The lines that a replay writes are
/// those of such answers.
pub fn told_line_is_delivered()
    ensures { (config : Config) (lines : List (List ℕ)) (id r o : ℕ)
        (t : IsToldAmong (events_of lines)
        (answers answer_to next (opening config) (events_of lines)) id r o) →
        IsDelivered config t.before id r o }
{}

/// Replays a script: reads all of the input (at most 2^32 reads), and then answers the event of
/// each line on a line of its own. The first line `---` ends the settings; an empty text of
/// settings stands for one output with two workers and two servers, which takes each tag.
///
/// At `Done` and at `BadLine` what was written is the lines of the abstract relay's answers, from
/// its opening state by these settings, to the events of the lines before the first bad one;
/// `BadLine` has that line's number, counted from 1 over all of the input. At `BadSettings`
/// nothing was written, and the fault is the first of the settings. At `Memory` what was written
/// is the answers to the lines before the one that met it, and at `Output` a front of what `Done`
/// would have written.
pub fn replay<R: Read, W: Write>(alloc: Global, reader: &mut R, writer: &mut W) -> Status
    ensures replays { (script : List ℕ) × IfSome (R.remaining reader.old) (λ left. script ≡ left)
        × Replays result script (W.contents writer.old) (W.contents writer.new) }
    ensures memory { result ≡ statuses.Memory
        → ReadsSome (R.remaining reader.old) (R.remaining reader.new) }
{
    live_run_follows(); // for the proof
    let input = match read_input(alloc, reader) {
        Ok(input) => input,
        Err(error) => return Status::from(error),
    };
    let script = split_script(input.as_slice());
    let mut relay = match open_relay(alloc, script.settings) {
        Ok(relay) => relay,
        Err(status) => return status,
    };
    answer_script(alloc, &mut relay, script, writer)
}
