//! The program: `forward_relay run CONFIG [TURNS] | stop CONFIG [SECONDS] | check CONFIG | replay |
//! version | help`.
#![tactic(auto)]

use fwd_program::{Errors, Invocation, Progress, asked_log, run_all};
use fwd_script::{buffered, words};
use std::io::IsTerminal;
use std::process::ExitCode;

fn main(rt: HostRuntime) -> ExitCode {
    let log = asked_log(&rt);
    let progress = if rt.stdout().is_terminal() {
        Progress::InPlace
    } else {
        Progress::Lines
    };
    let mut errors = Errors::new(rt.alloc(), rt, rt.stderr(), log);
    let status = run_all(
        &rt,
        words(&rt).map(|words| Invocation {
            words,
            log,
            progress,
        }),
        &mut rt.reader(),
        &mut buffered(&rt),
        &mut errors,
    );
    errors.close();
    ExitCode::from(status)
}
