//! Calls of fwd_failover, a line each, and the answers to those that have one.
//! tests/tables/servers.py has the cases.
//!
//!     servers KINDS WAIT MAX    from here on these servers, `p` a primary and `s` a standby
//!     failed SERVER MOMENT      a loss
//!     settled SERVER            a chunk that was settled
//!     choose WORKER MOMENT      answer: the server, or none
//!     wait LOSSES               answer: the milliseconds after so many losses

ghost use Rattle.std.specs.Prelude.{◌≤◌, length, false, Contains};

use crate::tables::words::words_of_line;
use anyhow::{Result, bail};
use fwd_failover::Servers;
use std::alloc::Global;

/// The servers of a line.
fn servers_of_kinds(alloc: Global, kinds: &str, wait: &str, max: &str) -> Result<Servers> {
    let standby: Vec<bool> = kinds.bytes().map(|kind| kind == b's').collect(alloc)?;
    if standby.len() > 16 || !standby.contains(&false) {
        bail!("no servers: {kinds}");
    }
    Ok(Servers::new(alloc, &standby, wait.parse()?, max.parse()?)?)
}

/// Makes the call of a line, and answers what it answers.
fn answer(alloc: Global, servers: &mut Servers, words: &[&str]) -> Result<Option<String>> {
    match *words {
        ["failed", server, moment] => servers.failed(server.parse()?, moment.parse()?),
        ["settled", server] => servers.settled(server.parse()?),
        ["choose", worker, moment] => {
            return match servers.choose(worker.parse()?, moment.parse()?) {
                Some(server) => Ok(Some(format!(in alloc; "{server}")?)),
                None => Ok(Some(String::from_str(alloc, "none")?)),
            };
        }
        ["wait", losses] => {
            let wait = servers.wait_after(losses.parse()?);
            return Ok(Some(format!(in alloc; "{wait}")?));
        }
        _ => bail!("no call"),
    }
    Ok(None)
}

/// Prints the answer to each call that has one, and the call.
pub(crate) fn print_servers<R: Print + AllocGlobal>(rt: &R, text: &str) -> Result<()> {
    let mut servers = servers_of_kinds(rt.alloc(), "p", "1", "1")?;
    for line in text.lines() {
        print_line(rt, &mut servers, line)?;
    }
    Ok(())
}

/// Prints the answer to a call, if it has one, and the call.
fn print_line<R: Print + AllocGlobal>(rt: &R, servers: &mut Servers, line: &str) -> Result<()> {
    let words = words_of_line(rt.alloc(), line)?;
    if let ["servers", kinds, wait, max] = *words {
        *servers = servers_of_kinds(rt.alloc(), kinds, wait, max)?;
    } else if let Some(answer) = answer(rt.alloc(), servers, &words)? {
        println!(rt; "{answer} {line}")?;
    }
    Ok(())
}
