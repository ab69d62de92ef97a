//! What is lawful in settings, and foolish.

use crate::file::SettingsFile;
use crate::limit_cautions::say_of_limits;
use crate::literals::literal_in;
use crate::relay_cautions::{leads_to, say_of_relay};
use crate::saying::say;
use crate::unreached::{is_unreached, match_text};
use fwd_settings::{OutputSettings, Settings};
use std::alloc::Global;
use std::fmt;
use std::io::Write;
use std::net::SocketAddr;
use toml::Table;

/// What is lawful in settings, and foolish.
#[derive(Clone, Copy)]
enum Caution {
    /// A server of the output of this number is the relay itself.
    OwnServer {
        output: usize,
        server: SocketAddr,
    },
    /// Two servers of the output have one address.
    SameServer {
        output: usize,
        server: SocketAddr,
    },
    /// The output's pattern has what Fluentd means something by, and what stands for itself here.
    Literal {
        output: usize,
        what: &'static str,
    },
    /// The output has fewer workers than servers that are no standby.
    FewWorkers {
        output: usize,
        workers: u16,
        servers: usize,
    },
    /// Each tag that the output of this number takes goes to one before it.
    Unreached {
        output: usize,
    },
}

impl fmt::Display for Caution {
    fn fmt<W: fmt::Write>(&self, f: &mut fmt::Formatter<W>) -> fmt::Result {
        f.write_str("caution: ")?;
        match *self {
            Caution::OwnServer { output, server } => write!(
                f,
                "output {output} server {server} is the relay itself: what it sends comes back"
            ),
            Caution::SameServer { output, server } => write!(
                f,
                "output {output} server {server} is listed twice: it counts as two servers"
            ),
            Caution::Literal { output, what } => write!(
                f,
                "output {output} match has {what}: literal here, unlike in Fluentd"
            ),
            Caution::FewWorkers {
                output,
                workers,
                servers,
            } => {
                let idle = servers.saturating_sub(usize::from(workers));
                write!(
                    f,
                    "output {output} workers {workers} for servers {servers}: \
                    the last {idle} get nothing until another is lost"
                )
            }
            Caution::Unreached { output } => write!(
                f,
                "output {output} gets nothing: its tags all go to outputs before it"
            ),
        }
    }
}

/// Says which servers of the output of this number are the relay itself.
fn say_of_servers<E: Write>(
    listen: SocketAddr,
    output: usize,
    settings: &OutputSettings,
    errors: &mut E,
) {
    for server in settings.servers.as_slice() {
        let server = server.address;
        if leads_to(server, listen) {
            say(errors, &Caution::OwnServer { output, server });
        }
    }
}

/// Says which servers of the output of this number have the address of one before them.
fn say_of_repeats<E: Write>(output: usize, settings: &OutputSettings, errors: &mut E) {
    let servers = settings.servers.as_slice();
    for (place, server) in servers.iter().enumerate() {
        let server = server.address;
        let before = servers.iter().take(place);
        if before.filter(|other| other.address == server).count() > 0 {
            say(errors, &Caution::SameServer { output, server });
        }
    }
}

/// Says where the output of this number has fewer workers than servers. Standbys are used only
/// where the others fail.
fn say_of_workers<E: Write>(output: usize, settings: &OutputSettings, errors: &mut E) {
    let all = settings.servers.as_slice();
    let servers = all.iter().filter(|server| !server.standby).count();
    let workers = settings.workers;
    if usize::from(workers) < servers {
        say(
            errors,
            &Caution::FewWorkers {
                output,
                workers,
                servers,
            },
        );
    }
}

/// Says what the patterns have that stands for itself here, by their document.
fn say_literals<E: Write>(root: &Table, outputs: usize, errors: &mut E) {
    for output in 0..outputs {
        if let Some(text) = match_text(root, output) {
            if let Some(what) = literal_in(text) {
                say(errors, &Caution::Literal { output, what });
            }
        }
    }
}

/// Says which outputs get nothing, by the patterns in their document. Where memory runs out no more
/// is said.
fn say_unreached<E: Write>(
    alloc: Global,
    root: &Table,
    outputs: &[OutputSettings],
    errors: &mut E,
) {
    for output in 0..outputs.len() {
        match is_unreached(alloc, root, &outputs[..output], output) {
            Ok(true) => say(errors, &Caution::Unreached { output }),
            Ok(false) => {}
            Err(_) => return,
        }
    }
}

/// Says what is lawful in the settings of a file, and foolish.
pub(crate) fn say_cautions<E: Write>(
    alloc: Global,
    file: &SettingsFile<'_>,
    settings: &Settings,
    errors: &mut E,
) {
    let listen = settings.relay.listen.tcp();
    say_of_relay(&settings.relay, errors);
    let outputs = settings.outputs.as_slice();
    for (output, each) in outputs.iter().enumerate() {
        if let Some(listen) = listen {
            say_of_servers(listen, output, each, errors);
        }
        say_of_repeats(output, each, errors);
        say_of_limits(settings.relay.message_limit, output, each, errors);
        say_of_workers(output, each, errors);
    }
    if let Some(root) = file.document(alloc) {
        say_literals(&root, outputs.len(), errors);
        say_unreached(alloc, &root, outputs, errors);
    }
}
