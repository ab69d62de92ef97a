//! Why a run or a check came to no more: what the system or the reader of TOML says of it, and
//! where a key stands and what may stand under it. Fault values carry no error of the system and no
//! line: to say a cause, the program parses the text that it read once more, or listens again. If
//! that succeeds, nothing is said.

use crate::file::SettingsFile;
use crate::hints::{Hint, hint_at};
use crate::key_lines::{line_at, line_of, value_at};
use crate::key_tables::{allowed_in, kind_of, parent_of, table_having};
use crate::mending::next_fault;
use crate::saying::say;
use fwd_listeners::{listen_at, remove_socket};
use fwd_match::{Pattern, PatternFault};
use fwd_monitors::StartFault;
use fwd_peers::{PeerAddress, SocketPath};
use fwd_settings::SettingsFault;
use fwd_settings::ranges::SERVERS_MAX;
use fwd_settings::tables::Allowed;
use std::alloc::Global;
use std::fs::File;
use std::io::Write;
use std::net::{Net, TcpListener};
use std::rt::Files;
use std::{fmt, io};
use toml::{Table, de};

/// The most faults of a text that are told: to find the line of each, the text is read over and
/// over again.
const FAULTS_MAX: usize = 20;

/// Why settings are refused.
#[derive(Clone, Copy)]
enum Why<'a> {
    /// The file cannot be read.
    Unread(&'a io::Error),
    /// The text is no TOML.
    NotToml(de::Error),
    /// The key is required.
    Missing(&'a str),
    /// The key's value is of another kind, or out of its range, and seems to be meant so.
    Wrong(&'a str, Option<Hint>),
    /// The key's value is no match pattern.
    NoPattern(&'a str, Option<PatternFault>),
    /// All servers of the list are standbys.
    Standbys(&'a str),
    /// There are users and no shared key.
    Keyless(&'a str),
    /// There is no such key.
    Unknown(&'a str),
}

impl fmt::Display for Why<'_> {
    fn fmt<W: fmt::Write>(&self, f: &mut fmt::Formatter<W>) -> fmt::Result {
        match self {
            Why::Unread(error) => write!(f, "{error}"),
            Why::NotToml(error) => {
                let message = error.message();
                write!(f, "no TOML: {message}")
            }
            Why::Missing(key) => tell_allowed(f, key, "is required"),
            Why::Wrong(key, hint) => {
                tell_allowed(f, key, "is refused")?;
                match hint {
                    Some(hint) => write!(f, "; {hint}"),
                    None => Ok(()),
                }
            }
            Why::NoPattern(key, fault) => {
                write!(f, "{key} is no match pattern")?;
                match fault {
                    Some(fault) => write!(f, ": {fault}"),
                    None => Ok(()),
                }
            }
            Why::Standbys(key) => write!(f, "{key} has no server that is not a standby"),
            Why::Keyless(key) => write!(f, "{key} needs a shared_key in [relay]"),
            Why::Unknown(key) => tell_unknown(f, key),
        }
    }
}

/// What may stand under a key.
fn tell_allowed<W: fmt::Write>(f: &mut fmt::Formatter<W>, key: &str, what: &str) -> fmt::Result {
    let (table, name) = kind_of(key);
    write!(f, "{key} {what}")?;
    match allowed_in(table, name) {
        Some(allowed) => write!(f, ": allowed is {allowed}"),
        None => Ok(()),
    }
}

/// Where a key would stand that is none here, or which keys are.
fn tell_unknown<W: fmt::Write>(f: &mut fmt::Formatter<W>, key: &str) -> fmt::Result {
    let (table, name) = kind_of(key);
    write!(f, "{key} is no key: ")?;
    if let Some(parent) = parent_of(table) {
        if allowed_in(parent, name).is_some() {
            return write!(f, "{name} stands in {parent}, above {table}");
        }
    }
    if let Some(other) = table_having(name) {
        return write!(f, "{name} stands in {other}");
    }
    write!(f, "{table} has")?;
    let mut mark = " ";
    for rule in table.rules() {
        let name = rule.name;
        write!(f, "{mark}{name}")?;
        mark = ", ";
    }
    Ok(())
}

/// Why the settings in a file are refused, and the line of it, where one is known.
#[derive(Clone, Copy)]
struct Cause<'a> {
    path: &'a str,
    line: Option<usize>,
    why: Why<'a>,
}

impl fmt::Display for Cause<'_> {
    fn fmt<W: fmt::Write>(&self, f: &mut fmt::Formatter<W>) -> fmt::Result {
        let Cause { path, line, why } = self;
        write!(f, "settings: {path}")?;
        if let Some(line) = line {
            write!(f, " line {line}")?;
        }
        write!(f, ": {why}")
    }
}

/// An address that cannot be listened at, and what the system says of it.
#[derive(Drop)]
struct Unheard {
    address: PeerAddress,
    error: io::Error,
}

impl fmt::Display for Unheard {
    fn fmt<W: fmt::Write>(&self, f: &mut fmt::Formatter<W>) -> fmt::Result {
        let Unheard { address, error } = self;
        write!(f, "listen: {address}: {error}")
    }
}

/// A control socket that cannot be had, and what the system says of it.
#[derive(Drop)]
struct NoControl {
    path: SocketPath,
    error: io::Error,
}

impl fmt::Display for NoControl {
    fn fmt<W: fmt::Write>(&self, f: &mut fmt::Formatter<W>) -> fmt::Result {
        let NoControl { path, error } = self;
        write!(f, "listen: {path}: {error}")
    }
}

/// Why the value under a key is out of its range.
fn out_of_range<'a>(root: &Table, key: &'a str) -> Why<'a> {
    let (table, name) = kind_of(key);
    let listed = match value_at(root, key) {
        Some(value) => value.as_array().map_or(0, |members| members.len()),
        None => 0,
    };
    let is_list = 1 <= listed && listed <= SERVERS_MAX;
    match allowed_in(table, name) {
        Some(Allowed::Users) if listed > 0 => Why::Keyless(key),
        Some(Allowed::Servers) if is_list => Why::Standbys(key),
        _ => Why::Wrong(key, hint_at(root, key)),
    }
}

/// What is wrong with the pattern under a key.
fn pattern_fault(alloc: Global, root: &Table, key: &str) -> Option<PatternFault> {
    let text = value_at(root, key)?.as_str()?;
    match Pattern::read(alloc, text) {
        Ok(_) => None,
        Err(fault) => Some(fault),
    }
}

/// The table that a key is in, by its own key.
fn table_of(key: &str) -> Option<&str> {
    let (table, _) = key.rsplit_once('.')?;
    Some(table)
}

/// Why a text that is TOML is refused with a fault, and where.
fn key_cause<'a>(
    alloc: Global,
    file: (&'a str, &[u8]),
    root: &Table,
    fault: &'a SettingsFault,
) -> Option<Cause<'a>> {
    let (path, text) = file;
    let (why, place) = match fault {
        SettingsFault::Missing(key) => (Why::Missing(key.as_str()), table_of(key.as_str())),
        SettingsFault::WrongKind(key) => {
            let key = key.as_str();
            (Why::Wrong(key, hint_at(root, key)), Some(key))
        }
        SettingsFault::OutOfRange(key) => (out_of_range(root, key.as_str()), Some(key.as_str())),
        SettingsFault::BadPattern(key) => {
            let key = key.as_str();
            (
                Why::NoPattern(key, pattern_fault(alloc, root, key)),
                Some(key),
            )
        }
        SettingsFault::Unknown(key) => (Why::Unknown(key.as_str()), Some(key.as_str())),
        _ => return None,
    };
    let line = match place {
        Some(key) => line_of(alloc, text, key),
        None => None,
    };
    Some(Cause { path, line, why })
}

/// Why a text is refused with a fault, and where, if that can be found.
fn cause_of<'a>(
    alloc: Global,
    path: &'a str,
    text: &[u8],
    fault: &'a SettingsFault,
) -> Option<Cause<'a>> {
    match toml::table_from_slice(alloc, text) {
        Ok(root) => key_cause(alloc, (path, text), &root, fault),
        Err(error) => {
            let line = Some(line_at(text, error.span()?.start));
            let why = Why::NotToml(error);
            Some(Cause { path, line, why })
        }
    }
}

/// Says why a text is refused beside its first fault: each further one on a line, up to so many.
fn say_further<E: Write>(
    alloc: Global,
    path: &str,
    text: &[u8],
    first: &SettingsFault,
    errors: &mut E,
) {
    let Ok(mut root) = toml::table_from_slice(alloc, text) else {
        return;
    };
    let mut found = next_fault(alloc, &mut root, first);
    for _ in 1..FAULTS_MAX {
        let Some(fault) = found else {
            return;
        };
        if let Some(cause) = cause_of(alloc, path, text, &fault) {
            say(errors, &cause);
        }
        found = next_fault(alloc, &mut root, &fault);
    }
}

/// Says why the settings in a file are refused with a fault, and with which others.
pub fn say_refused<E: Write>(
    alloc: Global,
    file: &SettingsFile<'_>,
    fault: &SettingsFault,
    errors: &mut E,
) {
    if let SettingsFault::Memory = fault {
        return;
    }
    let path = file.path;
    match &file.text {
        Ok(text) => {
            if let Some(cause) = cause_of(alloc, path, text.as_slice(), fault) {
                say(errors, &cause);
            }
            say_further(alloc, path, text.as_slice(), fault, errors);
        }
        Err(error) => {
            let (line, why) = (None, Why::Unread(error));
            say(errors, &Cause { path, line, why });
        }
    }
}

/// Says why an address could not be listened at, or a control socket not be had, if a relay did not
/// start for that.
pub fn say_unheard<R: Net + Files<File = File>, E: Write>(
    rt: &R,
    fault: &StartFault,
    errors: &mut E,
) {
    match fault {
        StartFault::Listen(address) => {
            let address = *address;
            if let Err(error) = try_address(rt, address) {
                say(errors, &Unheard { address, error });
            }
        }
        StartFault::Control(path) => {
            let path = *path;
            if let Err(error) = try_path(rt, path) {
                say(errors, &NoControl { path, error });
            }
        }
        _ => {}
    }
}

/// Listens at an address for a moment: the only error is the system's.
fn try_address<R: Net + Files<File = File>>(rt: &R, address: PeerAddress) -> io::Result<()> {
    match address {
        PeerAddress::Tcp(address) => {
            TcpListener::bind(rt, address)?;
            Ok(())
        }
        PeerAddress::Unix(path) => try_path(rt, path),
    }
}

/// Listens at a path for a moment, as the relay does. Where another relay has it, or it is no
/// socket, the path is in use.
fn try_path<R: Net + Files<File = File>>(rt: &R, path: SocketPath) -> io::Result<()> {
    let (listener, file) = listen_at(rt, path)?;
    drop(listener);
    remove_socket(rt, file);
    Ok(())
}
