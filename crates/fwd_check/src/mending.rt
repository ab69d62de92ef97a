//! The faults of a document behind its first. Each is mended there, by a value that is good or by
//! none, and what is left is judged again as ever. So the first fault is the one that refuses the
//! settings, and the others are found as it is.

use crate::key_tables::kind_of;
use fwd_settings::ranges::SERVERS_MAX;
use fwd_settings::tables::TableKind;
use fwd_settings::{SettingsFault, read_settings};
use std::alloc::Global;
use toml::{Table, Value};

/// The key that a fault is of.
fn key_of(fault: &SettingsFault) -> Option<&str> {
    match fault {
        SettingsFault::Missing(key)
        | SettingsFault::WrongKind(key)
        | SettingsFault::OutOfRange(key)
        | SettingsFault::BadPattern(key)
        | SettingsFault::Unknown(key) => Some(key.as_str()),
        _ => None,
    }
}

/// Whether there is no such key.
fn is_unknown(fault: &SettingsFault) -> bool {
    matches!(fault, SettingsFault::Unknown(_))
}

/// A list's name and the place in it that a part of a key has, as `server[1]`.
fn placed(part: &str) -> Option<(&str, usize)> {
    let (name, place) = part.split_once('[')?;
    let place = place.strip_suffix(']')?.parse::<usize>().ok()?;
    Some((name, place))
}

/// What stands under a part of a key, as `relay` or `output[0]`, to be changed.
fn child<'a>(table: &'a mut Table, part: &str) -> Option<&'a mut Value> {
    match placed(part) {
        None => table.get_mut(part),
        Some((name, place)) => table.get_mut(name)?.as_array_mut()?.get_mut(place),
    }
}

/// The table under a key, to be changed.
fn table_at<'a>(root: &'a mut Table, key: &str) -> Option<&'a mut Table> {
    let mut table = root;
    for part in key.split('.') {
        table = child(table, part)?.as_table_mut()?;
    }
    Some(table)
}

/// A good value of a key, as TOML has it, where the document needs one there.
fn good_value(table: TableKind, name: &str) -> Option<&'static str> {
    match (table, name) {
        (TableKind::Root, "output") => {
            Some("[{match = \"**\", server = [{address = \"127.0.0.1:1\"}]}]")
        }
        (TableKind::Relay, "shared_key") => Some("\"x\""),
        (TableKind::User, _) => Some("\"x\""),
        (TableKind::Output, "match") => Some("\"**\""),
        (TableKind::Output, "retry_wait") => Some("1"),
        (TableKind::Output, "server") => Some("[{address = \"127.0.0.1:1\"}]"),
        (TableKind::Server, "address") => Some("\"127.0.0.1:1\""),
        _ => None,
    }
}

/// A good member of a list of tables, as TOML has it.
fn good_member(name: &str) -> Option<&'static str> {
    match name {
        "output" => Some("{match = \"**\", server = [{address = \"127.0.0.1:1\"}]}"),
        "server" => Some("{address = \"127.0.0.1:1\"}"),
        "user" => Some("{name = \"x\", password = \"x\"}"),
        _ => None,
    }
}

/// Puts a good value under a name in a table, or takes away what is there.
fn put(alloc: Global, table: &mut Table, name: &str, good: Option<&str>) -> Option<()> {
    match good {
        None => {
            let _ = table.remove(name);
        }
        Some(text) => {
            let value = Value::from_str(alloc, text).ok()?;
            let name = String::from_str(alloc, name).ok()?;
            let _ = table.insert(name, value).ok()?;
        }
    }
    Some(())
}

/// Mends the value under a key of the document: none is left where none has to be.
fn mend_key(alloc: Global, root: &mut Table, key: &str, is_unknown: bool) -> Option<()> {
    let (path, name) = match key.rsplit_once('.') {
        Some((path, name)) => (Some(path), name),
        None => (None, key),
    };
    let (kind, _) = kind_of(key);
    let table = match path {
        Some(path) => table_at(root, path)?,
        None => root,
    };
    if let Some((list, _)) = placed(name) {
        *child(table, name)? = Value::from_str(alloc, good_member(list)?).ok()?;
        return Some(());
    }
    let good = if is_unknown {
        None
    } else {
        good_value(kind, name)
    };
    put(alloc, table, name, good)
}

/// Makes the first of servers no standby, if a key is of a list of them.
fn mend_standbys(alloc: Global, root: &mut Table, key: &str) -> Option<()> {
    let (path, name) = key.rsplit_once('.')?;
    let servers = table_at(root, path)?.get_mut(name)?.as_array_mut()?;
    if name != "server" || servers.is_empty() || servers.len() > SERVERS_MAX {
        return None;
    }
    let first = servers.get_mut(0)?.as_table_mut()?;
    put(alloc, first, "standby", None)
}

/// Mends a fault in the document.
fn mend(alloc: Global, root: &mut Table, fault: &SettingsFault) -> Option<()> {
    let key = key_of(fault)?;
    if let SettingsFault::OutOfRange(_) = fault {
        if mend_standbys(alloc, root, key).is_some() {
            return Some(());
        }
    }
    mend_key(alloc, root, key, is_unknown(fault))
}

/// The next fault of a document behind one, which it mends there. There may be none, or none that
/// can be found: then no memory is left, or the fault cannot be mended.
pub(crate) fn next_fault(
    alloc: Global,
    root: &mut Table,
    fault: &SettingsFault,
) -> Option<SettingsFault> {
    mend(alloc, root, fault)?;
    let text = toml::table_to_string(alloc, root).ok()?;
    let next = read_settings(alloc, text.as_str().as_bytes()).err()?;
    let is_same = key_of(&next)? == key_of(fault)? && is_unknown(&next) == is_unknown(fault);
    if is_same { None } else { Some(next) }
}
