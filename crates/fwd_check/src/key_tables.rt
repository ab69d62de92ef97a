//! Which table a key of the settings belongs to, and what may stand there.

use fwd_settings::tables::{Allowed, TableKind};

/// The tables that have keys which may be misplaced.
static KINDS: [TableKind; 4] = [
    TableKind::Relay,
    TableKind::User,
    TableKind::Output,
    TableKind::Server,
];

/// What may stand under a name in a table, if the table has that key.
pub(crate) fn allowed_in(table: TableKind, name: &str) -> Option<Allowed> {
    let rule = table.rules().iter().find(|rule| rule.name == name)?;
    Some(rule.allowed)
}

/// The table that a table stands in, which may have keys that are misplaced in it.
pub(crate) fn parent_of(table: TableKind) -> Option<TableKind> {
    match table {
        TableKind::User => Some(TableKind::Relay),
        TableKind::Server => Some(TableKind::Output),
        _ => None,
    }
}

/// The first table that has a key of this name.
pub(crate) fn table_having(name: &str) -> Option<TableKind> {
    let table = KINDS
        .iter()
        .find(|table| allowed_in(**table, name).is_some())?;
    Some(*table)
}

/// The table that a key is in, and the key's name there, without its place in a list.
pub(crate) fn kind_of(key: &str) -> (TableKind, &str) {
    let Some((path, name)) = key.rsplit_once('.') else {
        return (TableKind::Root, unplaced(key));
    };
    let table = if path.starts_with("relay.user[") {
        TableKind::User
    } else if path.starts_with("relay") {
        TableKind::Relay
    } else if path.contains(".server[") {
        TableKind::Server
    } else {
        TableKind::Output
    };
    (table, unplaced(name))
}

/// A name without the place in a list behind it.
fn unplaced(name: &str) -> &str {
    match name.split_once('[') {
        Some((list, _)) => list,
        None => name,
    }
}
