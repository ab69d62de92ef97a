//! What the readers of a value give, held against its bytes.

use fwd_msgpack::{Head, Value};

/// What stands behind a front of the bytes, where they begin with it.
fn behind<'a>(bytes: &'a [u8], front: &[u8]) -> Option<&'a [u8]> {
    if bytes.len() < front.len() {
        return None;
    }
    let (start, rest) = bytes.split_at(front.len());
    if start == front { Some(rest) } else { None }
}

/// Whether an array's members stand one after the other in these bytes and fill them.
fn are_items(value: Value<'_>, bytes: &[u8]) -> bool {
    let Some(items) = value.items() else {
        return false;
    };
    let mut rest = bytes;
    for item in items {
        let Some(more) = behind(rest, item.bytes()) else {
            return false;
        };
        rest = more;
    }
    rest.is_empty()
}

/// The same of a map's keys and values, each behind its key.
fn are_pairs(value: Value<'_>, bytes: &[u8]) -> bool {
    let Some(pairs) = value.pairs() else {
        return false;
    };
    let mut rest = bytes;
    for (key, value) in pairs {
        let Some(more) = behind(rest, key.bytes()).and_then(|rest| behind(rest, value.bytes()))
        else {
            return false;
        };
        rest = more;
    }
    rest.is_empty()
}

/// Whether the readers of the other kinds give nothing.
fn is_no_other(value: Value<'_>, head: Head) -> bool {
    (value.int().is_none() || matches!(head, Head::Int { .. }))
        && (value.text().is_none() || matches!(head, Head::Str(_) | Head::Bin(_)))
        && (value.ext().is_none() || matches!(head, Head::Ext { .. }))
        && (value.items().is_none() || matches!(head, Head::Arr(_)))
        && (value.pairs().is_none() || matches!(head, Head::Map(_)))
}

/// Whether the readers of a value give what its head says, and the bytes behind it.
pub(crate) fn is_read(value: Value<'_>, head: Head, bytes: &[u8]) -> bool {
    is_no_other(value, head)
        && match head {
            Head::Int { neg, mag } => value.int() == Some((neg, mag)),
            Head::Str(_) | Head::Bin(_) => value.text() == Some(bytes),
            Head::Ext { kind, .. } => value.ext() == Some((kind, bytes)),
            Head::Arr(_) => are_items(value, bytes),
            Head::Map(_) => are_pairs(value, bytes),
            Head::Nil | Head::Bool(_) | Head::Float { .. } => true,
        }
}
