//! What a refused value seems to be meant as, where that can be said in a few words.

use crate::key_lines::value_at;
use crate::key_tables::{allowed_in, kind_of};
use fwd_settings::tables::Allowed;
use std::fmt;
use toml::Table;

/// What a refused value seems to be meant as.
#[derive(Clone, Copy)]
pub(crate) enum Hint {
    /// A host's name, in place of its address.
    HostName,
    /// A time with its unit, or in quotes.
    Time,
    /// A number of bytes with its unit, or in quotes.
    Bytes,
}

/// What to do about it.
impl fmt::Display for Hint {
    fn fmt<W: fmt::Write>(&self, f: &mut fmt::Formatter<W>) -> fmt::Result {
        f.write_str(match self {
            Hint::HostName => {
                "no name is looked up: give the numeric address, or see \"TLS and names\" in \
                OPERATING for stunnel and haproxy"
            }
            Hint::Time => "give a number of ms, without a unit or quotes",
            Hint::Bytes => "give a number of bytes, without a unit or quotes",
        })
    }
}

/// Whether a text begins with a host's name in place of a numeric address.
fn has_name(text: &str) -> bool {
    let host = match text.rsplit_once(':') {
        Some((host, _)) => host,
        None => text,
    };
    !host.contains([':', '[']) && host.bytes().any(|byte| byte.is_ascii_alphabetic())
}

/// Whether a text seems to be meant as a path.
fn is_meant_as_path(text: &str) -> bool {
    text.starts_with("unix") || text.starts_with('/')
}

/// What the value under a key seems to be meant as, if it is a text.
pub(crate) fn hint_at(root: &Table, key: &str) -> Option<Hint> {
    let text = value_at(root, key)?.as_str()?;
    let (table, name) = kind_of(key);
    let is_number = text
        .bytes()
        .next()
        .is_some_and(|byte| byte.is_ascii_digit());
    match allowed_in(table, name)? {
        Allowed::Address if has_name(text) => Some(Hint::HostName),
        Allowed::Listen if has_name(text) && !is_meant_as_path(text) => Some(Hint::HostName),
        Allowed::Time(_) | Allowed::RetryMax if is_number => Some(Hint::Time),
        Allowed::Bytes(_, _) if is_number => Some(Hint::Bytes),
        _ => None,
    }
}
