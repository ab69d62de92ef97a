//! What a value is under the rule of its kind.

ghost use Rattle.std.specs.Prelude.{◌≡◌, ◌≤◌, IfOk, IfErr, Some, None, false, map, option_map};
ghost use Rattle.toml.specs.Data.{as_str, as_bool};
ghost use Rattle.toml.specs.View.{view};
ghost use Rattle.fwd_settings.specs.Kinds.{given, number_flaw, number_of, flag_flaw, text_flaw, path_flaw, when_full_flaw, when_full_of, digits_flaw, bytes_of, address_flaw, list_of, list_flaw, allowed_list_flaw};
ghost use Rattle.fwd_settings.specs.Kinds as spec;
ghost use Rattle.fwd_settings.specs.Addresses.{address_of_text, at_colon, behind_unix, is_absolute, socket_of};

use crate::ranges::CONTROL_MAX;
use crate::settings::WhenFull;
use crate::table_path::Flaw;
use hex::FromHex;
use std::net::SocketAddr;
use toml::Value;

/// An integer of this range. A negative integer is out of range. A float is of a wrong kind, even
/// if it is whole.
pub fn number_in(value: &Value, least: u64, most: u64) -> Result<u64, Flaw>
    ensures ok { IfOk result (λ number. (number_of (view value.now) ≡ Some number)
        × (number_flaw least most (view value.now) ≡ None)) }
    ensures flaw { IfErr result (λ flaw. number_flaw least most (view value.now) ≡ Some flaw) }
    ensures least { IfOk result (λ number. least ≤ number) }
    ensures most { IfOk result (λ number. number ≤ most) }
{
    let number = value.as_integer().ok_or(Flaw::WrongKind)?;
    let number = u64::try_from(number).map_err(|_| Flaw::OutOfRange)?;
    if least <= number && number <= most {
        Ok(number)
    } else {
        Err(Flaw::OutOfRange)
    }
}

/// True or false.
pub fn flag_in(value: &Value) -> Result<bool, Flaw>
    ensures ok { IfOk result (λ flag. (as_bool (view value.now) ≡ Some flag)
        × (flag_flaw (view value.now) ≡ None)) }
    ensures flaw { IfErr result (λ flaw. flag_flaw (view value.now) ≡ Some flaw) }
{
    value.as_bool().ok_or(Flaw::WrongKind)
}

/// Whether there is a value and it is true.
pub fn is_true(value: Option<&Value>) -> bool
    ensures { result ≡ given as_bool false (option_map (λ value. view value.now) value.entry) }
{
    match value {
        Some(value) => value.as_bool().unwrap_or(false),
        None => false,
    }
}

/// What becomes of a request that an output has no room for.
pub fn when_full_in(value: &Value) -> Result<WhenFull, Flaw>
    ensures ok { IfOk result (λ full. (when_full_of (view value.now) ≡ Some full)
        × (when_full_flaw (view value.now) ≡ None)) }
    ensures flaw { IfErr result (λ flaw. when_full_flaw (view value.now) ≡ Some flaw) }
{
    match value.as_str().ok_or(Flaw::WrongKind)? {
        "close" => Ok(WhenFull::Close),
        "wait" => Ok(WhenFull::Wait),
        _ => Err(Flaw::OutOfRange),
    }
}

/// A text of so many bytes.
pub fn text_in(value: &Value, least: usize, most: usize) -> Result<&str, Flaw>
    ensures ok { IfOk result (λ text. (as_str (view value.now) ≡ Some text.now)
        × (text_flaw least most (view value.now) ≡ None)) }
    ensures flaw { IfErr result (λ flaw. text_flaw least most (view value.now) ≡ Some flaw) }
{
    let text = value.as_str().ok_or(Flaw::WrongKind)?;
    if least <= text.len() && text.len() <= most {
        Ok(text)
    } else {
        Err(Flaw::OutOfRange)
    }
}

/// Whether a path is one that a socket may have: of at most so many bytes as the system has room
/// for, none of which is 0.
fn is_path(path: &str) -> bool
    ensures { result ≡ spec.is_path path.now }
{
    1 <= path.len() && path.len() <= CONTROL_MAX && !path.as_bytes().contains(&0)
}

/// The path of a socket, which stands alone.
pub fn socket_path_in(value: &Value) -> Result<&str, Flaw>
    ensures ok { IfOk result (λ path. (as_str (view value.now) ≡ Some path.now)
        × (path_flaw (view value.now) ≡ None)) }
    ensures flaw { IfErr result (λ flaw. path_flaw (view value.now) ≡ Some flaw) }
{
    let path = value.as_str().ok_or(Flaw::WrongKind)?;
    if is_path(path) {
        Ok(path)
    } else {
        Err(Flaw::OutOfRange)
    }
}

/// So many bytes, each as two hex digits. Any other number of digits is out of range.
pub fn digits_in<const N: usize>(value: &Value) -> Result<[u8; N], Flaw>
    ensures ok { IfOk result (λ bytes. (bytes_of N (view value.now) ≡ Some bytes)
        × (digits_flaw N (view value.now) ≡ None)) }
    ensures flaw { IfErr result (λ flaw. digits_flaw N (view value.now) ≡ Some flaw) }
{
    let text = value.as_str().ok_or(Flaw::WrongKind)?;
    match <[u8; N] as FromHex>::from_hex(text) {
        Ok(bytes) => Ok(bytes),
        Err(_) => Err(Flaw::OutOfRange),
    }
}

/// The socket address that a text spells.
#[tactic(auto, using(crate::proofs::AddressLemmas::parsed_socket))]
fn socket_of(text: &str) -> Option<SocketAddr>
    ensures { result ≡ socket_of text.now }
{
    text.parse::<SocketAddr>().ok()
}

/// The address that a text spells: a socket address with a port and without a scope. `%0` is
/// refused too, though std reads it as no scope. A port may have leading zeros, as std reads it; a
/// number of an IPv4 address may not.
#[tactic(auto, unfolding(crate::specs::Addresses::address_of_text))]
fn address_of(text: &str) -> Option<SocketAddr>
    ensures { result ≡ address_of_text text.now }
{
    let address = socket_of(text)?;
    if text.as_bytes().contains(&b'%') || address.port() == 0 {
        None
    } else {
        Some(address)
    }
}

/// An address.
pub fn address_in(value: &Value) -> Result<SocketAddr, Flaw>
    ensures ok { IfOk result (λ address. (spec.address_of (view value.now) ≡ Some address)
        × (address_flaw (view value.now) ≡ None)) }
    ensures flaw { IfErr result (λ flaw. address_flaw (view value.now) ≡ Some flaw) }
{
    let text = value.as_str().ok_or(Flaw::WrongKind)?;
    address_of(text).ok_or(Flaw::OutOfRange)
}

/// A text cut at its first colon, if it has one.
fn at_colon(text: &str) -> Option<(&str, &str)>
    ensures { option_map (λ parts. (parts.0.now, parts.1.now)) result ≡ at_colon text.now }
{
    text.split_once(':')
}

/// What stands behind `unix:`, if a text begins so.
fn behind_unix(text: &str) -> Option<&str>
    ensures { option_map (λ path. path.now) result ≡ behind_unix text.now }
{
    let (kind, path) = at_colon(text)?;
    match kind {
        "unix" => Some(path),
        _ => None,
    }
}

/// Whether a path is absolute.
fn is_absolute(path: &str) -> bool
    ensures { result ≡ is_absolute path.now }
{
    match path.as_bytes().first() {
        None => false,
        Some(byte) => *byte == b'/',
    }
}

/// Whether a path is one that a Unix socket may have: absolute, of at most so many bytes as the
/// system has room for, none of which is 0.
fn is_socket_path(path: &str) -> bool
    ensures { result ≡ spec.is_socket_path path.now }
{
    is_absolute(path)
        && 2 <= path.len()
        && path.len() <= CONTROL_MAX
        && !path.as_bytes().contains(&0)
}

/// The path of a Unix socket that a value says, if it says one.
pub fn path_in(value: &Value) -> Option<&str>
    ensures { option_map (λ path. path.now) result ≡ spec.path_of (view value.now) }
{
    let path = behind_unix(value.as_str()?)?;
    if is_socket_path(path) {
        Some(path)
    } else {
        None
    }
}

/// The members of a list.
#[tactic(auto, using(crate::proofs::ListLemmas::array_seen, crate::proofs::ListLemmas::no_array))]
pub fn array_in(value: &Value) -> Option<&[Value]>
    ensures { option_map (λ values. map view values.now) result ≡ list_of (view value.now) }
{
    match value.as_array() {
        Some(array) => Some(array.as_slice()),
        None => None,
    }
}

/// The members of a list of 1 to so many.
#[tactic(auto, using(crate::proofs::ListLemmas::viewed_length))]
pub fn list_in(value: &Value, most: usize) -> Result<&[Value], Flaw>
    ensures ok { IfOk result (λ values. (list_of (view value.now) ≡ Some (map view values.now))
        × (list_flaw most (view value.now) ≡ None)) }
    ensures flaw { IfErr result (λ flaw. list_flaw most (view value.now) ≡ Some flaw) }
{
    let Some(values) = array_in(value) else {
        return Err(Flaw::WrongKind);
    };
    if 1 <= values.len() && values.len() <= most {
        Ok(values)
    } else {
        Err(Flaw::OutOfRange)
    }
}

/// The members of a list of at least one, where it may be there.
#[tactic(auto, using(crate::proofs::ListLemmas::viewed_length))]
pub fn allowed_list_in(value: &Value, may: bool) -> Result<&[Value], Flaw>
    ensures ok { IfOk result (λ values. (list_of (view value.now) ≡ Some (map view values.now))
        × (allowed_list_flaw may (view value.now) ≡ None)) }
    ensures flaw { IfErr result (λ flaw. allowed_list_flaw may (view value.now) ≡ Some flaw) }
{
    let Some(values) = array_in(value) else {
        return Err(Flaw::WrongKind);
    };
    if may && !values.is_empty() {
        Ok(values)
    } else {
        Err(Flaw::OutOfRange)
    }
}
