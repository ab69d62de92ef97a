//! A request in PackedForward mode whose entries lie in its value's bytes as they are kept.

ghost use Rattle.std.specs.Prelude.{◌≡◌, ◌+◌, ◌≤◌, ◌++◌, [], Some, IfOk, IfSome, length, take, drop, unwrap_or};
ghost use Rattle.std.specs.List.{flat_map};
ghost use Rattle.std.specs.Option.{option_copied};
ghost use Rattle.fwd_msgpack.specs.Scans.{elements_of, text_of};
ghost use Rattle.fwd_msgpack.specs.Values.{bytes_of};
ghost use Rattle.fwd_modes.specs.Moved.{ArePacked, IsFound, optional};

use crate::envelope::Envelope;
use crate::kept_entries::copied;
use crate::lists::ends_of_kept;
use crate::request::judge;
use fwd_msgpack::{Head, Shape, Value};
use smallvec::SmallVec;
use std::alloc::{AllocError, Global};

/// Where the entries of a request stand in its value, and what stands beside them.
#[derive(Drop)]
pub(crate) struct Found {
    /// Where the first entry begins, in bytes from the front of the value.
    pub(crate) first: u32,
    /// How many bytes the entries have.
    pub(crate) size: u32,
    /// Where each entry ends, in bytes from the front of the first.
    pub(crate) ends: SmallVec<u32, 2>,
    /// The tag's bytes, and the chunk's behind them, if there is one.
    pub(crate) names: Vec<u8>,
    /// How many bytes the tag has.
    pub(crate) tag: u16,
    pub(crate) has_chunk: bool,
}

/// The values of a request in PackedForward mode.
#[derive(Clone, Copy)]
pub(crate) struct PackedParts<'a> {
    tag: Value<'a>,
    packed: Value<'a>,
    option: Option<Value<'a>>,
}

/// The values of a request in PackedForward mode, if the value has the shape of one.
fn packed_parts(value: Value<'_>) -> Option<PackedParts<'_>>
    ensures { IfSome result (ArePacked (elements_of (bytes_of value.entry))) }
{
    let mut members = value.items()?;
    let tag = members.next()?;
    let packed = members.next()?;
    let (Head::Str(_) | Head::Bin(_)) = packed.head() else {
        return None;
    };
    let option = members.next();
    if members.next().is_some() {
        return None;
    }
    Some(PackedParts {
        tag,
        packed,
        option,
    })
}

/// The tag's bytes, and the chunk's behind them.
fn names_of(alloc: Global, asked: Envelope<'_>) -> Result<Vec<u8>, AllocError>
    ensures { IfOk result (λ names.
        names.items ≡ asked.entry.tag.now ++ unwrap_or (option_copied asked.entry.chunk) []) }
{
    let chunk = asked.chunk.unwrap_or(&[]);
    let mut names = copied(alloc, asked.tag, chunk.len())?;
    names.extend_from_slice(chunk)?;
    Ok(names)
}

/// How many bytes an option has, if there is one.
fn option_len(option: Option<Value<'_>>) -> usize
    ensures { result ≡ length (flat_map (λ v. v) (optional option.entry)) }
{
    match option {
        Some(value) => value.bytes().len(),
        None => 0,
    }
}

/// Where the entries begin in a value that has these parts.
fn place_of(value: Value<'_>, given: PackedParts<'_>, text: &[u8]) -> u32
    requires members { ArePacked (elements_of (bytes_of value)) given }
    requires own { text_of (bytes_of given.packed) ≡ Some text.now }
    ensures place { take (length text.now) (drop result (bytes_of value.entry)) ≡ text.now }
    ensures inside { result + length text.now ≤ length (bytes_of value.entry) }
{
    let behind = option_len(given.option);
    let all = value.bytes().len();
    (all - behind - text.len()) as u32
}

/// Where the entries stand in the value of a request in PackedForward mode, if it has no fault and
/// all of them are spelled as they are kept.
pub(crate) fn find(alloc: Global, value: Value<'_>, depth: u8) -> Result<Option<Found>, AllocError>
    requires { depth ≤ 128 }
    ensures { IfOk result (λ found. IfSome found (IsFound depth (bytes_of value.entry))) }
{
    if value.is_nil() {
        return Ok(None);
    }
    let Some(given) = packed_parts(value) else {
        return Ok(None);
    };
    let Ok(asked) = judge(given.tag, given.option) else {
        return Ok(None);
    };
    let Some(text) = given.packed.text() else {
        return Ok(None);
    };
    let Some(ends) = ends_of_kept(alloc, text, depth, &mut Shape::new())? else {
        return Ok(None);
    };
    let first = place_of(value, given, text);
    let names = names_of(alloc, asked)?;
    Ok(Some(Found {
        first,
        size: text.len() as u32,
        ends,
        names,
        tag: asked.tag.len() as u16,
        has_chunk: asked.chunk.is_some(),
    }))
}
