//! What a whole value asks for (Forward Protocol Specification v1, "Message Modes").

ghost use Rattle.std.specs.Prelude.{◌≡◌, ◌≢◌, ◌≤◌, ℕ, List, Option, Some, IfOk};
ghost use Rattle.std.specs.Option.{option_map};
ghost use Rattle.fwd_msgpack.specs.Values.{bytes_of};
ghost use Rattle.fwd_modes.specs.Requests.{request_of, of_parts, one_entry};
ghost use Rattle.fwd_modes.specs.Requests.Reading.{Heartbeat as heartbeat, Fails as fails};
ghost use Rattle.fwd_modes.specs.declared.fault.InputFault.{InputFault};
ghost use Rattle.fwd_modes.specs.Readings.{shown, kept as kept_of, entries_given, judged};

use crate::batch::Batch;
use crate::entry::Entry;
use crate::envelope::Envelope;
use crate::fault::InputFault;
use crate::kept_entries::KeptEntries;
use crate::limits::TAG_LIMIT;
use crate::lists::{read_list, read_packed};
use crate::options::read_option;
use crate::request_fields::{EntriesForm, RequestFields};
use crate::value_kind::text_within;
use fwd_msgpack::{Limits, Value};
use std::alloc::{AllocError, Global};

/// What a whole value says.
#[derive(Drop)]
pub enum Reading {
    /// Nil, which is skipped.
    Heartbeat,
    /// A request.
    Asks(Batch),
    /// No request.
    Fails(InputFault),
}

/// What stands beside the entries, or the first fault there in the order tag, option, compression.
pub(crate) fn judge<'a>(
    tag: Value<'a>,
    option: Option<Value<'a>>,
) -> Result<Envelope<'a>, InputFault>
    ensures { (entries : Option (List (List ℕ)))
        → judged entries result
        ≡ of_parts (Some (record {
          tag = bytes_of tag.entry;
          entries = entries;
          option = option_map bytes_of option.entry;
        })) }
{
    let Some(tag) = text_within(tag, TAG_LIMIT) else {
        return Err(InputFault::BadTag);
    };
    let said = read_option(option)?;
    if said.compressed {
        return Err(InputFault::Compressed);
    }
    Ok(Envelope {
        tag,
        chunk: said.chunk,
    })
}

/// One entry, if it is one, and room behind it for so many bytes more.
pub(crate) fn read_one(
    alloc: Global,
    entry: Option<Entry<'_>>,
    more: usize,
) -> Result<Option<KeptEntries>, AllocError>
    ensures { IfOk result (λ kept. kept ≡ one_entry (option_map kept_of entry.entry)) }
{
    let Some(entry) = entry else {
        return Ok(None);
    };
    let mut kept = KeptEntries::with_room(alloc, entry.size().saturating_add(more))?;
    kept.push(entry)?;
    Ok(Some(kept))
}

/// The entries, if each is one, and room behind them for so many bytes more.
fn read_entries(
    alloc: Global,
    given: EntriesForm<'_>,
    depth: u8,
    more: usize,
) -> Result<Option<KeptEntries>, AllocError>
    requires { depth ≤ 128 }
    ensures { IfOk result (λ kept. kept ≡ entries_given depth given.entry) }
{
    match given {
        EntriesForm::One(entry) => read_one(alloc, entry, more),
        EntriesForm::List(list) => read_list(alloc, list, more),
        EntriesForm::Packed(value) => match value.text() {
            Some(packed) => read_packed(alloc, packed, depth, more),
            None => Ok(None),
        },
    }
}

/// A request of these entries, or the fault that one of them is none.
fn read_asked(
    alloc: Global,
    given: EntriesForm<'_>,
    asked: Envelope<'_>,
    depth: u8,
) -> Result<Reading, AllocError>
    requires { depth ≤ 128 }
    ensures { IfOk result (λ r.
        shown r ≡ judged (entries_given depth given.entry) (Ok asked.entry)) }
{
    match read_entries(alloc, given, depth, asked.size())? {
        Some(kept) => Ok(Reading::Asks(Batch::new(alloc, asked.tag, kept, asked.chunk)?)),
        None => Ok(Reading::Fails(InputFault::BadEntry)),
    }
}

/// What a whole value says: a heartbeat, a request, or the first fault in the order shape, tag,
/// option, compression, entry. Packed entries are at most as deep as the limits say, each counted
/// from its own array; the limits' bytes are those of the value, and have been looked at when it
/// was cut. Memory is taken only for entries: a heartbeat and the faults of shape, tag, option and
/// compression are never answered as out of memory.
#[tactic(auto, unfolding(crate::specs::Requests::request_of))]
pub fn read_request(alloc: Global, value: Value<'_>, limits: Limits) -> Result<Reading, AllocError>
    ensures value { IfOk result (λ r. shown r ≡ request_of limits.depth (bytes_of value.entry)) }
    ensures skipped { request_of limits.depth (bytes_of value.entry) ≡ heartbeat
        → result ≡ Ok Reading.Heartbeat }
    ensures refused { (fault : InputFault) → fault ≢ InputFault.BadEntry
        → request_of limits.depth (bytes_of value.entry) ≡ fails fault
        → result ≡ Ok (Reading.Fails fault) }
{
    if value.is_nil() {
        return Ok(Reading::Heartbeat);
    }
    let Some(parts) = RequestFields::of(value) else {
        return Ok(Reading::Fails(InputFault::BadShape));
    };
    match judge(parts.tag, parts.option) {
        Ok(asked) => read_asked(alloc, parts.entries, asked, limits.depth),
        Err(fault) => Ok(Reading::Fails(fault)),
    }
}
