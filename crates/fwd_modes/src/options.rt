//! The option of a request (Forward Protocol Specification v1, "Option").

ghost use Rattle.std.specs.Prelude.{◌≡◌, ◌≤◌, ◌+◌, true, false, IfOk, IfErr, IfSome, length, option_and_then};
ghost use Rattle.std.specs.Option.{ForSome, option_copied, option_map};
ghost use Rattle.fwd_msgpack.specs.Values.{bytes_of};
ghost use Rattle.fwd_modes.specs.declared.limits.TheConstants.{CHUNK_LIMIT};
ghost use Rattle.fwd_modes.specs.Options.{unless_nil, chunk_of, is_bad_chunk, is_bad_option, is_compression, is_compressed};

use crate::fault::InputFault;
use crate::limits::CHUNK_LIMIT;
use crate::short_option::short_chunk;
use crate::value_kind::text_within;
use fwd_msgpack::Value;

/// What an option says.
#[derive(Clone, Copy)]
pub(crate) struct OptionFields<'a> {
    /// The value that the acknowledgement is to carry, as its own bytes.
    pub(crate) chunk: Option<&'a [u8]>,
    /// Whether a compression is named.
    pub(crate) compressed: bool,
    ghost chunk_fits: { ForSome chunk (λ bytes. length bytes.now ≤ CHUNK_LIMIT + 5) },
}

/// What an option says that has no pairs.
const NOTHING: OptionFields<'static> = OptionFields {
    chunk: None,
    compressed: false,
};

/// Whether the value under `compressed` names a compression.
fn is_compression(value: Option<Value<'_>>) -> bool
    ensures { result ≡ is_compression (option_map bytes_of value.entry) }
{
    match value {
        Some(name) => name.is_text(b"gzip") || name.is_text(b"zstd"),
        None => false,
    }
}

/// The chunk of the value under `chunk`.
fn read_chunk<'a>(value: Option<Value<'a>>) -> Result<Option<&'a [u8]>, InputFault>
    ensures ok { let given = option_and_then unless_nil (option_map bytes_of value.entry) in
        IfOk result (λ chunk. (is_bad_chunk given ≡ false) × (option_copied chunk ≡ given)) }
    ensures bound { IfOk result (λ chunk.
        IfSome chunk (λ bytes. length bytes.now ≤ CHUNK_LIMIT + 5)) }
    ensures err { let given = option_and_then unless_nil (option_map bytes_of value.entry) in
        IfErr result (λ fault. (is_bad_chunk given ≡ true) × (fault ≡ InputFault.BadOption)) }
{
    let Some(chunk) = value else {
        return Ok(None);
    };
    if chunk.is_nil() {
        return Ok(None);
    }
    match text_within(chunk, CHUNK_LIMIT) {
        Some(_) => Ok(Some(chunk.bytes())),
        None => Err(InputFault::BadOption),
    }
}

/// What an option says, which is a map or nil, or is left out. Of a repeated key the last value
/// counts, its kind too: a `chunk` of a wrong kind before a good one is no fault.
pub(crate) fn read_option<'a>(option: Option<Value<'a>>) -> Result<OptionFields<'a>, InputFault>
    ensures good { let given = option_map bytes_of option.entry in
        IfOk result (λ said. is_bad_option given ≡ false) }
    ensures chunk { let given = option_map bytes_of option.entry in
        IfOk result (λ said. option_copied said.chunk ≡ chunk_of given) }
    ensures compressed { let given = option_map bytes_of option.entry in
        IfOk result (λ said. said.compressed ≡ is_compressed given) }
    ensures err { let given = option_map bytes_of option.entry in
        IfErr result (λ fault.
        (is_bad_option given ≡ true) × (fault ≡ InputFault.BadOption)) }
{
    let Some(option) = option else {
        return Ok(NOTHING);
    };
    if let Some(chunk) = short_chunk(option) {
        return Ok(OptionFields {
            chunk: Some(chunk),
            compressed: false,
        });
    }
    if option.is_nil() {
        return Ok(NOTHING);
    }
    let Some(pairs) = option.pairs() else {
        return Err(InputFault::BadOption);
    };
    let (chunk, compression) = pairs.last_under_each(b"chunk", b"compressed");
    Ok(OptionFields {
        chunk: read_chunk(chunk)?,
        compressed: is_compression(compression),
    })
}
