//! What a request costs that is not answered yet.

ghost use Rattle.std.specs.Prelude.{◌≡◌};
ghost use Rattle.std.specs.Option.{option_copied};
ghost use Rattle.fwd_peers.specs.Costs.{upkeep};

/// What each request takes beside its entries, in bytes: its places in tables, and its piece of
/// memory.
const REQUEST: usize = 512;

/// How often a tag lies in memory: in the request, in a chunk, in the index of tags, and what is
/// kept ready for more of them.
const TAG_COPIES: usize = 4;

/// What a request of this tag and this `chunk` value takes beside its entries until it is answered,
/// in bytes, and no less.
pub fn upkeep(tag: &[u8], chunk: Option<&[u8]>) -> usize
    ensures { result ≡ upkeep tag.now (option_copied chunk.entry) }
{
    let tags = tag.len().saturating_mul(TAG_COPIES);
    let chunk = match chunk {
        None => 0,
        Some(chunk) => chunk.len(),
    };
    REQUEST.saturating_add(tags).saturating_add(chunk)
}
