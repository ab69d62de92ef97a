//! What a request has beside its entries.

ghost use Rattle.std.specs.Prelude.{◌≤◌, ◌+◌, length};
ghost use Rattle.std.specs.Option.{ForSome};
ghost use Rattle.fwd_modes.specs.declared.limits.TheConstants.{CHUNK_LIMIT, TAG_LIMIT};

/// What a request without a fault has beside its entries.
#[derive(Clone, Copy)]
pub(crate) struct Envelope<'a> {
    pub(crate) tag: &'a [u8],
    pub(crate) chunk: Option<&'a [u8]>,
    ghost tag_fits: { length tag.now ≤ TAG_LIMIT },
    ghost chunk_fits: { ForSome chunk (λ bytes. length bytes.now ≤ CHUNK_LIMIT + 5) },
}

impl<'a> Envelope<'a> {
    /// How many bytes the tag and the chunk have.
    pub(crate) fn size(&self) -> usize {
        match self.chunk {
            Some(chunk) => self.tag.len().saturating_add(chunk.len()),
            None => self.tag.len(),
        }
    }
}
