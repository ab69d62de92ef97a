use crate::seq::Bytes;

/// What is held of a tag.
#[derive(Drop)]
pub struct TagCount {
    /// The tag's bytes.
    pub tag: Bytes,
    /// Its entries that are not settled.
    pub held: u64,
    /// The bytes of these entries.
    pub bytes: u64,
}
