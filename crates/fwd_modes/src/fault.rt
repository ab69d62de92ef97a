/// Why a whole value is no request. The first whose condition holds decides, in the order of the
/// checks: shape, tag, option, compression, entries.
#[derive(Clone, Copy, Debug)]
pub enum InputFault {
    /// No array, or one of another length or with another kind in its second place.
    BadShape = 4,
    /// The tag is no str or bin, or longer than `TAG_LIMIT` bytes.
    BadTag = 5,
    /// An entry is no array of a time and a map.
    BadEntry = 6,
    /// The option is neither a map nor nil, or its `chunk` is no nil and no text of at most
    /// `CHUNK_LIMIT` bytes.
    BadOption = 7,
    /// The option names a compression that this relay does not read.
    Compressed = 8,
}
