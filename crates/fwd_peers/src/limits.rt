/// Where so many bytes wait to be sent to a source, it is read no further until it took some. So
/// what is kept for a source stays bounded.
pub const UNSENT: usize = 65_536;

/// The most bytes that a source may hold that has not logged in, where a shared key is set: those
/// of an unfinished PING.
pub const GREETING: usize = 4_096;

/// How many bytes a source is read in a visit whose requests are short: as many as come to some
/// hundred of them, so that a visit is short too. Read as others are, 16,384 requests would take
/// some 20 ms.
pub const SMALL_PIECE: usize = 4_096;

/// A source's requests are short where they have fewer bytes than this, taken together.
pub const SHORT_REQUEST: usize = 128;

/// What an acknowledgement has in front of the chunk's value: a map of one, and `ack` (Forward
/// Protocol Specification v1, "Response").
pub const ACK_FRONT: [u8; 5] = *b"\x81\xa3ack";
