//! Room for a value that comes in many pieces.

ghost use Rattle.std.specs.Prelude.{◌≡◌, ◌≤◌, ◌+◌, max, vec_len, vec_capacity};
ghost use Rattle.fwd_source.specs.declared.room.TheConstants.{MOST_AHEAD};

use fwd_msgpack::{Head, HeadRead, read_head};

/// How many bytes of room are made ahead of what came, at most. Who sends a head alone gets no
/// more.
pub(crate) const MOST_AHEAD: usize = 1_048_576;

/// How many bytes of room are made behind the entries: for the option, and for the tag and the
/// chunk, which stand there once the bytes are the request's own.
const BESIDE: usize = 512;

/// The head at the front, and the bytes behind it.
fn head_and_rest(bytes: &[u8]) -> Option<(Head, &[u8])> {
    match read_head(bytes) {
        HeadRead::Whole(head, used) => Some((head, &bytes[used..])),
        _ => None,
    }
}

/// The bytes that the head of a text says it has, and those behind the head.
fn text_ahead(bytes: &[u8]) -> Option<(usize, &[u8])> {
    match head_and_rest(bytes)? {
        (Head::Str(len) | Head::Bin(len), behind) => Some((len as usize, behind)),
        _ => None,
    }
}

/// How many bytes of packed entries are still to come, by the heads of the unfinished request that
/// these bytes are: none where they say nothing of it.
fn owed(bytes: &[u8]) -> Option<usize> {
    let (Head::Arr(_), members) = head_and_rest(bytes)? else {
        return None;
    };
    let (tag, behind) = text_ahead(members)?;
    if behind.len() < tag {
        return None;
    }
    let (packed, came) = text_ahead(&behind[tag..])?;
    Some(packed.saturating_sub(came.len()))
}

/// Whether the unfinished request that these bytes are has packed entries, by its heads.
pub(crate) fn is_packed(bytes: &[u8]) -> bool {
    owed(bytes).is_some()
}

/// Makes room behind the bytes of an unfinished request where so many more have none, once for all
/// that its heads say is to come: it is else made again each time that the bytes have doubled. No
/// memory is no fault.
pub(crate) fn make_room(rest: &mut Vec<u8>, more: usize)
    ensures items { rest.new.items ≡ rest.old.items }
    ensures stays { vec_capacity rest.old ≤ vec_capacity rest.new }
    ensures ahead { vec_capacity rest.new
        ≤ max (vec_capacity rest.old) (vec_len rest.old + MOST_AHEAD) }
{
    if more <= rest.capacity() - rest.len() {
        return;
    }
    let owed = owed(rest).unwrap_or(0);
    if owed == 0 {
        return;
    }
    let room = owed.saturating_add(BESIDE).min(MOST_AHEAD);
    let _made = rest.reserve_exact(room);
}
