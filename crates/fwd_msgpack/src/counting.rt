//! How far a value reaches, found by a count of the values that are owed and no list of the
//! containers that are open. Such a list only tells whether a container is too deep, and none is
//! where all containers together are no more than may be nested. Where the count gives up, the scan
//! decides, faults included.

ghost use Rattle.std.specs.Prelude.{◌≡◌, ◌<◌, ◌+◌, ◌^◌, IfSome, Some, drop, length};
ghost use Rattle.fwd_msgpack.specs.Heads.{reading_of};
ghost use Rattle.fwd_msgpack.specs.Plain.{item_size};
ghost use Rattle.fwd_msgpack.specs.Scans.{Whole, first_of};

use crate::head::{HeadRead, read_head};
use crate::limits::Limits;
use crate::plain::{plain_size, small_members};

/// How many bytes the item at a place takes, its head and its payload, and how many values it
/// opens.
#[inline(always)]
fn item_at(bytes: &[u8], at: usize) -> Option<(usize, u64)>
    requires { at < length bytes.now }
    ensures item { IfSome result (λ item.
        item_size (reading_of (drop at bytes.now)) ≡ Some (item.0, item.1)) }
    ensures some { IfSome result (λ item. 0 < item.0) }
    ensures small { IfSome result (λ item. item.0 < length bytes.now + 2 ^ 32) }
{
    let members = small_members(bytes[at]);
    if members > 0 {
        return Some((1, u64::from(members)));
    }
    match read_head(&bytes[at..]) {
        HeadRead::Whole(head, len) => Some((len + head.payload() as usize, head.members())),
        _ => None,
    }
}

/// How many bytes the first value takes, where no more of its items have heads that must be read
/// in full, as those of containers, than containers may stand one in another. Otherwise nothing,
/// which is never wrong: the bytes are then scanned.
#[inline(always)]
pub fn counted_len(bytes: &[u8], limits: Limits) -> Option<usize>
    ensures { IfSome result (λ used.
        first_of limits.bytes limits.depth bytes.now ≡ Whole used) }
{
    let end = bytes.len().min(limits.bytes as usize);
    if end == 0 {
        return None;
    }
    let mut used = 0;
    // where the bytes end but for one of each value that is still to come
    let mut most = end - 1;
    let mut heads = limits.depth;
    while most < end {
        if let Some(size) = plain_size(bytes, used) {
            used += size;
            most += 1;
            if used > most {
                return None;
            }
            continue;
        }
        let (size, members) = item_at(bytes, used)?;
        if heads == 0 || members > most as u64 {
            return None;
        }
        heads -= 1;
        used += size;
        most = most + 1 - members as usize;
        if used > most {
            return None;
        }
    }
    Some(used)
}
