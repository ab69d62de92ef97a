//! How far the first value of some bytes reaches.

ghost use Rattle.std.specs.Prelude.{◌≡◌, ◌+◌, ◌≤◌, ◌<◌, ◌^◌, ◌∷◌, length, sum, IfSome};
ghost use Rattle.fwd_msgpack.specs.Scans.{first_of, fault_at};
ghost use Rattle.fwd_msgpack.specs.Extents.{verdict_shown, scan_behind, stopped, StopsWithin};

use crate::counting::counted_len;
use crate::fault::ScanFault;
use crate::head::{Head, HeadRead, read_head};
use crate::limits::Limits;
use crate::plain::{plain_item, plain_items, small_members};
use crate::stack::Stack;

/// How far the first value of some bytes reaches.
#[derive(Clone, Copy)]
pub enum Extent {
    /// It has so many bytes.
    Whole(usize),
    /// The bytes stop within it.
    Short,
    /// The bytes begin no value within the limits.
    Bad(ScanFault),
}

/// Where a scan of some bytes stops.
#[derive(Clone, Copy)]
pub enum Stop {
    /// Behind a value, which ends with the first so many bytes.
    Whole(usize),
    /// Behind all bytes, in a head that begins behind the first so many.
    InHead(usize),
    /// Behind all bytes, in a payload of which so many bytes are still to come.
    InPayload(u32),
    /// At a fault.
    Bad(ScanFault),
}

/// What stands at the front of the bytes.
#[inline(always)]
pub fn extent_of(bytes: &[u8], limits: Limits) -> Extent
    ensures { verdict_shown result ≡ first_of limits.bytes limits.depth bytes.now }
{
    match counted_len(bytes, limits) {
        Some(used) => Extent::Whole(used),
        None => scanned_extent(bytes, limits),
    }
}

/// The same, with a list of the containers that are open.
#[inline(never)]
fn scanned_extent(bytes: &[u8], limits: Limits) -> Extent
    ensures { verdict_shown result ≡ first_of limits.bytes limits.depth bytes.now }
{
    let mut stack = Stack::new();
    match scan_items(bytes, &mut stack, limits) {
        Stop::Whole(used) => Extent::Whole(used),
        Stop::InHead(_) | Stop::InPayload(_) => Extent::Short,
        Stop::Bad(fault) => Extent::Bad(fault),
    }
}

/// Scans items, the first of which begins inside the containers of the stack, to the end of the
/// outermost container or of the bytes. The limits are those that are left for the bytes.
pub fn scan_items(bytes: &[u8], stack: &mut Stack, limits: Limits) -> Stop
    requires fits { sum stack.old ≤ limits.bytes }
    ensures state { stopped bytes.now stack.new result
        ≡ scan_behind limits.bytes limits.depth 0 stack.old bytes.now }
    ensures within { StopsWithin limits.bytes (sum stack.new) bytes.now result }
{
    let mut used = 0;
    loop {
        used = skip_members(bytes, used, stack, limits);
        if let Some(lacking) = small_container(bytes, used, stack, limits) {
            stack.push(lacking);
            used += 1;
            continue;
        }
        if let Some(size) = plain_item(&bytes[used..], room_at(bytes, used, stack, limits)) {
            used += size;
            if stack.end_value() {
                continue;
            }
            return Stop::Whole(used);
        }
        let (head, len) = match read_head(&bytes[used..]) {
            HeadRead::Whole(head, len) => (head, len),
            HeadRead::Short => return Stop::InHead(used),
            HeadRead::Reserved => return Stop::Bad(ScanFault::Reserved),
        };
        used += len;
        if let Some(fault) = head_fault(head, used, stack, limits) {
            return Stop::Bad(fault);
        }
        let payload = head.payload() as usize;
        let left = bytes.len() - used;
        if left < payload {
            return Stop::InPayload((payload - left) as u32);
        }
        used += payload;
        if head.members() > 0 {
            stack.push((head.members() - 1) as u32);
        } else if !stack.end_value() {
            return Stop::Whole(used);
        }
    }
}

/// How many members the container at the front lacks after its first one, where its head is one
/// byte, it has members, and it is within the limits.
#[inline(always)]
fn small_container(bytes: &[u8], used: usize, stack: &Stack, limits: Limits) -> Option<u32>
    requires inside { used ≤ length bytes.now }
    requires fits { used + sum stack.now ≤ limits.bytes }
    ensures same { IfSome result (λ lacking.
        scan_behind limits.bytes limits.depth (used + 1) (lacking ∷ stack.now) bytes.now
        ≡ scan_behind limits.bytes limits.depth used stack.now bytes.now) }
    ensures room { IfSome result (λ lacking. length stack.now < limits.depth) }
    ensures inside { IfSome result (λ lacking. used < length bytes.now) }
    ensures fits { IfSome result (λ lacking.
        used + 1 + (lacking + sum stack.now) ≤ limits.bytes) }
{
    if used == bytes.len() {
        return None;
    }
    let members = small_members(bytes[used]);
    let left = u64::from(limits.bytes) - used as u64 - stack.owed();
    if members > 0 && u64::from(members) < left && stack.len() < usize::from(limits.depth) {
        Some(members - 1)
    } else {
        None
    }
}

/// Goes over the members of the innermost container whose first bytes say their sizes, but its last
/// one. Where the next item begins.
#[inline(always)]
fn skip_members(bytes: &[u8], used: usize, stack: &mut Stack, limits: Limits) -> usize
    requires inside { used ≤ length bytes.now }
    requires fits { used + sum stack.old ≤ limits.bytes }
    ensures same { scan_behind limits.bytes limits.depth result stack.new bytes.now
        ≡ scan_behind limits.bytes limits.depth used stack.old bytes.now }
    ensures opened { length stack.new ≡ length stack.old }
    ensures inside { result ≤ length bytes.now }
    ensures fits { result + sum stack.new ≤ limits.bytes }
    ensures onward { used ≤ result }
{
    let room = room_at(bytes, used, stack, limits);
    let (items, len) = plain_items(&bytes[used..used + room], stack.innermost());
    stack.end_values(items);
    used + len
}

/// How many bytes an item behind the first `used` bytes may have: what there is, and what the limit
/// leaves behind all that is owed.
#[inline(always)]
fn room_at(bytes: &[u8], used: usize, stack: &Stack, limits: Limits) -> usize
    requires inside { used ≤ length bytes.now }
    requires fits { used + sum stack.now ≤ limits.bytes }
    ensures inside { used + result ≤ length bytes.now }
    ensures fits { used + result + sum stack.now ≤ limits.bytes }
{
    let left = u64::from(limits.bytes) - used as u64 - stack.owed();
    (bytes.len() - used).min(left as usize)
}

/// What is wrong with a complete head, if anything is, where `used` bytes end with it.
#[inline(always)]
#[tactic(auto, unfolding(crate::specs::Scans::fault_at))]
pub fn head_fault(head: Head, used: usize, stack: &Stack, limits: Limits) -> Option<ScanFault>
    requires { sum stack.now < 2 ^ 32 }
    ensures { result ≡ fault_at limits.bytes limits.depth used stack.now head }
{
    if head.opens() && stack.len() >= usize::from(limits.depth) {
        return Some(ScanFault::TooDeep);
    }
    let owed = u64::from(head.payload()) + head.members() + stack.owed();
    match u64::from(limits.bytes).checked_sub(used as u64) {
        Some(left) if owed <= left => None,
        _ => Some(ScanFault::TooLong),
    }
}
