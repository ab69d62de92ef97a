//! Laws of the definitions: each is the contract of a function that does nothing.

ghost use Rattle.std.specs.Prelude.{◌≡◌, ◌<◌, ◌≤◌, ◌^◌, ◌++◌, ℕ, List, Some, length};
ghost use Rattle.std.specs.List.{AllByRecursion};
ghost use Rattle.fwd_msgpack.specs.Scans.{IsWhole, most_deep};
ghost use Rattle.fwd_msgpack.specs.Texts.{text};
ghost use Rattle.fwd_msgpack.specs.Values.{IsValue};
ghost use Rattle.fwd_modes.specs.Frames.{IsKept, chunk_frame, packed_frame, frame_head, frame_option, Frame, IsFrame};
ghost use Rattle.fwd_modes.specs.Requests.{Request, Asks, request_of};

use crate::limits::{CHUNK_LIMIT, TAG_LIMIT};

/// A frame is one value, two containers deep.
pub fn frame_is_value()
    ensures { (deep : ℕ) (frame : Frame) → IsFrame deep frame
        → IsValue 2 (chunk_frame frame.tag frame.entries frame.name) }
{}

/// What stands before a frame's entries, the entries, and what stands behind them are the frame.
pub fn frame_is_joined()
    ensures { (tag packed name : List ℕ) (count : ℕ)
        → frame_head tag (length packed) ++ packed ++ frame_option count name
        ≡ packed_frame tag packed count name }
{}

/// A frame is a request for the tag, the entries and the name that it was written from.
pub fn frame_reads_back()
    ensures { (deep : ℕ) (frame : Frame) → IsFrame deep frame
        → request_of deep (chunk_frame frame.tag frame.entries frame.name)
        ≡ Asks (record {
          tag = frame.tag;
          entries = frame.entries;
          chunk = Some (text frame.name);
        }) }
{}

/// Frames of another tag, other entries or another name have other bytes.
pub fn frames_differ()
    ensures { (deep : ℕ) (frame other : Frame) → IsFrame deep frame → IsFrame deep other
        → chunk_frame frame.tag frame.entries frame.name
        ≡ chunk_frame other.tag other.entries other.name
        → frame ≡ other }
{}

/// A value that asks for another tag, other entries or another
/// name than a frame has other bytes, however it is spelled.
pub fn only_its_frame()
    ensures { (deep : ℕ) (frame : Frame) (r : Request) (value : List ℕ) → IsFrame deep frame
        → request_of deep value ≡ Asks r
        → value ≡ chunk_frame frame.tag frame.entries frame.name
        → r
        ≡ record { tag = frame.tag; entries = frame.entries; chunk = Some (text frame.name) } }
{}

/// The entries that a whole value asks for are each kept as
/// it stands, and at most 128 deep: they can stand in a frame.
pub fn entries_are_kept()
    ensures { (deep : ℕ) (bytes : List ℕ) (r : Request) → deep ≤ most_deep → IsWhole bytes
        → request_of deep bytes ≡ Asks r → AllByRecursion (IsKept most_deep) r.entries }
{}

/// The limits of a request, in bytes.
pub fn request_limits()
    ensures tag { TAG_LIMIT ≡ 1024 }
    ensures chunk { CHUNK_LIMIT ≡ 256 }
{}
