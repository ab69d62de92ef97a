//! What the relay writes to the next hop (Forward Protocol
//! Specification v1, "PackedForward Mode" and "Option").

ghost use Rattle.std.specs.Prelude.{◌≡◌, ◌+◌, ◌^◌, ◌<◌, ◌++◌, [], length, is_ok, if◌then◌else◌, IfOk};
ghost use Rattle.std.specs.Int.{w16, w64, to_be_bytes};
ghost use Rattle.base64.specs.GeneralPurpose.{encode_of};
ghost use Rattle.base64.specs.Engines.{standard};
ghost use Rattle.fwd_modes.specs.Frames.{chunk_name, packed_frame, frame_head, frame_option};

use base64::engine::general_purpose::STANDARD;
use fwd_msgpack::{Head, write_head, write_text};
use std::alloc::{AllocError, Global};

/// The most bytes of the three heads before a frame's entries.
const MOST_HEADS: usize = 11;

/// The most bytes behind a frame's entries, but for its name.
const MOST_OPTION: usize = 26;

/// The Base64 of sixteen bytes.
fn encoded(bytes: &[u8; 16]) -> [u8; 24]
    ensures { result ≡ encode_of standard bytes.now }
{
    let mut text = [0; 24];
    STANDARD.encode_slice(bytes, &mut text).unwrap();
    text
}

/// The bytes that a chunk's name spells.
fn name_bytes(run: &[u8; 6], output: u16, number: u64) -> [u8; 16]
    ensures { result ≡ run.now ++ to_be_bytes w16 output ++ to_be_bytes w64 number }
{
    let [a, b, c, d, e, f] = *run;
    let [g, h] = output.to_be_bytes();
    let [i, j, k, l, m, n, o, p] = number.to_be_bytes();
    [a, b, c, d, e, f, g, h, i, j, k, l, m, n, o, p]
}

/// The name of a chunk: the Base64 (RFC 4648, section 4) of the run's six bytes, the output's
/// number and the chunk's number, big-endian.
#[tactic(auto, unfolding(crate::specs::Frames::chunk_name))]
pub fn chunk_name(run: &[u8; 6], output: u16, number: u64) -> [u8; 24]
    ensures { result ≡ chunk_name run.now output number }
{
    encoded(&name_bytes(run, output, number))
}

fn write_option(out: &mut Vec<u8>, count: u64, name: &[u8]) -> Result<(), AllocError>
    requires { length name.now < 2 ^ 32 }
    ensures { IfOk result (λ _. out.new.items ≡ out.old.items ++ frame_option count name.now) }
{
    write_head(out, Head::Map(2))?;
    write_text(out, b"size")?;
    write_head(
        out,
        Head::Int {
            neg: false,
            mag: count,
        },
    )?;
    write_text(out, b"chunk")?;
    write_text(out, name)
}

/// What stands before the entries in the frame of a chunk whose entries have so many bytes.
pub fn write_chunk_head(alloc: Global, tag: &[u8], size: u32) -> Result<Vec<u8>, AllocError>
    requires { length tag.now < 2 ^ 32 }
    ensures { IfOk result (λ head. head.items ≡ frame_head tag.now size) }
{
    let mut out = Vec::with_capacity(alloc, MOST_HEADS.saturating_add(tag.len()))?;
    write_head(&mut out, Head::Arr(3))?;
    write_text(&mut out, tag)?;
    write_head(&mut out, Head::Bin(size))?;
    Ok(out)
}

/// What stands behind the entries in the frame of a chunk with so many entries.
pub fn write_chunk_tail(alloc: Global, count: u64, name: &[u8]) -> Result<Vec<u8>, AllocError>
    requires { length name.now < 2 ^ 32 }
    ensures { IfOk result (λ tail. tail.items ≡ frame_option count name.now) }
{
    let mut out = Vec::with_capacity(alloc, MOST_OPTION.saturating_add(name.len()))?;
    write_option(&mut out, count, name)?;
    Ok(out)
}

/// The frame of a chunk with so many entries, which stand one after the other in `packed`. Any tag,
/// packed bytes and name are written, whether or not they can be read back: that is a premise
/// (`IsFrame`) of the laws.
pub fn write_chunk(
    alloc: Global,
    tag: &[u8],
    packed: &[u8],
    count: u64,
    name: &[u8],
) -> Result<Vec<u8>, AllocError>
    requires tag_fits { length tag.now < 2 ^ 32 }
    requires packed_fits { length packed.now < 2 ^ 32 }
    requires name_fits { length name.now < 2 ^ 32 }
    ensures { IfOk result (λ frame.
        frame.items ≡ packed_frame tag.now packed.now count name.now) }
{
    let mut out = write_chunk_head(alloc, tag, packed.len() as u32)?;
    out.extend_from_slice(packed)?;
    write_option(&mut out, count, name)?;
    Ok(out)
}
