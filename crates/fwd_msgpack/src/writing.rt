//! Heads and texts as bytes, each in its shortest spelling.

ghost use Rattle.std.specs.Prelude.{◌≡◌, ◌≤◌, ◌<◌, ◌^◌, ◌*◌, ◌⊎◌, [], ◌∷◌, ◌++◌, length, is_ok, if◌then◌else◌, OnOk, OnErr};
ghost use Rattle.std.specs.Int.{w8, w16, w32, w64, to_be_bytes, cast_unsigned};
ghost use Rattle.fwd_msgpack.specs.Heads.{IsSpelled, head_bytes, unsigned_bytes, negative_bytes, float_bytes, str_bytes, bin_bytes, arr_bytes, map_bytes, ext_len_bytes, ext_sized_bytes};
ghost use Rattle.fwd_msgpack.specs.Texts.{text};

use crate::head::Head;
use std::alloc::AllocError;

/// Appends a first byte and one byte.
fn put_8(out: &mut Vec<u8>, first: u8, n: u8) -> Result<(), AllocError>
    ensures { out.new.items
        ≡ (if is_ok result then out.old.items ++ first ∷ n ∷ [] else out.old.items) }
{
    out.extend_from_slice(&[first, n])
}

/// Appends a first byte and two bytes.
fn put_16(out: &mut Vec<u8>, first: u8, n: u16) -> Result<(), AllocError>
    ensures { out.new.items
        ≡ (if is_ok result then out.old.items ++ first ∷ to_be_bytes w16 n else out.old.items) }
{
    let [a, b] = n.to_be_bytes();
    out.extend_from_slice(&[first, a, b])
}

/// Appends a first byte and four bytes.
fn put_32(out: &mut Vec<u8>, first: u8, n: u32) -> Result<(), AllocError>
    ensures { out.new.items
        ≡ (if is_ok result then out.old.items ++ first ∷ to_be_bytes w32 n else out.old.items) }
{
    let [a, b, c, d] = n.to_be_bytes();
    out.extend_from_slice(&[first, a, b, c, d])
}

/// Appends a first byte and eight bytes.
fn put_64(out: &mut Vec<u8>, first: u8, n: u64) -> Result<(), AllocError>
    ensures { out.new.items
        ≡ (if is_ok result then out.old.items ++ first ∷ to_be_bytes w64 n else out.old.items) }
{
    let [a, b, c, d, e, f, g, h] = n.to_be_bytes();
    out.extend_from_slice(&[first, a, b, c, d, e, f, g, h])
}

fn put_unsigned(out: &mut Vec<u8>, mag: u64) -> Result<(), AllocError>
    ensures { out.new.items
        ≡ (if is_ok result then out.old.items ++ unsigned_bytes mag else out.old.items) }
{
    if mag < 0x80 {
        out.extend_from_slice(&[mag as u8])
    } else if mag < 0x100 {
        put_8(out, 0xcc, mag as u8)
    } else if mag < 0x1_0000 {
        put_16(out, 0xcd, mag as u16)
    } else if mag < 0x1_0000_0000 {
        put_32(out, 0xce, mag as u32)
    } else {
        put_64(out, 0xcf, mag)
    }
}

fn put_negative(out: &mut Vec<u8>, mag: u64) -> Result<(), AllocError>
    requires low { 1 ≤ mag }
    requires high { mag ≤ 2 ^ 63 }
    ensures { out.new.items
        ≡ (if is_ok result then out.old.items ++ negative_bytes mag else out.old.items) }
{
    if mag <= 0x20 {
        out.extend_from_slice(&[(0x100 - mag) as u8])
    } else if mag <= 0x80 {
        put_8(out, 0xd0, (0x100 - mag) as u8)
    } else if mag <= 0x8000 {
        put_16(out, 0xd1, (0x1_0000 - mag) as u16)
    } else if mag <= 0x8000_0000 {
        put_32(out, 0xd2, (0x1_0000_0000 - mag) as u32)
    } else {
        put_64(out, 0xd3, u64::MAX - mag + 1)
    }
}

fn put_str(out: &mut Vec<u8>, len: u32) -> Result<(), AllocError>
    ensures { out.new.items
        ≡ (if is_ok result then out.old.items ++ str_bytes len else out.old.items) }
{
    if len < 0x20 {
        out.extend_from_slice(&[0xa0 + len as u8])
    } else if len < 0x100 {
        put_8(out, 0xd9, len as u8)
    } else if len < 0x1_0000 {
        put_16(out, 0xda, len as u16)
    } else {
        put_32(out, 0xdb, len)
    }
}

fn put_bin(out: &mut Vec<u8>, len: u32) -> Result<(), AllocError>
    ensures { out.new.items
        ≡ (if is_ok result then out.old.items ++ bin_bytes len else out.old.items) }
{
    if len < 0x100 {
        put_8(out, 0xc4, len as u8)
    } else if len < 0x1_0000 {
        put_16(out, 0xc5, len as u16)
    } else {
        put_32(out, 0xc6, len)
    }
}

fn put_arr(out: &mut Vec<u8>, n: u32) -> Result<(), AllocError>
    ensures { out.new.items
        ≡ (if is_ok result then out.old.items ++ arr_bytes n else out.old.items) }
{
    if n < 0x10 {
        out.extend_from_slice(&[0x90 + n as u8])
    } else if n < 0x1_0000 {
        put_16(out, 0xdc, n as u16)
    } else {
        put_32(out, 0xdd, n)
    }
}

fn put_map(out: &mut Vec<u8>, n: u32) -> Result<(), AllocError>
    ensures { out.new.items
        ≡ (if is_ok result then out.old.items ++ map_bytes n else out.old.items) }
{
    if n < 0x10 {
        out.extend_from_slice(&[0x80 + n as u8])
    } else if n < 0x1_0000 {
        put_16(out, 0xde, n as u16)
    } else {
        put_32(out, 0xdf, n)
    }
}

fn put_ext(out: &mut Vec<u8>, kind: u8, len: u32) -> Result<(), AllocError>
    ensures { out.new.items
        ≡ (if is_ok result
        then out.old.items ++ (ext_len_bytes len ++ kind ∷ [])
        else out.old.items) }
{
    match len {
        1 => out.extend_from_slice(&[0xd4, kind]),
        2 => out.extend_from_slice(&[0xd5, kind]),
        4 => out.extend_from_slice(&[0xd6, kind]),
        8 => out.extend_from_slice(&[0xd7, kind]),
        16 => out.extend_from_slice(&[0xd8, kind]),
        _ => put_long_ext(out, kind, len),
    }
}

fn put_long_ext(out: &mut Vec<u8>, kind: u8, len: u32) -> Result<(), AllocError>
    ensures { out.new.items
        ≡ (if is_ok result
        then out.old.items ++ (ext_sized_bytes len ++ kind ∷ [])
        else out.old.items) }
{
    if len < 0x100 {
        out.extend_from_slice(&[0xc7, len as u8, kind])
    } else if len < 0x1_0000 {
        let [a, b] = (len as u16).to_be_bytes();
        out.extend_from_slice(&[0xc8, a, b, kind])
    } else {
        let [a, b, c, d] = len.to_be_bytes();
        out.extend_from_slice(&[0xc9, a, b, c, d, kind])
    }
}

/// Appends the shortest spelling of a head (MessagePack
/// specification, "Formats"). An `Err` changes nothing.
#[tactic(auto, unfolding(crate::specs::Heads::head_bytes))]
pub fn write_head(out: &mut Vec<u8>, head: Head) -> Result<(), AllocError>
    requires { IsSpelled head }
    ensures ok { OnOk result (out.new.items ≡ out.old.items ++ head_bytes head) }
    ensures err { OnErr result (out.new.items ≡ out.old.items) }
{
    match head {
        Head::Nil => out.extend_from_slice(&[0xc0]),
        Head::Bool(false) => out.extend_from_slice(&[0xc2]),
        Head::Bool(true) => out.extend_from_slice(&[0xc3]),
        Head::Int { neg: false, mag } => put_unsigned(out, mag),
        Head::Int { neg: true, mag } => put_negative(out, mag),
        Head::Float { len: 4 } => out.extend_from_slice(&[0xca]),
        Head::Float { len: _ } => out.extend_from_slice(&[0xcb]),
        Head::Str(len) => put_str(out, len),
        Head::Bin(len) => put_bin(out, len),
        Head::Arr(n) => put_arr(out, n),
        Head::Map(n) => put_map(out, n),
        Head::Ext { kind, len } => put_ext(out, kind.cast_unsigned(), len),
    }
}

/// Appends a str of these bytes, which are less than 2^32. An `Err` changes nothing.
pub fn write_text(out: &mut Vec<u8>, bytes: &[u8]) -> Result<(), AllocError>
    requires { length bytes.now < 2 ^ 32 }
    ensures ok { OnOk result (out.new.items ≡ out.old.items ++ text bytes.now) }
    ensures err { OnErr result (out.new.items ≡ out.old.items) }
{
    let len = out.len();
    write_head(out, Head::Str(bytes.len() as u32))?;
    let written = out.extend_from_slice(bytes);
    if written.is_err() {
        out.truncate(len);
    }
    written
}
