//! The heads of values: what stands in front of a value's payload or members.

ghost use Rattle.std.specs.Prelude.{
  ◌≡◌,
  ◌≤◌,
  ◌<◌,
  ◌+◌,
  ◌*◌,
  ◌⊎◌,
  length,
  slice_index,
  nat_lt,
  false,
  if◌then◌else◌,
};
ghost use Rattle.std.specs.Int.{w8, w16, w32, w64, cast_signed};
ghost use Rattle.fwd_msgpack.specs.declared.head.Head.TheVariants.{Int, Ext};
ghost use Rattle.fwd_msgpack.specs.declared.head.HeadRead.TheVariants.{Whole, Short};
ghost use Rattle.fwd_msgpack.specs.Heads.{
  IsWithin,
  reading_of,
  row_of,
  row_reading,
  number_at,
  twos_complement,
};

/// The head of a value, as the MessagePack specification's table of formats lists them.
#[derive(Clone, Copy, Debug, PartialEq, Eq)]
pub enum Head {
    /// Nil.
    Nil,
    /// False or true.
    Bool(bool),
    /// An integer: `mag`, or minus `mag` where `neg`. Zero is never `neg`.
    Int {
        /// Whether the integer is below zero.
        neg: bool,
        /// How far it is from zero.
        mag: u64,
    },
    /// A float of 4 or 8 bytes.
    Float {
        /// How many bytes it takes.
        len: u8,
    },
    /// A text of so many bytes.
    Str(u32),
    /// So many bytes.
    Bin(u32),
    /// An array of so many values.
    Arr(u32),
    /// A map of so many pairs.
    Map(u32),
    /// An extension.
    Ext {
        /// Its type: below zero those of the specification, else the application's.
        kind: i8,
        /// How many bytes it has.
        len: u32,
    },
}

/// What the bytes begin with.
#[derive(Clone, Copy)]
pub enum HeadRead {
    /// A head, and how many bytes it takes.
    Whole(Head, usize),
    /// Less than a whole head.
    Short,
    /// The byte `c1`, which no value begins with.
    Reserved,
}

/// The byte at the front.
#[inline(always)]
pub fn u8_at(bytes: &[u8]) -> Option<u8>
    ensures { result ≡ number_at w8 bytes.now }
{
    bytes.first().copied()
}

#[inline(always)]
fn u16_at(bytes: &[u8]) -> Option<u16>
    ensures { result ≡ number_at w16 bytes.now }
{
    if bytes.len() < 2 {
        return None;
    }
    Some(u16::from_be_bytes([bytes[0], bytes[1]]))
}

#[inline(always)]
fn u32_at(bytes: &[u8]) -> Option<u32>
    ensures { result ≡ number_at w32 bytes.now }
{
    if bytes.len() < 4 {
        return None;
    }
    Some(u32::from_be_bytes([bytes[0], bytes[1], bytes[2], bytes[3]]))
}

#[inline(always)]
fn u64_at(bytes: &[u8]) -> Option<u64>
    ensures { result ≡ number_at w64 bytes.now }
{
    if bytes.len() < 8 {
        return None;
    }
    Some(u64::from_be_bytes([
        bytes[0], bytes[1], bytes[2], bytes[3], bytes[4], bytes[5], bytes[6], bytes[7],
    ]))
}

/// Reads the head at the front of the bytes (MessagePack
/// specification, "Formats"). It takes no memory.
#[inline(always)]
#[rattlefmt::skip]
#[tactic(auto, unfolding(
    crate::specs::Heads::reading_of,
    crate::specs::Heads::row_of,
    crate::specs::Heads::named_rows
))]
pub fn read_head(bytes: &[u8]) -> HeadRead
    ensures head { result ≡ reading_of bytes.now }
    ensures within { IsWithin (length bytes.now) result }
{
    let Some((first, rest)) = bytes.split_first() else {
        return HeadRead::Short;
    };
    let first = *first;
    match first {
        0x00..=0x7f => HeadRead::Whole(
            Head::Int {
                neg: false,
                mag: u64::from(first),
            },
            1,
        ),
        0x80..=0x8f => HeadRead::Whole(Head::Map(u32::from(first - 0x80)), 1),
        0x90..=0x9f => HeadRead::Whole(Head::Arr(u32::from(first - 0x90)), 1),
        0xa0..=0xbf => HeadRead::Whole(Head::Str(u32::from(first - 0xa0)), 1),
        0xc0 => HeadRead::Whole(Head::Nil, 1),
        0xc1 => HeadRead::Reserved,
        0xc2 => HeadRead::Whole(Head::Bool(false), 1),
        0xc3 => HeadRead::Whole(Head::Bool(true), 1),
        0xc4..=0xc6 => read_bin(first, rest),
        0xc7..=0xc9 => read_ext(first, rest),
        0xca => HeadRead::Whole(Head::Float { len: 4 }, 1),
        0xcb => HeadRead::Whole(Head::Float { len: 8 }, 1),
        0xcc..=0xcf => read_unsigned(first, rest),
        0xd0..=0xd3 => read_signed(first, rest),
        0xd4..=0xd8 => read_fixed_ext(first, rest),
        0xd9..=0xdb => read_str(first, rest),
        0xdc | 0xdd => read_arr(first, rest),
        0xde | 0xdf => read_map(first, rest),
        0xe0..=0xff => HeadRead::Whole(
            Head::Int {
                neg: true,
                mag: u64::from(0xff - first) + 1,
            },
            1,
        ),
    }
}

/// Bytes, or the bytes stop within its length.
#[inline(always)]
fn read_bin(first: u8, rest: &[u8]) -> HeadRead
    requires low { 0xc4 ≤ first }
    requires high { first < 0xc7 }
    ensures { result ≡ row_reading (row_of first) rest.now }
{
    match first {
        0xc4 => match u8_at(rest) {
            Some(len) => HeadRead::Whole(Head::Bin(u32::from(len)), 2),
            None => HeadRead::Short,
        },
        0xc5 => match u16_at(rest) {
            Some(len) => HeadRead::Whole(Head::Bin(u32::from(len)), 3),
            None => HeadRead::Short,
        },
        _ => match u32_at(rest) {
            Some(len) => HeadRead::Whole(Head::Bin(len), 5),
            None => HeadRead::Short,
        },
    }
}

/// A text, or the bytes stop within its length.
#[inline(always)]
fn read_str(first: u8, rest: &[u8]) -> HeadRead
    requires low { 0xd9 ≤ first }
    requires high { first < 0xdc }
    ensures { result ≡ row_reading (row_of first) rest.now }
{
    match first {
        0xd9 => match u8_at(rest) {
            Some(len) => HeadRead::Whole(Head::Str(u32::from(len)), 2),
            None => HeadRead::Short,
        },
        0xda => match u16_at(rest) {
            Some(len) => HeadRead::Whole(Head::Str(u32::from(len)), 3),
            None => HeadRead::Short,
        },
        _ => match u32_at(rest) {
            Some(len) => HeadRead::Whole(Head::Str(len), 5),
            None => HeadRead::Short,
        },
    }
}

/// An array, or the bytes stop within its length.
#[inline(always)]
fn read_arr(first: u8, rest: &[u8]) -> HeadRead
    requires low { 0xdc ≤ first }
    requires high { first < 0xde }
    ensures { result ≡ row_reading (row_of first) rest.now }
{
    match first {
        0xdc => match u16_at(rest) {
            Some(n) => HeadRead::Whole(Head::Arr(u32::from(n)), 3),
            None => HeadRead::Short,
        },
        _ => match u32_at(rest) {
            Some(n) => HeadRead::Whole(Head::Arr(n), 5),
            None => HeadRead::Short,
        },
    }
}

/// A map, or the bytes stop within its length.
#[inline(always)]
fn read_map(first: u8, rest: &[u8]) -> HeadRead
    requires low { 0xde ≤ first }
    requires high { first < 0xe0 }
    ensures { result ≡ row_reading (row_of first) rest.now }
{
    match first {
        0xde => match u16_at(rest) {
            Some(n) => HeadRead::Whole(Head::Map(u32::from(n)), 3),
            None => HeadRead::Short,
        },
        _ => match u32_at(rest) {
            Some(n) => HeadRead::Whole(Head::Map(n), 5),
            None => HeadRead::Short,
        },
    }
}

/// An integer that is not negative, or the bytes stop within it.
#[inline(always)]
fn read_unsigned(first: u8, rest: &[u8]) -> HeadRead
    requires low { 0xcc ≤ first }
    requires high { first < 0xd0 }
    ensures { result ≡ row_reading (row_of first) rest.now }
{
    match first {
        0xcc => match u8_at(rest) {
            Some(mag) => HeadRead::Whole(natural(u64::from(mag)), 2),
            None => HeadRead::Short,
        },
        0xcd => match u16_at(rest) {
            Some(mag) => HeadRead::Whole(natural(u64::from(mag)), 3),
            None => HeadRead::Short,
        },
        0xce => match u32_at(rest) {
            Some(mag) => HeadRead::Whole(natural(u64::from(mag)), 5),
            None => HeadRead::Short,
        },
        _ => match u64_at(rest) {
            Some(mag) => HeadRead::Whole(natural(mag), 9),
            None => HeadRead::Short,
        },
    }
}

/// An integer that is not negative.
#[inline(always)]
fn natural(mag: u64) -> Head
    ensures { result ≡ Int false mag }
{
    Head::Int { neg: false, mag }
}

/// The integer of so many bits whose two's complement is `n`.
#[inline(always)]
fn complement(half: u64, n: u64) -> Head
    requires { n < 2 * half }
    ensures { result ≡ twos_complement half n }
{
    if n < half {
        natural(n)
    } else {
        Head::Int {
            neg: true,
            mag: (half - 1 - (n - half)) + 1,
        }
    }
}

/// An integer of either sign, or the bytes stop within it.
#[inline(always)]
fn read_signed(first: u8, rest: &[u8]) -> HeadRead
    requires low { 0xd0 ≤ first }
    requires high { first < 0xd4 }
    ensures { result ≡ row_reading (row_of first) rest.now }
{
    match first {
        0xd0 => match u8_at(rest) {
            Some(n) => HeadRead::Whole(complement(0x80, u64::from(n)), 2),
            None => HeadRead::Short,
        },
        0xd1 => match u16_at(rest) {
            Some(n) => HeadRead::Whole(complement(0x8000, u64::from(n)), 3),
            None => HeadRead::Short,
        },
        0xd2 => match u32_at(rest) {
            Some(n) => HeadRead::Whole(complement(0x8000_0000, u64::from(n)), 5),
            None => HeadRead::Short,
        },
        _ => match u64_at(rest) {
            Some(n) => HeadRead::Whole(complement(0x8000_0000_0000_0000, n), 9),
            None => HeadRead::Short,
        },
    }
}

/// An extension of this length, whose type stands at `at`, or the bytes stop before its type.
#[inline(always)]
fn ext_at(len: u32, rest: &[u8], at: usize) -> HeadRead
    requires { at ≤ 4 }
    ensures { result
        ≡ (if nat_lt at (length rest.now)
        then Whole (Ext (cast_signed w8 (slice_index rest.now at)) len) (at + 2)
        else Short) }
{
    if at < rest.len() {
        HeadRead::Whole(
            Head::Ext {
                kind: rest[at].cast_signed(),
                len,
            },
            at + 2,
        )
    } else {
        HeadRead::Short
    }
}

/// An extension of a fixed length, or the bytes stop before its type.
#[inline(always)]
fn read_fixed_ext(first: u8, rest: &[u8]) -> HeadRead
    requires low { 0xd4 ≤ first }
    requires high { first < 0xd9 }
    ensures { result ≡ row_reading (row_of first) rest.now }
{
    let len = match first {
        0xd4 => 1,
        0xd5 => 2,
        0xd6 => 4,
        0xd7 => 8,
        _ => 16,
    };
    ext_at(len, rest, 0)
}

/// An extension, or the bytes stop within its length and type.
#[inline(always)]
fn read_ext(first: u8, rest: &[u8]) -> HeadRead
    requires low { 0xc7 ≤ first }
    requires high { first < 0xca }
    ensures { result ≡ row_reading (row_of first) rest.now }
{
    match first {
        0xc7 => match u8_at(rest) {
            Some(len) => ext_at(u32::from(len), rest, 1),
            None => HeadRead::Short,
        },
        0xc8 => match u16_at(rest) {
            Some(len) => ext_at(u32::from(len), rest, 2),
            None => HeadRead::Short,
        },
        _ => match u32_at(rest) {
            Some(len) => ext_at(len, rest, 4),
            None => HeadRead::Short,
        },
    }
}

impl Head {
    ghost use Rattle.fwd_msgpack.specs.Heads.{payload, members, opens};

    /// How many bytes of payload stand behind the head.
    #[inline(always)]
    pub fn payload(self) -> u32
        ensures { result ≡ payload self }
    {
        match self {
            Head::Str(len) | Head::Bin(len) | Head::Ext { kind: _, len } => len,
            Head::Float { len } => u32::from(len),
            _ => 0,
        }
    }

    /// How many values the head opens: those of an array, or two for each pair of a map.
    #[inline(always)]
    pub fn members(self) -> u64
        ensures { result ≡ members self }
    {
        match self {
            Head::Arr(n) => u64::from(n),
            Head::Map(n) => 2 * u64::from(n),
            _ => 0,
        }
    }

    /// Whether it is the head of an array or a map, empty or not.
    #[inline(always)]
    pub fn opens(self) -> bool
        ensures { result ≡ opens self }
    {
        matches!(self, Head::Arr(_) | Head::Map(_))
    }
}
