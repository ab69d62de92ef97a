//! One whole value, borrowed. It keeps the fact that a scan takes all of its bytes, which computes
//! and has one proof at most. `whole_is_value` leads from that to the definition of a value.

ghost use Rattle.std.specs.Prelude.{◌≡◌};
ghost use Rattle.fwd_msgpack.specs.Scans.{IsWhole};
ghost use Rattle.std.proofs.Props.{props};

use crate::fault::ScanFault;
use crate::head::{Head, HeadRead, read_head};
use crate::members::{Members, Pairs};

/// One whole value: its bytes, borrowed. Arrays and maps nest at most 128 deep in it, and it has
/// less than 2^32 bytes. Reading it takes no memory.
#[derive(Clone, Copy)]
pub struct Value<'a> {
    pub(crate) bytes: &'a [u8],
    ghost whole: { IsWhole bytes.now } by { Prim.hlevel props },
}

impl<'a> Value<'a> {
    ghost use Rattle.std.specs.Prelude.{Some, IfSome, ◌+◌, ◌<◌, ◌^◌, length};
    ghost use Rattle.std.specs.List.{concat};
    ghost use Rattle.std.specs.Option.{option_map};
    ghost use Rattle.fwd_msgpack.specs.Scans.{parts_of, head_of, is_nil, elements_of, pairs_of, text_of, ext_of, integer_of};
    ghost use Rattle.fwd_msgpack.specs.Texts.{is_text};
    ghost use Rattle.fwd_msgpack.specs.Values.{bytes_of, members_left, pairs_left, text_shown, ext_shown};

    /// The value's bytes, all of them.
    #[inline(always)]
    pub fn bytes(self) -> &'a [u8]
        ensures value { result.now ≡ bytes_of self.entry }
        ensures bound { length result.now < 2 ^ 32 }
    {
        self.bytes
    }

    /// The value's head, and the bytes behind it.
    #[inline(always)]
    fn parts(self) -> (Head, &'a [u8])
        ensures value { parts_of (bytes_of self.entry) ≡ Some (result.0, result.1.now) }
        ensures within { length result.1.now < length (bytes_of self.entry) }
    {
        match read_head(self.bytes) {
            HeadRead::Whole(head, used) => (head, &self.bytes[used..]),
            _ => unreachable!(),
        }
    }

    /// The value's head.
    #[inline(always)]
    pub fn head(self) -> Head
        ensures { head_of (bytes_of self.entry) ≡ Some result }
    {
        self.parts().0
    }

    /// Whether the value is nil.
    #[inline(always)]
    pub fn is_nil(self) -> bool
        ensures { result ≡ is_nil (bytes_of self.entry) }
    {
        matches!(self.head(), Head::Nil)
    }

    /// The members of an array, or nothing for another kind.
    #[inline(always)]
    pub fn items(self) -> Option<Members<'a>>
        ensures value { option_map members_left result ≡ elements_of (bytes_of self.entry) }
        ensures within { IfSome result (λ m.
            length (concat (members_left m)) < length (bytes_of self.entry)) }
        ensures bound { IfSome result (λ m. length (concat (members_left m)) + 1 < 2 ^ 32) }
    {
        match self.parts() {
            (Head::Arr(n), rest) => Some(Members {
                rest,
                left: u64::from(n),
            }),
            _ => None,
        }
    }

    /// The keys and values of a map, or nothing for another kind.
    pub fn pairs(self) -> Option<Pairs<'a>>
        ensures { option_map pairs_left result ≡ pairs_of (bytes_of self.entry) }
    {
        match self.parts() {
            (Head::Map(n), rest) => Some(Pairs {
                members: Members {
                    rest,
                    left: 2 * u64::from(n),
                },
            }),
            _ => None,
        }
    }

    /// The payload of a str or a bin, or nothing for another kind.
    #[tactic(auto, using(crate::proofs::Bounds::whole_bounded))]
    pub fn text(self) -> Option<&'a [u8]>
        ensures value { text_shown result ≡ text_of (bytes_of self.entry) }
        ensures bound { IfSome result (λ text. length text.now < 2 ^ 32) }
    {
        match self.parts() {
            (Head::Str(_) | Head::Bin(_), text) => Some(text),
            _ => None,
        }
    }

    /// Whether the value is a str or a bin of these bytes.
    pub fn is_text(self, text: &[u8]) -> bool
        ensures { result ≡ is_text text.now (bytes_of self.entry) }
    {
        match self.text() {
            Some(bytes) => bytes == text,
            None => false,
        }
    }

    /// The type and the payload of an extension, or nothing for another kind.
    #[inline(always)]
    pub fn ext(self) -> Option<(i8, &'a [u8])>
        ensures { ext_shown result ≡ ext_of (bytes_of self.entry) }
    {
        match self.parts() {
            (Head::Ext { kind, .. }, body) => Some((kind, body)),
            _ => None,
        }
    }

    /// Whether an integer is below zero, and how far it is from zero; nothing for another kind.
    #[inline(always)]
    pub fn int(self) -> Option<(bool, u64)>
        ensures { result ≡ integer_of (bytes_of self.entry) }
    {
        match self.parts() {
            (Head::Int { neg, mag }, _) => Some((neg, mag)),
            _ => None,
        }
    }
}

/// What the bytes begin with.
#[derive(Clone, Copy)]
pub enum Cut<'a> {
    /// A whole value, and how many bytes it has.
    Whole(Value<'a>, usize),
    /// Less than a value, and no fault.
    Short,
    /// A fault: no value within the limits begins so.
    Bad(ScanFault),
}
