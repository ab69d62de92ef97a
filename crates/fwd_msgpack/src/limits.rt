//! How long and how deep a value may be.

ghost use Rattle.std.specs.Prelude.{◌≤◌};
ghost use Rattle.fwd_msgpack.specs.declared.limits.TheConstants.{MAX_DEPTH};

/// The most arrays and maps, empty ones included, that may stand one in another, whatever the
/// limits.
pub const MAX_DEPTH: u8 = 128;

/// How long and how deep a value may be.
#[derive(Clone, Copy)]
pub struct Limits {
    /// The most bytes of a value.
    pub bytes: u32,
    /// The most arrays and maps, empty ones included, that may stand one in another: at most 128.
    pub depth: u8,
    ghost shallow: { depth ≤ MAX_DEPTH },
}

impl Limits {
    /// The limits of every value: less than 2^32 bytes, and 128 containers one in another.
    pub const WIDEST: Limits = Limits {
        bytes: u32::MAX,
        depth: MAX_DEPTH,
    };
}
