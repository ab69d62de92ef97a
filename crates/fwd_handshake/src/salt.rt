//! The salt that a client sends with PING.

ghost use Rattle.std.specs.Prelude.{◌≡◌, ◌<◌, ◌^◌, length};

/// A client's salt, borrowed: less than 2^32 bytes, since a str has no longer spelling. What
/// `draw_salt` gives always is one.
#[derive(Clone, Copy)]
pub struct Salt<'a> {
    bytes: &'a [u8],
    ghost fits: { length bytes.now < 2 ^ 32 },
}

impl<'a> Salt<'a> {
    ghost use Rattle.std.specs.Prelude.{◌↔◌, IsSome, IfSome};
    ghost use Rattle.fwd_handshake.specs.Shown.{salt_bytes};

    /// The salt of these bytes, or nothing where they are 2^32 or more. It takes no memory.
    pub fn new(bytes: &'a [u8]) -> Option<Salt<'a>>
        ensures fits { IsSome result ↔ (length bytes.now < 2 ^ 32) }
        ensures value { IfSome result (λ salt. salt_bytes salt ≡ bytes.now) }
    {
        if bytes.len() < 0x1_0000_0000 {
            Some(Salt { bytes })
        } else {
            None
        }
    }

    /// The salt's bytes, all of them.
    pub fn bytes(self) -> &'a [u8]
        ensures value { result.now ≡ salt_bytes self.entry }
        ensures bound { length result.now < 2 ^ 32 }
    {
        self.bytes
    }
}

impl<'a> From<&'a [u8; 32]> for Salt<'a> {
    ghost use Rattle.fwd_handshake.specs.Shown.{salt_bytes};

    ghost from_gives = { λ bytes salt. salt_bytes salt ≡ bytes.now };

    fn from(bytes: &'a [u8; 32]) -> Salt<'a> {
        Salt { bytes }
    }
}
