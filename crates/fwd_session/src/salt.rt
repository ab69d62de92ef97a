//! The salt of a session's PING, which is kept.

ghost use Rattle.std.specs.Prelude.{◌≡◌, ◌<◌, ◌^◌, ◌↔◌, length, IsSome, IfSome, IfOk};
ghost use Rattle.fwd_handshake.specs.Shown.{salt_bytes};

use fwd_base::Bytes;
use fwd_handshake::Salt;
use std::alloc::{AllocError, Global};
use std::marker::Model;

/// A client's salt, kept with its bound: less than 2^32 bytes, since a str has no longer spelling.
#[derive(Drop)]
pub struct OwnedSalt {
    bytes: Bytes,
}

impl Model for OwnedSalt {
    ghost use Rattle.std.specs.Prelude.{List, ℕ, ◌<◌, ◌^◌, length};

    ghost Value = { List ℕ };

    ghost view = { λ s. s.bytes };

    ghost invariant = { λ s. length s.bytes < 2 ^ 32 };
}

impl OwnedSalt {
    /// The salt of these bytes, or nothing where they are 2^32 or more. It takes no memory.
    pub fn new(bytes: Bytes) -> Option<OwnedSalt>
        ensures fits { IsSome result ↔ (length bytes < 2 ^ 32) }
        ensures value { IfSome result (λ salt. salt ≡ bytes) }
    {
        if bytes.len() < 0x1_0000_0000 {
            Some(OwnedSalt { bytes })
        } else {
            None
        }
    }

    /// The same salt once more. The only error is out of memory.
    pub fn try_clone(&self, alloc: Global) -> Result<OwnedSalt, AllocError>
        ensures { IfOk result (λ salt. salt ≡ self.now) }
    {
        let bytes = Bytes::from_slice(alloc, self.bytes.as_slice())?;
        Ok(OwnedSalt { bytes })
    }

    /// The salt's bytes, all of them.
    pub fn as_slice(&self) -> &[u8]
        ensures { result.now ≡ self.now }
    {
        self.bytes.as_slice()
    }

    /// The salt, borrowed.
    pub(crate) fn as_salt(&self) -> Salt<'_>
        ensures { salt_bytes result ≡ self.now }
    {
        let Some(salt) = Salt::new(self.bytes.as_slice()) else {
            unreachable!();
        };
        salt
    }
}
