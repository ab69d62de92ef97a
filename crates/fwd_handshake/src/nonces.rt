//! What a handshake draws at random.

ghost use Rattle.std.specs.Prelude.{◌≡◌};
ghost use Rattle.fwd_handshake.specs.Draws.{drawn, hex_drawn, moved};

use rand_chacha::ChaCha20Rng;
use rand_core::utils::fill_bytes_via_u32;

/// The server's random bytes of one connection: HELO's `nonce`, and its `auth` where users are set.
#[derive(Clone, Copy)]
pub struct Nonces {
    /// What the digests of the shared key are salted with.
    pub nonce: [u8; 16],
    /// What the digests of passwords are salted with.
    pub auth: [u8; 16],
}

impl Nonces {
    /// Both from the generator's next eight words, each word little-endian: `nonce` from the first
    /// four, `auth` from the others. It takes no memory.
    pub fn draw(rng: &mut ChaCha20Rng) -> Nonces
        ensures nonce { result.nonce ≡ drawn 0 4 rng.old }
        ensures auth { result.auth ≡ drawn 4 4 rng.old }
        ensures moved { rng.new ≡ moved 8 rng.old }
    {
        let mut nonce = [0; 16];
        fill_bytes_via_u32(rng, &mut nonce);
        let mut auth = [0; 16];
        fill_bytes_via_u32(rng, &mut auth);
        Nonces { nonce, auth }
    }
}

/// A client's salt: the lower-case hexadecimal digits of sixteen bytes, which are the generator's
/// next four words, each little-endian. It takes no memory.
pub fn draw_salt(rng: &mut ChaCha20Rng) -> [u8; 32]
    ensures salt { result ≡ hex_drawn 0 4 rng.old }
    ensures moved { rng.new ≡ moved 4 rng.old }
{
    let mut bytes = [0; 16];
    fill_bytes_via_u32(rng, &mut bytes);
    let mut salt = [0; 32];
    hex::encode_to_slice(bytes, &mut salt).unwrap();
    salt
}
