//! The digests that a handshake compares (Forward Protocol
//! Specification v1, "Handshake Messages"; FIPS 180-4, SHA-512).

ghost use Rattle.std.specs.Prelude.{◌≡◌, [], unwrap_or};
ghost use Rattle.hex.specs.Hex.{encode_lower};
ghost use Rattle.fwd_handshake.specs.Digests.{key_digest, password_digest};
ghost use Rattle.fwd_handshake.specs.Verdicts.{is_key_digest};

use fwd_base::Bytes;
use sha2::{Digest, Sha512};

/// The lower-case hexadecimal digits of 64 bytes.
fn hex_text(bytes: &[u8; 64]) -> [u8; 128]
    ensures { result ≡ encode_lower bytes.now }
{
    let mut text = [0; 128];
    hex::encode_to_slice(bytes, &mut text).unwrap();
    text
}

/// The digest that proves a shared key: the lower-case hexadecimal digits
/// of the SHA-512 of salt, hostname, nonce and key, joined. A PING's has
/// the client's hostname, a PONG's the server's. It takes no memory.
pub fn key_digest(salt: &[u8], host: &[u8], nonce: &[u8], key: &[u8]) -> [u8; 128]
    ensures { result ≡ key_digest salt.now host.now nonce.now key.now }
{
    let mut hasher = Sha512::new();
    hasher.update(salt);
    hasher.update(host);
    hasher.update(nonce);
    hasher.update(key);
    hex_text(&hasher.finalize())
}

/// The digest that proves a password: the lower-case hexadecimal digits of the SHA-512 of the auth
/// salt, the username and the password, joined. It takes no memory.
pub fn password_digest(auth: &[u8], user: &[u8], password: &[u8]) -> [u8; 128]
    ensures { result ≡ password_digest auth.now user.now password.now }
{
    let mut hasher = Sha512::new();
    hasher.update(auth);
    hasher.update(user);
    hasher.update(password);
    hex_text(&hasher.finalize())
}

/// Whether a digest is the one of the shared key. Where no key is set, none is. It is not compared
/// with the empty key, which would let in everybody. An empty key that is set is a key like any
/// other.
pub(crate) fn is_key_digest(
    key: &Option<Bytes>,
    salt: &[u8],
    host: &[u8],
    nonce: &[u8],
    digest: &[u8],
) -> bool
    ensures { result ≡ is_key_digest key.now salt.now host.now nonce.now digest.now }
{
    match key {
        Some(key) => digest == key_digest(salt, host, nonce, key.as_slice()).as_slice(),
        None => false,
    }
}

/// The bytes of a shared key, or none where no key is set.
pub(crate) fn key_bytes(key: &Option<Bytes>) -> &[u8]
    ensures { result.now ≡ unwrap_or key.now [] }
{
    match key {
        Some(key) => key.as_slice(),
        None => &[],
    }
}
