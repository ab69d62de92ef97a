//! What is drawn for a handshake.

use fwd_handshake::{Nonces, Salt, draw_salt};
use rand_chacha::ChaCha20Rng;
use rand_core::SeedableRng;

/// The key stream of the zero key, from RFC 8439's test vectors.
#[test]
fn draws_are_the_key_stream(rt: HostRuntime) {
    let mut rng = ChaCha20Rng::from_seed([0; 32]);
    let drawn = Nonces::draw(&mut rng);
    let salt = draw_salt(&mut rng);
    assert!(rt;
        drawn.nonce == *b"\x76\xb8\xe0\xad\xa0\xf1\x3d\x90\x40\x5d\x6a\xe5\x53\x86\xbd\x28"
            && drawn.auth == *b"\xbd\xd2\x19\xb8\xa0\x8d\xed\x1a\xa8\x36\xef\xcc\x8b\x77\x0d\xc7"
            && Salt::from(&salt).bytes() == b"da41597c5157488d7724e03fb8d84a37".as_slice()
    );
}
