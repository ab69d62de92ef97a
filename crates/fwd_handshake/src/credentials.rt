//! What either side of a handshake knows before it begins.
//! None of it is printed, since it holds secrets.

ghost use Rattle.std.specs.Prelude.{◌<◌, ◌^◌, length};

use fwd_base::{Bytes, Seq};

/// A user that may log in.
#[derive(Drop)]
pub struct User {
    /// The username, compared by its bytes.
    pub name: Bytes,
    /// The password.
    pub password: Bytes,
}

/// The server's side: what a source has to prove, and under which name the server answers.
#[derive(Drop)]
pub struct Security {
    /// The server's hostname, of less than 2^32 bytes.
    pub hostname: Bytes,
    /// The key that both sides know. Without one there is no handshake, and no PING is good.
    pub shared_key: Option<Bytes>,
    /// The users, of whom a source has to be one; where there is none, sources need no user.
    pub users: Seq<User>,
    ghost hostname_fits: { length hostname < 2 ^ 32 },
}

/// The client's side: what it proves to the next hop.
#[derive(Drop)]
pub struct Login {
    /// The client's hostname, of less than 2^32 bytes.
    pub hostname: Bytes,
    /// The key that both sides know. Without one there is no
    /// handshake: no HELO is answered, and no PONG is good.
    pub shared_key: Option<Bytes>,
    /// The username that is sent where the server asks for one, of less than 2^32 bytes.
    pub username: Bytes,
    /// The password that goes with it.
    pub password: Bytes,
    ghost hostname_fits: { length hostname < 2 ^ 32 },
    ghost username_fits: { length username < 2 ^ 32 },
}
