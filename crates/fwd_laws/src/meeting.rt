//! A session and a source that hear each other's bytes: a law, the contract of a function that does
//! nothing.

ghost use Rattle.std.specs.Prelude.{◌≡◌, ◌≤◌, ◌<◌, ℕ, List, length};
ghost use Rattle.std.specs.List.{concat};
ghost use Rattle.fwd_handshake.specs.declared.verdict.Denial.{Denial};
ghost use Rattle.fwd_handshake.specs.Agreements.{IsAgreed};
ghost use Rattle.fwd_source.specs.History.{Setup as SourceSetup};
ghost use Rattle.fwd_session.specs.History.{Setup};
ghost use Rattle.fwd_laws.specs.Meeting.{
  Meeting,
  IsJoined,
  AreWithin,
  IsDenied,
  IsReady,
  IsRefused,
  uncut,
};

use fwd_session::REPLY_LIMIT;

/// A session and a source that hear each other's bytes, however these are cut into pieces.
///
/// Where both know one key and the source lets the login in, both are past the handshake, and else
/// as they began: a chunk may be loaded. The piece that ends PONG is told Ready. Where the source
/// has cause to deny the PING, the piece that ends PONG is told Denied, and the session is down.
/// The cause is said of digests, not of keys and passwords: two keys may have one digest.
///
/// Asked is that the pieces are all that waited to be sent; that HELO and PONG have `REPLY_LIMIT`
/// bytes at most, and PING less than 2^32 and no more than the source's limits let be, which let an
/// array be; and, to be ready, that hostnames, username and salt are short, as `IsAgreed` says, and
/// that the auth salt has a byte: it has sixteen. By `uncut` any two sides have such pieces.
pub fn agreed_sides_meet()
    ensures ready { (m : Meeting) (key : List ℕ) →
        IsAgreed m.client.login m.server.security m.client.salt key →
        0 < length m.server.nonces.auth → IsJoined m → AreWithin m →
        length (concat m.pong) ≤ REPLY_LIMIT → IsReady m }
    ensures denied { (m : Meeting) (key : List ℕ) (denial : Denial) → IsDenied m key denial →
        IsJoined m → AreWithin m → IsRefused m }
    ensures uncut { (client : Setup) (server : SourceSetup) → IsJoined (uncut client server) }
{}
