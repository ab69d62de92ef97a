//! Laws of the definitions: each is the contract of a function that does nothing.

ghost use Rattle.std.specs.Prelude.{◌≡◌, ◌<◌, ◌^◌, true, List, ℕ, Some, length};
ghost use Rattle.fwd_handshake.specs.declared.credentials.User.{User};
ghost use Rattle.fwd_handshake.specs.declared.credentials.Security.{Security};
ghost use Rattle.fwd_handshake.specs.declared.credentials.Login.{Login};
ghost use Rattle.fwd_handshake.specs.declared.nonces.Nonces.{Nonces};
ghost use Rattle.fwd_handshake.specs.declared.verdict.HeloAnswer.TheVariants.{Ping as Answers};
ghost use Rattle.fwd_handshake.specs.declared.verdict.PingVerdict.TheVariants.{Pass};
ghost use Rattle.fwd_handshake.specs.declared.verdict.PongVerdict.TheVariants as pong;
ghost use Rattle.fwd_handshake.specs.Agreements.{IsAgreed, auth_given};
ghost use Rattle.fwd_handshake.specs.Messages.{helo_text};
ghost use Rattle.fwd_handshake.specs.Verdicts.{answering, passing, helo_answer, ping_verdict, pong_verdict};

/// The HELO that a server writes is answered, by a client with a shared key, by the PING for its
/// nonce and its auth salt, which is empty where no users are set, and says that the link is kept.
pub fn written_helo_is_answered()
    ensures { (login : Login) (users : List User) (nonce auth salt key : List ℕ) →
        login.shared_key ≡ Some key → length (helo_text users nonce auth) < 2 ^ 32 →
        helo_answer login salt (helo_text users nonce auth)
        ≡ Answers (answering login salt nonce (auth_given users auth)) nonce true }
{}

/// Two sides that know the same key, and of whom the server knows the
/// client's user where it has users, let each other pass: the PING
/// that the client writes is good, and so is the PONG that answers it.
pub fn agreed_sides_pass()
    ensures ping { (login : Login) (security : Security) (nonces : Nonces) (salt key : List ℕ) →
        IsAgreed login security salt key → 0 < length nonces.auth →
        ping_verdict security nonces
        (answering login salt nonces.nonce (auth_given security.users nonces.auth))
        ≡ Pass (passing security nonces.nonce salt) }
    ensures pong { (login : Login) (security : Security) (nonce salt key : List ℕ) →
        IsAgreed login security salt key →
        pong_verdict login salt nonce (passing security nonce salt) ≡ pong.Pass }
{}
