//! The handshake of the Forward Protocol: HELO, PING and PONG
//! (Forward Protocol Specification v1, "Handshake Messages").
#![tactic(auto)]

mod credentials;
mod digest;
mod helo;
mod laws;
mod nonces;
mod ping;
mod pong;
mod reading;
mod salt;
mod verdict;

pub use credentials::{Login, Security, User};
pub use digest::{key_digest, password_digest};
pub use helo::{answer_helo, write_helo};
pub use laws::{agreed_sides_pass, written_helo_is_answered};
pub use nonces::{Nonces, draw_salt};
pub use ping::judge_ping;
pub use pong::judge_pong;
pub use salt::Salt;
pub use verdict::{Denial, HeloAnswer, PingVerdict, PongVerdict};
