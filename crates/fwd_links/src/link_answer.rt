//! What a link answers, by what a call of its stream answered.

ghost use Rattle.std.specs.Prelude.{◌≡◌, ◌≤◌, ℕ, IfErr, IfOk};
ghost use Rattle.fwd_links.specs.Answers as answers;
ghost use Rattle.fwd_environment.specs.Links.{count_read};

use fwd_environment::{LinkFault, Read};
use std::io::{self, ErrorKind};

/// How many bytes a write took: none where it would have to wait.
pub(crate) fn written(answer: io::Result<usize>) -> Result<usize, LinkFault>
    ensures is { result ≡ answers.written answer }
    ensures within { (most : ℕ) → IfOk answer (λ n. n ≤ most) → IfOk result (λ n. n ≤ most) }
    ensures fault { IfErr result (λ fault. fault ≡ LinkFault.Write) }
{
    match answer {
        Ok(count) => Ok(count),
        Err(error) => match error.kind() {
            ErrorKind::WouldBlock | ErrorKind::Interrupted => Ok(0),
            _ => Err(LinkFault::Write),
        },
    }
}

/// What a read gave, into room for a byte or more: so many bytes, none yet, or none any more.
pub(crate) fn given(answer: io::Result<usize>) -> Result<Read, LinkFault>
    ensures is { result ≡ answers.given answer }
    ensures within { (most : ℕ) → IfOk answer (λ n. n ≤ most) → count_read result ≤ most }
    ensures fault { IfErr result (λ fault. fault ≡ LinkFault.Read) }
{
    match answer {
        Ok(0) => Ok(Read::Closed),
        Ok(count) => Ok(Read::Bytes(count)),
        Err(error) => match error.kind() {
            ErrorKind::WouldBlock | ErrorKind::Interrupted => Ok(Read::Nothing),
            _ => Err(LinkFault::Read),
        },
    }
}
