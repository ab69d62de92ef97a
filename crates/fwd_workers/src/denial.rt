//! Why a server does not let the relay in, as it says.

ghost use Rattle.std.specs.Prelude.{◌≡◌};
ghost use Rattle.fwd_msgpack.specs.Values.{bytes_of, text_shown};
ghost use Rattle.fwd_workers.specs.Denials.{reason_in};

use crate::ending::EndReason;
use fwd_environment::{Denial, TextFront};
use fwd_msgpack::{Next, Value, next_value};
use fwd_session::REPLY_LIMITS;

/// The reason that a PONG tells.
fn reason_of<'a>(pong: Value<'a>) -> Option<&'a [u8]>
    ensures { text_shown result ≡ reason_in (bytes_of pong.entry) }
{
    let mut members = pong.items()?;
    let word = members.next()?;
    let _passed = members.next()?;
    let reason = members.next()?;
    if word.is_text(b"PONG") {
        reason.text()
    } else {
        None
    }
}

/// What is told of a server whose session ended so, where it does not let the relay in, and these
/// bytes, which were read last, begin with its whole PONG. Bytes that were read before may stand
/// behind them, so a PONG that came in pieces tells nothing, or what its server made up: the reason
/// is for people.
pub(crate) fn denial_in(ending: EndReason, server: u16, room: &[u8]) -> Option<Denial> {
    let EndReason::Lost(why) = ending else {
        return None;
    };
    if !why.is_denial() {
        return None;
    }
    let Next::Value(pong, _) = next_value(room, REPLY_LIMITS) else {
        return None;
    };
    let reason = TextFront::of(reason_of(pong)?);
    Some(Denial { server, reason })
}
