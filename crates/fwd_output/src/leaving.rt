//! What a worker leaves at its end.

ghost use Rattle.std.specs.Prelude.{◌≡◌, ◌≤◌, Some, [], length};
ghost use Rattle.fwd_session.specs.declared.limits.TheConstants.{WINDOW_LIMIT};
ghost use Rattle.fwd_session.specs.Live.{live_chunks};
ghost use Rattle.fwd_model.specs.Step.{lost_server};
ghost use Rattle.fwd_model.specs.Live.{lives};

use fwd_chunks::Carried;
use fwd_model::EndKind;
use fwd_session::Session;

/// What a worker leaves at its end, which goes back to its output.
pub struct Leaving {
    /// How its session ends.
    pub kind: EndKind,
    /// The chunk that it took and did not load: it goes back without a loss.
    pub taken: Option<Carried>,
    /// The chunks that it loaded and that are not acknowledged, in the order of their loads: each
    /// is a loss.
    pub loaded: Vec<Carried>,
    /// The server that is lost, if one is, by its place in the output's list.
    pub server: Option<u16>,
}

/// A session is no more, and what its worker leaves: the chunk that was taken and not loaded, and
/// those of the session, each of which is a loss; and its server is lost where the link is said to
/// be lost, the session is down, its handshake is not done, or it has a chunk. It takes no memory.
pub fn leave(session: Session, taken: Option<Carried>, kind: EndKind) -> Leaving
    requires settled { session.accepted ≡ [] }
    ensures kind { result.kind ≡ kind }
    ensures taken { result.taken ≡ taken }
    ensures loaded { result.loaded.items ≡ live_chunks session.carried }
    ensures server { result.server ≡ lost_server lives kind (Some session) }
    ensures few { length result.loaded.items ≤ session.setup.window }
    ensures limit { length result.loaded.items ≤ WINDOW_LIMIT }
{
    let at_fault = matches!(kind, EndKind::Lost)
        || session.is_down()
        || !session.is_greeted()
        || session.has_chunk();
    let server = if at_fault {
        Some(session.server())
    } else {
        None
    };
    Leaving {
        kind,
        taken,
        loaded: session.end(),
        server,
    }
}
