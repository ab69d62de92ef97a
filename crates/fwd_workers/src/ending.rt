//! Why a worker's session ends, and what that counts as.

ghost use Rattle.std.specs.Prelude.{◌≡◌, []};
ghost use Rattle.fwd_workers.specs.Endings.{
  blamed,
  idle_ending,
  kind_in,
  kind_of,
  loss_in,
  news_of,
  unmet_news,
  unmet_of,
};

use crate::serve::Served;
use fwd_chunks::Carried;
use fwd_environment::{LinkFault, LossReason, WorkerEvent};
use fwd_output::{EndKind, Leaving};
use std::alloc::Global;

/// Why a session is to end.
#[derive(Clone, Copy)]
pub(crate) enum EndReason {
    /// Its link carries no further chunk.
    Spent,
    /// Its server closed its side, and owed nothing.
    Left,
    /// Its server is lost.
    Lost(LossReason),
}

impl EndReason {
    /// Whether the link is said to be lost.
    fn kind(self) -> EndKind
        ensures { result ≡ kind_of self }
    {
        match self {
            EndReason::Lost(LossReason::Closed | LossReason::Link(_) | LossReason::Memory) =>
                EndKind::Lost,
            EndReason::Spent
            | EndReason::Left
            | EndReason::Lost(LossReason::Fault(_) | LossReason::Late) => { EndKind::Kept }
        }
    }

    /// What it is where the session has no chunk, and may have been greeted: a server that closes
    /// its side behind the handshake owes nothing.
    pub(crate) fn idle(self, is_greeted: bool) -> EndReason
        ensures { result ≡ idle_ending self is_greeted }
    {
        match self {
            EndReason::Lost(LossReason::Closed) if is_greeted => EndReason::Left,
            _ => self,
        }
    }

    /// What is told of it, where so many chunks of the session are not acknowledged.
    pub(crate) fn event(self, server: u16, chunks: u64) -> Option<WorkerEvent>
        ensures { result ≡ news_of self server chunks }
    {
        match self {
            EndReason::Spent | EndReason::Left => None,
            EndReason::Lost(why) => Some(WorkerEvent::Lost {
                server,
                why,
                chunks,
            }),
        }
    }
}

/// Whether the link of a session is said to be lost, where its worker ends, or it is to end itself.
pub(crate) fn kind_in(ending: Option<EndReason>) -> EndKind
    ensures { result ≡ kind_in ending }
{
    match ending {
        None => EndKind::Kept,
        Some(ending) => ending.kind(),
    }
}

/// Why the server is lost after a turn, if it is.
pub(crate) fn loss_in(served: Served) -> Option<LossReason>
    ensures { result ≡ loss_in served }
{
    match served {
        Served::Quiet | Served::Ready | Served::Acked => None,
        Served::Down(fault) => Some(LossReason::Fault(fault)),
        Served::Closed => Some(LossReason::Closed),
        Served::Failed(fault) => Some(LossReason::Link(fault)),
        Served::Memory => Some(LossReason::Memory),
    }
}

/// Why no session began with a server.
#[derive(Clone, Copy)]
pub(crate) enum NoSession {
    /// No link to it could be had.
    Link(LinkFault),
    /// Memory was refused.
    Memory,
    /// The output has no such server.
    Unknown,
}

impl NoSession {
    /// Why no session began, where no link could be had: no server is to blame for want of memory.
    pub(crate) fn of(fault: LinkFault) -> NoSession
        ensures { result ≡ unmet_of fault }
    {
        match fault {
            LinkFault::Memory => NoSession::Memory,
            _ => NoSession::Link(fault),
        }
    }

    /// What a worker leaves that may have taken a chunk for that server: the chunk, which is no
    /// loss, and the server, if that is to blame.
    pub(crate) fn leaving(self, alloc: Global, taken: Option<Carried>, server: u16) -> Leaving
        ensures kind { result.kind ≡ EndKind.Lost }
        ensures taken { result.taken ≡ taken }
        ensures loaded { result.loaded.items ≡ [] }
        ensures server { result.server ≡ blamed self server }
    {
        let server = match self {
            NoSession::Link(_) => Some(server),
            NoSession::Memory | NoSession::Unknown => None,
        };
        Leaving {
            kind: EndKind::Lost,
            taken,
            loaded: Vec::new(alloc),
            server,
        }
    }

    /// What is told of it.
    pub(crate) fn event(self, server: u16) -> Option<WorkerEvent>
        ensures { result ≡ unmet_news self server }
    {
        match self {
            NoSession::Link(fault) => EndReason::Lost(LossReason::Link(fault)).event(server, 0),
            NoSession::Memory => EndReason::Lost(LossReason::Memory).event(server, 0),
            NoSession::Unknown => None,
        }
    }
}
