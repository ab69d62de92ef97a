//! Which servers are lost.

use fwd_environment::{LossReason, Refused, TextFront, WorkerEvent};
use fwd_history::Run;
use fwd_links::{DeniedLogin, RefusedChunk, WorkerNotice};
use fwd_monitors::JournalEvent;
use fwd_reader::Output;
use std::alloc::{AllocError, Global};
use std::net::SocketAddr;

/// A server, by its output's number and its place in that output's list.
#[derive(Clone, Copy, PartialEq, Eq)]
struct ServerId {
    output: u16,
    server: u16,
}

impl ServerId {
    /// Where it is reached, if there is such a server.
    fn address<J: Run>(self, outputs: &[Output<J>]) -> Option<SocketAddr> {
        let own = outputs.get(self.output as usize)?;
        let address = own.servers.get(self.server as usize)?;
        Some(*address)
    }
}

/// What there is to tell of a chunk that a server seems to refuse.
pub(crate) fn fact_of<J: Run>(
    outputs: &[Output<J>],
    refusal: &RefusedChunk,
) -> Option<JournalEvent> {
    let output = refusal.output;
    let Refused {
        server,
        tag,
        size,
        losses,
        why,
    } = refusal.refused;
    let server = ServerId { output, server }.address(outputs)?;
    Some(JournalEvent::ChunkRefused {
        output,
        server,
        tag,
        size,
        losses,
        why,
    })
}

/// What a server said that was lost for this reason, if it did not let a worker in.
fn said_by(denied: &[DeniedLogin], id: ServerId, why: LossReason) -> Option<TextFront> {
    if !why.is_denial() {
        return None;
    }
    let said = denied.iter().find(|it| it.output == id.output && it.denial.server == id.server)?;
    Some(said.denial.reason)
}

/// The servers that were lost, and settled no chunk since.
#[derive(Drop)]
pub(crate) struct LostServers {
    /// Each at most once.
    lost: Vec<ServerId>,
}

impl LostServers {
    /// No server of these outputs is lost. The only error is out of memory.
    pub fn new<J: Run>(alloc: Global, outputs: &[Output<J>]) -> Result<LostServers, AllocError> {
        let mut lost = Vec::new(alloc);
        for output in outputs {
            lost.reserve(output.servers.len())?;
        }
        Ok(LostServers { lost })
    }

    /// What there is to tell of a worker's notice, if anything, where servers denied logins so.
    pub fn hear<J: Run>(
        &mut self,
        outputs: &[Output<J>],
        notice: &WorkerNotice,
        denied: &[DeniedLogin],
    ) -> Option<JournalEvent> {
        let output = notice.output;
        match notice.event {
            WorkerEvent::Settled { number: _, server } => {
                let id = ServerId { output, server };
                let place = self.lost.iter().position(|lost| *lost == id)?;
                self.lost.swap_remove(place);
                let server = id.address(outputs)?;
                Some(JournalEvent::ServerBack { output, server })
            }
            WorkerEvent::Went { server } => {
                let worker = notice.worker;
                let server = ServerId { output, server }.address(outputs)?;
                Some(JournalEvent::ServerChanged {
                    output,
                    worker,
                    server,
                })
            }
            WorkerEvent::Lost { server, why, .. } => {
                let id = ServerId { output, server };
                self.note(id);
                let server = id.address(outputs)?;
                Some(JournalEvent::ServerLost {
                    output,
                    server,
                    why,
                    said: said_by(denied, id, why),
                })
            }
        }
    }

    /// A server is lost. When out of memory it will not be told that it is back.
    fn note(&mut self, id: ServerId) {
        if !self.lost.contains(&id) {
            let _ = self.lost.push(id);
        }
    }
}
