//! At which servers the chunks of an output were lost that are not settled. It lies under the
//! output's lock. A chunk that cannot be noted for want of memory goes where any chunk goes.

use crate::server_set::ServerSet;
use std::alloc::Global;
use std::collections::BTreeMap;

/// At which servers chunks were lost, by the chunks' numbers.
#[derive(Drop)]
pub(crate) struct LostAt {
    chunks: BTreeMap<u64, ServerSet>,
}

impl LostAt {
    /// None was lost.
    pub(crate) fn new(alloc: Global) -> LostAt {
        LostAt {
            chunks: BTreeMap::new(alloc),
        }
    }

    /// Where a chunk was lost, if it was.
    pub(crate) fn of(&self, chunk: u64) -> Option<ServerSet> {
        match self.chunks.get(&chunk) {
            None => None,
            Some(servers) => Some(*servers),
        }
    }

    /// A chunk was lost at a server.
    pub(crate) fn lose(&mut self, chunk: u64, server: u16) {
        let servers = match self.of(chunk) {
            None => ServerSet::none(),
            Some(servers) => servers,
        };
        let _ = self.chunks.insert(chunk, servers.lost_at(server));
    }

    /// A server could not be had for a chunk. If that was lost before, it counts as lost there too.
    pub(crate) fn miss(&mut self, chunk: u64, server: u16) {
        if let Some(servers) = self.chunks.get_mut(&chunk) {
            *servers = servers.lost_at(server);
        }
    }

    /// A chunk was settled.
    pub(crate) fn settle(&mut self, chunk: u64) {
        self.chunks.remove(&chunk);
    }
}
