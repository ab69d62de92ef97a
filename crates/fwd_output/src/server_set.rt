//! The servers at which a chunk was lost.

ghost use Rattle.std.specs.Prelude.{◌≡◌};
ghost use Rattle.fwd_output.specs.Elsewhere.{has_server, lost_at_more, no_server, with_server};

/// The most servers that an output has.
const SERVERS: usize = 16;

/// Some servers of an output, by their places in its list.
#[derive(Clone, Copy)]
pub struct ServerSet {
    /// For each server whether it is among them.
    pub members: [bool; SERVERS],
}

impl ServerSet {
    /// No server.
    pub(crate) fn none() -> ServerSet
        ensures { result.members ≡ no_server }
    {
        ServerSet {
            members: [false; SERVERS],
        }
    }

    /// Whether a server is among them.
    pub(crate) fn has(&self, server: u16) -> bool
        ensures { result ≡ has_server self.now.members server }
    {
        match self.members.get(usize::from(server)) {
            None => false,
            Some(member) => *member,
        }
    }

    /// The same with one server more. An output has none from the 17th on.
    fn with(self, server: u16) -> ServerSet
        ensures { result.members ≡ with_server self.members server }
    {
        let mut members = self.members;
        let place = usize::from(server);
        if place < members.len() {
            members[place] = true;
        }
        ServerSet { members }
    }

    /// Where a chunk was lost, once it is lost at a server more. If it was lost there before, it
    /// has been round, and a new round begins with that server.
    pub(crate) fn lost_at(self, server: u16) -> ServerSet
        ensures { result.members ≡ lost_at_more self.members server }
    {
        if self.has(server) {
            ServerSet::none().with(server)
        } else {
            self.with(server)
        }
    }
}
