//! The steps of a scene, as data. A function for each scene would have a way out for each step,
//! with all connections and servers dropped there. What only time or traffic shows stands in
//! functions of its own (`traffic`, `extremes`, `by_hand`).

/// A step. Connections have numbers in the order in which they are made, from 0 on, and servers
/// too. A text is the name of the field under which it is told what the step saw.
#[derive(Clone, Copy)]
pub enum Step {
    /// A source connects and sends these bytes: the next connection.
    Source(&'static [u8]),
    /// A monitor does.
    Monitor(&'static [u8]),
    /// So many monitors send the front of a request for the page.
    Monitors(usize),
    /// The relay connects to this server: the next connection.
    Accept(usize),
    /// It does, and the server closes the connection at once.
    Shut(usize),
    /// Those before this server close each connection, until this one has one.
    Seek(usize),
    /// Bytes are sent over a connection, in pieces of one byte where they are to be.
    Send(usize, &'static [u8]),
    Pieces(usize, &'static [u8]),
    /// So often the byte `a` is.
    Fill(usize, usize),
    /// The request that is larger than what the sockets between hold.
    Large(usize),
    /// The next value comes over a connection, and is told in hexadecimal digits.
    Told(&'static str, usize),
    /// It comes, and is not told.
    Skip(usize),
    /// So many values come, and are told, the least first.
    Values(&'static str, usize, usize),
    /// So many frames come, each once the one before it was acknowledged, and are told.
    Alone(&'static str, usize, usize),
    /// The last value that came over a connection is a frame, whose chunk is acknowledged there.
    Ack(usize),
    /// All of these are, at once.
    Acks(usize, &'static [usize]),
    /// Something comes behind the values that were read.
    Await(usize),
    /// Nothing comes for a while.
    Silent(&'static str, usize),
    /// How many bytes come up to the close.
    Rest(&'static str, usize),
    /// The text that comes up to it.
    Text(&'static str, usize),
    /// So many bytes come, and the others are not read.
    Front(&'static str, usize, usize),
    /// How many bytes the values that came over a connection have in all.
    Size(&'static str, usize),
    /// Whether all that came over a connection up to its close came over another one too, where
    /// the value that was not whole is.
    Again(&'static str, usize, usize),
    /// A side closes its connection.
    Close(usize),
    /// A server is gone, with none of its connections; it comes back.
    Leave(usize),
    Return(usize),
    /// Whether nobody waits at a server, nor came.
    Unmet(&'static str, usize),
    /// Connections that a server does not take, until one is not answered.
    Crowd(usize),
    /// A source sends a request, a server acknowledges the frame, and the source is told.
    Round(&'static str, usize, usize),
    /// The relay's loop makes a whole turn: a source sends a request of no entries, and is told.
    Turn(&'static str),
    /// How many of so many monitors, from this number on, are told the page once they asked.
    Pages(&'static str, usize, usize),
    /// Sources of random bytes: how many bytes they are told before they are closed.
    Random(&'static str),
    /// A source sends requests and reads nothing, until the relay reads no more.
    Flood(&'static str, usize),
    /// It reads: whether it is told of all of them.
    Drain(&'static str, usize),
    /// So many milliseconds pass.
    Pause(u64),
    /// A watch is set, and whether no more milliseconds than these have passed since.
    Start,
    Within(&'static str, u64),
}
