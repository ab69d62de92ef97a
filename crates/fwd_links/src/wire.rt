//! A stream to a server.

ghost use Rattle.std.specs.Prelude.{◌≡◌, ◌≤◌, ◌∷◌, ◌++◌, [], length, IfErr, IfOk};
ghost use Rattle.std.specs.Io.Slices.{io_slice_bytes, io_slices_bytes};
ghost use Rattle.std.specs.List.{concat};
ghost use Rattle.fwd_links.specs.Buffers.{piece_at};
ghost use Rattle.fwd_environment.specs.Links.{DidWrite, count_read, read_into};

use crate::link_answer::{given, written};
use crate::shared_flags::SharedFlags;
use crate::waiting::SharedWait;
use fwd_chunks::{PIECE_LIMIT, WriteSlices};
use fwd_environment::{Calls, LinkFault, Read};
use mio::net::TcpStream;
use std::io::{ErrorKind, IoSlice, Read as ReadBytes, Write};
use std::net::{Net, Shutdown, SocketAddr};
use std::sync::Wait;
use std::{io, mem};

/// How often a stream is read behind a write before its worker sleeps until the server answers:
/// hardly any server answers sooner, and each further read that finds nothing costs as much as the
/// sleep that it might spare.
const READS: u32 = 2;

/// The piece at a place, as a buffer of a write: an empty one where there is none.
fn buffer<'a>(pieces: &[&'a [u8]], place: usize) -> IoSlice<'a>
    ensures { io_slice_bytes result ≡ piece_at pieces.now place }
{
    match pieces.get(place) {
        None => IoSlice::new(&[]),
        Some(piece) => IoSlice::new(piece),
    }
}

/// All these pieces, as the buffers of one write: their bytes, in their order.
fn buffers<'a>(pieces: &WriteSlices<'a>) -> [IoSlice<'a>; PIECE_LIMIT]
    ensures { io_slices_bytes result ≡ concat pieces.now }
{
    // For the contract alone: it tells that there are no more pieces than buffers.
    let _ = pieces.is_full();
    let pieces = pieces.as_slice();
    [
        buffer(pieces, 0),
        buffer(pieces, 1),
        buffer(pieces, 2),
        buffer(pieces, 3),
    ]
}

/// Whether a read gave bytes, or is the last one.
fn has_come(read: Read) -> bool {
    !matches!(read, Read::Nothing)
}

/// A stream to a server, which may not be connected yet. What it told of its calls is kept for
/// contracts alone, and takes no memory: they claim that it told so, and nothing of what the server
/// sent or got.
#[derive(Drop)]
pub(crate) struct Wire {
    flags: SharedFlags,
    /// The waits of its worker.
    wait: SharedWait,
    stream: TcpStream,
    is_up: bool,
    /// It was shut for reading, since its worker is to end.
    is_shut: bool,
    /// Bytes were written since it was last waited for.
    has_written: bool,
    calls: Calls,
}

impl Wire {
    /// Connects. It is an error that the connection is refused, or neither up nor refused within
    /// five seconds. Where all workers are to end meanwhile, it goes on as a stream that takes
    /// nothing yet. It takes no memory, and makes sure of it for the session that begins then.
    pub fn begin<N: Net, R: Wait>(
        net: &N,
        rt: &R,
        flags: SharedFlags,
        wait: SharedWait,
        addr: SocketAddr,
    ) -> io::Result<Wire>
        ensures { IfOk result (λ wire. wire.calls.list ≡ []) }
    {
        let mut stream = TcpStream::connect(net, addr)?;
        wait.lock(rt).await_connection(&mut stream, &flags)?;
        wait.lock(rt).start(&mut stream)?;
        let mut wire = Wire {
            flags,
            wait,
            stream,
            is_up: false,
            is_shut: false,
            has_written: false,
            calls: Calls::none(),
        };
        wire.look()?;
        if !wire.is_up && !wire.flags.is_stopped() {
            return Err(io::Error::from(ErrorKind::TimedOut));
        }
        wire.wait.lock(rt).assure(&wire.flags);
        Ok(wire)
    }

    /// Looks whether a connection that began is up. It is an error that it was refused.
    fn look(&mut self) -> io::Result<()>
        ensures { self.new.calls ≡ self.old.calls }
    {
        if self.is_up {
            return Ok(());
        }
        if let Some(error) = self.stream.take_error()? {
            return Err(error);
        }
        if self.stream.peer_addr().is_ok() {
            self.stream.set_nodelay(true)?;
            self.is_up = true;
        }
        Ok(())
    }

    /// Shuts the stream for reading, so that its next reads do not wait: the socket itself tells
    /// them what came before, and then that no more comes, or that it cannot be read.
    fn shut(&mut self)
        ensures { self.new.calls ≡ self.old.calls }
    {
        self.is_shut = true;
        let _ = self.stream.shutdown(Shutdown::Read);
    }

    /// Reads what is there.
    fn read_once<R: Wait>(&mut self, rt: &R, room: &mut [u8]) -> Result<Read, LinkFault>
        ensures within { count_read result ≤ length room.new }
        ensures fault { IfErr result (λ fault. fault ≡ LinkFault.Read) }
        ensures calls { self.new.calls ≡ self.old.calls }
    {
        if !self.is_up && !self.is_shut {
            return Ok(Read::Nothing);
        }
        let answer = self.stream.read(room);
        self.has_read(rt, &answer, room.len());
        given(answer)
    }

    /// A read of room for so many bytes answered so. Where it did not fill the room, or had to
    /// wait, all that is there was read. Where it gave bytes, memory is made sure of, for hearing
    /// them.
    fn has_read<R: Wait>(&mut self, rt: &R, answer: &io::Result<usize>, room: usize)
        ensures { self.new.calls ≡ self.old.calls }
    {
        let mut guard = self.wait.lock(rt);
        let wait = &mut *guard;
        match answer {
            Ok(0) => {}
            Ok(count) => {
                if *count < room {
                    wait.is_empty_now();
                }
                wait.assure(&self.flags);
            }
            Err(error) => {
                if error.kind() == ErrorKind::WouldBlock {
                    wait.is_empty_now();
                }
            }
        }
    }

    /// Reads until something is there, a few times at the most.
    fn read_soon<R: Wait>(&mut self, rt: &R, room: &mut [u8]) -> Result<Read, LinkFault>
        ensures within { count_read result ≤ length room.new }
        ensures fault { IfErr result (λ fault. fault ≡ LinkFault.Read) }
        ensures calls { self.new.calls ≡ self.old.calls }
    {
        for _ in 0..READS {
            let read = self.read_once(rt, room)?;
            if has_come(read) {
                return Ok(read);
            }
        }
        Ok(Read::Nothing)
    }

    /// The same, and waits where nothing is there yet: a while for a server that owes something.
    /// While the worker looks for a chunk it does not wait here, so that it is not held up. Else,
    /// where the stream told of nothing since it was read empty, a read would find nothing: it is
    /// made only behind a write, a few times, and then once the stream told of itself.
    ///
    /// Once all workers are to end, the first read reads nothing and says so, for no call failed:
    /// it shuts the stream. A worker that waits for a server does not ask its gate, and would read
    /// on until the server is late. Behind that read its next ones are told the stream's end, so
    /// that its session ends, and the gate, which it then asks, stops it.
    fn read_in_time<R: Wait>(&mut self, rt: &R, room: &mut [u8]) -> Result<Read, LinkFault>
        ensures within { count_read result ≤ length room.new }
        ensures fault { IfErr result (λ fault. fault ≡ LinkFault.Read) }
        ensures calls { self.new.calls ≡ self.old.calls }
    {
        if self.flags.is_stopped() && !self.is_shut {
            self.shut();
            return Ok(Read::Nothing);
        }
        if self.is_shut || self.wait.lock(rt).is_to_be_read() {
            let read = self.read_once(rt, room)?;
            if has_come(read) {
                return Ok(read);
            }
        }
        if self.wait.lock(rt).is_idle() {
            return Ok(Read::Nothing);
        }
        if mem::replace(&mut self.has_written, false) {
            let read = self.read_soon(rt, room)?;
            if has_come(read) {
                return Ok(read);
            }
        }
        self.wait.lock(rt).await_server(&self.flags);
        if self.look().is_err() {
            return Err(LinkFault::Read);
        }
        self.read_once(rt, room)
    }

    /// Reads once, into this room, and tells it. It may wait.
    pub fn read<R: Wait>(&mut self, rt: &R, room: &mut [u8]) -> Result<Read, LinkFault>
        ensures told { self.new.calls.list
            ≡ self.old.calls.list ++ read_into room.new result ∷ [] }
        ensures within { count_read result ≤ length room.new }
        ensures fault { IfErr result (λ fault. fault ≡ LinkFault.Read) }
    {
        let answer = self.read_in_time(rt, room);
        let room = &*room;
        self.calls = self.calls.and_read(&room, &answer);
        answer
    }

    /// Writes as far as the stream takes it, and tells it: how many bytes, none before it is
    /// connected.
    pub fn write(&mut self, bytes: &[u8]) -> Result<usize, LinkFault>
        ensures told { self.new.calls.list
            ≡ self.old.calls.list ++ DidWrite bytes.now result ∷ [] }
        ensures within { IfOk result (λ n. n ≤ length bytes.now) }
        ensures fault { IfErr result (λ fault. fault ≡ LinkFault.Write) }
    {
        let answer = if self.is_up {
            self.has_written = true;
            written(self.stream.write(bytes))
        } else {
            Ok(0)
        };
        self.calls = self.calls.and_write(&bytes, &answer);
        answer
    }

    /// The same of pieces, as if they were one.
    pub fn write_pieces(&mut self, pieces: &WriteSlices<'_>) -> Result<usize, LinkFault>
        ensures told { self.new.calls.list
            ≡ self.old.calls.list ++ DidWrite (concat pieces.now) result ∷ [] }
        ensures within { IfOk result (λ n. n ≤ length (concat pieces.now)) }
        ensures fault { IfErr result (λ fault. fault ≡ LinkFault.Write) }
    {
        let answer = if self.is_up {
            self.has_written = true;
            written(self.stream.write_vectored(&buffers(pieces)))
        } else {
            Ok(0)
        };
        self.calls = self.calls.and_write_pieces(pieces, &answer);
        answer
    }
}
