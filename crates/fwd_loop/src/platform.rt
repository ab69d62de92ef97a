//! What a run asks of its runtime.

use std::net::{Net, TcpListener, TcpStream};
use std::rt::Clock;
use std::sync::Wait;
use std::thread::Threads;

/// What a run asks of its runtime: TCP sockets, threads, waits, the clock and memory, shared by all
/// of its threads.
pub trait Platform: Net<Listener = TcpListener, Stream = TcpStream>
    + Threads
    + Wait
    + Clock
    + AllocGlobal
    + Sync {}

impl<
    R: Net<Listener = TcpListener, Stream = TcpStream>
        + Threads
        + Wait
        + Clock
        + AllocGlobal
        + Sync,
> Platform for R {}
