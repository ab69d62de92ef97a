//! The listeners of a scene's servers.

use anyhow::{Result, anyhow};
use std::net::{Ipv4Addr, Net, SocketAddr, TcpListener, TcpStream};
use std::rt::Clock;
use std::thread;
use std::time::Duration;

/// How often a connection is looked for before it is missing.
const TRIES: u32 = 4_000;

/// How long is waited before it is looked for again, in milliseconds.
const PAUSE: u64 = 5;

/// A server, which listens until it is closed.
#[derive(Drop)]
pub struct Server {
    pub address: SocketAddr,
    listener: Option<TcpListener>,
}

impl Server {
    /// A server at a free port of this machine's host of that number, which is a scene's own.
    /// Connections leave from 127.0.0.1, so that none takes a port that a listener left.
    pub fn new<R: Net<Listener = TcpListener, Stream = TcpStream>>(
        rt: &R,
        host: u8,
    ) -> Result<Server> {
        let host = Ipv4Addr::new(127, 0, 0, host);
        let listener = TcpListener::bind(rt, SocketAddr::from((host, 0)))?;
        listener.set_nonblocking(true)?;
        Ok(Server {
            address: listener.local_addr()?,
            listener: Some(listener),
        })
    }

    /// Two free ports of the host of that number.
    pub fn free_addresses<R: Net<Listener = TcpListener, Stream = TcpStream>>(
        rt: &R,
        host: u8,
    ) -> Result<(SocketAddr, SocketAddr)> {
        let one = Server::new(rt, host)?;
        let other = Server::new(rt, host)?;
        Ok((one.address, other.address))
    }

    /// The next connection, if one waits. None does where the server is closed.
    pub fn poll(&self) -> Option<TcpStream> {
        match self.listener.as_ref()?.accept() {
            Ok((stream, _)) => Some(stream),
            Err(_) => None,
        }
    }

    /// The next connection.
    pub fn accept<R: Clock>(&self, rt: &R) -> Result<TcpStream> {
        for _ in 0..TRIES {
            if let Some(stream) = self.poll() {
                return Ok(stream);
            }
            thread::sleep(rt, Duration::from_millis(PAUSE));
        }
        Err(anyhow!("nobody connects"))
    }

    /// It is gone.
    pub fn close(&mut self) {
        self.listener = None;
    }

    /// It comes back to its address.
    pub fn reopen<R: Net<Listener = TcpListener, Stream = TcpStream>>(
        &mut self,
        rt: &R,
    ) -> Result<()> {
        let listener = TcpListener::bind(rt, self.address)?;
        listener.set_nonblocking(true)?;
        self.listener = Some(listener);
        Ok(())
    }
}
