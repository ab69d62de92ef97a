//! A worker's link over TCP.

ghost use Rattle.std.specs.Prelude.{◌≡◌, [], slice_get, IfOk};

use crate::mailbox::Mailbox;
use crate::shared_flags::SharedFlags;
use crate::unconnected::unconnected;
use crate::waiting::SharedWait;
use crate::wire::Wire;
use fwd_chunks::WriteSlices;
use fwd_environment::{Hub, Link, LinkFault, Read};
use std::io;
use std::marker::Model;
use std::net::{Net, SocketAddr};
use std::sync::{Arc, Wait};

/// A connection to a server.
#[derive(Drop)]
pub struct TcpLink {
    wire: Wire,
}

impl TcpLink {
    /// Begins to connect.
    fn begin<N: Net, R: Wait>(
        net: &N,
        rt: &R,
        flags: SharedFlags,
        wait: SharedWait,
        addr: SocketAddr,
    ) -> io::Result<TcpLink>
        ensures { IfOk result (λ link. link.wire.calls.list ≡ []) }
    {
        Ok(TcpLink {
            wire: Wire::begin(net, rt, flags, wait, addr)?,
        })
    }
}

impl Link for TcpLink {
    ghost calls = { λ l. l.wire.calls.list };

    fn read<R: Wait>(&mut self, rt: &R, room: &mut [u8]) -> Result<Read, LinkFault> {
        self.wire.read(rt, room)
    }

    fn write<R: Wait>(&mut self, _rt: &R, bytes: &[u8]) -> Result<usize, LinkFault> {
        self.wire.write(bytes)
    }

    fn write_pieces<R: Wait>(
        &mut self,
        _rt: &R,
        pieces: &WriteSlices<'_>,
    ) -> Result<usize, LinkFault> {
        self.wire.write_pieces(pieces)
    }
}

/// Connects to the servers of an output. In contracts it is where these are reached.
#[derive(Drop)]
pub struct TcpHub<'a, N: Net> {
    net: &'a N,
    mailbox: &'a Mailbox,
    wait: &'a SharedWait,
    servers: &'a [SocketAddr],
}

impl<'a, N: Net> Model for TcpHub<'a, N> {
    ghost use Rattle.std.specs.Prelude.{List};
    ghost use Rattle.std.specs.declared.net.socket_addr.SocketAddr.{SocketAddr};

    ghost Value = { List SocketAddr };

    ghost view = { λ hub. hub.servers.now };
}

impl<'a, N: Net> TcpHub<'a, N> {
    /// Connects to these servers, for the worker of these waits.
    pub fn new(
        net: &'a N,
        mailbox: &'a Mailbox,
        wait: &'a SharedWait,
        servers: &'a [SocketAddr],
    ) -> Self
        ensures { result ≡ servers.now }
    {
        TcpHub {
            net,
            mailbox,
            wait,
            servers,
        }
    }
}

/// The server at a place in an output's list, if there is one.
fn server_at(servers: &[SocketAddr], server: u16) -> Option<SocketAddr>
    ensures { result ≡ slice_get servers.now server }
{
    servers.get(server as usize).copied()
}

impl<'a, N: Net> Hub for TcpHub<'a, N> {
    type Line = TcpLink;

    fn connect<R: Wait>(&mut self, rt: &R, server: u16) -> Result<TcpLink, LinkFault> {
        let Some(addr) = server_at(self.servers, server) else {
            return Err(LinkFault::Connect);
        };
        let (Ok(flags), Ok(wait)) = (self.mailbox.flags().share(), Arc::try_clone(self.wait)) else {
            return Err(LinkFault::Memory);
        };
        match TcpLink::begin(self.net, rt, flags, wait, addr) {
            Ok(link) => Ok(link),
            Err(error) => Err(unconnected(&error)),
        }
    }
}
