//! A relay on this machine: its ports and its settings.

ghost use Rattle.std.specs.Prelude.{◌≡◌, true, IfOk};
ghost use Rattle.fwd_run.specs.Pages.{page_count};
ghost use Rattle.fwd_settings.specs.Ranges.{in_range};

use crate::sealed::Sealed;
use crate::server::Server;
use anyhow::{Result, anyhow};
use fwd_history::Run;
use fwd_loop::Loop;
use fwd_run::OpenedRun;
use fwd_settings::{Settings, accepted_is_in_range, read_settings};
use std::alloc::{AllocError, Global};
use std::net::{Net, SocketAddr, TcpListener, TcpStream};

/// What most relays are set to: a seed of zeros, of which their random numbers come.
pub const SEED: &str =
    "seed = \"0000000000000000000000000000000000000000000000000000000000000000\"\n";

/// The same with a shared key.
pub const KEYED: &str = "\
    seed = \"0000000000000000000000000000000000000000000000000000000000000000\"\n\
    shared_key = \"secret\"\n";

/// What most outputs are set to: each entry is alone in its chunk, and what was lost waits one
/// millisecond.
pub const OUTPUT: &str = "chunk_limit = 2\nretry_wait = 1\n";

/// What a server is to an output.
#[derive(Clone, Copy)]
pub enum Role {
    Primary,
    Standby,
    None,
}

/// An output of a relay.
#[derive(Clone, Copy)]
pub struct Output {
    pub pattern: &'static str,
    /// What it is set to beside.
    pub keys: &'static str,
    /// What each server of the scene is to it.
    pub roles: [Role; 3],
}

/// An output for all tags, to the first server.
pub const PLAIN: Output = Output {
    pattern: "**",
    keys: OUTPUT,
    roles: [Role::Primary, Role::None, Role::None],
};

/// Where a relay listens, and the servers around it.
#[derive(Clone, Copy)]
pub struct TestRelay {
    pub sources: SocketAddr,
    pub monitors: SocketAddr,
    pub servers: [SocketAddr; 3],
    /// How many readers the relay has.
    pub readers: u16,
}

impl Output {
    /// Appends its settings.
    fn put_settings(self, text: &mut String, site: TestRelay) -> Result<(), AllocError> {
        let Output {
            pattern,
            keys,
            roles,
        } = self;
        write!(
            text,
            "[[output]]\nmatch = \"{pattern}\"\nflush_interval = 0\nack_wait = 60000\n{keys}"
        )?;
        for (role, address) in roles.iter().zip(&site.servers) {
            if *role != Role::None {
                let standby = *role == Role::Standby;
                write!(
                    text,
                    "[[output.server]]\naddress = \"{address}\"\nstandby = {standby}\n"
                )?;
            }
        }
        Ok(())
    }
}

impl TestRelay {
    /// Two free ports of the host of this number, for a relay beside these servers.
    pub fn new<R: Net<Listener = TcpListener, Stream = TcpStream>>(
        rt: &R,
        host: u8,
        servers: &[Server],
    ) -> Result<TestRelay> {
        let [first, second, third] = servers else {
            return Err(anyhow!("three servers are wanted"));
        };
        let (sources, monitors) = Server::free_addresses(rt, host)?;
        Ok(TestRelay {
            sources,
            monitors,
            servers: [first.address, second.address, third.address],
            readers: 1,
        })
    }

    /// Appends the settings of a relay that takes so many sources at a time, with these keys and
    /// outputs.
    fn put_settings(
        self,
        text: &mut String,
        connections: u16,
        keys: &str,
        outputs: &[Output],
    ) -> Result<(), AllocError> {
        let (sources, monitors, readers) = (self.sources, self.monitors, self.readers);
        write!(
            text,
            "[relay]\nlisten = \"{sources}\"\nmonitor = \"{monitors}\"\n\
            run_id = \"000000000000\"\nconnections = {connections}\nreaders = {readers}\n{keys}"
        )?;
        for output in outputs {
            output.put_settings(text, self)?;
        }
        Ok(())
    }

    /// Such settings.
    fn settings_text(
        self,
        alloc: Global,
        connections: u16,
        keys: &str,
        outputs: &[Output],
    ) -> Result<String> {
        let mut text = String::new(alloc);
        self.put_settings(&mut text, connections, keys, outputs)?;
        Ok(text)
    }

    /// Such settings, as they are read.
    pub fn settings(
        self,
        alloc: Global,
        connections: u16,
        keys: &str,
        outputs: &[Output],
    ) -> Result<Settings>
        ensures { IfOk result (λ settings. in_range settings ≡ true) }
    {
        let text = self.settings_text(alloc, connections, keys, outputs)?;
        accepted_is_in_range();
        match read_settings(alloc, text.as_bytes()) {
            Ok(settings) => Ok(settings),
            Err(_) => Err(anyhow!("the settings are not taken")),
        }
    }
}

/// A relay of these settings, whose outputs' history it is given. Where it does not start, the
/// error is what is said of that.
pub fn started<
    J: Run + Send + Sync,
    R: Net<Listener = TcpListener, Stream = TcpStream> + AllocGlobal,
>(rt: &R, opened: OpenedRun, settings: Settings) -> Result<Loop<J>>
    requires range { in_range settings ≡ true }
    requires book { opened.book ≡ J.book }
    requires pages { opened.pages ≡ page_count }
{
    match Loop::new(&Sealed::new(rt), opened, settings) {
        Ok(relay) => Ok(relay),
        Err(fault) => Err(anyhow!("{fault}")),
    }
}
