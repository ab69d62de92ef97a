//! Why a relay does not start, and what is said of it.

ghost use Rattle.std.specs.Prelude.{◌≡◌, true};
ghost use Rattle.fwd_run.specs.Pages.{page_count};
ghost use Rattle.fwd_settings.specs.Ranges.{in_range};

use crate::scene_run::SceneRun;
use crate::test_relay::{PLAIN, SEED, TestRelay, started};
use crate::transcript::Transcript;
use anyhow::{Result, anyhow};
use fwd_history::Run;
use fwd_loop::StartFault;
use fwd_run::OpenedRun;
use fwd_settings::Settings;
use std::marker::Brand;
use std::net::{Net, SocketAddr, TcpListener, TcpStream};
use std::rt::Clock;

/// What a relay with these keys says that does not start.
fn start<R: Net<Listener = TcpListener, Stream = TcpStream> + AllocGlobal>(
    rt: &R,
    site: TestRelay,
    keys: &str,
) -> Result<String> {
    let settings = site.settings(rt.alloc(), 8, keys, &[PLAIN])?;
    refusal::<Brand, R>(rt, OpenedRun::new(usize::MAX), settings)
}

/// What a relay of these settings says that does not start.
fn refusal<J: Run + Send + Sync, R: Net<Listener = TcpListener, Stream = TcpStream> + AllocGlobal>(
    rt: &R,
    opened: OpenedRun,
    settings: Settings,
) -> Result<String>
    requires range { in_range settings ≡ true }
    requires book { opened.book ≡ J.book }
    requires pages { opened.pages ≡ page_count }
{
    match started::<J, R>(rt, opened, settings) {
        Ok(_) => Err(anyhow!("it starts")),
        Err(fault) => Ok(format!(in rt.alloc(); "{fault}")?),
    }
}

/// Whether a relay does not start since this address is taken, and says so.
fn is_refused<R: Net<Listener = TcpListener, Stream = TcpStream> + AllocGlobal>(
    rt: &R,
    site: TestRelay,
    taken: SocketAddr,
) -> Result<bool> {
    let due = format!(in rt.alloc(); "listen: {taken}")?;
    Ok(start(rt, site, SEED)?.as_str() == due.as_str())
}

/// What relays say that do not start: where sources, or monitors, cannot be listened for, and where
/// there is no seed, and no file to draw one from.
fn tell_starts<R: Net<Listener = TcpListener, Stream = TcpStream> + AllocGlobal>(
    rt: &R,
    site: TestRelay,
    told: &mut Transcript,
) -> Result<()> {
    let taken = site.servers[0];
    let front = TestRelay {
        sources: taken,
        ..site
    };
    let behind = TestRelay {
        monitors: taken,
        ..site
    };
    told.put("sources", &is_refused(rt, front, taken)?)?;
    told.put("monitors", &is_refused(rt, behind, taken)?)?;
    told.put("seed", &start(rt, site, "")?)
}

/// What is printed of that, and the texts of what no test can cause.
pub fn text_of_starts<R: Net<Listener = TcpListener, Stream = TcpStream> + Clock + AllocGlobal>(
    rt: &R,
    host: u8,
) -> Result<String> {
    let mut stage = SceneRun::new(rt, rt.alloc(), host)?;
    stage.told.begin("no start");
    let told = tell_starts(rt, stage.site, &mut stage.told);
    stage.told.note(told);
    for fault in &[StartFault::Memory, StartFault::Poll, StartFault::Thread] {
        let _ = write!(stage.told.text, "\n  {fault}");
    }
    Ok(stage.take_text())
}
