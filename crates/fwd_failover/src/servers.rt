ghost use Rattle.std.specs.Prelude.{
  ◌≡◌,
  ◌<◌,
  ◌≤◌,
  max,
  length,
  false,
  not,
  Contains,
  IfOk,
  IfSome,
  All,
  find,
};
ghost use Rattle.fwd_base.specs.Waits.{wait_after};
ghost use Rattle.fwd_failover.specs.History.{
  ServersSetting,
  ServersHistory,
  opening,
  looked,
  lost,
  settled,
};
ghost use Rattle.fwd_failover.specs.Choices.{places, choice};
ghost use Rattle.fwd_failover.specs.Doubts.{live_is_doubted, live_trusted};
ghost use Rattle.fwd_failover.specs.Live.{
  live_servers,
  live_choice,
  live_looked,
  live_lost,
  live_settled,
  live_with_loss,
  is_live_usable,
};

use fwd_base::{Losses, Retry};
use std::alloc::{AllocError, Global};
use std::marker::Model;

/// The servers of an output, by their numbers in file order from 0,
/// and what was lost at each. Moments and waits are in milliseconds.
/// A moment before the greatest one handed in counts as that one.
#[derive(Drop)]
pub struct Servers {
    primaries: Vec<u16>,
    standbys: Vec<u16>,
    losses: Vec<Option<Losses>>,
    retry: Retry,
    moment: u64,
}

impl Model for Servers {
    ghost use Rattle.std.specs.Prelude.{◌<◌, length, All};
    ghost use Rattle.fwd_failover.specs.Live.{LiveServers};

    ghost Value = { LiveServers };

    ghost view = { λ s. record {
      primaries = s.primaries.items;
      standbys = s.standbys.items;
      retry_wait = s.retry.wait;
      retry_max = s.retry.max;
      losses = s.losses.items;
      moment = s.moment;
    } };

    ghost invariant = { λ s.
        (0 < length s.primaries.items) × All (λ p. p < length s.losses.items) s.primaries.items
        × All (λ p. p < length s.losses.items) s.standbys.items };
}

/// The numbers of the standbys, or of the others, in file order.
fn numbers_of(alloc: Global, standby: &[bool], kind: bool) -> Result<Vec<u16>, AllocError>
    requires { length standby.now ≤ 16 }
    ensures { IfOk result (λ numbers. numbers.items ≡ places kind standby.now) }
{
    let mut numbers = Vec::new(alloc);
    for (number, flag) in standby.iter().enumerate() {
        if *flag == kind {
            numbers.push(number as u16)?;
        }
    }
    Ok(numbers)
}

/// The losses of a server and one more at a moment (milliseconds), which counts only if the server
/// might be tried then.
pub fn with_loss(retry: Retry, losses: Option<Losses>, moment: u64) -> Option<Losses>
    ensures { result ≡ live_with_loss retry.wait retry.max losses moment }
{
    if retry.is_over(losses, moment) {
        Some(Losses::more(losses, moment))
    } else {
        losses
    }
}

impl Servers {
    /// The servers of an output before any loss, 1 to 16 and not all of them standbys. A flag for
    /// each, in file order, says whether it is a standby. After a first loss a server waits
    /// `retry_wait` milliseconds, after each further one twice as long, and never longer than
    /// `retry_max`. This fails only where memory is refused, and later calls take none. Any waits
    /// are taken, also a first wait of 0 or a longest wait below the first: the ranges are those of
    /// the settings.
    pub fn new(
        alloc: Global,
        standby: &[bool],
        retry_wait: u64,
        retry_max: u64,
    ) -> Result<Self, AllocError>
        requires few { length standby.now ≤ 16 }
        requires not_all_standby { Contains standby.now false }
        ensures { IfOk result (λ servers.
            servers
            ≡ live_servers
            (record { standby = standby.now; retry_wait = retry_wait; retry_max = retry_max })
            opening) }
    {
        Ok(Servers {
            primaries: numbers_of(alloc, standby, false)?,
            standbys: numbers_of(alloc, standby, true)?,
            losses: vec![in alloc; None; standby.len()]?,
            retry: Retry {
                wait: retry_wait,
                max: retry_max,
            },
            moment: 0,
        })
    }

    /// How long a server waits after so many losses since it
    /// last settled a chunk, in milliseconds: 0 after none.
    pub fn wait_after(&self, losses: u64) -> u64
        ensures { result ≡ wait_after self.now.retry_wait self.now.retry_max losses }
    {
        self.retry.wait_after(losses)
    }

    /// Whether a server may be tried at the greatest moment handed in.
    fn is_usable(&self, server: u16) -> bool
        requires { server < length self.now.losses }
        ensures { result ≡ is_live_usable self.now self.now.moment server }
    {
        self.retry
            .is_over(self.losses[usize::from(server)], self.moment)
    }

    /// The first of some servers that may be tried at the greatest moment handed in.
    fn first_usable(&self, servers: &[u16]) -> Option<u16>
        requires { All (λ p. p < length self.now.losses) servers.now }
        ensures { result ≡ find (is_live_usable self.now self.now.moment) servers.now }
    {
        servers
            .iter()
            .copied()
            .find(|server| self.is_usable(*server))
    }

    /// Whether a server was lost since it last settled a chunk, so that it is not known to work.
    pub fn is_doubted(&self, server: u16) -> bool
        ensures { result ≡ live_is_doubted self.now server }
    {
        match self.losses.get(usize::from(server)) {
            None => false,
            Some(losses) => losses.is_some(),
        }
    }

    /// The first of some servers that was not lost since it last settled a chunk.
    fn first_trusted(&self, servers: &[u16]) -> Option<u16>
        ensures { result ≡ find (λ s. not (live_is_doubted self.now s)) servers.now }
    {
        servers
            .iter()
            .copied()
            .find(|server| !self.is_doubted(*server))
    }

    /// The first server in a worker's order that was not lost since it last settled a chunk, if
    /// there is one: the order is that of `choose`.
    pub fn trusted(&self, worker: u16) -> Option<u16>
        ensures { result ≡ live_trusted self.now worker }
    {
        let place = usize::from(worker) % self.primaries.len();
        let (passed, ahead) = self.primaries.split_at(place);
        self.first_trusted(ahead)
            .or(self.first_trusted(passed))
            .or(self.first_trusted(&self.standbys))
    }

    /// The server that a worker tries at a moment (milliseconds), if one is usable: the first
    /// usable one of the primaries, once round from the place that is the worker's number modulo
    /// their count, and then of the standbys in file order.
    pub fn choose(&mut self, worker: u16, now: u64) -> Option<u16>
        ensures choice { result ≡ live_choice self.old worker (max self.old.moment now) }
        ensures after { self.new ≡ live_looked self.old now }
        ensures known { IfSome result (λ server. server < length self.old.losses) }

        // Said of all losses and settlings so far.
        ensures choice_by_history { (s : ServersSetting) (h : ServersHistory)
            → self.old ≡ live_servers s h
            → result ≡ choice s h.happened worker (max h.moment now) }
        ensures history { (s : ServersSetting) (h : ServersHistory)
            → self.old ≡ live_servers s h → self.new ≡ live_servers s (looked h now) }
    {
        self.moment = self.moment.max(now);
        let place = usize::from(worker) % self.primaries.len();
        let (passed, ahead) = self.primaries.split_at(place);
        self.first_usable(ahead)
            .or(self.first_usable(passed))
            .or(self.first_usable(&self.standbys))
    }

    /// A server was lost at a moment (milliseconds), and waits from then on. If it waits already,
    /// after an earlier loss, nothing changes: the sessions that end in one outage of a server are
    /// one loss. An unknown server changes nothing.
    pub fn failed(&mut self, server: u16, now: u64)
        ensures after { self.new ≡ live_lost self.old server now }
        ensures history { (s : ServersSetting) (h : ServersHistory)
            → self.old ≡ live_servers s h
            → self.new ≡ live_servers s (lost s h server now) }
    {
        let Some(losses) = self.losses.get_mut(usize::from(server)) else {
            return;
        };
        let moment = self.moment.max(now);
        *losses = with_loss(self.retry, *losses, moment);
        self.moment = moment;
    }

    /// A server settled a chunk: its losses so far no
    /// longer count. An unknown server changes nothing.
    pub fn settled(&mut self, server: u16)
        ensures after { self.new ≡ live_settled self.old server }
        ensures history { (s : ServersSetting) (h : ServersHistory)
            → self.old ≡ live_servers s h → self.new ≡ live_servers s (settled s h server) }
    {
        if let Some(losses) = self.losses.get_mut(usize::from(server)) {
            *losses = None;
        }
    }
}
