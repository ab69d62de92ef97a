//! The relay over sockets.

ghost use Rattle.std.specs.Prelude.{
  ◌≡◌,
  ◌≤◌,
  ◌+◌,
  ◌-◌,
  ◌*◌,
  Some,
  None,
  length,
  map,
  true,
  All,
  IfOk,
};
ghost use Rattle.fwd_msgpack.specs.declared.limits.Limits.{Limits};
ghost use Rattle.fwd_handshake.specs.declared.credentials.Security.{Security};
ghost use Rattle.fwd_config.specs.Configs.{parts_known};
ghost use Rattle.fwd_run.specs.Pages.{page_count};
ghost use Rattle.fwd_run.specs.Runs.{id_key, last_id, limits_at, routes_at, security_at};
ghost use Rattle.fwd_settings.specs.Ranges.{in_range};
ghost use Rattle.fwd_loop.specs.Delivered.{AreEmptied};
ghost use Rattle.fwd_loop.specs.Loops.{relay_by};
ghost use Rattle.fwd_pools.specs.Pools.{all_made_of, shown};
ghost use Rattle.fwd_reader.specs.Ends.{AddUp, AreReportsAfter};
ghost use Rattle.fwd_turns.specs.Draining.{IsReadOut};
ghost use Rattle.fwd_turns.specs.declared.draining.DrainSeen.{DrainSeen};

use crate::address::{Address, address_of, control_path_of};
use crate::opening::{Opened, Own, Shared, open};
use crate::outcome::{Ended, Outcome};
use crate::platform::Platform;
use crate::serving::run_parts;
use crate::set_parts::{SetParts, parts_of, run_id_of};
use fwd_base::Text;
use fwd_history::Run;
use fwd_links::{Mailbox, SharedFlags};
use fwd_listeners::{Ending, remove_socket};
use fwd_match::Routes;
use fwd_model::Config;
use fwd_monitors::{Observer, PageQueue, SharedTally, StartFault};
use fwd_output::UnsentRequests;
use fwd_peers::SocketPath;
use fwd_pools::{RandomStreams, RunOrigin, WorkerPools, pools_of};
use fwd_reader::{FlushTimer, Output, ReaderInbox, ReaderInboxes, tally_of, unasked_in};
use fwd_run::{IdPage, OpenedRun, ReachedHistory, RunPage, RunPages, SourceIds, open_run, skip};
use fwd_settings::Settings;
use fwd_turns::{DrainSeen, EventLoop, EventQueue, ReaderLimits, ReaderParts, SourceSetup};
use std::alloc::Global;
use std::fs::File;
use std::marker::Model;
use std::net::Net;
use std::rt::{Clock, Files};
use std::sync::{Arc, Wait};

/// So many bytes are asked for and given back at the start. The C library gives a larger piece than
/// any that it was given back before to the system at once, and takes pages for the next one anew,
/// which costs more than a request itself: from now on only pieces above this one. So a relay keeps
/// some megabytes that it once had.
const LARGEST_KEPT: usize = 4 << 20;

/// The relay, with its listeners open, before its first turn. In contracts it is what each of its
/// outputs is, and by which patterns requests go to them.
pub struct Loop<J: Run> {
    alloc: Global,
    shared: Shared<J>,
    own: Own<J>,
}

// A drop of its own is proved once, and not at each place where a relay goes.
impl<J: Run> Drop for Loop<J> {
    fn drop(self) {
        let Loop {
            alloc: _,
            shared: _,
            own: _,
        } = self;
    }
}

impl<J: Run> Model for Loop<J> {
    ghost use Rattle.std.specs.Prelude.{map};
    ghost use Rattle.fwd_loop.specs.Loops.{LoopShown};
    ghost use Rattle.fwd_pools.specs.Pools.{shown};

    ghost Value = { LoopShown };

    ghost view = { λ relay. record {
      outputs = map shown relay.shared.outputs.items;
      routes = relay.shared.routes;
    } };
}

/// Where requests go, and the history of a run that begins so.
#[derive(Drop)]
struct Routed<J: Run> {
    routes: Routes,
    reached: ReachedHistory<J>,
    ghost routed: { routes_at reached ≡ Some routes },
}

/// The loop of the reader in front, with the listeners, what it is told by, what sources that come
/// are given, and the flags of its relay.
#[derive(Drop)]
struct FrontLoop<J: Run> {
    flags: SharedFlags,
    event_loop: EventLoop<J>,
    mailbox: Mailbox,
    setup: SourceSetup<J>,
}

/// The loop of the reader in front before its first turn.
fn front_loop<J: Run, R: Net + Files<File = File>>(
    rt: &R,
    alloc: Global,
    address: Address,
    setup: SourceSetup<J>,
) -> Result<FrontLoop<J>, StartFault> {
    let flags = SharedFlags::new(alloc)?;
    let (mut event_loop, mailbox) = EventLoop::new(rt, alloc, &flags, address.each)?;
    event_loop.listen(rt, address.listen)?;
    Ok(FrontLoop {
        flags,
        event_loop,
        mailbox,
        setup,
    })
}

/// The readers that are not in front: what each is told by, and what it has of its own.
struct OtherReaders<J: Run> {
    inboxes: Vec<ReaderInbox<J>>,
    others: Vec<ReaderParts<J>>,
}

/// A reader of these outputs that is not in front: what it has of its own, and what it is told by.
fn other_reader<J: Run, R: Net>(
    rt: &R,
    flags: &SharedFlags,
    pools: &WorkerPools<J>,
    limits: ReaderLimits,
) -> Result<(ReaderParts<J>, ReaderInbox<J>), StartFault> {
    let timers = pools.timers()?;
    let (event_loop, mailbox) = EventLoop::new(rt, pools.alloc, flags, limits)?;
    let inbox = ReaderInbox::new(pools.alloc, mailbox);
    Ok((ReaderParts { event_loop, timers }, inbox))
}

/// The readers of these outputs that are not in front.
fn other_readers<J: Run, R: Net>(
    rt: &R,
    flags: &SharedFlags,
    pools: &WorkerPools<J>,
    address: Address,
) -> Result<OtherReaders<J>, StartFault> {
    let alloc = pools.alloc;
    let mut inboxes = Vec::new(alloc);
    let mut others = Vec::new(alloc);
    for _ in 1..address.readers {
        let (parts, inbox) = other_reader(rt, flags, pools, address.each)?;
        inboxes.push(inbox)?;
        others.push(parts)?;
    }
    Ok(OtherReaders { inboxes, others })
}

/// What a relay of these outputs has beside: what it counts, the timers of the reader in front, and
/// the other readers.
struct BesideOutputs<J: Run> {
    tally: SharedTally,
    timers: Vec<FlushTimer>,
    readers: OtherReaders<J>,
}

/// What a relay of these outputs has beside.
fn beside_outputs<J: Run, R: Net>(
    rt: &R,
    flags: &SharedFlags,
    pools: &WorkerPools<J>,
    address: Address,
) -> Result<BesideOutputs<J>, StartFault> {
    let tally = tally_of(pools.alloc, &pools.outputs, address.listen.has_metrics)?;
    let timers = pools.timers()?;
    let readers = other_readers(rt, flags, pools, address)?;
    Ok(BesideOutputs {
        tally,
        timers,
        readers,
    })
}

/// The relay of these outputs and their workers, with all its readers, and the history of its run.
fn loop_of<J: Run, R: Net>(
    rt: &R,
    front: FrontLoop<J>,
    pools: WorkerPools<J>,
    address: Address,
    routed: Routed<J>,
) -> Result<Loop<J>, StartFault>
    ensures { IfOk result (λ relay. relay
        ≡ record { outputs = map shown pools.outputs.items; routes = routed.routes }) }
{
    let alloc = pools.alloc;
    let BesideOutputs {
        tally,
        timers,
        readers: OtherReaders { inboxes, others },
    } = beside_outputs(rt, &front.flags, &pools, address)?;
    let FrontLoop {
        flags,
        event_loop,
        mailbox,
        setup,
    } = front;
    let WorkerPools {
        outputs,
        workers,
        ..
    } = pools;
    let Routed { routes, reached } = routed;
    let shared = Shared {
        flags,
        routes,
        outputs,
        inboxes: ReaderInboxes {
            front: ReaderInbox::new(alloc, mailbox),
            others: inboxes,
        },
        journal_events: EventQueue::new(alloc),
        tally,
        pages: PageQueue::new(),
        reached,
    };
    let own = Own {
        front: ReaderParts { event_loop, timers },
        setup,
        others,
        workers,
    };
    Ok(Loop { alloc, shared, own })
}

/// The ids of a run's connections, whose page is this one. Of the other pages those come next that
/// outputs could have which there are not.
fn source_ids<J: Run>(ids: RunPage<J>, pages: RunPages<J>, outputs: usize) -> SourceIds<J>
    requires few { outputs ≤ 64 }
    requires page { ids.0 ≡ id_key }
    requires fresh { last_id ids.1 ≡ None }
    requires security { (security : Security) × (security_at ids.1 ≡ Some security) }
    requires limits { (limits : Limits) × (limits_at ids.1 ≡ Some limits) }
    requires pages { pages ≡ (1 + 32 * outputs, page_count - 1 - 32 * outputs) }
    ensures { result ≡ record {
      next = Some 1;
      security = security_at ids.1;
      limits = limits_at ids.1;
    } }
{
    let mut pages = pages;
    skip(&mut pages, 32 * (64 - outputs));
    SourceIds::new(IdPage::new(ids), pages)
}

/// The relay of these parts, with the pages of a run in which nothing happened yet.
fn relay_of<J: Run, R: Net + Files<File = File> + AllocGlobal>(
    rt: &R,
    pages: RunPages<J>,
    address: Address,
    random: &RandomStreams,
    parts: SetParts,
) -> Result<Loop<J>, StartFault>
    requires each { length parts.hops.items ≡ length parts.config.outputs }
    requires few { length parts.config.outputs ≤ 64 }
    requires workers { All (λ c. c.workers ≤ 30) parts.config.outputs }
    requires pages { pages ≡ (0, page_count) }
    ensures { IfOk result (λ relay. relay ≡ record {
      outputs = all_made_of (map parts_known parts.config.outputs) parts.hops.items;
      routes = parts.config.routes;
    }) }
{
    let alloc = rt.alloc();
    let SetParts { config, hops } = parts;
    let mut pages = pages;
    let mut ids = pages.take();
    let reached = open_run(&mut ids, &config);
    let Config {
        run: id,
        routes,
        security,
        limits,
        outputs,
    } = config;
    let mut run = RunOrigin {
        random,
        id,
        pages,
        reached: reached.again(),
    };
    let count = outputs.len();
    let none = WorkerPools::new(alloc, address.readers);
    let pools = pools_of(rt, none, &mut run, outputs.into_vec(), hops)?;
    let RunOrigin { pages, .. } = run;
    let setup = SourceSetup {
        security: Arc::new(alloc, security)?,
        limits,
        nonces: random.nonces(),
        ids: source_ids(ids, pages, count),
    };
    let front = front_loop(rt, alloc, address, setup)?;
    let routed = Routed { routes, reached };
    loop_of(rt, front, pools, address, routed)
}

/// Asks for a large piece of memory, and gives it back.
fn take_large_piece(alloc: Global) {
    let _ = Vec::<u8>::with_capacity(alloc, LARGEST_KEPT);
}

impl<J: Run + Send + Sync> Loop<J> {
    /// Opens the listeners that the settings name, draws the run's id where they name none, and
    /// makes the outputs and their workers. No thread runs yet. What the outputs do is told in the
    /// history that it is given, in proofs alone.
    ///
    /// It fails with `Listen` where an address cannot be listened at, with `Control` where the
    /// control socket cannot be had, with `Poll` where the system has nothing to wait with, with
    /// `Seed` where the settings have no seed and the system gives no random bytes, and with
    /// `Memory`.
    pub fn new<R: Net + Files<File = File> + AllocGlobal>(
        rt: &R,
        opened: OpenedRun,
        settings: Settings,
    ) -> Result<Loop<J>, StartFault>
        requires range { in_range settings ≡ true }
        requires book { opened.book ≡ J.book }
        requires pages { opened.pages ≡ page_count }
        ensures { IfOk result (λ relay. relay ≡ relay_by settings) }
    {
        let control = control_path_of(&settings);
        let relay = Loop::without_control(rt, opened.named(), settings)?;
        match control {
            Some(path) => relay.with_control(rt, path),
            None => Ok(relay),
        }
    }

    /// The same relay, which can be asked to stop over a socket of this path.
    fn with_control<R: Net + Files<File = File>>(
        self,
        rt: &R,
        path: SocketPath,
    ) -> Result<Loop<J>, StartFault>
        ensures { IfOk result (λ relay. relay ≡ self) }
    {
        let mut relay = self;
        relay.own.front.event_loop.listen_control(rt, path)?;
        Ok(relay)
    }

    /// The same relay, whose metrics page names the match patterns of its outputs so.
    pub fn with_patterns(self, patterns: Vec<Text>) -> Self
        ensures { result ≡ self }
    {
        let mut relay = self;
        relay.shared.tally.patterns = patterns;
        relay
    }

    /// The relay of these settings, which cannot be asked to stop.
    fn without_control<R: Net + Files<File = File> + AllocGlobal>(
        rt: &R,
        pages: RunPages<J>,
        settings: Settings,
    ) -> Result<Loop<J>, StartFault>
        requires range { in_range settings ≡ true }
        requires pages { pages ≡ (0, page_count) }
        ensures { IfOk result (λ relay. relay ≡ relay_by settings) }
    {
        let alloc = rt.alloc();
        take_large_piece(alloc);
        let address = address_of(rt, &settings);
        let random = RandomStreams::new(rt, settings.relay.seed)?;
        let id = run_id_of(settings.relay.run_id, &random);
        let parts = parts_of(alloc, settings, id)?;
        relay_of(rt, pages, address, &random, parts)
    }

    /// Opens the relay, so that its turns are made one by one, and its workers are run beside them
    /// or not at all. The only error is out of memory. Tickets must be spent, so they lie in what
    /// this opens, which is closed; a `Loop` may still be dropped.
    pub fn open<'a, R: Wait + Clock>(
        &'a mut self,
        rt: &'a R,
    ) -> Result<Opened<'a, J, R>, StartFault> {
        open(rt, self.alloc, &self.shared, &mut self.own)
    }

    /// Runs the reader in front for so many turns in this thread, and each other reader and each
    /// worker for as many in a thread of its own, and answers what each output has to do with once
    /// all have ended, in the settings' order, and the history of the run, behind which that is so.
    /// Whoever still waits for an acknowledgement by then is told, if its request's entries are
    /// settled.
    ///
    /// It fails with `Thread` where the thread of a reader or worker cannot be had, with `Poll`
    /// where a wait failed, and with `Memory`. All threads that were started have ended then, too.
    pub fn run<R: Platform>(self, rt: &R, turns: u64) -> Result<Outcome<J>, StartFault>
        ensures count { IfOk result (λ o. length o.reports.items ≡ length self.outputs) }
        ensures add_up { IfOk result (λ o. AddUp o.reports.items) }
        ensures reached { IfOk result (λ o. AreReportsAfter o.reached o.reports.items) }
    {
        self.run_watched(rt, &mut (), turns)
    }

    /// The same, and an observer is told what the run comes to.
    pub fn run_watched<R: Platform, W: Observer>(
        self,
        rt: &R,
        observer: &mut W,
        count: u64,
    ) -> Result<Outcome<J>, StartFault>
        ensures count { IfOk result (λ o. length o.reports.items ≡ length self.outputs) }
        ensures add_up { IfOk result (λ o. AddUp o.reports.items) }
        ensures reached { IfOk result (λ o. AreReportsAfter o.reached o.reports.items) }
    {
        let Ended {
            outcome,
            control: _,
            file: _,
        } = self.run_apart(rt, observer, count);
        outcome
    }

    /// The same, but that it ends sooner where it is asked to stop: once all is delivered and told,
    /// or the time is over. Whoever asked is told what came of it, and the files of its sockets are
    /// removed.
    pub fn run_to_end<R: Platform + Files<File = File>, W: Observer>(
        self,
        rt: &R,
        observer: &mut W,
        count: u64,
    ) -> Result<Outcome<J>, StartFault>
        ensures count { IfOk result (λ o. length o.reports.items ≡ length self.outputs) }
        ensures add_up { IfOk result (λ o. AddUp o.reports.items) }
        ensures reached { IfOk result (λ o. AreReportsAfter o.reached o.reports.items) }
        ensures delivered { IfOk result (λ o. o.ending ≡ Ending.Delivered
            → All (λ report. report.counts.held ≡ 0) o.reports.items) }
        ensures read_out { IfOk result (λ o. o.ending ≡ Ending.Delivered
            → (last : DrainSeen) × ((o.seen ≡ Some last) × IsReadOut last)) }
        ensures emptied { IfOk result (λ o. o.ending ≡ Ending.Delivered
            → AreEmptied o.reached o.reports.items) }
    {
        let Ended {
            outcome,
            control,
            file,
        } = self.run_apart(rt, observer, count);
        if let Some(file) = file {
            remove_socket(rt, file);
        }
        if let Some(control) = control {
            let answer = match &outcome {
                Ok(outcome) => Some(outcome.answer()),
                Err(_) => None,
            };
            control.close(rt, answer);
        }
        outcome
    }

    /// The same, and it hands on who asked it to stop, and is not told yet.
    #[tactic(auto, using(crate::proofs::Outputs::shown_count))]
    fn run_apart<R: Platform, W: Observer>(self, rt: &R, observer: &mut W, count: u64) -> Ended<J>
        ensures count { IfOk result.outcome (λ o. length o.reports.items ≡ length self.outputs) }
        ensures add_up { IfOk result.outcome (λ o. AddUp o.reports.items) }
        ensures reached { IfOk result.outcome (λ o. AreReportsAfter o.reached o.reports.items) }
        ensures delivered { IfOk result.outcome (λ o. o.ending ≡ Ending.Delivered
            → All (λ report. report.counts.held ≡ 0) o.reports.items) }
        ensures read_out { IfOk result.outcome (λ o. o.ending ≡ Ending.Delivered
            → (last : DrainSeen) × ((o.seen ≡ Some last) × IsReadOut last)) }
        ensures emptied { IfOk result.outcome (λ o. o.ending ≡ Ending.Delivered
            → AreEmptied o.reached o.reports.items) }
    {
        let Loop {
            alloc,
            shared,
            mut own,
        } = self;
        let ran = run_parts(rt, &shared, &mut own, observer, count);
        let unsent = own.give_up(unasked_in(rt, &shared.outputs));
        let (outputs, reached) = shared.into_outputs();
        let outcome = match ran {
            Ok(seen) => outcome_of(alloc, outputs, &reached, seen, unsent),
            Err(fault) => Err(fault),
        };
        let control = own.front.event_loop.take_control();
        let file = own.front.event_loop.source_file();
        Ended {
            outcome,
            control,
            file,
        }
    }
}

/// What a run over these outputs came to, of which this was seen in the end where it was asked to
/// stop, which did not admit some requests, and which had reached a history before. The only error
/// is out of memory.
fn outcome_of<J: Run>(
    alloc: Global,
    outputs: Vec<Output<J>>,
    reached: &ReachedHistory<J>,
    seen: Option<DrainSeen>,
    unsent: UnsentRequests,
) -> Result<Outcome<J>, StartFault>
    ensures count { IfOk result (λ o. length o.reports.items ≡ length outputs.items) }
    ensures add_up { IfOk result (λ o. AddUp o.reports.items) }
    ensures reached { IfOk result (λ o. AreReportsAfter o.reached o.reports.items) }
    ensures delivered { IfOk result (λ o. o.ending ≡ Ending.Delivered
        → All (λ report. report.counts.held ≡ 0) o.reports.items) }
    ensures read_out { IfOk result (λ o. o.ending ≡ Ending.Delivered
        → (last : DrainSeen) × ((o.seen ≡ Some last) × IsReadOut last)) }
    ensures emptied { IfOk result (λ o. o.ending ≡ Ending.Delivered
        → AreEmptied o.reached o.reports.items) }
{
    Ok(Outcome::of(alloc, outputs, reached, seen, unsent)?)
}
