//! The outputs and their workers, before the first turn.

ghost use Rattle.std.specs.Prelude.{
  ◌≡◌,
  ◌<◌,
  ◌≤◌,
  ◌+◌,
  ◌-◌,
  ◌*◌,
  ◌++◌,
  ℕ,
  List,
  [],
  ◌∷◌,
  Some,
  true,
  length,
  map,
  not,
  replicate,
  slice_get,
  IfOk,
  OnOk,
};
ghost use Rattle.std.specs.List.{list_any};
ghost use Rattle.fwd_model.specs.declared.config.OutputConfig.{OutputConfig};
ghost use Rattle.fwd_model.specs.Names as part;
ghost use Rattle.fwd_output.specs.Paged.{IsTrial};
ghost use Rattle.fwd_run.specs.Pages.{IsNew, with_trial};
ghost use Rattle.fwd_run.specs.Runs.{key_of};
ghost use Rattle.fwd_config.specs.Configs.{parts_known};
ghost use Rattle.fwd_pools.specs.Pools.{IsPoolOf, all_made_of, locked_by, made_of, shown, threads_of};

use crate::next_hops::NextHop;
use crate::random_streams::RandomStreams;
use crate::worker_thread::WorkerThread;
use fwd_chunks::BufferLimits;
use fwd_handshake::Login;
use fwd_history::Run;
use fwd_links::WorkerWaker;
use fwd_model::{AckTerms, OutputConfig};
use fwd_monitors::StartFault;
use fwd_output::{Locked, OutputSetup, PagedOutput, Plain, ServerOrder, SharedOutput};
use fwd_reader::{FlushTimer, Output, SharedAdmission, Subscribers};
use fwd_run::{ReachedHistory, RunPage, RunPages, WorkerPage, skip};
use fwd_workers::{PlacedWorker, SessionTerms};
use std::alloc::{AllocError, Global};
use std::net::Net;
use std::sync::Arc;

/// The outputs, how long the chunks of each wait for more entries, and all workers.
#[derive(Drop)]
pub struct WorkerPools<J: Run> {
    pub alloc: Global,
    pub outputs: Vec<Output<J>>,
    /// In milliseconds.
    pub intervals: Vec<u64>,
    /// How many readers there are.
    readers: usize,
    pub workers: Vec<WorkerThread<J>>,
}

/// How many pages an output has, with those of its workers.
const ROW: usize = 32;

/// What a run has of its own: where its random bytes come from, the bytes that its chunks have, the
/// pages of its parts that nobody has yet, and its history.
#[derive(Drop)]
pub struct RunOrigin<'a, J: Run> {
    pub random: &'a RandomStreams,
    pub id: [u8; 6],
    pub pages: RunPages<J>,
    pub reached: ReachedHistory<J>,
}

/// What an output's workers share.
#[derive(Drop)]
struct Pool {
    number: u16,
    workers: u16,
    servers: u16,
    login: Arc<Login>,
    acks: AckTerms,
}

/// An output that begins: its own page, that of the worker by which servers are lost that could not
/// be reached, the history of the run, the bytes that its chunks have, its number, and its limits.
#[derive(Drop)]
struct Beginning<'a, J: Run> {
    page: RunPage<J>,
    trial: WorkerPage<J>,
    reached: &'a ReachedHistory<J>,
    run: [u8; 6],
    number: u16,
    limits: BufferLimits,
}

/// What lies under the lock of an output that begins, of whose servers these are standbys, before
/// any request. The only error is out of memory.
fn locked_of<J: Run>(
    alloc: Global,
    begins: Beginning<'_, J>,
    standby: &[bool],
) -> Result<Locked<Plain<J>, Plain<J>>, AllocError>
    requires page { (begins.page.0 ≡ key_of (part.Output begins.number)) × (begins.page.1 ≡ []) }
    requires number { begins.number < 64 }
    requires begun { (config : OutputConfig) × (config.standby ≡ standby.now)
        × (config.limits ≡ begins.limits)
        × IsNew begins.reached.now begins.run begins.number (with_trial config) }
    requires trial { IsTrial begins.trial begins.number (length standby.now) }
    requires few { length standby.now ≤ 16 }
    requires has_primary { list_any not standby.now ≡ true }
    ensures { let b = begins.entry in IfOk result (λ locked. locked
        ≡ locked_by b.limits standby.now b.run b.number) }
{
    let Beginning {
        page,
        trial,
        reached,
        run,
        number,
        limits,
    } = begins;
    let setup = OutputSetup {
        limits,
        run,
        output: number,
        standby,
    };
    let output = PagedOutput::new(alloc, page, trial, reached, setup)?;
    let order = ServerOrder::new(alloc, standby, limits.retry_wait, limits.retry_max)?;
    Ok(Locked::new(alloc, output, Plain::new(0), Plain::new(0)).with_order(order))
}

impl<J: Run> WorkerPools<J> {
    /// None, for so many readers.
    pub fn new(alloc: Global, readers: usize) -> WorkerPools<J>
        ensures outputs { result.outputs.items ≡ [] }
        ensures intervals { result.intervals.items ≡ [] }
        ensures workers { result.workers.items ≡ [] }
    {
        WorkerPools {
            alloc,
            outputs: Vec::new(alloc),
            intervals: Vec::new(alloc),
            readers,
            workers: Vec::new(alloc),
        }
    }

    /// The output of this number, with its workers.
    fn add<R: Net>(
        &mut self,
        rt: &R,
        run: &mut RunOrigin<'_, J>,
        number: u16,
        config: OutputConfig,
        next: NextHop,
    ) -> Result<(), StartFault>
        requires number { number < 64 }
        requires pages { run.old.pages.0 ≡ key_of (part.Output number) }
        requires left { ROW ≤ run.old.pages.1 }
        requires few { config.workers ≤ 30 }
        requires begun { IsNew run.old.reached run.old.id number (with_trial config) }
        ensures run { OnOk result (run.new ≡ record run.old {
          pages = (run.old.pages.0 + ROW, run.old.pages.1 - ROW);
        }) }
        ensures count { OnOk result
            (length self.new.outputs.items ≡ length self.old.outputs.items + 1) }
        // It is made of its own configuration and its own next hop, behind those that are there.
        ensures made { OnOk result (map shown self.new.outputs.items
            ≡ map shown self.old.outputs.items ++ made_of (parts_known config) next ∷ []) }
        // Its own workers are there for it, behind those that are there.
        ensures workers { OnOk result (self.new.workers.items
            ≡ self.old.workers.items ++ replicate config.workers number) }
        ensures intervals { OnOk result (self.new.intervals.items
            ≡ self.old.intervals.items ++ config.limits.interval ∷ []) }
    {
        let limits = config.limits;
        let (shared, wakers) = self.open(rt, run, number, config)?;
        let NextHop {
            servers,
            waits_when_full,
        } = next;
        self.outputs.push(Output {
            shared,
            servers,
            wakers,
            total: limits.total,
            chunk: u64::from(limits.chunk),
            waits_when_full,
            subscribers: Subscribers::new(self.alloc, self.readers)?,
            admission: SharedAdmission::new(self.alloc),
        })?;
        self.intervals.push(limits.interval)?;
        Ok(())
    }

    /// The output of this number under its lock, and what calls its workers.
    fn open<R: Net>(
        &mut self,
        rt: &R,
        run: &mut RunOrigin<'_, J>,
        number: u16,
        config: OutputConfig,
    ) -> Result<(SharedOutput<Plain<J>, Plain<J>>, Vec<WorkerWaker>), StartFault>
        requires number { number < 64 }
        requires pages { run.old.pages.0 ≡ key_of (part.Output number) }
        requires left { ROW ≤ run.old.pages.1 }
        requires few { config.workers ≤ 30 }
        requires begun { IsNew run.old.reached run.old.id number (with_trial config) }
        ensures outputs { self.new.outputs ≡ self.old.outputs }
        ensures intervals { self.new.intervals ≡ self.old.intervals }
        ensures run { OnOk result (run.new ≡ record run.old {
          pages = (run.old.pages.0 + ROW, run.old.pages.1 - ROW);
        }) }
        ensures count { IfOk result (λ p. length p.1.items ≡ config.workers) }
        ensures workers { OnOk result (self.new.workers.items
            ≡ self.old.workers.items ++ replicate config.workers number) }
    {
        let OutputConfig {
            workers,
            standby,
            limits,
            acks,
            login,
        } = config;
        let page = run.pages.take();
        let pool = Pool {
            number,
            workers,
            servers: standby.len() as u16,
            login: Arc::new(self.alloc, login)?,
            acks,
        };
        let wakers = self.add_workers(rt, run, &pool)?;
        let trial = run.pages.take();
        let begins = Beginning {
            page,
            trial: WorkerPage::new(trial, &run.reached, number, workers),
            reached: &run.reached,
            run: run.id,
            number,
            limits,
        };
        let locked = locked_of(self.alloc, begins, standby.as_slice())?;
        skip(&mut run.pages, ROW - 2 - workers as usize);
        Ok((SharedOutput::new(locked), wakers))
    }

    /// The timers of the outputs' flushes, for one reader. The only error is out of memory.
    pub fn timers(&self) -> Result<Vec<FlushTimer>, AllocError> {
        let mut timers = Vec::with_capacity(self.alloc, self.intervals.len())?;
        for interval in &self.intervals {
            timers.push(FlushTimer::new(*interval))?;
        }
        Ok(timers)
    }

    /// The workers of an output that begins, and what calls them.
    fn add_workers<R: Net>(
        &mut self,
        rt: &R,
        run: &mut RunOrigin<'_, J>,
        pool: &Pool,
    ) -> Result<Vec<WorkerWaker>, StartFault>
        requires pages { run.old.pages.0 ≡ key_of (part.Session pool.now.number 0) }
        requires left { pool.now.workers ≤ run.old.pages.1 }
        requires begun { (config : OutputConfig)
            × IsNew run.old.reached run.old.id pool.now.number (with_trial config)
            × IsPoolOf config pool.now }
        ensures outputs { self.new.outputs ≡ self.old.outputs }
        ensures intervals { self.new.intervals ≡ self.old.intervals }
        ensures run { OnOk result (run.new ≡ record run.old {
          pages = (run.old.pages.0 + pool.now.workers, run.old.pages.1 - pool.now.workers);
        }) }
        ensures count { IfOk result (λ wakers. length wakers.items ≡ pool.now.workers) }
        ensures workers { OnOk result (self.new.workers.items
            ≡ self.old.workers.items ++ replicate pool.now.workers pool.now.number) }
    {
        let mut wakers = Vec::new(self.alloc);
        for number in 0..pool.workers {
            let page = run.pages.take();
            let page = WorkerPage::new(page, &run.reached, pool.number, number);
            let terms = SessionTerms {
                login: Arc::try_clone(&pool.login)?,
                acks: pool.acks,
                servers: pool.servers,
            };
            let salts = run.random.salts(pool.number, number);
            let worker = PlacedWorker::new(self.alloc, page, terms, salts);
            let (thread, waker) = WorkerThread::new(rt, self.alloc, pool.number, worker)?;
            self.workers.push(thread)?;
            wakers.push(waker)?;
        }
        Ok(wakers)
    }
}

/// The outputs with their next hops and workers.
pub fn pools_of<J: Run, R: Net>(
    rt: &R,
    mut pools: WorkerPools<J>,
    run: &mut RunOrigin<'_, J>,
    configs: Vec<OutputConfig>,
    hops: Vec<NextHop>,
) -> Result<WorkerPools<J>, StartFault>
    requires none { pools.outputs.items ≡ [] }
    requires idle { pools.workers.items ≡ [] }
    requires pages { (run.old.pages.0 ≡ key_of (part.Output 0))
        × (ROW * length configs.items ≤ run.old.pages.1) }
    requires begun { (o : ℕ) (config : OutputConfig) → slice_get configs.items o ≡ Some config
        → IsNew run.old.reached run.old.id o (with_trial config) × (config.workers ≤ 30) }
    requires each { length hops.items ≡ length configs.items }
    requires few { length configs.items ≤ 64 }
    ensures run { OnOk result (run.new ≡ record run.old {
      pages = (
        run.old.pages.0 + ROW * length configs.items,
        run.old.pages.1 - ROW * length configs.items,
      );
    }) }
    ensures count { IfOk result (λ pools. length pools.outputs.items ≡ length configs.items) }
    ensures made { IfOk result (λ pools. map shown pools.outputs.items
        ≡ all_made_of (map parts_known configs.items) hops.items) }
    // Each output has workers of its own, as many as its settings say.
    ensures workers { IfOk result (λ pools. pools.workers.items
        ≡ threads_of 0 (map parts_known configs.items)) }
{
    let mut hops = hops.into_iter();
    for config in configs {
        let Some(next) = hops.next() else {
            unreachable!();
        };
        let number = pools.outputs.len() as u16;
        pools.add(rt, run, number, config, next)?;
    }
    Ok(pools)
}
