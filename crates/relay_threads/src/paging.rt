//! A run with one output that takes requests, before the first of them: the output with its page,
//! its workers, and where its sources come from.

ghost use Rattle.std.specs.Prelude.{◌≡◌, ◌+◌, ◌-◌, ◌<◌, ◌≤◌, length, vec_len, IfOk};
ghost use Rattle.std.specs.Arc.{arc_value};
ghost use Rattle.fwd_model.specs.declared.config.OutputConfig.{OutputConfig};
ghost use Rattle.fwd_model.specs.Names.{Output, Session};
ghost use Rattle.fwd_run.specs.Pages.{IsNew, page_count, with_trial};
ghost use Rattle.fwd_run.specs.Runs.{key_of};

use crate::batches::shared;
use crate::idle_worker::IdleWorker;
use crate::output_plan::OutputPlan;
use crate::test_source::Sources;
use anyhow::{Result, bail};
use fwd_base::{Bytes, Seq};
use fwd_handshake::{Login, Security};
use fwd_history::Run;
use fwd_match::{Pattern, Routes};
use fwd_model::{AckTerms, Config, OutputConfig};
use fwd_msgpack::Limits;
use fwd_output::{Locked, OutputSetup, PagedOutput, SharedOutput, Tally};
use fwd_run::{IdPage, OpenedRun, ReachedHistory, RunPages, SourceIds, WorkerPage, open_run, skip};
use fwd_workers::SessionTerms;
use std::alloc::Global;
use std::mem;
use std::sync::Arc;

/// How many pages an output has, with those of its workers.
const ROW: usize = 32;

/// How many outputs have pages in a run.
const OUTPUTS: usize = 64;

/// The most workers of an output.
const MOST_WORKERS: u16 = 30;

/// A run that has begun.
#[derive(Drop)]
pub struct Begun<J: Run> {
    alloc: Global,
    output: PagedOutput<J>,
    /// By rising numbers.
    workers: Vec<IdleWorker<J>>,
    pub sources: Sources<J>,
    ghost none: { (output.buffer.accepted ≡ 0) × (output.buffer.settled ≡ 0) },
}

impl<J: Run> Begun<J> {
    /// The last of its workers that was not asked for yet.
    pub fn worker(&mut self) -> Result<IdleWorker<J>> {
        match self.workers.pop() {
            Some(worker) => Ok(worker),
            None => bail!("there is no worker"),
        }
    }

    /// The last two of them, by rising numbers.
    pub fn two_workers(&mut self) -> Result<(IdleWorker<J>, IdleWorker<J>)> {
        let second = self.worker()?;
        Ok((self.worker()?, second))
    }

    /// All of them, by rising numbers.
    pub fn all_workers(&mut self) -> Vec<IdleWorker<J>> {
        mem::replace(&mut self.workers, Vec::new(self.alloc))
    }

    /// The output, which threads share from now on, with counters at 0.
    pub fn shared<A: Tally<Run = J>, S: Tally>(self, accepted: A, settled: S) -> SharedOutput<A, S>
        requires { (A.total accepted ≡ 0) × (S.total settled ≡ 0) }
    {
        let Begun {
            alloc,
            output,
            workers: _,
            sources: _,
        } = self;
        SharedOutput::new(Locked::new(alloc, output, accepted, settled))
    }
}

/// The output, and its workers.
#[derive(Drop)]
struct Parts<J: Run> {
    output: PagedOutput<J>,
    workers: Vec<IdleWorker<J>>,
    ghost none: { (output.buffer.accepted ≡ 0) × (output.buffer.settled ≡ 0) },
}

/// An output's place in a run that begins: its number, the bytes that its chunks have, and the
/// history of the run.
#[derive(Drop)]
struct OutputPlace<J: Run> {
    number: u16,
    run: [u8; 6],
    reached: ReachedHistory<J>,
}

/// What an output's workers share.
#[derive(Drop)]
struct Pool {
    number: u16,
    workers: u16,
    servers: u16,
    login: Arc<Login>,
    acks: AckTerms,
}

/// What an output of a plan is set to.
fn config_for(alloc: Global, plan: OutputPlan) -> Result<OutputConfig> {
    Ok(OutputConfig {
        workers: plan.workers,
        standby: Seq::from_slice(alloc, plan.servers.standby())?,
        limits: plan.limits(),
        acks: plan.acks(),
        login: plan.login(alloc)?,
    })
}

/// What the outputs of a run are set to whose last one has this plan.
fn configs_of(alloc: Global, plan: OutputPlan) -> Result<Vec<OutputConfig>>
    ensures { IfOk result (λ configs. length configs.items ≤ 2) }
{
    let own = config_for(alloc, plan)?;
    if !plan.is_second {
        return Ok(vec![in alloc; own]?);
    }
    let first = config_for(alloc, plan)?;
    Ok(vec![in alloc; first, own]?)
}

/// A pattern, if there is memory for it.
fn pattern(alloc: Global, text: &str) -> Result<Pattern> {
    match Pattern::read(alloc, text) {
        Ok(pattern) => Ok(pattern),
        Err(_) => bail!("no pattern"),
    }
}

/// Requests of all tags go to the output of this plan.
fn routes_of(alloc: Global, plan: OutputPlan) -> Result<Routes> {
    let own = pattern(alloc, "**")?;
    if !plan.is_second {
        return Ok(Routes::new(vec![in alloc; own]?));
    }
    let first = pattern(alloc, "none")?;
    Ok(Routes::new(vec![in alloc; first, own]?))
}

/// What a run is set to whose last output has this plan.
fn config_of(alloc: Global, plan: OutputPlan) -> Result<Config>
    ensures { IfOk result (λ config. length config.outputs ≤ 2) }
{
    let outputs = configs_of(alloc, plan)?;
    Ok(Config {
        run: [0; 6],
        routes: routes_of(alloc, plan)?,
        security: Security {
            hostname: Bytes::new(alloc),
            shared_key: None,
            users: Seq::new(alloc),
        },
        limits: Limits::WIDEST,
        outputs: Seq::from_vec(outputs),
    })
}

/// The workers of an output that begins.
fn workers_of<J: Run>(
    alloc: Global,
    pages: &mut RunPages<J>,
    place: &OutputPlace<J>,
    pool: &Pool,
) -> Result<Vec<IdleWorker<J>>>
    requires pages { pages.old.0 ≡ key_of (Session pool.now.number 0) }
    requires left { pool.now.workers ≤ pages.old.1 }
    requires here { place.now.number ≡ pool.now.number }
    requires begun { (config : OutputConfig)
        × IsNew place.now.reached place.now.run pool.now.number (with_trial config)
        × (pool.now.workers ≡ config.workers) × (pool.now.servers ≡ length config.standby)
        × (arc_value pool.now.login ≡ config.login) × (pool.now.acks ≡ config.acks) }
    ensures pages { IfOk result (λ workers. pages.new
        ≡ (pages.old.0 + pool.now.workers, pages.old.1 - pool.now.workers)) }
    ensures count { IfOk result (λ workers. vec_len workers ≡ pool.now.workers) }
{
    let mut workers = Vec::new(alloc);
    for number in 0..pool.workers {
        let page = pages.take();
        let page = WorkerPage::new(page, &place.reached, pool.number, number);
        let terms = SessionTerms {
            login: Arc::try_clone(&pool.login)?,
            acks: pool.acks,
            servers: pool.servers,
        };
        workers.push(IdleWorker::new(page, terms))?;
    }
    Ok(workers)
}

/// The output that is set so, with its workers. Its pages are the next ones.
fn parts_of<J: Run>(
    alloc: Global,
    pages: &mut RunPages<J>,
    place: &OutputPlace<J>,
    config: OutputConfig,
) -> Result<Parts<J>>
    requires number { place.now.number < OUTPUTS }
    requires pages { pages.old.0 ≡ key_of (Output place.now.number) }
    requires left { ROW ≤ pages.old.1 }
    requires few { config.workers ≤ MOST_WORKERS }
    requires begun { IsNew place.now.reached place.now.run place.now.number (with_trial config) }
    ensures pages { IfOk result (λ parts. pages.new ≡ (pages.old.0 + ROW, pages.old.1 - ROW)) }
    ensures count { IfOk result (λ parts. vec_len parts.workers ≡ config.workers) }
{
    let OutputConfig {
        workers: count,
        standby,
        limits,
        acks,
        login,
    } = config;
    let page = pages.take();
    let pool = Pool {
        number: place.number,
        workers: count,
        servers: standby.len() as u16,
        login: shared(alloc, login)?,
        acks,
    };
    let workers = workers_of(alloc, pages, place, &pool)?;
    let trial = WorkerPage::new(pages.take(), &place.reached, place.number, count);
    skip(pages, ROW - 2 - count as usize);
    let setup = OutputSetup {
        limits,
        run: place.run,
        output: place.number,
        standby: standby.as_slice(),
    };
    let output = PagedOutput::new(alloc, page, trial, &place.reached, setup)?;
    Ok(Parts { output, workers })
}

/// A run begins whose last output has this plan.
pub fn begin<J: Run>(alloc: Global, opened: OpenedRun, plan: OutputPlan) -> Result<Begun<J>>
    requires book { opened.book ≡ J.book }
    requires pages { opened.pages ≡ page_count }
{
    let config = config_of(alloc, plan)?;
    let mut pages = opened.named::<J>();
    let mut ids = pages.take();
    let reached = open_run(&mut ids, &config);
    let Config {
        run,
        routes,
        security,
        limits,
        outputs,
    } = config;
    let mut outputs = outputs.into_vec();
    let Some(own) = outputs.pop() else {
        bail!("no output");
    };
    if own.workers > MOST_WORKERS {
        bail!("too many workers");
    }
    let others = outputs.len();
    skip(&mut pages, ROW * others);
    let place = OutputPlace {
        number: others as u16,
        run,
        reached: reached.again(),
    };
    let Parts { output, workers } = parts_of(alloc, &mut pages, &place, own)?;
    skip(&mut pages, ROW * (OUTPUTS - 1 - others));
    let ids = SourceIds::new(IdPage::new(ids), pages);
    let security = shared(alloc, security)?;
    let routes = shared(alloc, routes)?;
    Ok(Begun {
        alloc,
        output,
        workers,
        sources: Sources::new(alloc, ids, security, (routes, reached), limits),
    })
}
