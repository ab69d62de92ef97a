//! The outputs, as threads share them.

ghost use Rattle.std.specs.Prelude.{◌≡◌, ◌≤◌, ℕ, true, length, map, All, IfOk};
ghost use Rattle.fwd_history.specs.Histories.{Comes};
ghost use Rattle.fwd_peers.specs.Peers as peers;
ghost use Rattle.fwd_reader.specs.Ages.{age_at};
ghost use Rattle.fwd_reader.specs.Ends.{AddUp, AreReportsAfter, IsLast};

use crate::admission::SharedAdmission;
use crate::subscribers::Subscribers;
use fwd_base::Text;
use fwd_chunks::{FlushKind, Report};
use fwd_history::Run;
use fwd_links::WorkerWaker;
use fwd_monitor::OutputFigures;
use fwd_output::{Plain, SharedOutput};
use fwd_peers::CloseReason;
use fwd_run::{EndedPage, ReachedHistory};
use std::alloc::{AllocError, Global};
use std::net::SocketAddr;
use std::sync::Wait;

/// How long no further worker is woken for chunks that are due while one of the output's workers has
/// a chunk that is not acknowledged, in milliseconds. After that one is settled they are taken at
/// once. Many small chunks side by side cost more than they bring.
const GATHERING: u64 = 1;

/// An output that threads share, where its servers are reached, and what wakes its workers.
#[derive(Drop)]
pub struct Output<J: Run> {
    pub shared: SharedOutput<Plain<J>, Plain<J>>,
    pub servers: Vec<SocketAddr>,
    pub wakers: Vec<WorkerWaker>,
    /// The most bytes of entries that it holds.
    pub total: u64,
    /// The most bytes of entries of a chunk.
    pub chunk: u64,
    /// Sources wait where it is full, and are not closed.
    pub waits_when_full: bool,
    /// Which readers are to hear of its settled chunks.
    pub subscribers: Subscribers,
    /// Who may enter, and who waits.
    pub admission: SharedAdmission,
}

/// Why a source is closed, whose request has so many bytes, at one of these outputs.
pub(crate) fn sized<J: Run>(outputs: &[Output<J>], why: CloseReason, bytes: u64) -> CloseReason
    ensures { (limit : ℕ) × (result ≡ peers.sized why bytes limit) }
{
    let CloseReason::Refused(output, _) = why else {
        return why;
    };
    match outputs.get(output as usize) {
        None => why,
        Some(own) => why.sized(bytes, own.total),
    }
}

impl<J: Run> Output<J> {
    /// Whether it has no entries.
    pub fn is_empty<R: Wait>(&self, rt: &R) -> bool {
        self.shared.counts(rt).held == 0
    }

    /// Whether a chunk may have been closed by its size: the output holds more bytes of entries
    /// than a chunk has at most.
    pub(crate) fn has_more_than_a_chunk<R: Wait>(&self, rt: &R) -> bool {
        self.shared.counts(rt).bytes > self.chunk
    }

    /// Whether there are several readers.
    pub(crate) fn has_several_readers(&self) -> bool {
        self.subscribers.has_several()
    }

    /// Whether one of the output's workers looks for a chunk.
    pub fn is_awaited(&self) -> bool {
        self.wakers.iter().any(|waker| waker.is_awaited())
    }

    /// For how long a worker that looks for a chunk is not woken for those that are due, in
    /// milliseconds: `GATHERING` while another one is at work, and else not at all.
    pub(crate) fn gathers(&self) -> u64
        ensures { result ≤ GATHERING }
    {
        if self.wakers.iter().any(|waker| waker.is_busy()) {
            GATHERING
        } else {
            0
        }
    }

    /// Which open chunks may be closed for a worker: all, if the relay drains or sources wait here,
    /// since only what is sent makes room, and is answered; and else those that are due.
    pub fn closes(&self, is_draining: bool) -> FlushKind
        ensures draining { is_draining ≡ true → result ≡ FlushKind.All }
    {
        if is_draining || self.admission.waiting_sources() > 0 {
            FlushKind::All
        } else {
            FlushKind::Due
        }
    }

    /// Whether a worker could send a chunk at a moment (milliseconds).
    pub fn has_chunk<R: Wait>(&self, rt: &R, now: u64, is_draining: bool) -> bool {
        self.shared.has_chunk(rt, now, self.closes(is_draining))
    }

    /// Wakes a worker of the output that looks for a chunk, if one does.
    pub fn wake(&self) {
        let _ = self.wakers.iter().any(|waker| waker.wake());
    }
}

/// How many whole seconds ago something was that began at a moment (both in milliseconds), and 0
/// where there is no such thing.
fn age_at(now: u64, since: Option<u64>) -> u64
    ensures { result ≡ age_at now since }
{
    match since {
        None => 0,
        Some(since) => now.saturating_sub(since) / 1_000,
    }
}

/// The most bytes of entries that each output holds, how old its oldest chunk is at a moment
/// (milliseconds), and what waits there, in their order, without their patterns. Each is locked by
/// itself for a moment. The only error is out of memory.
pub(crate) fn figures_of<J: Run, R: Wait>(
    rt: &R,
    alloc: Global,
    outputs: &[Output<J>],
    now: u64,
) -> Result<Vec<OutputFigures>, AllocError>
    ensures { IfOk result (λ figures. map (λ f. f.total_limit) figures.items
        ≡ map (λ output. output.total) outputs.now) }
{
    let mut figures = Vec::with_capacity(alloc, outputs.len())?;
    for output in outputs {
        figures.push(OutputFigures {
            pattern: Text::from_string(String::new(alloc)),
            total_limit: output.total,
            oldest_age: age_at(now, output.shared.oldest(rt)),
            waiting_sources: output.admission.waiting_sources(),
            waiting_bytes: output.admission.waiting_bytes(),
        })?;
    }
    Ok(figures)
}

/// How many entries these outputs hold of requests that asked for no acknowledgement. Each is locked
/// by itself for a moment.
pub fn unasked_in<J: Run, R: Wait>(rt: &R, outputs: &[Output<J>]) -> u64 {
    let mut unasked: u64 = 0;
    for output in outputs {
        unasked = unasked.saturating_add(output.shared.unasked(rt));
    }
    unasked
}

/// What each output has to do with, in all and of each tag, in their order. Each is locked by
/// itself for a moment. The only error is out of memory.
pub fn reports_of<J: Run, R: Wait>(
    rt: &R,
    alloc: Global,
    outputs: &[Output<J>],
) -> Result<Vec<Report>, AllocError>
    ensures count { IfOk result (λ reports. length reports.items ≡ length outputs.now) }
    ensures add_up { IfOk result (λ reports. AddUp reports.items) }
{
    let mut reports = Vec::with_capacity(alloc, outputs.len())?;
    for output in outputs {
        reports.push(output.shared.report(rt, alloc)?)?;
    }
    Ok(reports)
}

/// The last report of an output that nobody shares any more, and its page, by which it is so.
type Last<J> = (Report, EndedPage<J>);

/// The last report of each of these outputs, in their order, and the history of the run as far as
/// any of them knows it. The only error is out of memory.
fn end_all<J: Run>(
    alloc: Global,
    outputs: Vec<Output<J>>,
    reached: &ReachedHistory<J>,
) -> Result<(Vec<Last<J>>, ReachedHistory<J>), AllocError>
    ensures count { IfOk result (λ ended. length ended.0.items ≡ length outputs.items) }
    ensures each { IfOk result (λ ended. All (IsLast ended.1) ended.0.items) }
    ensures onward { IfOk result (λ ended. Comes reached.now ended.1) }
{
    let mut last = Vec::with_capacity(alloc, outputs.len())?;
    let mut all = reached.again();
    for output in outputs {
        let Output { shared, .. } = output;
        let ended = shared.last_report(alloc)?;
        all = all.with(&ended.1.reached());
        last.push(ended)?;
    }
    Ok((last, all))
}

/// The same reports alone, behind one history of the run. The only error is out of memory.
fn stay_all<J: Run>(
    alloc: Global,
    last: Vec<Last<J>>,
    reached: &ReachedHistory<J>,
) -> Result<Vec<Report>, AllocError>
    requires { All (IsLast reached.now) last.items }
    ensures count { IfOk result (λ reports. length reports.items ≡ length last.items) }
    ensures add_up { IfOk result (λ reports. AddUp reports.items) }
    ensures reached { IfOk result (λ reports. AreReportsAfter reached.now reports.items) }
{
    let mut reports = Vec::with_capacity(alloc, last.len())?;
    for ended in last {
        let (report, page) = ended;
        page.stays(reached);
        reports.push(report)?;
    }
    Ok(reports)
}

/// What each output had to do with in the end, in all and of each tag, in their order, where nobody
/// shares them any more; and the history of the run, behind which each is what its report says. The
/// only error is out of memory.
pub fn last_reports<J: Run>(
    alloc: Global,
    outputs: Vec<Output<J>>,
    reached: &ReachedHistory<J>,
) -> Result<(Vec<Report>, ReachedHistory<J>), AllocError>
    ensures count { IfOk result (λ last. length last.0.items ≡ length outputs.items) }
    ensures add_up { IfOk result (λ last. AddUp last.0.items) }
    ensures reached { IfOk result (λ last. AreReportsAfter last.1 last.0.items) }
    ensures onward { IfOk result (λ last. Comes reached.now last.1) }
{
    let (last, all) = end_all(alloc, outputs, reached)?;
    let reports = stay_all(alloc, last, &all)?;
    Ok((reports, all))
}
