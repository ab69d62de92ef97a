//! Outputs that threads share, and workers over links in memory. It prints what holds whatever the
//! order of the threads' turns. It is a program and no test, so that the gate runs it as two
//! compilers build it.
#![tactic(auto)]

ghost use Rattle.std.specs.Prelude.{◌≡◌};
ghost use Rattle.fwd_run.specs.Pages.{page_count};

mod acts;
mod batches;
mod calls;
mod connects;
mod day;
mod faulty;
mod gates;
mod idle_worker;
mod life;
mod lives;
mod memory;
mod mirror;
mod output_plan;
mod paging;
mod played;
mod readers;
mod record;
mod scarce;
mod seats;
mod serving;
mod test_source;
mod thread_share;
mod trials;
mod turns;
mod watched;

use crate::mirror::{Story, are_alike, played_alone, played_bare, played_behind};
use crate::output_plan::output;
use crate::paging::begin;
use anyhow::Result;
use fwd_history::Run;
use fwd_model::FlushKind;
use fwd_output::{Closing, Plain};
use fwd_run::OpenedRun;
use std::alloc::Global;
use std::marker::Brand;
use std::rt::Clock;
use std::sync::Wait;
use std::thread::Threads;

/// The stories that are told with and without a lock.
const STORIES: [Story; 10] = [
    Story::WayBack,
    Story::LaterFirst,
    Story::InOrder,
    Story::Lost,
    Story::Full,
    Story::Abandoned,
    Story::Due,
    Story::Choices,
    Story::Returns,
    Story::Again,
];

/// Two threads admit and two workers send, each with a window of so many chunks, and what the
/// ledgers say at the close.
fn tell_day<R: Threads + Wait + Sync + Print>(rt: &R, alloc: Global, window: u8) -> Result<()> {
    let day = day::whole_day(rt, alloc, window)?;
    let closing = day.closing;
    let tickets = (day.first, day.second);
    let accepted = closing.accepted;
    let _ = println!(rt;
        "two and two, a window of {window}: accepted {accepted}, tickets {tickets:?}"
    );
    let is_sum = closing.settled.saturating_add(closing.left) == accepted;
    let _ = println!(rt; "accepted = settled + left: {is_sum}");
    Ok(())
}

/// What an output came to, in entries.
fn print_closing<R: Print>(rt: &R, name: &str, closing: Closing) {
    let Closing {
        accepted,
        settled,
        left,
    } = closing;
    let _ = println!(rt; "{name}: accepted {accepted}, settled {settled}, left {left}");
}

/// Many seats: what the ledgers say at the close.
fn tell_seats<R: Threads + Wait + Sync + Print>(rt: &R, alloc: Global) -> Result<()> {
    let sums = seats::eight_and_four(rt, alloc)?;
    print_closing(rt, "eight and four", sums.closing);
    let added = sums.seats;
    let _ = println!(rt; "added from the seats: {added:?}");
    Ok(())
}

/// Four readers, and what each was told of the requests that it admitted.
fn tell_readers<R: Threads + Wait + Sync + Print>(rt: &R, alloc: Global) -> Result<()> {
    let all = readers::four_readers(rt, alloc)?;
    print_closing(rt, "four readers", all.closing);
    let told = all.told;
    let _ = println!(rt; "each was told: {told:?}");
    Ok(())
}

/// Two workers that settle only together, in a run that this history is of.
fn tell_gates_by<J: Run + Send + Sync, R: Threads + Wait + Clock + Sync + Print>(
    rt: &R,
    alloc: Global,
    opened: OpenedRun,
) -> Result<()>
    requires { (opened.book ≡ J.book) × (opened.pages ≡ page_count) }
{
    let mut begun = begin::<J>(alloc, opened, output(2, 100_000, 2))?;
    let workers = begun.two_workers()?;
    let source = begun.sources.source()?;
    let out = begun.shared(Plain::new(0), Plain::new(0));
    let ((), tickets) = turns::admits(rt, alloc, &out, ((), source), 2);
    out.flush(rt, 0, FlushKind::All);
    let stopped = gates::both_work(rt, alloc, &out, workers);
    let (receipts, left) = turns::collected(rt, alloc, &out, tickets);
    let _ = println!(rt; "at once: stopped {stopped:?}, receipts {receipts}, left {left}");
    Ok(())
}

/// Two workers that settle only together.
fn tell_gates<R: Threads + Wait + Clock + Sync + Print>(rt: &R, alloc: Global) -> Result<()> {
    tell_gates_by::<Brand, R>(rt, alloc, OpenedRun::new(usize::MAX))
}

/// The stories, with and without a lock.
fn tell_stories<R: Wait + Print>(rt: &R, alloc: Global) -> Result<()> {
    for story in &STORIES {
        let bare = played_bare(alloc, *story)?;
        let behind = played_behind(rt, alloc, *story)?;
        let (name, calls) = (story.name(), behind.counts.len());
        let alike = are_alike(&bare, &behind);
        let answers = behind.text;
        let _ = println!(rt; "{name}: {calls} calls, alike: {alike}:{answers}");
    }
    let alone = played_alone(alloc)?;
    let (calls, answers) = (alone.counts.len(), alone.text);
    let _ = println!(rt; "a chunk is lost without its server: {calls} calls:{answers}");
    Ok(())
}

/// What turns by pieces come to over a link that fails at its call from 1 to 10, and over links
/// that take so many bytes.
fn tell_served<R: Wait + Print>(rt: &R, alloc: Global) -> Result<()> {
    for call in 1..=10 {
        let served = serving::failed_at(rt, alloc, call)?;
        let _ = println!(rt; "a link that fails at its call {call}: {served:?}");
    }
    for most in [45, 46] {
        let served = serving::served(rt, alloc, most)?;
        let _ = println!(rt; "a link that takes {most} bytes: {served:?}");
    }
    Ok(())
}

/// How many turns the frame takes over links that take at most so many bytes at once.
fn tell_turns<R: Wait + Print>(rt: &R, alloc: Global) -> Result<()> {
    for most in [1, 2, 45, 46] {
        let (pieces, gathered, is_frame) = serving::turns(rt, alloc, most)?;
        let _ = println!(rt;
            "writes of at most {most} bytes: {pieces} turns by pieces, {gathered} gathered, \
            the frame: {is_frame}"
        );
    }
    Ok(())
}

fn main(rt: HostRuntime) -> Result<()> {
    let alloc = rt.alloc();
    if scarce::is_asked(&rt)? {
        return scarce::tell(&rt, alloc);
    }
    tell_stories(&rt, alloc)?;
    lives::tell_all(&rt, alloc)?;
    trials::tell_all(&rt, alloc)?;
    connects::tell_all(&rt, alloc)?;
    tell_served(&rt, alloc)?;
    tell_turns(&rt, alloc)?;
    tell_day(&rt, alloc, 1)?;
    tell_day(&rt, alloc, 8)?;
    tell_seats(&rt, alloc)?;
    tell_readers(&rt, alloc)?;
    tell_gates(&rt, alloc)?;
    scarce::tell(&rt, alloc)
}
