//! What the reader in front of a relay does beside its turns: it tells what becomes of servers,
//! goes on with a stop that was asked for, and has pages made for monitors, which connect to it
//! alone.

use crate::draining::Drain;
use crate::event_loop::tell_all;
use crate::lost_servers::LostServers;
use crate::reader::Reader;
use fwd_history::Run;
use fwd_links::{Mailbox, Notices};
use fwd_monitors::{JournalEvent, MemoryFor, Observer, PageQueue, StartFault};
use fwd_reader::{Output, PageParts};
use std::alloc::Global;
use std::rt::Clock;
use std::sync::Wait;

/// What the reader in front has beside.
pub struct FrontReader<'a> {
    pages: &'a PageQueue,
    /// A thread makes pages: else one is made when it is asked for.
    pub(crate) are_pages_ordered: bool,
    lost_servers: LostServers,
    pub(crate) drain: Drain,
}

// A drop of its own is proved once, and not at each place where a reader in front goes.
impl<'a> Drop for FrontReader<'a> {
    fn drop(self) {
        let FrontReader {
            pages: _,
            are_pages_ordered: _,
            lost_servers: _,
            drain: _,
        } = self;
    }
}

/// Makes the pages that monitors wait for, beside the relay's turns, in a thread of its own.
#[derive_where(Clone, Copy)]
pub struct PageMaker<'a, J: Run> {
    alloc: Global,
    parts: PageParts<'a, J>,
    mailbox: &'a Mailbox,
    pages: &'a PageQueue,
}

impl<'a, J: Run> PageMaker<'a, J> {
    /// Makes each page that is ordered, until no more are made.
    pub fn work<R: Wait>(self, rt: &R) {
        for _ in rt.forever() {
            if !self.pages.make_next(rt, self.alloc, &self.parts) {
                return;
            }
            self.mailbox.call();
        }
    }

    /// No more pages are made.
    pub fn stop<R: Wait>(self, rt: &R) {
        self.pages.close(rt);
    }
}

impl<'a> FrontReader<'a> {
    /// No server is lost, and nobody asked the relay to stop. The only error is out of memory.
    pub fn new<J: Run>(
        alloc: Global,
        outputs: &[Output<J>],
        pages: &'a PageQueue,
    ) -> Result<FrontReader<'a>, StartFault> {
        Ok(FrontReader {
            pages,
            are_pages_ordered: false,
            lost_servers: LostServers::new(alloc, outputs)?,
            drain: Drain::new(),
        })
    }

    /// Workers told this: it is counted, and an observer is told what becomes of servers.
    pub(crate) fn hear<J: Run, R: Wait + Clock, W: Observer>(
        &mut self,
        rt: &R,
        reader: &Reader<'_, J, R>,
        notices: &Notices,
        observer: &mut W,
    ) {
        reader.tally.hear(rt, notices);
        tell_all(notices, reader.outputs, &mut self.lost_servers, observer);
    }

    /// Monitors that took nothing for long are closed, at a moment (milliseconds); those that wait
    /// for a page that was made are sent it, and a further one is ordered for those that want it.
    pub(crate) fn tend_monitors<J: Run, R: Wait + Clock, W: Observer>(
        &mut self,
        rt: &R,
        reader: &mut Reader<'_, J, R>,
        observer: &mut W,
        now: u64,
    ) {
        let connections = &mut reader.event_loop.connections;
        if connections.monitors() == 0 {
            return;
        }
        connections.remove_stalled(now);
        if !self.are_pages_ordered {
            return;
        }
        self.hand_page(rt, reader, observer, now);
        if !reader.event_loop.connections.is_page_due() {
            return;
        }
        let figures = observer.complete(reader.figures(now));
        reader
            .event_loop
            .connections
            .order_page(rt, self.pages, figures);
    }

    /// Monitors that wait for a page that was made are sent it, at a moment (milliseconds).
    fn hand_page<J: Run, R: Wait + Clock, W: Observer>(
        &mut self,
        rt: &R,
        reader: &mut Reader<'_, J, R>,
        observer: &mut W,
        now: u64,
    ) {
        let Some(mut page) = self.pages.take(rt) else {
            return;
        };
        page.make_here(rt, reader.alloc, &reader.parts());
        for _ in 0..reader.event_loop.connections.hand_page(&page, now) {
            observer.observe(JournalEvent::Memory(MemoryFor::Monitor));
        }
    }

    /// What makes pages in a thread of its own, where the reader listens for monitors.
    pub(crate) fn page_maker<J: Run, R: Wait + Clock>(
        &self,
        reader: &Reader<'a, J, R>,
    ) -> Option<PageMaker<'a, J>> {
        let acceptor = reader.event_loop.acceptor.as_ref()?;
        acceptor.monitors.as_ref()?;
        Some(PageMaker {
            alloc: reader.alloc,
            parts: reader.parts(),
            mailbox: reader.mailbox,
            pages: self.pages,
        })
    }
}
