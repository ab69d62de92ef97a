//! The pages that monitors ask for, as they are made and sent.

use crate::page_source::PageSource;
use fwd_base::Text;
use fwd_monitor::{Figures, OutputFigures, Reply, answer, metrics_reply};
use std::alloc::{AllocError, Global};
use std::sync::{Arc, Wait};

/// A request for the page, as any other that is told it.
const REQUEST: &[u8] = b"GET / HTTP/1.1\r\n\r\n";

/// The pages that there are.
#[derive(Clone, Copy)]
pub enum PageKind {
    /// The page that has a line for each output and tag.
    Lines,
    /// The metrics page.
    Metrics,
}

/// Which pages somebody waits for.
#[derive(Clone, Copy)]
pub(crate) struct Asked {
    pub lines: bool,
    pub metrics: bool,
}

impl Asked {
    /// Somebody waits for a page of this kind, too.
    pub fn add(&mut self, kind: PageKind) {
        match kind {
            PageKind::Lines => self.lines = true,
            PageKind::Metrics => self.metrics = true,
        }
    }
}

/// What became of a page of one kind.
#[derive(Drop)]
pub(crate) enum Making {
    /// Nobody waited for it.
    Unasked,
    /// Memory was refused for it.
    Refused,
    /// It is sent so.
    Made(Arc<Vec<u8>>),
}

/// The pages that were begun at once. They are counted from 1 on, as they are begun.
#[derive(Drop)]
pub struct MadePage {
    pub number: u64,
    figures: Figures,
    lines: Making,
    metrics: Making,
}

impl MadePage {
    /// Makes the pages that somebody waits for.
    pub(crate) fn make<R: Wait, S: PageSource>(
        rt: &R,
        alloc: Global,
        parts: &S,
        number: u64,
        order: (Asked, Figures),
    ) -> MadePage {
        let (asked, figures) = order;
        let mut page = MadePage {
            number,
            figures,
            lines: Making::Unasked,
            metrics: Making::Unasked,
        };
        if asked.lines {
            page.lines = made(rt, alloc, parts, PageKind::Lines, figures);
        }
        if asked.metrics {
            page.metrics = made(rt, alloc, parts, PageKind::Metrics, figures);
        }
        page
    }

    /// Makes the pages of these parts in this thread for which memory was refused to the one that
    /// makes pages: what this thread gave back is of use to itself alone.
    pub fn make_here<R: Wait, S: PageSource>(&mut self, rt: &R, alloc: Global, parts: &S) {
        if is_refused(&self.lines) {
            self.lines = made(rt, alloc, parts, PageKind::Lines, self.figures);
        }
        if is_refused(&self.metrics) {
            self.metrics = made(rt, alloc, parts, PageKind::Metrics, self.figures);
        }
    }

    /// What became of the page of a kind.
    pub(crate) fn of(&self, kind: PageKind) -> &Making {
        match kind {
            PageKind::Lines => &self.lines,
            PageKind::Metrics => &self.metrics,
        }
    }
}

/// Whether memory was refused for a page.
fn is_refused(page: &Making) -> bool {
    match page {
        Making::Refused => true,
        _ => false,
    }
}

/// Makes a page of these parts.
fn made<R: Wait, S: PageSource>(
    rt: &R,
    alloc: Global,
    parts: &S,
    kind: PageKind,
    figures: Figures,
) -> Making {
    match page_of(rt, alloc, parts, kind, figures) {
        Ok(reply) => Making::Made(reply),
        Err(_) => Making::Refused,
    }
}

/// A page of these parts, as it is sent. The only error is out of memory.
pub(crate) fn page_of<R: Wait, S: PageSource>(
    rt: &R,
    alloc: Global,
    parts: &S,
    kind: PageKind,
    figures: Figures,
) -> Result<Arc<Vec<u8>>, AllocError> {
    match kind {
        PageKind::Lines => lines_of(rt, alloc, parts, figures),
        PageKind::Metrics => metrics_of(rt, alloc, parts, figures),
    }
}

/// The page that has a line for each output and tag, as it is sent.
fn lines_of<R: Wait, S: PageSource>(
    rt: &R,
    alloc: Global,
    parts: &S,
    figures: Figures,
) -> Result<Arc<Vec<u8>>, AllocError> {
    let reports = parts.reports(rt, alloc)?;
    match answer(alloc, REQUEST, &reports, figures.is_draining)? {
        Reply::Bytes(reply) => Ok(Arc::new(alloc, reply)?),
        Reply::More => Ok(Arc::new(alloc, Vec::new(alloc))?),
    }
}

/// Adds the outputs' patterns to what is said of them. The only error is out of memory.
fn name_outputs(
    alloc: Global,
    figures: &mut Vec<OutputFigures>,
    patterns: &[Text],
) -> Result<(), AllocError> {
    for (place, pattern) in patterns.iter().enumerate() {
        if let Some(own) = figures.get_mut(place) {
            own.pattern = Text::from_str(alloc, pattern.as_str())?;
        }
    }
    Ok(())
}

/// The metrics page, as it is sent.
fn metrics_of<R: Wait, S: PageSource>(
    rt: &R,
    alloc: Global,
    parts: &S,
    figures: Figures,
) -> Result<Arc<Vec<u8>>, AllocError> {
    let tally = parts.tally();
    let mut own = parts.figures(rt, alloc, figures.uptime)?;
    name_outputs(alloc, &mut own, &tally.patterns)?;
    let mut counted = tally.copy(rt, alloc)?;
    let reports = parts.reports(rt, alloc)?;
    tally.settle(rt, &mut counted, &reports);
    let reply = metrics_reply(alloc, figures, &own, &reports, &counted)?;
    Ok(Arc::new(alloc, reply)?)
}
