//! The monitors' pages, which are made by a thread of their own for all who wait for them. A page
//! of 100,000 tags takes seconds, and some hundred megabytes. Only what is copied under an output's
//! lock holds up that output.

use crate::made_page::{Asked, MadePage, PageKind};
use crate::page_source::PageSource;
use fwd_monitor::{Figures, ProcessFigures};
use std::alloc::Global;
use std::sync::{Condvar, Mutex, Wait};

/// Nobody waits for a page.
const NONE: Asked = Asked {
    lines: false,
    metrics: false,
};

/// Nothing is known of the relay before a page is ordered.
const NOTHING: Figures = Figures {
    start: None,
    uptime: 0,
    sources: 0,
    source_limit: 0,
    is_draining: false,
    left_out: 0,
    process: ProcessFigures::UNKNOWN,
};

/// What is asked of the thread that makes pages, and what it made.
#[derive(Drop)]
struct Orders {
    /// How many pages were begun.
    begun: u64,
    /// The number of the last page that somebody waits for.
    wanted: u64,
    /// Which pages are waited for that are not begun.
    asked: Asked,
    /// What was known of the relay when one was ordered last.
    figures: Figures,
    made: Option<MadePage>,
    /// No more are made.
    is_closed: bool,
}

/// Where pages are ordered, and handed over. One is made at a time, and whoever waits when it is
/// begun is sent it.
#[derive(Drop)]
pub struct PageQueue {
    orders: Mutex<Orders>,
    changed: Condvar,
}

impl PageQueue {
    /// No page is ordered.
    pub fn new() -> PageQueue {
        PageQueue {
            orders: Mutex::new(Orders {
                begun: 0,
                wanted: 0,
                asked: NONE,
                figures: NOTHING,
                made: None,
                is_closed: false,
            }),
            changed: Condvar::new(),
        }
    }

    /// Orders a page of a kind that is begun from now on, where this is known of the relay: its
    /// number.
    pub fn order<R: Wait>(&self, rt: &R, kind: PageKind, figures: Figures) -> u64 {
        let mut orders = self.orders.lock(rt);
        orders.wanted = orders.begun.saturating_add(1);
        orders.asked.add(kind);
        orders.figures = figures;
        let number = orders.wanted;
        drop(orders);
        self.changed.notify_all();
        number
    }

    /// The last page that was made, if it was not taken yet.
    pub fn take<R: Wait>(&self, rt: &R) -> Option<MadePage> {
        self.orders.lock(rt).made.take()
    }

    /// No more pages are made.
    pub fn close<R: Wait>(&self, rt: &R) {
        self.orders.lock(rt).is_closed = true;
        self.changed.notify_all();
    }

    /// Waits until a page is ordered, and begins it: its number, and what is to be made of what.
    /// There is none once no more are made.
    fn begin<R: Wait>(&self, rt: &R) -> Option<(u64, Asked, Figures)> {
        let orders = self.orders.lock(rt);
        let mut orders = self.changed.wait_while(rt, orders, |orders| {
            orders.wanted <= orders.begun && !orders.is_closed
        });
        if orders.is_closed {
            return None;
        }
        orders.begun = orders.wanted;
        let asked = orders.asked;
        orders.asked = NONE;
        Some((orders.begun, asked, orders.figures))
    }

    /// A page was made.
    fn put<R: Wait>(&self, rt: &R, page: MadePage) {
        self.orders.lock(rt).made = Some(page);
    }

    /// Makes the next page that is ordered of these parts, and says whether there was one: there is
    /// none once no more are made.
    pub fn make_next<R: Wait, S: PageSource>(&self, rt: &R, alloc: Global, parts: &S) -> bool {
        let Some((number, asked, figures)) = self.begin(rt) else {
            return false;
        };
        let page = MadePage::make(rt, alloc, parts, number, (asked, figures));
        self.put(rt, page);
        true
    }
}
