//! The monitors that stand.

use crate::connections::Connections;
use crate::peer::Peer;
use fwd_history::Run;
use fwd_monitors::{Figures, MadePage, MonitorPeer, PageQueue};
use std::sync::Wait;

/// How many pages may be kept at a time, since monitors are sent them: no further one is made
/// before.
const PAGES: usize = 2;

impl<J: Run> Connections<J> {
    /// The monitor at a place among those that stand.
    fn monitor_at(&mut self, place: usize) -> Option<(usize, &mut MonitorPeer)> {
        let key = self.monitor_key(place)?;
        match self.at(key)? {
            Peer::Monitor(monitor) => Some((key, monitor)),
            Peer::Source(_) => None,
        }
    }

    /// How many pages are sent to monitors, or more: those of neighbours count once.
    fn pages(&mut self) -> usize {
        let mut last = None;
        let mut count: usize = 0;
        for place in 0..self.monitors() {
            if let Some((_, monitor)) = self.monitor_at(place) {
                let page = monitor.page();
                if page.is_some() && page != last {
                    count = count.saturating_add(1);
                    last = page;
                }
            }
        }
        count
    }

    /// Whether a page may be ordered, and a monitor wants one.
    pub fn is_page_due(&mut self) -> bool {
        if self.pages() >= PAGES {
            return false;
        }
        for place in 0..self.monitors() {
            if let Some((_, monitor)) = self.monitor_at(place) {
                if monitor.wants().is_some() {
                    return true;
                }
            }
        }
        false
    }

    /// Orders a page for the monitors that want it, where this is known of the relay, but where too
    /// many are kept.
    pub fn order_page<R: Wait>(&mut self, rt: &R, queue: &PageQueue, figures: Figures) {
        if self.pages() >= PAGES {
            return;
        }
        for place in 0..self.monitors() {
            if let Some((_, monitor)) = self.monitor_at(place) {
                if let Some(kind) = monitor.wants() {
                    monitor.waits_for(kind, queue.order(rt, kind, figures));
                }
            }
        }
    }

    /// Hands a page to the monitors that wait for it, at a moment (milliseconds), and says how many
    /// of them are gone, since memory was refused for it.
    pub fn hand_page(&mut self, page: &MadePage, now: u64) -> usize {
        let mut gone: usize = 0;
        for place in (0..self.monitors()).rev() {
            let Some((key, monitor)) = self.monitor_at(place) else {
                continue;
            };
            match monitor.hand(page, now) {
                Ok(true) => self.note_ready(key, false),
                Ok(false) => {}
                Err(_) => {
                    self.remove(key);
                    gone = gone.saturating_add(1);
                }
            }
        }
        gone
    }

    /// Those monitors go that took nothing for long by a moment (milliseconds).
    pub fn remove_stalled(&mut self, now: u64) {
        for place in (0..self.monitors()).rev() {
            let Some((key, monitor)) = self.monitor_at(place) else {
                continue;
            };
            if monitor.is_stalled(now) {
                self.remove(key);
            }
        }
    }
}
