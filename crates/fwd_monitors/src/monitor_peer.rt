//! A monitor's connection over its stream.

ghost use Rattle.std.specs.Prelude.{◌≡◌, ◌≢◌, true, OnOk};
ghost use Rattle.std.specs.Arc.{arc_value};
ghost use Rattle.fwd_monitor.specs.declared.reply.Reply.TheVariants.{Bytes};
ghost use Rattle.fwd_monitors.specs.Asking.{awaits_head};
ghost use Rattle.fwd_monitors.specs.Told.{IsAsBefore, IsTold, sent_of};

use crate::made_page::{MadePage, Making, PageKind, page_of};
use crate::page_source::PageSource;
use crate::sending::Sending;
use fwd_monitor::{Figures, Reply, answer, wants_metrics, wants_page};
use fwd_peers::{PeerSocket, PeerStream, Stream, Visit};
use std::alloc::{AllocError, Global};
use std::sync::{Arc, Wait};

/// How long a monitor may take nothing of what it is sent, in milliseconds.
const STALL: u64 = 30_000;

/// What a monitor waits for.
#[derive(Clone, Copy)]
enum MonitorState {
    /// Its request's head has not come yet.
    Asking,
    /// It is to be sent a page of this kind, which is not ordered yet.
    Wanting(PageKind),
    /// It is to be sent a page of this kind, and of this number or a later one.
    Waiting(PageKind, u64),
    /// It is sent a page of this number, or another reply as 0.
    Taking(u64),
}

/// How a visit to a monitor ended.
#[derive(Clone, Copy)]
pub enum MonitorVisit {
    /// There may be more to be read.
    Again,
    /// The system tells once it is ready again.
    Rests,
    /// It is over.
    Ended,
}

/// A monitor's connection: its stream, what it sent so far, and what it is sent.
#[derive(Drop)]
pub struct MonitorPeer {
    stream: PeerStream,
    heard: Vec<u8>,
    /// The metrics page is served.
    has_metrics: bool,
    stage: MonitorState,
    sending: Option<Sending>,
    /// When it took something last, in milliseconds.
    since: u64,
}

impl MonitorPeer {
    /// A connection before its first byte, and whether the metrics page is served.
    pub fn new(alloc: Global, socket: PeerSocket, has_metrics: bool) -> MonitorPeer {
        MonitorPeer {
            stream: PeerStream::new(socket),
            heard: Vec::new(alloc),
            has_metrics,
            stage: MonitorState::Asking,
            sending: None,
            since: 0,
        }
    }

    /// Its socket.
    pub fn socket(&mut self) -> &mut PeerSocket {
        &mut self.stream.socket
    }

    /// Whether its request's head has not come yet.
    pub fn awaits_head(&self) -> bool
        ensures { result ≡ awaits_head self.now }
    {
        match self.stage {
            MonitorState::Asking => true,
            _ => false,
        }
    }

    /// The kind of the page that is to be ordered for it, if one is.
    pub fn wants(&self) -> Option<PageKind> {
        match self.stage {
            MonitorState::Wanting(kind) => Some(kind),
            _ => None,
        }
    }

    /// A page of this kind and number was ordered for it.
    pub fn waits_for(&mut self, kind: PageKind, number: u64) {
        self.stage = MonitorState::Waiting(kind, number);
    }

    /// The number of the page that it is sent, if it is sent one.
    pub fn page(&self) -> Option<u64> {
        match self.stage {
            MonitorState::Taking(number) if number > 0 => Some(number),
            _ => None,
        }
    }

    /// Whether it took nothing for long by a moment (milliseconds) of what it is sent.
    pub fn is_stalled(&self, now: u64) -> bool {
        match self.stage {
            MonitorState::Taking(_) => now.saturating_sub(self.since) >= STALL,
            _ => false,
        }
    }

    /// It is sent a page from a moment on (milliseconds), if it waits for it: whether it is to be
    /// visited. Where its kind was not made then, since it was and another was made over it, it is
    /// to be ordered again. The only error is that memory was refused for the page.
    pub fn hand(&mut self, page: &MadePage, now: u64) -> Result<bool, AllocError> {
        let kind = match self.stage {
            MonitorState::Waiting(kind, number) if number <= page.number => kind,
            _ => return Ok(false),
        };
        match page.of(kind) {
            Making::Unasked => {
                self.stage = MonitorState::Wanting(kind);
                Ok(false)
            }
            Making::Refused => Err(AllocError),
            Making::Made(reply) => {
                let reply = Arc::try_clone(reply)?;
                self.send(reply, page.number, now);
                Ok(true)
            }
        }
    }

    /// It is sent the page of these parts that it wants from a moment on (milliseconds), which is
    /// made at once. The only error is out of memory.
    pub fn hand_now<R: Wait, S: PageSource>(
        &mut self,
        rt: &R,
        alloc: Global,
        parts: &S,
        made_of: (PageKind, Figures),
        now: u64,
    ) -> Result<(), AllocError> {
        let (kind, figures) = made_of;
        let reply = page_of(rt, alloc, parts, kind, figures)?;
        self.send(reply, 0, now);
        Ok(())
    }

    /// It is sent a reply from a moment on (milliseconds): a page of this number, or another as 0.
    fn send(&mut self, reply: Arc<Vec<u8>>, number: u64, now: u64)
        ensures sent { sent_of self.new.sending ≡ Bytes (arc_value reply) }
        ensures heard { self.new.heard ≡ self.old.heard }
        ensures metrics { self.new.has_metrics ≡ self.old.has_metrics }
    {
        self.sending = Some(Sending { reply, sent: 0 });
        self.stage = MonitorState::Taking(number);
        self.since = now;
    }

    /// Reads what is there, and writes the reply once there is one, at a moment (milliseconds) at
    /// which the relay drains or not. A monitor that closed its side behind its request is sent the
    /// reply all the same. The only error is out of memory.
    pub fn serve(
        &mut self,
        alloc: Global,
        room: &mut [u8],
        is_draining: bool,
        now: u64,
    ) -> Result<MonitorVisit, AllocError>
        ensures { awaits_head self.old ≡ true → self.old.heard.items ≢ self.new.heard.items
            → OnOk result (IsTold is_draining self.new) }
    {
        let (count, visit) = self.stream.fill(room, true);
        if count > 0 && self.awaits_head() {
            self.take_in(alloc, &room[..count], is_draining, now)?;
        }
        Ok(if self.write(now) || (visit == Visit::Ended && self.awaits_head()) {
            MonitorVisit::Ended
        } else if visit == Visit::Full {
            MonitorVisit::Again
        } else {
            MonitorVisit::Rests
        })
    }

    /// Takes in bytes, and makes the reply where one is due but a page: what a load balancer asks
    /// is answered at once. The only error is out of memory.
    fn take_in(
        &mut self,
        alloc: Global,
        bytes: &[u8],
        is_draining: bool,
        now: u64,
    ) -> Result<(), AllocError>
        ensures { OnOk result (IsTold is_draining self.new) }
    {
        self.heard.extend_from_slice(bytes)?;
        if wants_page(&self.heard) {
            self.stage = MonitorState::Wanting(PageKind::Lines);
            return Ok(());
        }
        if self.has_metrics && wants_metrics(&self.heard) {
            self.stage = MonitorState::Wanting(PageKind::Metrics);
            return Ok(());
        }
        if let Reply::Bytes(reply) = answer(alloc, &self.heard, &[], is_draining)? {
            let reply = Arc::new(alloc, reply)?;
            self.send(reply, 0, now);
        }
        Ok(())
    }

    /// Writes what is left of the reply as far as the stream takes it, at a moment (milliseconds),
    /// and says whether nothing is to be written any more.
    fn write(&mut self, now: u64) -> bool
        ensures { IsAsBefore self.old self.new }
    {
        let Some(sending) = &mut self.sending else {
            return false;
        };
        let from = sending.sent;
        let (count, visit) = self.stream.send(&sending.reply[from..]);
        sending.sent = from + count;
        if count > 0 {
            self.since = now;
        }
        visit == Visit::Ended || sending.sent == sending.reply.len()
    }
}
