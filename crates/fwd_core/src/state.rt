//! What a relay has: connections and outputs. What one event does to them.

ghost use Rattle.std.specs.Prelude.{
  ◌≡◌,
  ◌≤◌,
  ◌^◌,
  true,
  map,
  IfOk,
  IfErr,
  IsOk,
  OnOk,
  OnErr,
  length,
};
ghost use Rattle.fwd_model.specs.History.{opening};
ghost use Rattle.fwd_model.specs.Live.{live, live_relay_counts, live_relay_reports, lives};
ghost use Rattle.fwd_chunks.specs.Live.{live_counts};
ghost use Rattle.fwd_chunks.specs.TagCounts.{live_report};
ghost use Rattle.fwd_core.specs.Runs.{takes_none, is_free_at, IsAtFault};
ghost use Rattle.fwd_core.specs.Standing.{AreNew};
ghost use Rattle.fwd_core.specs.Lanes.{new_live_lanes};
ghost use Rattle.fwd_model.specs.declared.event.Event.TheVariants as event;
ghost use Rattle.fwd_model.specs.Outcome.{answer_of, state_of};
ghost use Rattle.fwd_model.specs.Step.{step};

mod connection_events;
mod output_events;

use crate::connection::Connection;
use crate::lane::Lane;
use fwd_chunks::{Counts, Report};
use fwd_handshake::Security;
use fwd_match::Routes;
use fwd_model::{Answer, Config, Event, OutputConfig};
use fwd_msgpack::Limits;
use std::alloc::{AllocError, AllocFailed, Global};
use std::marker::Model;
use std::sync::Arc;

/// The connections that stand, and the outputs. The routes lie beside the outputs, so that where a
/// request goes is decided before any lock is taken.
pub(crate) struct State {
    run: [u8; 6],
    routes: Routes,
    security: Arc<Security>,
    limits: Limits,
    last: Option<u64>,
    connections: Vec<Connection>,
    lanes: Vec<Lane>,
}

// A drop of its own is proved once, and not at each place where a state goes.
impl Drop for State {
    fn drop(self) {
        let State {
            run: _,
            routes: _,
            security: _,
            limits: _,
            last: _,
            connections: _,
            lanes: _,
        } = self;
    }
}

impl Model for State {
    ghost use Rattle.std.specs.Arc.{arc_value};
    ghost use Rattle.fwd_model.specs.Live.{LiveRelay};

    ghost Value = { LiveRelay };

    ghost view = { λ r. record {
      run = r.run;
      routes = r.routes;
      security = arc_value r.security;
      limits = r.limits;
      last = r.last;
      connections = r.connections.items;
      lanes = r.lanes.items;
    } };
}

impl State {
    /// A relay before its first event. On an error the configuration comes back.
    pub fn new(alloc: Global, config: Config) -> Result<Self, AllocFailed<Config>>
        ensures ok { IfOk result (λ r. r ≡ live (opening config)) }
        ensures err { IfErr result (λ failed. failed.value ≡ config) }
    {
        match lanes_of(alloc, config.run, config.outputs.as_slice()) {
            Ok(lanes) => State::with_lanes(alloc, config, lanes),
            Err(_) => Err(AllocFailed { value: config }),
        }
    }

    /// A relay before its first event, whose outputs are made. On an error the configuration comes
    /// back.
    fn with_lanes(
        alloc: Global,
        config: Config,
        lanes: Vec<Lane>,
    ) -> Result<Self, AllocFailed<Config>>
        requires { lanes.items ≡ new_live_lanes config.run 0 config.outputs }
        ensures ok { IfOk result (λ r. r ≡ live (opening config)) }
        ensures err { IfErr result (λ failed. failed.value ≡ config) }
    {
        let Config {
            run,
            routes,
            security,
            limits,
            outputs,
        } = config;
        match Arc::new(alloc, security) {
            Ok(security) => Ok(State {
                run,
                routes,
                security,
                limits,
                last: None,
                connections: Vec::new(alloc),
                lanes,
            }),
            Err(AllocFailed { value: security }) => Err(AllocFailed {
                value: Config {
                    run,
                    routes,
                    security,
                    limits,
                    outputs,
                },
            }),
        }
    }

    /// The entries accepted, settled and held, with the bytes held and the chunks that hold them,
    /// of each output.
    pub fn counts(&self, alloc: Global) -> Result<Vec<Counts>, AllocError>
        ensures { IfOk result (λ counts. counts.items ≡ live_relay_counts self.now) }
    {
        counts_of(alloc, &self.lanes)
    }

    /// The same, and what is held of each tag.
    pub fn reports(&self, alloc: Global) -> Result<Vec<Report>, AllocError>
        ensures { IfOk result (λ reports. reports.items ≡ live_relay_reports self.now) }
    {
        reports_of(alloc, &self.lanes)
    }

    /// What an event does. On an error nothing has changed.
    pub fn try_step(&mut self, alloc: Global, event: &Event) -> Result<Answer, AllocError>
        requires { AreNew self.old }
        ensures answer { IfOk result (λ a. a ≡ answer_of (step lives self.old event.now)) }
        ensures none { takes_none event.now ≡ true → IsOk result }
        ensures sure { is_free_at self.old event.now ≡ true → IsOk result }
        ensures fault { IsAtFault self.old event.now → IsOk result }
        ensures next { OnOk result (self.new ≡ state_of self.old (step lives self.old event.now)) }
        ensures err { OnErr result (self.new ≡ self.old) }
    {
        match event {
            Event::Accept { conn, nonce, auth } => self.accept(alloc, *conn, *nonce, *auth),
            Event::Piece { conn, bytes } => self.piece(alloc, *conn, bytes.as_slice()),
            Event::Admit { conn, output, now } => self.admit(alloc, *conn, *output, *now),
            Event::Up {
                output,
                worker,
                server,
                salt,
                now,
            } => self.up(alloc, *output, *worker, *server, salt, *now),
            Event::Take {
                output,
                worker,
                now,
                wanted,
            } => self.take(alloc, *output, *worker, *now, *wanted),
            Event::Load {
                output,
                worker,
                now,
            } => self.load(alloc, *output, *worker, *now),
            Event::Heard {
                output,
                worker,
                bytes,
            } => self.heard(alloc, *output, *worker, bytes.as_slice()),
            Event::Collect { conn, output } => self.collect(alloc, *conn, *output),
            event => Ok(self.step_in_place(alloc, event)),
        }
    }

    /// What an event does that takes no memory.
    fn step_in_place(&mut self, alloc: Global, event: &Event) -> Answer
        requires { takes_none event.now ≡ true }
        ensures answer { result ≡ answer_of (step lives self.old event.now) }
        ensures next { self.new ≡ state_of self.old (step lives self.old event.now) }
    {
        match event {
            Event::Flush { output, now, kind } => self.flush(*output, *now, *kind),
            Event::Choose {
                output,
                worker,
                now,
            } => self.choose(*output, *worker, *now),
            Event::Wrote {
                output,
                worker,
                count,
            } => self.wrote(*output, *worker, *count),
            Event::Late {
                output,
                worker,
                now,
            } => self.late(*output, *worker, *now),
            Event::Settle { output, worker } => self.settle(*output, *worker),
            Event::End {
                output,
                worker,
                kind,
                now,
            } => self.end(alloc, *output, *worker, *kind, *now),
            Event::Forget { conn, output } => self.forget(*conn, *output),
            Event::Drained { conn, count } => self.drained(*conn, *count),
            Event::Shut { conn } => self.shut(*conn),
            _ => unreachable!(),
        }
    }
}

/// The counts of each output.
fn counts_of(alloc: Global, lanes: &[Lane]) -> Result<Vec<Counts>, AllocError>
    ensures { IfOk result (λ counts.
        counts.items ≡ map (λ l. live_counts l.output.buffer) lanes.now) }
{
    let mut counts = Vec::new(alloc);
    for lane in lanes {
        counts.push(lane.counts())?;
    }
    Ok(counts)
}

/// What each output has to do with, in all and of each tag.
fn reports_of(alloc: Global, lanes: &[Lane]) -> Result<Vec<Report>, AllocError>
    ensures { IfOk result (λ reports.
        reports.items ≡ map (λ l. live_report l.output.buffer) lanes.now) }
{
    let mut reports = Vec::new(alloc);
    for lane in lanes {
        reports.push(lane.report(alloc)?)?;
    }
    Ok(reports)
}

/// The outputs, none of which has an entry.
fn lanes_of(alloc: Global, run: [u8; 6], configs: &[OutputConfig]) -> Result<Vec<Lane>, AllocError>
    requires { length configs.now ≤ 2 ^ 16 }
    ensures { IfOk result (λ lanes. lanes.items ≡ new_live_lanes run 0 configs.now) }
{
    let mut lanes = Vec::new(alloc);
    for config in configs {
        let place = lanes.len() as u16;
        lanes.push(Lane::new(alloc, run, place, config)?)?;
    }
    Ok(lanes)
}
