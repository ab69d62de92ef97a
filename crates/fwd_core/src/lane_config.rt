//! What an output is set to, as it runs.

ghost use Rattle.std.specs.Prelude.{◌≡◌, ◌≤◌, length, not, true, IfOk};
ghost use Rattle.std.specs.List.{list_any};
ghost use Rattle.fwd_session.specs.Live.{session_begins};
ghost use Rattle.fwd_model.specs.Setups.{session_setup};

use fwd_base::{Bytes, Seq};
use fwd_chunks::BufferLimits;
use fwd_handshake::Login;
use fwd_model::{OutputConfig, OwnedSalt};
use fwd_session::{AckTerms, Session};
use std::alloc::{AllocError, Global};
use std::marker::Model;
use std::sync::Arc;

/// What an output is set to. All of its sessions share one login.
#[derive(Drop)]
pub(crate) struct LaneConfig {
    pub workers: u16,
    pub standby: Seq<bool>,
    pub limits: BufferLimits,
    acks: AckTerms,
    login: Arc<Login>,
    ghost few: { length standby ≤ 16 },
    ghost has_primary: { list_any not standby ≡ true },
}

impl Model for LaneConfig {
    ghost use Rattle.std.specs.Arc.{arc_value};
    ghost use Rattle.fwd_model.specs.declared.config.OutputConfig.{OutputConfig};

    ghost Value = { OutputConfig };

    ghost view = { λ c. record {
      workers = c.workers;
      standby = c.standby;
      limits = c.limits;
      acks = c.acks;
      login = arc_value c.login;
      few = c.few;
      has_primary = c.has_primary;
    } };
}

/// A copy of a key, if there is one.
fn key_of(alloc: Global, key: &Option<Bytes>) -> Result<Option<Bytes>, AllocError>
    ensures { IfOk result (λ copy. copy ≡ key.now) }
{
    match key {
        Some(key) => Ok(Some(key.to_owned(alloc)?)),
        None => Ok(None),
    }
}

/// A copy of a login.
fn login_of(alloc: Global, login: &Login) -> Result<Login, AllocError>
    ensures { IfOk result (λ copy. copy ≡ login.now) }
{
    let hostname = login.hostname.to_owned(alloc)?;
    let shared_key = key_of(alloc, &login.shared_key)?;
    let username = login.username.to_owned(alloc)?;
    let password = login.password.to_owned(alloc)?;
    Ok(Login {
        hostname,
        shared_key,
        username,
        password,
    })
}

impl LaneConfig {
    /// A copy of the settings, with a login that is shared. The only error is out of memory. A
    /// login that was moved into shared memory could not come back when memory is refused, since no
    /// contract of the kit says that it has no second owner.
    pub fn new(alloc: Global, config: &OutputConfig) -> Result<Self, AllocError>
        ensures { IfOk result (λ c. c ≡ config.now) }
    {
        let standby = config.standby.to_owned(alloc)?;
        let login = login_of(alloc, &config.login)?;
        let login = Arc::new(alloc, login)?;
        Ok(LaneConfig {
            workers: config.workers,
            standby,
            limits: config.limits,
            acks: config.acks,
            login,
        })
    }

    /// How many servers the output has.
    pub fn servers(&self) -> usize
        ensures { result ≡ length self.now.standby }
    {
        self.standby.len()
    }

    /// A session with one of the servers that begins at a moment (milliseconds). The only error is
    /// out of memory.
    pub fn session(
        &self,
        alloc: Global,
        server: u16,
        salt: &OwnedSalt,
        now: u64,
    ) -> Result<Session, AllocError>
        ensures { IfOk result (λ session. session
            ≡ session_begins (session_setup self.now server salt.now now)) }
    {
        let login = Arc::try_clone(&self.login)?;
        let salt = salt.try_clone(alloc)?;
        Ok(Session::up(alloc, server, login, salt, self.acks, now)?)
    }
}
