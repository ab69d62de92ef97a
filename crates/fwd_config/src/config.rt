//! What settings set the relay to. `IsConfig` is a relation, since what a source has to prove
//! carries the proof that its hostname fits a str. A definition by tests would not have that proof.

ghost use Rattle.std.specs.Prelude.{
  ◌≡◌,
  ◌≤◌,
  ◌^◌,
  ◌<◌,
  true,
  [],
  map,
  length,
  vec_len,
  vec_capacity,
  IfOk,
  IfErr,
};
ghost use Rattle.std.specs.List.{list_all};
ghost use Rattle.fwd_settings.specs.Ranges.{in_range, output_in_range, relay_in_range};
ghost use Rattle.fwd_config.specs.Configs.{parts_known, parts_set, user_of, IsConfig};

use fwd_base::{Bytes, Seq, Text};
use fwd_handshake::{Login, Security, User};
use fwd_match::{Pattern, Routes};
use fwd_model::{AckTerms, BufferLimits, Config, OutputConfig};
use fwd_msgpack::Limits;
use fwd_settings::{OutputSettings, RelaySettings, ServerSettings, Settings, UserSettings};
use std::alloc::{AllocError, AllocFailed, Global};

/// Which servers are standbys.
fn standbys_of(alloc: Global, servers: &[ServerSettings]) -> Result<Vec<bool>, AllocError>
    ensures { IfOk result (λ list. list.items ≡ map (λ s. s.standby) servers.now) }
{
    servers.iter().map(|server| server.standby).collect(alloc)
}

/// What an output proves to its servers.
fn login_of(alloc: Global, output: &OutputSettings) -> Result<Login, AllocError>
    requires { output_in_range output.now ≡ true }
    ensures hostname { IfOk result (λ login. login.hostname ≡ output.now.hostname) }
    ensures key { IfOk result (λ login. login.shared_key ≡ output.now.shared_key) }
    ensures username { IfOk result (λ login. login.username ≡ output.now.username) }
    ensures password { IfOk result (λ login. login.password ≡ output.now.password) }
{
    let hostname = bytes_of(alloc, &output.hostname)?;
    let shared_key = key_of(alloc, &output.shared_key)?;
    let username = bytes_of(alloc, &output.username)?;
    let password = bytes_of(alloc, &output.password)?;
    Ok(Login {
        hostname,
        shared_key,
        username,
        password,
    })
}

/// What an output is set to.
fn config_for(alloc: Global, output: &OutputSettings) -> Result<OutputConfig, AllocError>
    requires { output_in_range output.now ≡ true }
    ensures { IfOk result (λ config. parts_known config ≡ parts_set output.now) }
{
    let standby = standbys_of(alloc, output.servers.as_slice())?;
    let login = login_of(alloc, output)?;
    Ok(OutputConfig {
        workers: output.workers,
        standby: Seq::from_vec(standby),
        limits: BufferLimits {
            chunk: output.chunk_limit as u32,
            total: output.total_limit,
            interval: output.flush_interval,
            retry_wait: output.retry_wait,
            retry_max: output.retry_max,
            first: 1,
        },
        acks: AckTerms {
            window: output.window as u8,
            ack_wait: output.ack_wait,
        },
        login,
    })
}

/// What each output is set to.
fn configs_of(alloc: Global, outputs: &[OutputSettings]) -> Result<Vec<OutputConfig>, AllocError>
    requires { list_all output_in_range outputs.now ≡ true }
    ensures parts { IfOk result (λ configs.
        map parts_known configs.items ≡ map parts_set outputs.now) }
    ensures count { IfOk result (λ configs. length configs.items ≡ length outputs.now) }
{
    let mut configs = Vec::new(alloc);
    for output in outputs {
        configs.push(config_for(alloc, output)?)?;
    }
    Ok(configs)
}

/// The pattern of each output, in room that was made for them.
fn patterns_of(room: Vec<Pattern>, mut outputs: Vec<OutputSettings>) -> Vec<Pattern>
    requires empty { room.items ≡ [] }
    requires fits { length outputs.items ≤ vec_capacity room }
    ensures items { result.items ≡ map (λ o. o.pattern) outputs.items }
    ensures len { vec_len result ≡ length outputs.items }
{
    let mut patterns = room;
    while !outputs.is_empty() {
        let output = outputs.remove(0);
        patterns.push_reserved(output.pattern);
    }
    patterns
}

/// A text as bytes.
fn bytes_of(alloc: Global, text: &Text) -> Result<Bytes, AllocError>
    ensures { IfOk result (λ bytes. bytes ≡ text.now) }
{
    Bytes::from_slice(alloc, text.as_str().as_bytes())
}

/// A user that a source may log in as.
fn user_for(alloc: Global, user: &UserSettings) -> Result<User, AllocError>
    ensures { IfOk result (λ u. u ≡ user_of user.now) }
{
    Ok(User {
        name: bytes_of(alloc, &user.name)?,
        password: bytes_of(alloc, &user.password)?,
    })
}

/// The users that sources log in as.
fn users_of(alloc: Global, users: &[UserSettings]) -> Result<Vec<User>, AllocError>
    ensures { IfOk result (λ list. list.items ≡ map user_of users.now) }
{
    let mut list = Vec::new(alloc);
    for user in users {
        list.push(user_for(alloc, user)?)?;
    }
    Ok(list)
}

/// The key that sources have to know, if there is one.
fn key_of(alloc: Global, key: &Option<Text>) -> Result<Option<Bytes>, AllocError>
    ensures { IfOk result (λ copy. copy ≡ key.now) }
{
    match key {
        Some(key) => Ok(Some(bytes_of(alloc, key)?)),
        None => Ok(None),
    }
}

/// What a source has to prove.
fn security_of(alloc: Global, relay: &RelaySettings) -> Result<Security, AllocError>
    requires { relay_in_range relay.now ≡ true }
    ensures hostname { IfOk result (λ s. s.hostname ≡ relay.now.hostname) }
    ensures key { IfOk result (λ s. s.shared_key ≡ relay.now.shared_key) }
    ensures users { IfOk result (λ s. s.users ≡ map user_of relay.now.users) }
{
    let hostname = bytes_of(alloc, &relay.hostname)?;
    let shared_key = key_of(alloc, &relay.shared_key)?;
    let users = users_of(alloc, relay.users.as_slice())?;
    Ok(Security {
        hostname,
        shared_key,
        users: Seq::from_vec(users),
    })
}

/// What is made of settings before their patterns are moved.
#[derive(Drop)]
struct Made {
    security: Security,
    outputs: Vec<OutputConfig>,
    /// Room for the patterns.
    room: Vec<Pattern>,
}

/// What is made of settings before their patterns are moved: all that takes memory.
fn made_of(alloc: Global, settings: &Settings) -> Result<Made, AllocError>
    requires { in_range settings.now ≡ true }
    ensures hostname { IfOk result (λ m. m.security.hostname ≡ settings.now.relay.hostname) }
    ensures key { IfOk result (λ m. m.security.shared_key ≡ settings.now.relay.shared_key) }
    ensures users { IfOk result (λ m. m.security.users ≡ map user_of settings.now.relay.users) }
    ensures parts { IfOk result (λ m.
        map parts_known m.outputs.items ≡ map parts_set settings.now.outputs) }
    ensures count { IfOk result (λ m. length m.outputs.items ≡ length settings.now.outputs) }
    ensures empty { IfOk result (λ m. m.room.items ≡ []) }
    ensures fits { IfOk result (λ m. vec_capacity m.room ≡ length settings.now.outputs) }
{
    let security = security_of(alloc, &settings.relay)?;
    let outputs = configs_of(alloc, settings.outputs.as_slice())?;
    let room = Vec::with_capacity(alloc, settings.outputs.len())?;
    Ok(Made {
        security,
        outputs,
        room,
    })
}

/// What settings set the relay to. Without a run id it is zeros. The only error is out of memory,
/// and then the settings come back.
pub fn config_of(alloc: Global, settings: Settings) -> Result<Config, AllocFailed<Settings>>
    requires { in_range settings ≡ true }
    ensures ok { IfOk result (λ config. IsConfig settings config) }
    ensures err { IfErr result (λ failed. failed.value ≡ settings) }
{
    let run = settings.relay.run_id.unwrap_or([0; 6]);
    let limits = Limits {
        bytes: settings.relay.message_limit,
        depth: settings.relay.depth,
    };
    let Ok(made) = made_of(alloc, &settings) else {
        return Err(AllocFailed { value: settings });
    };
    let patterns = patterns_of(made.room, settings.outputs.into_vec());
    Ok(Config {
        run,
        routes: Routes::new(patterns),
        security: made.security,
        limits,
        outputs: Seq::from_vec(made.outputs),
    })
}
