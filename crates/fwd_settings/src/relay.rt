//! The table `relay`.

ghost use Rattle.std.specs.Prelude.{◌≡◌, codes, is_some};
ghost use Rattle.toml.specs.Data.{get_member, no_members};
ghost use Rattle.fwd_settings.specs.Whole.{relay_fault};
ghost use Rattle.toml.specs.View.{table_view};
ghost use Rattle.fwd_settings.specs.Kinds.{Answers, Reads, setting_at};
ghost use Rattle.fwd_settings.specs.Keys.{first, identity_table, intake_table, message_limit, relay_identity, relay_intake, relay_settings, relay_table, shared_key, table_in, users_table};
ghost use Rattle.fwd_settings.specs.Keys as spec;
ghost use Rattle.fwd_settings.specs.Addresses.{home};

use crate::fault::SettingsFault;
use crate::ranges::{
    CONNECTIONS_DEFAULT, CONNECTIONS_MAX, DEPTH_DEFAULT, DEPTH_MAX, DEPTH_MIN,
    MESSAGE_LIMIT_DEFAULT, MESSAGE_LIMIT_MAX, MESSAGE_LIMIT_MIN, NAME_MAX, READERS_DEFAULT,
    READERS_MAX, SHARED_KEY_MAX, STOP_WAIT_DEFAULT, WAIT_MAX,
};
use crate::section::Section;
use crate::settings::{RelaySettings, UserSettings};
use crate::table_path::{Flaw, TablePath};
use crate::user::users_of;
use fwd_base::{Seq, Text};
use std::alloc::Global;
use std::net::{Ipv4Addr, SocketAddr, SocketAddrV4};
use toml::Table;

/// Who the relay is, and what of it is secret.
#[derive(Drop)]
struct Identity {
    hostname: Text,
    shared_key: Option<Text>,
    run_id: Option<[u8; 6]>,
    seed: Option<[u8; 32]>,
}

/// How much the relay takes of sources.
#[derive(Clone, Copy)]
struct SourceLimits {
    connections: u16,
    message_limit: u32,
    depth: u8,
    readers: u16,
}

/// 127.0.0.1:24224.
fn home() -> SocketAddr
    ensures { result ≡ home }
{
    SocketAddr::V4(SocketAddrV4::new(Ipv4Addr::new(127, 0, 0, 1), 24224))
}

/// How long a value of a source may be, in bytes.
fn message_limit_in(alloc: Global, relay: &Section<'_>) -> Result<u32, SettingsFault>
    ensures { Reads relay.now.place (table_view relay.now.table.now) message_limit result }
{
    let (least, most) = (MESSAGE_LIMIT_MIN, MESSAGE_LIMIT_MAX);
    match relay.number(alloc, "message_limit", least, most, MESSAGE_LIMIT_DEFAULT) {
        Ok(limit) => Ok(limit as u32),
        Err(fault) => Err(fault),
    }
}

/// Who the relay is, by the table `relay`.
fn identity_in(alloc: Global, table: &Table) -> Result<Identity, SettingsFault>
    ensures { let members = table_view table.now in
        Answers (first (identity_table members)) (relay_identity members) result }
{
    let place = TablePath::Relay;
    let relay = Section { place, table };
    let hostname = relay.text(alloc, "hostname", 1, NAME_MAX, "relay")?;
    let shared_key = relay.optional_text(alloc, "shared_key", 1, SHARED_KEY_MAX)?;
    let run_id = relay.digits(alloc, "run_id")?;
    let seed = relay.digits(alloc, "seed")?;
    Ok(Identity {
        hostname,
        shared_key,
        run_id,
        seed,
    })
}

/// How much the relay takes of sources, by the table `relay`.
fn intake_in(alloc: Global, table: &Table) -> Result<SourceLimits, SettingsFault>
    ensures { let members = table_view table.now in
        Answers (first (intake_table members)) (relay_intake members) result }
{
    let place = TablePath::Relay;
    let relay = Section { place, table };
    let connections = relay.count(
        alloc,
        "connections",
        1,
        CONNECTIONS_MAX,
        CONNECTIONS_DEFAULT,
    )?;
    let message_limit = message_limit_in(alloc, &relay)?;
    let depth = relay.count(alloc, "depth", DEPTH_MIN, DEPTH_MAX, DEPTH_DEFAULT)?;
    let readers = relay.count(alloc, "readers", 1, READERS_MAX, READERS_DEFAULT)?;
    Ok(SourceLimits {
        connections,
        message_limit,
        depth: depth as u8,
        readers,
    })
}

/// The users in the table `relay`, which may only be there where there is a key.
fn users_in(alloc: Global, table: &Table, has_key: bool) -> Result<Seq<UserSettings>, SettingsFault>
    requires { has_key ≡ is_some (setting_at (table_view table.now) shared_key) }
    ensures { let members = table_view table.now in
        Answers (first (users_table members)) (spec.users_in members) result }
{
    let place = TablePath::Relay;
    let relay = Section { place, table };
    let listed = relay.optional_list(alloc, "user", has_key)?;
    users_of(alloc, listed)
}

/// The settings in the table `relay`.
fn relay_in(alloc: Global, table: &Table) -> Result<RelaySettings, SettingsFault>
    ensures { Answers (first (relay_table (table_view table.now)))
        (relay_settings (table_view table.now)) result }
{
    let place = TablePath::Relay;
    let relay = Section { place, table };
    let listen = relay.listen_or(alloc, "listen", home())?;
    let monitor = relay.address(alloc, "monitor")?;
    let identity = identity_in(alloc, table)?;
    let intake = intake_in(alloc, table)?;
    let users = users_in(alloc, table, identity.shared_key.is_some())?;
    let metrics = relay.flag(alloc, "metrics", false)?;
    let idle_limit = relay.optional_number(alloc, "idle_limit", 1, WAIT_MAX)?;
    let control = relay.optional_path(alloc, "control")?;
    let stop_wait = relay.number(alloc, "stop_wait", 1, WAIT_MAX, STOP_WAIT_DEFAULT)?;
    Ok(RelaySettings {
        listen,
        monitor,
        hostname: identity.hostname,
        shared_key: identity.shared_key,
        run_id: identity.run_id,
        seed: identity.seed,
        connections: intake.connections,
        message_limit: intake.message_limit,
        depth: intake.depth,
        readers: intake.readers,
        users,
        metrics,
        idle_limit,
        control,
        stop_wait,
    })
}

/// A table with no key.
fn empty(alloc: Global) -> Table
    ensures { table_view result ≡ no_members }
{
    Table::new(alloc)
}

/// The settings of the relay: with no table, the defaults.
pub fn relay_of(alloc: Global, root: &Table) -> Result<RelaySettings, SettingsFault>
    ensures { let members = table_view root.now in
        Answers (relay_fault (get_member (codes "relay") members))
        (relay_settings (table_in (codes "relay") members)) result }
{
    let section = Section {
        place: TablePath::Root,
        table: root,
    };
    let Some(value) = section.get("relay") else {
        let nothing = empty(alloc);
        return relay_in(alloc, &nothing);
    };
    match value.as_table() {
        Some(table) => relay_in(alloc, table),
        None => Err(TablePath::Relay.own_fault(alloc, Flaw::WrongKind)),
    }
}
