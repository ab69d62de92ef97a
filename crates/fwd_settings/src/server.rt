//! The servers of an output.

ghost use Rattle.std.specs.Prelude.{◌≡◌, map};
ghost use Rattle.std.specs.List.{list_all};
ghost use Rattle.toml.specs.Data.{table as data_table};
ghost use Rattle.toml.specs.View.{view, table_view};
ghost use Rattle.fwd_settings.specs.Kinds.{Answers, each};
ghost use Rattle.fwd_settings.specs.Keys.{first, is_standby, standby_fault, server_fault, server_settings, server_table};

use crate::fault::SettingsFault;
use crate::section::Section;
use crate::settings::ServerSettings;
use crate::table_path::{Flaw, TablePath};
use crate::values::is_true;
use fwd_base::Seq;
use std::alloc::Global;
use toml::{Table, Value};

/// The settings in a server's table.
fn server_in(
    alloc: Global,
    output: usize,
    server: usize,
    table: &Table,
) -> Result<ServerSettings, SettingsFault>
    ensures { Answers (first (server_table output server (table_view table.now)))
        (server_settings (data_table (table_view table.now))) result }
{
    let place = TablePath::Server(output, server);
    let section = Section { place, table };
    let address = section.required_address(alloc, "address")?;
    let standby = section.flag(alloc, "standby", false)?;
    Ok(ServerSettings { address, standby })
}

/// The settings of a server.
fn server_of(
    alloc: Global,
    output: usize,
    server: usize,
    value: &Value,
) -> Result<ServerSettings, SettingsFault>
    ensures { Answers (server_fault output server (view value.now))
        (server_settings (view value.now)) result }
{
    match value.as_table() {
        Some(table) => server_in(alloc, output, server, table),
        None => Err(TablePath::Server(output, server).own_fault(alloc, Flaw::WrongKind)),
    }
}

/// Whether a member of the list counts as a standby: its `standby` is true, whatever else is
/// wrong with it.
fn is_standby(value: &Value) -> bool
    ensures { result ≡ is_standby (view value.now) }
{
    match value.as_table() {
        Some(table) => is_true(table.get("standby")),
        None => false,
    }
}

/// Whether all of the members count as standbys.
fn are_standbys(values: &[Value]) -> bool
    ensures { result ≡ list_all (λ value. is_standby (view value)) values.now }
{
    values.iter().all(|value| is_standby(value))
}

/// Whether one of the members counts as no standby.
#[tactic(auto, using(crate::proofs::ListLemmas::all_viewed))]
pub fn check_usable(alloc: Global, output: usize, values: &[Value]) -> Result<(), SettingsFault>
    ensures { Answers (standby_fault output (map view values.now)) tt result }
{
    if are_standbys(values) {
        Err(TablePath::Output(output).fault(alloc, "server", Flaw::OutOfRange))
    } else {
        Ok(())
    }
}

/// The settings of an output's servers.
#[tactic(auto, using(crate::proofs::ListLemmas::each_more, crate::proofs::ListLemmas::map_more))]
pub fn servers_of(
    alloc: Global,
    output: usize,
    values: &[Value],
) -> Result<Seq<ServerSettings>, SettingsFault>
    ensures { Answers (first (each (server_fault output) 0 (map view values.now)))
        (map server_settings (map view values.now)) result }
{
    let mut servers = Seq::new(alloc);
    for value in values {
        let server = server_of(alloc, output, servers.len(), value)?;
        servers.push(server)?;
    }
    Ok(servers)
}
