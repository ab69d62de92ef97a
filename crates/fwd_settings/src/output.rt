//! The outputs.

ghost use Rattle.std.specs.Prelude.{map};
ghost use Rattle.toml.specs.Data.{table as data_table};
ghost use Rattle.toml.specs.View.{view, table_view};
ghost use Rattle.fwd_settings.specs.Kinds.{Answers, each};
ghost use Rattle.fwd_settings.specs.Keys.{first, output_fault, output_settings, output_table, size_table, output_sizes, wait_table, output_waits, login_table, output_login, list_table, servers_in};

use crate::fault::SettingsFault;
use crate::ranges::{
    ACK_WAIT_DEFAULT, CHUNK_LIMIT_DEFAULT, CHUNK_LIMIT_MAX, FLUSH_INTERVAL_DEFAULT, NAME_MAX,
    RETRY_WAIT_DEFAULT, SERVERS_MAX, SHARED_KEY_MAX, TOTAL_LIMIT_DEFAULT, TOTAL_LIMIT_MAX,
    WAIT_MAX, WINDOW_DEFAULT, WINDOW_MAX, WORKERS_DEFAULT, WORKERS_MAX,
};
use crate::section::Section;
use crate::server::{check_usable, servers_of};
use crate::settings::{OutputSettings, ServerSettings};
use crate::table_path::{Flaw, TablePath};
use fwd_base::{Seq, Text};
use std::alloc::Global;
use toml::{Table, Value};

/// How much an output holds.
#[derive(Clone, Copy)]
struct Sizes {
    workers: u16,
    chunk_limit: u64,
    total_limit: u64,
}

/// How long an output waits, in milliseconds, and for how many chunks at a time.
#[derive(Clone, Copy)]
struct Waits {
    flush_interval: u64,
    retry_wait: u64,
    retry_max: u64,
    ack_wait: u64,
    window: u16,
}

/// How an output logs in.
#[derive(Drop)]
struct LoginSettings {
    hostname: Text,
    shared_key: Option<Text>,
    username: Text,
    password: Text,
}

/// The sizes in an output's table.
fn sizes_in(alloc: Global, output: usize, table: &Table) -> Result<Sizes, SettingsFault>
    ensures { let members = table_view table.now in
        Answers (first (size_table output members)) (output_sizes members) result }
{
    let place = TablePath::Output(output);
    let section = Section { place, table };
    let workers = section.count(alloc, "workers", 1, WORKERS_MAX, WORKERS_DEFAULT)?;
    let chunk_limit = section.number(
        alloc,
        "chunk_limit",
        1,
        CHUNK_LIMIT_MAX,
        CHUNK_LIMIT_DEFAULT,
    )?;
    let total_limit = section.number(
        alloc,
        "total_limit",
        1,
        TOTAL_LIMIT_MAX,
        TOTAL_LIMIT_DEFAULT,
    )?;
    Ok(Sizes {
        workers,
        chunk_limit,
        total_limit,
    })
}

/// The times in an output's table, and the window.
fn waits_in(alloc: Global, output: usize, table: &Table) -> Result<Waits, SettingsFault>
    ensures { let members = table_view table.now in
        Answers (first (wait_table output members)) (output_waits members) result }
{
    let place = TablePath::Output(output);
    let section = Section { place, table };
    let flush_interval = section.number(
        alloc,
        "flush_interval",
        0,
        WAIT_MAX,
        FLUSH_INTERVAL_DEFAULT,
    )?;
    let retry_wait = section.number(alloc, "retry_wait", 1, WAIT_MAX, RETRY_WAIT_DEFAULT)?;
    let retry_max = section.retry_max(alloc, retry_wait)?;
    let ack_wait = section.number(alloc, "ack_wait", 1, WAIT_MAX, ACK_WAIT_DEFAULT)?;
    let window = section.count(alloc, "window", 1, WINDOW_MAX, WINDOW_DEFAULT)?;
    Ok(Waits {
        flush_interval,
        retry_wait,
        retry_max,
        ack_wait,
        window,
    })
}

/// The names, the key and the password in an output's table.
fn login_in(alloc: Global, output: usize, table: &Table) -> Result<LoginSettings, SettingsFault>
    ensures { let members = table_view table.now in
        Answers (first (login_table output members)) (output_login members) result }
{
    let place = TablePath::Output(output);
    let section = Section { place, table };
    let hostname = section.text(alloc, "hostname", 1, NAME_MAX, "relay")?;
    let shared_key = section.optional_text(alloc, "shared_key", 1, SHARED_KEY_MAX)?;
    let username = section.text(alloc, "username", 0, NAME_MAX, "")?;
    let password = section.text(alloc, "password", 0, NAME_MAX, "")?;
    Ok(LoginSettings {
        hostname,
        shared_key,
        username,
        password,
    })
}

/// The servers in an output's table. The list's own range is judged first: how many there are,
/// and whether one of them is no standby.
fn servers_in(
    alloc: Global,
    output: usize,
    table: &Table,
) -> Result<Seq<ServerSettings>, SettingsFault>
    ensures { let members = table_view table.now in
        Answers (first (list_table output members)) (servers_in members) result }
{
    let place = TablePath::Output(output);
    let section = Section { place, table };
    let listed = section.required_list(alloc, "server", SERVERS_MAX)?;
    check_usable(alloc, output, listed)?;
    servers_of(alloc, output, listed)
}

/// The settings in an output's table.
fn output_in(alloc: Global, output: usize, table: &Table) -> Result<OutputSettings, SettingsFault>
    ensures { Answers (first (output_table output (table_view table.now)))
        (output_settings (data_table (table_view table.now))) result }
{
    let place = TablePath::Output(output);
    let section = Section { place, table };
    let pattern = section.required_pattern(alloc, "match")?;
    let sizes = sizes_in(alloc, output, table)?;
    let waits = waits_in(alloc, output, table)?;
    let login = login_in(alloc, output, table)?;
    let servers = servers_in(alloc, output, table)?;
    let full = section.when_full(alloc, "full")?;
    Ok(OutputSettings {
        pattern,
        workers: sizes.workers,
        chunk_limit: sizes.chunk_limit,
        total_limit: sizes.total_limit,
        flush_interval: waits.flush_interval,
        retry_wait: waits.retry_wait,
        retry_max: waits.retry_max,
        ack_wait: waits.ack_wait,
        window: waits.window,
        hostname: login.hostname,
        shared_key: login.shared_key,
        username: login.username,
        password: login.password,
        servers,
        full,
    })
}

/// The settings of an output.
fn output_of(alloc: Global, output: usize, value: &Value) -> Result<OutputSettings, SettingsFault>
    ensures { Answers (output_fault output (view value.now))
        (output_settings (view value.now)) result }
{
    match value.as_table() {
        Some(table) => output_in(alloc, output, table),
        None => Err(TablePath::Output(output).own_fault(alloc, Flaw::WrongKind)),
    }
}

/// The settings of the outputs.
#[tactic(auto, using(crate::proofs::ListLemmas::each_more, crate::proofs::ListLemmas::map_more))]
pub fn outputs_of(alloc: Global, values: &[Value]) -> Result<Seq<OutputSettings>, SettingsFault>
    ensures { Answers (first (each output_fault 0 (map view values.now)))
        (map output_settings (map view values.now)) result }
{
    let mut outputs = Seq::new(alloc);
    for value in values {
        let output = output_of(alloc, outputs.len(), value)?;
        outputs.push(output)?;
    }
    Ok(outputs)
}
