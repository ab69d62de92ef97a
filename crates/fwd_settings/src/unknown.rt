//! Keys that no table has. Keys are compared as they are written, by all their bytes:
//! `output[12].z` is less than `output[1].b`. An unknown table is one key.

ghost use Rattle.std.specs.Prelude.{◌≡◌, [], ◌∷◌, map, IfOk, codes, Some};
ghost use Rattle.std.specs.List.{cons_option, list_any};
ghost use Rattle.std.specs.Str.{bytes_eq};
ghost use Rattle.toml.specs.View.{view, table_view};
ghost use Rattle.fwd_settings.specs.Kinds.{list_in};
ghost use Rattle.fwd_settings.specs.Keys.{table_in};
ghost use Rattle.fwd_settings.specs.Unknown as spec;

use crate::section::Section;
use crate::table_path::TablePath;
use crate::tables::{KeyRule, TableKind};
use crate::values::array_in;
use fwd_base::Text;
use std::alloc::{AllocError, Global};
use toml::{Table, Value};

/// The least of a key and of one more, if there is one.
#[tactic(auto, using(crate::proofs::LeastLemmas::lesser_steps))]
fn lesser(least: Option<Text>, key: Text) -> Text
    ensures { spec.least (cons_option least (key ∷ [])) ≡ Some result }
{
    let Some(least) = least else {
        return key;
    };
    if key.as_str().cmp(&least.as_str()).is_lt() {
        key
    } else {
        least
    }
}

/// Whether a key has this name.
fn is_named(rule: &KeyRule, name: &str) -> bool
    ensures { result ≡ bytes_eq rule.now.name.now name.now }
{
    rule.name == name
}

/// Whether one of these keys has this name.
fn is_among(rules: &[KeyRule], name: &str) -> bool
    ensures { result ≡ list_any (λ rule. bytes_eq rule.name.now name.now) rules.now }
{
    rules.iter().any(|rule| is_named(rule, name))
}

/// Whether a name is that of none of these keys.
#[tactic(auto, using(crate::proofs::UnknownLemmas::any_shown))]
fn is_unknown(rules: &[KeyRule], name: &str) -> bool
    ensures { result ≡ spec.is_unknown (map (λ rule. rule.name.now) rules.now) name.now }
{
    !is_among(rules, name)
}

/// The least of the keys of a table that are none of these, and of one key more.
#[tactic(auto, using(crate::proofs::UnknownLemmas::name_steps))]
fn least_under(
    alloc: Global,
    place: TablePath,
    rules: &[KeyRule],
    table: &Table,
    least: Option<Text>,
) -> Result<Option<Text>, AllocError>
    ensures { IfOk result (λ key. let known = map (λ rule. rule.name.now) rules.now in
        key ≡ spec.least
        (cons_option least (spec.unknown_under place known (table_view table.now)))) }
{
    let mut least = least;
    for name in table.keys() {
        if is_unknown(rules, name.as_str()) {
            let key = place.key(alloc, name.as_str())?;
            least = Some(lesser(least, key));
        }
    }
    Ok(least)
}

/// The members of the list under a name: none if there is no such list.
fn members_of<'a>(table: &'a Table, place: TablePath, name: &str) -> &'a [Value]
    ensures { map view result.now ≡ list_in name.now (table_view table.now) }
{
    let section = Section { place, table };
    match section.get(name) {
        Some(value) => array_in(value).unwrap_or(&[]),
        None => &[],
    }
}

/// The least of the unknown keys of a user, and of one key more.
#[tactic(auto, using(crate::proofs::LeastLemmas::least_alone))]
fn least_in_user(
    alloc: Global,
    user: usize,
    value: &Value,
    least: Option<Text>,
) -> Result<Option<Text>, AllocError>
    ensures { IfOk result (λ key.
        key ≡ spec.least (cons_option least (spec.unknown_in_user user (view value.now)))) }
{
    match value.as_table() {
        Some(table) => least_under(
            alloc,
            TablePath::User(user),
            TableKind::User.rules(),
            table,
            least,
        ),
        None => Ok(least),
    }
}

/// The least of the unknown keys of some users, and of one key more.
#[tactic(auto, using(crate::proofs::LeastLemmas::each_steps))]
fn least_in_users(
    alloc: Global,
    values: &[Value],
    least: Option<Text>,
) -> Result<Option<Text>, AllocError>
    ensures { IfOk result (λ key.
        key ≡ spec.least (cons_option least (spec.unknown_in_users 0 (map view values.now)))) }
{
    let mut least = least;
    for user in 0..values.len() {
        least = least_in_user(alloc, user, &values[user], least)?;
    }
    Ok(least)
}

/// The least of the unknown keys of a server, and of one key more.
#[tactic(auto, using(crate::proofs::LeastLemmas::least_alone))]
fn least_in_server(
    alloc: Global,
    output: usize,
    server: usize,
    value: &Value,
    least: Option<Text>,
) -> Result<Option<Text>, AllocError>
    ensures { IfOk result (λ key.
        key
        ≡ spec.least
        (cons_option least (spec.unknown_in_server output server (view value.now)))) }
{
    match value.as_table() {
        Some(table) => least_under(
            alloc,
            TablePath::Server(output, server),
            TableKind::Server.rules(),
            table,
            least,
        ),
        None => Ok(least),
    }
}

/// The least of the unknown keys of some servers, and of one key more.
#[tactic(auto, using(crate::proofs::LeastLemmas::each_steps))]
fn least_in_servers(
    alloc: Global,
    output: usize,
    values: &[Value],
    least: Option<Text>,
) -> Result<Option<Text>, AllocError>
    ensures { IfOk result (λ key.
        key
        ≡ spec.least
        (cons_option least (spec.unknown_in_servers output 0 (map view values.now)))) }
{
    let mut least = least;
    for server in 0..values.len() {
        least = least_in_server(alloc, output, server, &values[server], least)?;
    }
    Ok(least)
}

/// The least of the unknown keys of an output, and of one key more.
#[tactic(auto, using(crate::proofs::LeastLemmas::onward_steps))]
fn least_in_output(
    alloc: Global,
    output: usize,
    value: &Value,
    least: Option<Text>,
) -> Result<Option<Text>, AllocError>
    ensures { IfOk result (λ key.
        key ≡ spec.least (cons_option least (spec.unknown_in_output output (view value.now)))) }
{
    let Some(table) = value.as_table() else {
        return Ok(least);
    };
    let place = TablePath::Output(output);
    let least = least_under(alloc, place, TableKind::Output.rules(), table, least)?;
    least_in_servers(alloc, output, members_of(table, place, "server"), least)
}

/// The least of the unknown keys of some outputs, and of one key more.
#[tactic(auto, using(crate::proofs::LeastLemmas::each_steps))]
fn least_in_outputs(
    alloc: Global,
    values: &[Value],
    least: Option<Text>,
) -> Result<Option<Text>, AllocError>
    ensures { IfOk result (λ key.
        key ≡ spec.least (cons_option least (spec.unknown_in_outputs 0 (map view values.now)))) }
{
    let mut least = least;
    for output in 0..values.len() {
        least = least_in_output(alloc, output, &values[output], least)?;
    }
    Ok(least)
}

/// The least of the unknown keys of the table `relay`, and of one key more.
#[tactic(auto, using(crate::proofs::LeastLemmas::least_onward))]
fn least_in_relay_table(
    alloc: Global,
    relay: &Table,
    least: Option<Text>,
) -> Result<Option<Text>, AllocError>
    ensures { IfOk result (λ key.
        key ≡ spec.least (cons_option least (spec.unknown_in_relay (table_view relay.now)))) }
{
    let least = least_under(
        alloc,
        TablePath::Relay,
        TableKind::Relay.rules(),
        relay,
        least,
    )?;
    least_in_users(alloc, members_of(relay, TablePath::Relay, "user"), least)
}

/// The same, where there is such a table.
#[tactic(auto, using(crate::proofs::LeastLemmas::least_alone))]
fn least_in_relay(
    alloc: Global,
    root: &Table,
    least: Option<Text>,
) -> Result<Option<Text>, AllocError>
    ensures { IfOk result (λ key. let relay = table_in (codes "relay") (table_view root.now) in
        key ≡ spec.least (cons_option least (spec.unknown_in_relay relay))) }
{
    let section = Section {
        place: TablePath::Root,
        table: root,
    };
    let Some(value) = section.get("relay") else {
        return Ok(least);
    };
    match value.as_table() {
        Some(relay) => least_in_relay_table(alloc, relay, least),
        None => Ok(least),
    }
}

/// The least unknown key of all.
#[tactic(auto, using(crate::proofs::LeastLemmas::least_append))]
pub fn least_unknown(alloc: Global, root: &Table) -> Result<Option<Text>, AllocError>
    ensures { IfOk result (λ key. key ≡ spec.least (spec.unknown_keys (table_view root.now))) }
{
    let least = least_under(alloc, TablePath::Root, TableKind::Root.rules(), root, None)?;
    let least = least_in_relay(alloc, root, least)?;
    least_in_outputs(alloc, members_of(root, TablePath::Root, "output"), least)
}
