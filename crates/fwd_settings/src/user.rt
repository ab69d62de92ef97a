//! The users that sources log in as. Where no key is set, the list is refused before its members:
//! `user = [1]` is then out of range at `relay.user`, and with a key of a wrong kind at
//! `relay.user[0]`. No list is too long.

ghost use Rattle.std.specs.Prelude.{map};
ghost use Rattle.toml.specs.Data.{table as data_table};
ghost use Rattle.toml.specs.View.{view, table_view};
ghost use Rattle.fwd_settings.specs.Kinds.{Answers, each};
ghost use Rattle.fwd_settings.specs.Keys.{first, user_fault, user_settings, user_table};

use crate::fault::SettingsFault;
use crate::ranges::NAME_MAX;
use crate::section::Section;
use crate::settings::UserSettings;
use crate::table_path::{Flaw, TablePath};
use fwd_base::Seq;
use std::alloc::Global;
use toml::{Table, Value};

/// The settings in a user's table.
fn user_in(alloc: Global, user: usize, table: &Table) -> Result<UserSettings, SettingsFault>
    ensures { Answers (first (user_table user (table_view table.now)))
        (user_settings (data_table (table_view table.now))) result }
{
    let place = TablePath::User(user);
    let section = Section { place, table };
    let name = section.required_text(alloc, "name", 1, NAME_MAX)?;
    let password = section.required_text(alloc, "password", 1, NAME_MAX)?;
    Ok(UserSettings { name, password })
}

/// The settings of a user.
fn user_of(alloc: Global, user: usize, value: &Value) -> Result<UserSettings, SettingsFault>
    ensures { Answers (user_fault user (view value.now)) (user_settings (view value.now)) result }
{
    match value.as_table() {
        Some(table) => user_in(alloc, user, table),
        None => Err(TablePath::User(user).own_fault(alloc, Flaw::WrongKind)),
    }
}

/// The settings of the users.
#[tactic(auto, using(crate::proofs::ListLemmas::each_more, crate::proofs::ListLemmas::map_more))]
pub fn users_of(alloc: Global, values: &[Value]) -> Result<Seq<UserSettings>, SettingsFault>
    ensures { Answers (first (each user_fault 0 (map view values.now)))
        (map user_settings (map view values.now)) result }
{
    let mut users = Seq::new(alloc);
    for value in values {
        let user = user_of(alloc, users.len(), value)?;
        users.push(user)?;
    }
    Ok(users)
}
