//! Settings read from a text.

ghost use Rattle.std.specs.Prelude.{◌≡◌, ◌≢◌, IfOk, IfErr};
ghost use Rattle.toml.specs.View.{table_view};
ghost use Rattle.fwd_settings.specs.Kinds.{Answers};
ghost use Rattle.fwd_settings.specs.Keys.{first};
ghost use Rattle.fwd_settings.specs.Unknown.{unknown_fault};
ghost use Rattle.fwd_settings.specs.Whole as spec;

use crate::fault::SettingsFault;
use crate::output::outputs_of;
use crate::ranges::OUTPUTS_MAX;
use crate::relay::relay_of;
use crate::section::Section;
use crate::settings::Settings;
use crate::table_path::TablePath;
use crate::unknown::least_unknown;
use std::alloc::Global;
use toml::Table;

/// Whether each key is known.
fn check_known(alloc: Global, root: &Table) -> Result<(), SettingsFault>
    ensures { Answers (unknown_fault (table_view root.now)) tt result }
{
    match least_unknown(alloc, root)? {
        Some(key) => Err(SettingsFault::Unknown(key)),
        None => Ok(()),
    }
}

/// The settings in a document.
fn settings_in(alloc: Global, root: &Table) -> Result<Settings, SettingsFault>
    ensures { Answers (first (spec.root_table (table_view root.now)))
        (spec.root_settings (table_view root.now)) result }
{
    let section = Section {
        place: TablePath::Root,
        table: root,
    };
    let relay = relay_of(alloc, root)?;
    let listed = section.required_list(alloc, "output", OUTPUTS_MAX)?;
    let outputs = outputs_of(alloc, listed)?;
    check_known(alloc, root)?;
    Ok(Settings { relay, outputs })
}

/// The document that a text is.
#[tactic(auto, using(crate::proofs::DocumentLemmas::document_steps))]
fn document(alloc: Global, text: &[u8]) -> Result<Table, SettingsFault>
    ensures ok { IfOk result (λ root. spec.document_of text.now ≡ Some (table_view root)) }
    ensures fault { IfErr result (λ fault. fault ≢ SettingsFault.Memory →
        (fault ≡ SettingsFault.NotToml) × (spec.document_of text.now ≡ None)) }
{
    match toml::table_from_slice(alloc, text) {
        Ok(root) => Ok(root),
        Err(error) if error.is_memory() => Err(SettingsFault::Memory),
        Err(_) => Err(SettingsFault::NotToml),
    }
}

/// The settings of a TOML text, with the defaults where a key is absent. It answers the text's
/// first fault: that it is no TOML; then what is wrong with the keys in the order of their table,
/// the members of a list one after another; then the least unknown key. It never answers
/// `Unreadable`.
pub fn read_settings(alloc: Global, text: &[u8]) -> Result<Settings, SettingsFault>
    ensures { result ≢ Err SettingsFault.Memory → result ≡ spec.settings_of text.now }
{
    let root = document(alloc, text)?;
    settings_in(alloc, &root)
}
