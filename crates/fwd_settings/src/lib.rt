//! The relay's settings: a TOML text, its keys and their values.
#![tactic(auto)]

mod fault;
mod laws;
mod output;
pub mod ranges;
mod read;
mod relay;
mod section;
mod server;
mod settings;
mod table_path;
pub mod tables;
mod unknown;
mod user;
mod values;

pub use fault::SettingsFault;
pub use laws::{accepted_is_in_range, refusals_are_of_the_text};
pub use read::read_settings;
pub use settings::{
    ListenAddress, OutputSettings, RelaySettings, ServerSettings, Settings, UserSettings, WhenFull,
};
