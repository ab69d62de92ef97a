//! What settings set the relay to.
#![tactic(auto)]

mod config;

pub use config::config_of;
