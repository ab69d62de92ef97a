//! What is said of a file of settings: why it is refused, and what is lawful in it and foolish.
//! What is proved here is that the code is safe, that its loops end, that what is found are the
//! settings in a text, and that a file is checked as a text is.
#![tactic(auto)]

mod causes;
mod cautions;
mod checking;
mod file;
mod hints;
mod key_lines;
mod key_tables;
mod limit_cautions;
mod literals;
mod mending;
mod relay_cautions;
mod saying;
mod unreached;

pub use causes::{say_refused, say_unheard};
pub use checking::check_said;
pub use file::SettingsFile;
pub use relay_cautions::say_of_addresses;
pub use saying::say;
pub use unreached::add_patterns;
