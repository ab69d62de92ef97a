//! Scripts as text: what a line of a script means, and what the line of an answer says.
#![tactic(auto)]

mod checking;
mod config;
mod event;
mod input;
mod output;
mod program;
mod reading;
mod run;
mod script;
mod status;
mod stepping;
mod text;
mod values;
mod word;
mod writing;

pub use checking::{check, check_file, settings_in};
pub use config::read_config;
pub use event::{events_are_text, one_form, one_spelling, read_event};
pub use output::write_all;
pub use program::{Command, End, asked, buffered, run_program, tell, words};
pub use run::{replay, told_line_is_delivered};
pub use script::split_script;
pub use status::Status;
pub use stepping::{Step, bad_line_is_first};
pub use text::{print_answer, session_fault_name, source_fault_name};
pub use word::number;
pub use writing::{WriteFailed, flush};
