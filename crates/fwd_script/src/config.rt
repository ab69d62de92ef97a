//! What a script's settings set the relay to.

ghost use Rattle.std.specs.Prelude.{◌≡◌, ◌≢◌, Err};
ghost use Rattle.fwd_script.specs.Configs.{settings_text, Configures};

use fwd_config::config_of;
use fwd_model::Config;
use fwd_settings::{SettingsFault, accepted_is_in_range, read_settings};
use std::alloc::Global;

/// What an empty text of settings stands for.
const ROW_SETTINGS: &[u8] = b"[relay]
run_id = \"000000000000\"
[[output]]
match = \"**\"
workers = 2
chunk_limit = 1000
total_limit = 100000
flush_interval = 1000
retry_wait = 500
retry_max = 4000
ack_wait = 10000
[[output.server]]
address = \"127.0.0.1:24225\"
[[output.server]]
address = \"127.0.0.1:24226\"
standby = true
";

/// The settings of a script.
#[tactic(auto, unfolding(crate::specs::Configs::row_text))]
fn settings_text(text: &[u8]) -> &[u8]
    ensures { result.now ≡ settings_text text.now }
{
    if text.is_empty() { ROW_SETTINGS } else { text }
}

/// What a script's text of settings sets the relay to: an empty text stands for one output of two
/// workers and two servers, which takes each tag. It answers the text's first fault. For `check` an
/// empty text is settings without an output.
pub fn read_config(alloc: Global, text: &[u8]) -> Result<Config, SettingsFault>
    ensures { result ≢ Err SettingsFault.Memory → Configures text.now result }
{
    accepted_is_in_range(); // for the proof
    let settings = read_settings(alloc, settings_text(text))?;
    Ok(config_of(alloc, settings)?)
}
