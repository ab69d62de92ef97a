//! Files of settings, and how a check of them ends.

use fwd_script::check_file;
use std::env::Args;
use std::io;

/// Checks each file that the next words name, up to the word `--`, and prints what the check
/// writes, its exit status, and what is told of it.
pub fn print_settings(rt: &HostRuntime, words: &mut Args) -> io::Result<()> {
    println!(rt; "== settings")?;
    for _ in 0..u64::MAX {
        let Some(path) = words.next() else {
            break;
        };
        if path.as_str() == "--" {
            break;
        }
        let status = check_file(rt.alloc(), rt, path.as_str(), &mut rt.stdout());
        let code = status.exit_code();
        println!(rt; "{path}: {code} {status}")?;
    }
    Ok(())
}
