//! Lines, and whether they are an event's.

use fwd_script::read_event;
use std::io;

/// Prints of each line on standard input whether it is an event's line; which event it is the
/// contract of `read_event` says.
pub fn print_lines(rt: &HostRuntime) -> io::Result<()> {
    println!(rt; "== lines")?;
    for line in rt.lines(rt.alloc()) {
        let line = line?;
        let word = match read_event(rt.alloc(), line.as_bytes())? {
            Some(_) => "event",
            None => "none",
        };
        println!(rt; "{word} {line}")?;
    }
    Ok(())
}
