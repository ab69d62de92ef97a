//! What environments ask for.

ghost use Rattle.std.specs.Io.{WritesAtMost};

use fwd_journal::asked_log;
use std::env::{Env, FillError};

/// An environment of one variable.
#[derive(Clone, Copy)]
struct Variable<'a> {
    name: &'a str,
    value: &'a str,
}

/// Bytes at the front of a buffer.
fn fill(bytes: &[u8], buf: &mut [u8]) -> Result<usize, FillError>
    ensures { WritesAtMost result buf.new }
{
    match buf.get_mut(..bytes.len()) {
        Some(front) => {
            front.copy_from_slice(bytes);
            Ok(bytes.len())
        }
        None => Err(FillError::TooLong),
    }
}

impl<'a> Env for Variable<'a> {
    fn arg(&self, _i: usize, _buf: &mut [u8]) -> Result<usize, FillError> {
        Err(FillError::NotPresent)
    }

    fn var(&self, name: &str, buf: &mut [u8]) -> Result<usize, FillError> {
        if name == self.name {
            fill(self.value.as_bytes(), buf)
        } else {
            Err(FillError::NotPresent)
        }
    }

    fn var_at(&self, _i: usize, _buf: &mut [u8]) -> Result<usize, FillError> {
        Err(FillError::NotPresent)
    }
}

/// What environments have.
static VARIABLES: [Variable<'static>; 6] = [
    Variable {
        name: "FORWARD_RELAY_LOG",
        value: "info",
    },
    Variable {
        name: "FORWARD_RELAY_LOG",
        value: "Info",
    },
    Variable {
        name: "FORWARD_RELAY_LOG",
        value: "",
    },
    Variable {
        name: "FORWARD_RELAY_LOG",
        value: "info ",
    },
    Variable {
        name: "FORWARD_RELAY_LOG",
        value: "debug",
    },
    Variable {
        name: "LOG",
        value: "info",
    },
];

/// Says what each environment asks for.
pub fn say_asked(rt: &(impl Print + AllocGlobal)) {
    for variable in &VARIABLES {
        let Variable { name, value } = *variable;
        let log = asked_log(&(*variable, rt.alloc()));
        let _ = println!(rt; "{name}={value}: {log:?}");
    }
}
