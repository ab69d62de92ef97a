//! What is told of a scene.

use anyhow::Result;
use fwd_chunks::Report;
use std::alloc::Global;
use std::fmt::Debug;

/// A text, to which what is seen is appended, field by field.
#[derive(Drop)]
pub struct Transcript {
    pub text: String,
    /// What stands before the next field.
    before: &'static str,
}

impl Transcript {
    /// Nothing is told yet.
    pub fn new(alloc: Global) -> Transcript {
        Transcript {
            text: String::new(alloc),
            before: "",
        }
    }

    /// Appends a field.
    pub fn put<T: Debug>(&mut self, field: &str, value: &T) -> Result<()> {
        let before = self.before;
        write!(self.text, "{before}{field}: {value:?}")?;
        self.before = ", ";
        Ok(())
    }

    /// Begins with a title.
    pub fn begin(&mut self, title: &str) {
        let _ = self.text.push_str(title);
        self.before = ": ";
    }

    /// Appends what went wrong, if something did.
    pub fn note(&mut self, outcome: Result<()>) {
        if let Err(error) = outcome {
            let _ = write!(self.text, " failed: {error}");
        }
    }

    /// Appends what each output has to do with, in a line.
    pub fn put_counts(&mut self, reports: &[Report]) -> Result<()> {
        for report in reports {
            self.begin_line();
            self.put("counts", &report.counts)?;
        }
        Ok(())
    }

    /// The next field begins a line.
    pub fn begin_line(&mut self) {
        self.before = "\n  ";
    }
}
