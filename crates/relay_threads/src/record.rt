//! What happened to a worker, in its order.

use std::alloc::{AllocError, Global};
use std::sync::{Arc, Mutex, Wait};

/// A text that a worker's gate, its hub and its links go on with.
#[derive(Drop)]
pub struct Record {
    text: Arc<Mutex<String>>,
}

impl Record {
    /// Nothing. The only error is out of memory.
    pub fn new(alloc: Global) -> Result<Record, AllocError> {
        let text = Arc::new(alloc, Mutex::new(String::new(alloc)))?;
        Ok(Record { text })
    }

    /// The same record, shared. The only error is out of memory.
    pub fn share(&self) -> Result<Record, AllocError> {
        let text = Arc::try_clone(&self.text)?;
        Ok(Record { text })
    }

    /// Goes on with a text, if there is memory for it.
    pub fn note<R: Wait>(&self, rt: &R, text: &str) {
        let mut guard = self.text.lock(rt);
        let all = &mut *guard;
        let _ = all.push_str(text);
    }

    /// Goes on with a text that was made, if there was memory for it.
    pub fn note_made<R: Wait>(&self, rt: &R, made: Result<String, AllocError>) {
        if let Ok(text) = made {
            self.note(rt, &text);
        }
    }

    /// All of it. The only error is out of memory.
    pub fn text<R: Wait>(&self, rt: &R) -> Result<String, AllocError> {
        let guard = self.text.lock(rt);
        let all = &*guard;
        all.clone()
    }
}
