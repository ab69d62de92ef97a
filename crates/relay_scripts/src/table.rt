//! Joining as a plain table of all entries has it.

use fwd_chunks::Span;
use std::alloc::{AllocError, Global};

/// An entry that was admitted.
#[derive(Clone, Copy)]
struct Cell {
    tag: u8,
    /// Its bytes.
    size: u64,
    /// The number of its chunk.
    number: u64,
}

/// All entries in the order in which they came. No chunk is closed but by an entry of its tag that
/// does not fit.
#[derive(Drop)]
pub struct Table {
    cells: Vec<Cell>,
    /// The chunk limit, in bytes.
    limit: u64,
}

/// The bytes of a number's entries.
fn bytes_of(cells: &[Cell], number: u64) -> u64 {
    let mut bytes: u64 = 0;
    for cell in cells {
        if cell.number == number {
            bytes = bytes.saturating_add(cell.size);
        }
    }
    bytes
}

/// How many entries have a number.
fn count_of(cells: &[Cell], number: u64) -> u64 {
    cells.iter().filter(|cell| cell.number == number).count() as u64
}

/// The number of the last entry of a tag, and 0 where there is none.
fn last_of(cells: &[Cell], tag: u8) -> u64 {
    let mut last = 0;
    for cell in cells {
        if cell.tag == tag {
            last = cell.number;
        }
    }
    last
}

/// The greatest number, and 0 where there is none.
fn greatest_of(cells: &[Cell]) -> u64 {
    let mut greatest: u64 = 0;
    for cell in cells {
        greatest = greatest.max(cell.number);
    }
    greatest
}

impl Table {
    /// No entries, under a chunk limit in bytes.
    pub fn new(alloc: Global, limit: u64) -> Self {
        Table {
            cells: Vec::new(alloc),
            limit,
        }
    }

    /// The number of a new entry: that of the last entry of its tag, where the number's bytes with
    /// the new entry stay within the limit, and else one more than the greatest.
    fn number_of(&self, tag: u8, size: u64) -> u64 {
        let last = last_of(&self.cells, tag);
        let bytes = bytes_of(&self.cells, last).saturating_add(size);
        if last > 0 && bytes <= self.limit {
            last
        } else {
            greatest_of(&self.cells).saturating_add(1)
        }
    }

    /// Enters a tag's entries of these sizes, and answers their runs in chunks.
    pub fn join(
        &mut self,
        alloc: Global,
        tag: u8,
        sizes: &Vec<u64>,
    ) -> Result<Vec<Span>, AllocError> {
        let mut spans: Vec<Span> = Vec::new(alloc);
        for size in sizes {
            let number = self.number_of(tag, *size);
            let from = count_of(&self.cells, number);
            self.cells.push(Cell {
                tag,
                size: *size,
                number,
            })?;
            let span = Span {
                number,
                from,
                count: 1,
            };
            add_span(&mut spans, span)?;
        }
        Ok(spans)
    }
}

/// A run behind the others, or one more in the last of them.
fn add_span(spans: &mut Vec<Span>, span: Span) -> Result<(), AllocError> {
    if let Some(last) = spans.last_mut()
        && last.number == span.number
    {
        last.count = last.count.saturating_add(1);
        return Ok(());
    }
    spans.push(span)?;
    Ok(())
}
