use fwd_base::Text;

/// What the metrics page says of the process, where the system told it.
#[derive(Clone, Copy)]
pub struct ProcessFigures {
    /// The bytes of memory that it has.
    pub resident: Option<u64>,
    /// The files that it has open.
    pub open_files: Option<u64>,
    /// The most files that it may have open.
    pub most_files: Option<u64>,
    /// The processor's time that it took, in hundredths of a second.
    pub processor: Option<u64>,
    /// When it started, in hundredths of a second since 1970.
    pub start: Option<u64>,
}

impl ProcessFigures {
    /// The system told nothing.
    pub const UNKNOWN: ProcessFigures = ProcessFigures {
        resident: None,
        open_files: None,
        most_files: None,
        processor: None,
        start: None,
    };
}

/// What the metrics page says of the relay itself.
#[derive(Clone, Copy)]
pub struct Figures {
    /// When it started, in whole seconds since 1970, if the clock of the system told it.
    pub start: Option<u64>,
    /// The milliseconds since it started.
    pub uptime: u64,
    /// The sources that are connected.
    pub sources: u64,
    /// The most sources at a time.
    pub source_limit: u64,
    /// It was asked to stop, and delivers what it holds.
    pub is_draining: bool,
    /// The lines that the journal left out, and the events that could not be told.
    pub left_out: u64,
    /// Its process.
    pub process: ProcessFigures,
}

/// What the metrics page says of an output beside what it has to do with.
#[derive(Drop)]
pub struct OutputFigures {
    /// Its match pattern, as the settings have it.
    pub pattern: Text,
    /// The most bytes of entries that it holds.
    pub total_limit: u64,
    /// The whole seconds since its oldest chunk was begun that is not acknowledged, and 0 where it
    /// has no such chunk.
    pub oldest_age: u64,
    /// The sources whose next request waits until it can be taken.
    pub waiting_sources: u64,
    /// The bytes of the entries of those requests.
    pub waiting_bytes: u64,
}
