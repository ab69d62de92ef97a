//! The metrics that each output or tag has, by their names.

ghost use Rattle.std.specs.Prelude.{◌≡◌};
ghost use Rattle.fwd_monitor.specs.Metrics.{
  figure_help,
  figure_name,
  figure_of,
  measure_help,
  measure_kind,
  measure_name,
  measured,
  tag_measure_help,
  tag_measure_name,
  tag_measured,
};
ghost use Rattle.fwd_monitor.specs.Tallies.{
  count_help,
  count_name,
  counted,
  server_measure_help,
  server_measure_kind,
  server_measure_name,
};

use crate::figures::OutputFigures;
use crate::tally::OutputTally;
use fwd_base::{Counts, TagCount};

/// What the metrics page says of each output.
#[derive(Clone, Copy)]
pub(crate) enum Measure {
    Accepted,
    Settled,
    Held,
    HeldBytes,
    Chunks,
}

impl Measure {
    /// The metric's name.
    pub fn name(self) -> &'static str
        ensures { result.now ≡ measure_name self }
    {
        match self {
            Measure::Accepted => "forward_relay_accepted_entries_total",
            Measure::Settled => "forward_relay_settled_entries_total",
            Measure::Held => "forward_relay_held_entries",
            Measure::HeldBytes => "forward_relay_held_bytes",
            Measure::Chunks => "forward_relay_held_chunks",
        }
    }

    /// Its type.
    pub fn kind(self) -> &'static str
        ensures { result.now ≡ measure_kind self }
    {
        match self {
            Measure::Accepted | Measure::Settled => "counter",
            Measure::Held | Measure::HeldBytes | Measure::Chunks => "gauge",
        }
    }

    /// What it is.
    pub fn help(self) -> &'static str
        ensures { result.now ≡ measure_help self }
    {
        match self {
            Measure::Accepted => "Entries ever accepted.",
            Measure::Settled => "Entries acknowledged by the next hop.",
            Measure::Held => "Entries that are not settled.",
            Measure::HeldBytes => "Bytes of the entries that are not settled.",
            Measure::Chunks => "Chunks that have entries that are not settled.",
        }
    }

    /// Its value.
    pub fn of(self, counts: &Counts) -> u64
        ensures { result ≡ measured self counts.now }
    {
        match self {
            Measure::Accepted => counts.accepted,
            Measure::Settled => counts.settled,
            Measure::Held => counts.held,
            Measure::HeldBytes => counts.bytes,
            Measure::Chunks => counts.chunks,
        }
    }
}

/// What the metrics page says of each output beside that.
#[derive(Clone, Copy)]
pub(crate) enum OutputFigure {
    TotalLimit,
    OldestAge,
    WaitingSources,
    WaitingBytes,
}

impl OutputFigure {
    /// The metric's name.
    pub fn name(self) -> &'static str
        ensures { result.now ≡ figure_name self }
    {
        match self {
            OutputFigure::TotalLimit => "forward_relay_total_limit_bytes",
            OutputFigure::OldestAge => "forward_relay_oldest_chunk_age_seconds",
            OutputFigure::WaitingSources => "forward_relay_waiting_sources",
            OutputFigure::WaitingBytes => "forward_relay_waiting_bytes",
        }
    }

    /// What it is.
    pub fn help(self) -> &'static str
        ensures { result.now ≡ figure_help self }
    {
        match self {
            OutputFigure::TotalLimit => "The most bytes of entries that are not settled.",
            OutputFigure::OldestAge => "Seconds since the oldest chunk held was begun, or 0.",
            OutputFigure::WaitingSources => {
                "Sources whose next request waits until it can be taken."
            }
            OutputFigure::WaitingBytes => "Bytes of the entries of the requests that wait so.",
        }
    }

    /// Its value.
    pub fn of(self, figures: &OutputFigures) -> u64
        ensures { result ≡ figure_of self figures.now }
    {
        match self {
            OutputFigure::TotalLimit => figures.total_limit,
            OutputFigure::OldestAge => figures.oldest_age,
            OutputFigure::WaitingSources => figures.waiting_sources,
            OutputFigure::WaitingBytes => figures.waiting_bytes,
        }
    }
}

/// What the metrics page says of each tag.
#[derive(Clone, Copy)]
pub(crate) enum TagMeasure {
    Entries,
    EntryBytes,
}

impl TagMeasure {
    /// The metric's name.
    pub fn name(self) -> &'static str
        ensures { result.now ≡ tag_measure_name self }
    {
        match self {
            TagMeasure::Entries => "forward_relay_tag_held_entries",
            TagMeasure::EntryBytes => "forward_relay_tag_held_bytes",
        }
    }

    /// What it is.
    pub fn help(self) -> &'static str
        ensures { result.now ≡ tag_measure_help self }
    {
        match self {
            TagMeasure::Entries => "Entries of the tag that are not settled.",
            TagMeasure::EntryBytes => "Bytes of the entries of the tag that are not settled.",
        }
    }

    /// Its value.
    pub fn of(self, tag: &TagCount) -> u64
        ensures { result ≡ tag_measured self tag.now }
    {
        match self {
            TagMeasure::Entries => tag.held,
            TagMeasure::EntryBytes => tag.bytes,
        }
    }
}

/// What the metrics page counts of each output.
#[derive(Clone, Copy)]
pub(crate) enum OutputCount {
    WithoutAck,
    AcceptedBytes,
    SettledBytes,
    ChunksRefused,
}

impl OutputCount {
    /// The metric's name.
    pub fn name(self) -> &'static str
        ensures { result.now ≡ count_name self }
    {
        match self {
            OutputCount::WithoutAck => "forward_relay_accepted_without_ack_entries_total",
            OutputCount::AcceptedBytes => "forward_relay_accepted_bytes_total",
            OutputCount::SettledBytes => "forward_relay_settled_bytes_total",
            OutputCount::ChunksRefused => "forward_relay_chunks_refused_total",
        }
    }

    /// What it is.
    pub fn help(self) -> &'static str
        ensures { result.now ≡ count_help self }
    {
        match self {
            OutputCount::WithoutAck => {
                "Entries accepted of sources that asked for no acknowledgement."
            }
            OutputCount::AcceptedBytes => {
                "Bytes of the entries ever accepted, as total_limit counts them."
            }
            OutputCount::SettledBytes => {
                "Bytes of the entries acknowledged by the next hop, as total_limit counts them."
            }
            OutputCount::ChunksRefused => {
                "Losses of chunks that a server seems to refuse, as the journal tells them."
            }
        }
    }

    /// Its value.
    pub fn of(self, tally: &OutputTally) -> u64
        ensures { result ≡ counted self tally.now }
    {
        match self {
            OutputCount::WithoutAck => tally.without_ack,
            OutputCount::AcceptedBytes => tally.accepted_bytes,
            OutputCount::SettledBytes => tally.settled_bytes,
            OutputCount::ChunksRefused => tally.chunks_refused,
        }
    }
}

/// What the metrics page says of each server.
#[derive(Clone, Copy)]
pub(crate) enum ServerMeasure {
    Lost,
    Acknowledged,
    Resent,
    IsLost,
}

impl ServerMeasure {
    /// The metric's name.
    pub fn name(self) -> &'static str
        ensures { result.now ≡ server_measure_name self }
    {
        match self {
            ServerMeasure::Lost => "forward_relay_server_sessions_lost_total",
            ServerMeasure::Acknowledged => "forward_relay_server_acknowledged_chunks_total",
            ServerMeasure::Resent => "forward_relay_server_resent_chunks_total",
            ServerMeasure::IsLost => "forward_relay_server_lost",
        }
    }

    /// Its type.
    pub fn kind(self) -> &'static str
        ensures { result.now ≡ server_measure_kind self }
    {
        match self {
            ServerMeasure::Lost | ServerMeasure::Acknowledged | ServerMeasure::Resent => "counter",
            ServerMeasure::IsLost => "gauge",
        }
    }

    /// What it is.
    pub fn help(self) -> &'static str
        ensures { result.now ≡ server_measure_help self }
    {
        match self {
            ServerMeasure::Lost => "Sessions with the server that were lost, by why.",
            ServerMeasure::Acknowledged => "Chunks that the server acknowledged.",
            ServerMeasure::Resent => "Chunks under way in a session that was lost: sent again.",
            ServerMeasure::IsLost => "1 where the server was lost and acknowledged no chunk since.",
        }
    }
}
