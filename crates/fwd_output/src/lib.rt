//! An output under its lock, which threads share: its chunks, the requests whose entries they have,
//! its servers, and the tickets and counters that its calls hand out and raise.
#![tactic(auto)]

mod chunk_starts;
mod collecting;
mod leaving;
mod locked;
mod lost_at;
mod offer;
mod output;
mod output_setup;
mod paged_output;
mod paged_source;
mod routed_request;
mod server_order;
mod server_set;
mod server_view;
mod shared;
mod tally;
mod ticket;
mod unasked_entries;
mod unsent_requests;

pub use collecting::Collected;
pub use fwd_book::AdmitRefusal;
pub use fwd_model::EndKind;
pub use leaving::{Leaving, leave};
pub use locked::{Closing, Locked};
pub use offer::{Found, Offer, PickedChunk};
pub use output::OutputState;
pub use output_setup::OutputSetup;
pub use paged_output::PagedOutput;
pub use paged_source::{Entrance, PagedSource};
pub use routed_request::RoutedRequest;
pub use server_order::ServerOrder;
pub use server_set::ServerSet;
pub use server_view::{ChunkSearch, ChunkUse, Look, ServerView};
pub use shared::SharedOutput;
pub use tally::{Ledgered, Plain, Seat, Tally, open};
pub use ticket::{Admitted, Ticket};
pub use unsent_requests::UnsentRequests;
