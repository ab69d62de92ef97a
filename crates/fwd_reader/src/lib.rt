//! What a reading thread does with its sources: the connections that stand, who gives its place to
//! a new one, the outputs as a reader sees them, where a request goes and who may enter, which
//! tickets are due and who is told of receipts. What is proved here is that a request goes to the
//! output that the routes name first for its tag, and a ticket that shows it is kept there; that
//! sources are told of receipts of such tickets alone, and of each; and that each output is
//! reported once and so that it adds up.
#![tactic(auto)]

mod admission;
mod connections;
mod deadlines;
mod flush_timer;
mod monitors;
mod open_tickets;
mod output;
mod output_route;
mod page_parts;
mod peer;
mod reader_inboxes;
mod router;
mod subscribers;
mod ticket_list;
mod ticket_store;

pub use admission::SharedAdmission;
pub use connections::{Connections, Ready};
pub use flush_timer::FlushTimer;
pub use output::{Output, last_reports, reports_of, unasked_in};
pub use page_parts::{PageParts, tally_of};
pub use peer::Peer;
pub use reader_inboxes::{ReaderInbox, ReaderInboxes};
pub use router::{Router, RouterParts};
pub use subscribers::Subscribers;
