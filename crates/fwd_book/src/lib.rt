//! Who is to be told that all entries of its request were acknowledged, and on what evidence; and
//! why a request is not admitted.
#![tactic(auto)]

mod book;
mod chunk_refs;
mod connection_index;
mod entered_request;
mod laws;
mod receipt;
mod refusal;
mod requests;
mod slot_order;

pub use book::Book;
pub use laws::{due_is_found, live_follows, origins_are_enough, receipts_are_right, stays_sound};
pub use receipt::Receipt;
pub use refusal::AdmitRefusal;
