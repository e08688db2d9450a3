//! Checksums: the random weights that a server gives a peer, the weighted sums of a file's blocks, and which check a packet
//! fails.
#![tactic(auto)]

mod equations;
mod keys;
pub mod laws;
mod passing;
mod ticket;
mod weights;

pub use equations::make_equations;
pub use keys::{number_key, ticket_key};
pub use passing::first_failed;
pub use ticket::make_ticket;
pub use weights::weight;

#[cfg(test)]
mod tests;
