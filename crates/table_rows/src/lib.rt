//! The shared words of a basis: their layout, their rule, and the eight kinds of atomic step.
//!
//! A table is made with a founder, which gives numbers to callers; each may go to a thread of its own. A caller looks at the
//! directory, reads regions that it knows, writes its draft, and appends it by one exchange, which is won or lost. A note
//! brings what one caller has seen to another. At the end the founder takes all callers in, and the table gives its words.
//!
//! What a seat knows is its view, plain data that contracts alone speak of. Each call's contract says what a view gains, and
//! `laws` that each kind of step keeps the rule, which says what words and views have to do with one another.
#![tactic(auto)]

mod exchange;
pub mod laws;
mod layout;
mod meeting;
mod regions;
mod rule;
mod seats;
mod symbols;
mod table;
pub mod view;

pub use exchange::Exchanged;
pub use layout::{pack, unpack, words_for_symbols, words_of_basis, words_of_region};
pub use regions::{lay_out, take_packet, take_row, take_symbols};
pub use seats::{CallerSeat, FounderSeat, NoteSeat};
pub use table::{BasisTable, Opened};

#[cfg(test)]
mod tests;
