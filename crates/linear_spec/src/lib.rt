//! Lists, words, symbol vectors and packets: the plain data that every crate above speaks of.
#![tactic(auto)]

mod cases;
mod combination;
mod equations;
pub mod laws;
pub mod limits;
mod list;
mod packet;
mod record;
mod reduction;
mod reply;
mod sym_vec;
mod words;

pub use cases::{Case, examine};
pub use combination::{combine, combine_with};
pub use equations::Equations;
pub use list::List;
pub use packet::Packet;
pub use record::{Drawn, Record};
pub use reduction::{inverse_of_first, is_zero, place_of_first, reduce, reduce_by};
pub use reply::Reply;
pub use sym_vec::SymVec;
pub use words::Words;

#[cfg(test)]
mod tests;
