//! How a file is cut into generations of blocks, and joined again.
#![tactic(auto)]

mod blocks;
pub mod laws;
mod shape;
mod ticket;

pub use shape::{Shape, ShapeError};
pub use ticket::Ticket;

#[cfg(test)]
mod tests;
