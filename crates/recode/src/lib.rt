//! Recoding: packets drawn as combinations of what a basis or a list holds, by the random words of a key. Each draw of a link has
//! a number, and words of its own; so who knows the key can tell what was drawn over a given front. Beside them stand the packets
//! that carry a file's blocks themselves.
//!
//! No call but `systematic` takes memory or answers an error.
#![tactic(auto)]

mod blocks;
mod coefficients;
mod draws;
pub mod laws;
mod plain;
mod pollution;

pub use blocks::systematic;
pub use coefficients::coefficients_of;
pub use draws::{draw, draw_polluted};
pub use plain::draw_plain;
pub use pollution::pollute;

#[cfg(test)]
mod tests;
