//! The field of symbols, the plain kernels over slices of them, and the error that every crate shares.
#![tactic(auto)]

mod field;
mod kernel;
pub mod laws;
mod memory;
#[cfg(test)]
mod tests;

pub use field::Gf;
pub use kernel::{Kernel, Plain, add_scaled, dot, scale};
pub use memory::Memory;
