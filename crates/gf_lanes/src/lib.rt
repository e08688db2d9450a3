//! Kernels over slices of symbols, for vectors of 8, 16 or 32 lanes. Each equals its plain sum, whatever the width and the
//! length of the slices.
#![tactic(auto)]

mod kernels;
#[cfg(test)]
mod tests;

pub use kernels::{Lanes, add_scaled, dot, scale};
