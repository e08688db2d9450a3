//! Solving a closed basis by back substitution.
#![tactic(auto)]

mod solving;

pub use solving::solve;

#[cfg(test)]
mod tests;
