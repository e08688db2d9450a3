//! The basis of one thread, the plainest one: it records the packets that tell something new, answers each packet by its
//! case, tells which columns it misses, and solves.
#![tactic(auto)]

mod basis;
mod missing;
mod solve;

pub use basis::PlainBasis;
pub use solve::solve_rows;

#[cfg(test)]
mod solving_tests;
#[cfg(test)]
mod tests;
