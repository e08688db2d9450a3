//! The shared basis: packets offered by many threads, with no lock, and one legal history of all their calls.
//!
//! A basis is made with its passes, one for each caller; a pass may go to a thread of its own. The basis itself is shared by `&`.
//! A pass knows the records that it has seen, and keeps its calls. When all is done, the basis is closed with all its passes,
//! and tells its records, their rows, and each caller's calls.
//!
//! No call waits for another thread.
#![tactic(auto)]

mod basis;
mod closing;
mod columns;
mod decoding;
mod desk;
mod drawing;
mod gathering;
mod looking;
mod meeting;
mod offering;
mod params;
mod pass;
mod reading;
mod refusing;

pub use basis::SharedBasis;
pub use params::{CloseRefused, Closed, Created, Params};
pub use pass::Pass;

#[cfg(test)]
mod tests;
