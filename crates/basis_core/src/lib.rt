//! The sequential basis as a machine over calls, and legal histories: what callers of one basis may have been answered.
#![tactic(auto)]

mod entry;
pub mod laws;
mod machine;
mod order;
mod trace;

pub use entry::Entry;
pub use machine::{Core, replay, replay_if_fit};
pub use order::merge;
pub use trace::{Answer, BasisTrace, Call, CallerOffers, CallerTrace, Event, Replayed};

#[cfg(test)]
mod tests;
