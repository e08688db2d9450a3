//! The stream, version 1: frames of packets, and the manifest and ticket before them (docs/FORMATS.md).
#![tactic(auto)]

mod admit;
mod decoder;
mod fault;
mod fields;
mod frame;
mod judge;
pub mod laws;
mod make;
mod manifest;
mod phase;
mod writers;

pub use decoder::Decoder;
pub use fault::{FaultKind, FeedError, WireFault};
pub use frame::Frame;
pub use generation::Ticket;
pub use manifest::Manifest;
pub use writers::{write_end, write_manifest, write_packet, write_ticket};

#[cfg(test)]
mod tests;
