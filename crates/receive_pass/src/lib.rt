//! Receiving on shared bases: each packet tested against the equations and offered, by workers in threads of their own.
#![tactic(auto)]

mod gate;
mod inbox;
mod receiving;
mod worker;

pub use gate::{Gate, NoGate};
pub use inbox::{receive_all, receive_inbox};
pub use receiving::receive;
pub use worker::{TaggedPacket, Worker};

#[cfg(test)]
mod tests;
