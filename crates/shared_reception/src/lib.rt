//! Receiving the packets of a stream: dealt to receivers, received by threads on shared bases, and the bases closed. A relay has a
//! sender beside the receivers, which draws from the bases before they are closed.
#![tactic(auto)]

mod closing;
mod dealing;
mod drawing;
mod making;
mod receiving;
mod relaying;
mod relays;
mod sends;

pub use receiving::receive_packets;
pub use relaying::relay_packets;
pub use sends::{Relayed, Sending, SentDraw};

#[cfg(test)]
mod relay_tests;
#[cfg(test)]
mod tests;
