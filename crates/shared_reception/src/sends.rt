//! What a relay is to send, and what it then has for it.
use linear_spec::{Drawn, List, Packet};
use shared_basis::Closed;

/// What a relay sends of each generation.
#[derive(Clone, Copy, Debug, PartialEq, Eq)]
pub struct Sending {
    /// The key whose random words the draws use.
    pub key: [u8; 32],
    /// The link that they are for, at most 65,535.
    pub link: u32,
    /// How many draws of each generation there are, at most 1,024.
    pub coded: u32,
}

/// A draw that was made to be sent: of which generation, its number on the link, its answer, and the packet drawn; zeros where
/// the answer is `Nothing`.
#[derive(Debug, Drop)]
pub struct SentDraw {
    pub generation: u16,
    pub q: u32,
    pub drawn: Drawn,
    pub packet: Packet,
}

/// The closed bases of all generations, in order, and what was drawn, by generation and number.
#[derive(Debug, Drop)]
pub struct Relayed {
    pub bases: List<Closed>,
    pub sent: List<SentDraw>,
}
