//! Workers and their inboxes.
use linear_spec::{List, Packet};
use shared_basis::Pass;

/// A packet and the tag that its call will have.
#[derive(Debug, Drop)]
pub struct TaggedPacket {
    pub tag: u64,
    pub packet: Packet,
}

/// A caller with one pass for each generation's basis, in order, and the packets that it is to receive.
#[derive(Drop)]
pub struct Worker {
    pub caller: u32,
    pub passes: List<Pass>,
    pub inbox: List<TaggedPacket>,
}
