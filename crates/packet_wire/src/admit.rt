//! Which kind of frame may follow which.
ghost use Rattle.std.specs.Prelude.{◌≡◌};
ghost use Rattle.packet_wire.specs.Faults.{IsPartOfFrame, NothingFails};
ghost use Rattle.packet_wire.specs.Admitting.{IsAdmitted};

use crate::fault::WireFault;
use crate::fields::{are_bytes, number32_at};
use crate::frame::Frame;
use crate::judge::judge;
use crate::make::make;
use crate::phase::Phase;
use gf16::Memory;
use linear_spec::laws::bytes_spell_symbols;
use std::alloc::Global;

const HEAD_LEN: usize = 10;

/// What came of a byte.
pub(crate) enum Admitted {
    /// It is held: the frame is not whole.
    Held,
    /// The frame is whole.
    Whole(Frame),
    /// A judgement fails; the place is counted from the frame's first byte.
    Failed(WireFault),
    Memory,
}

/// Appends a byte to the held bytes of a frame, judges it, and makes the frame if it is whole.
pub(crate) fn admit(alloc: Global, phase: &Phase, held: &mut Vec<u8>, byte: u8) -> Admitted
    requires clean { NothingFails phase.now held.old.items }
    requires part { IsPartOfFrame held.old.items }
    ensures { IsAdmitted phase.now held.old.items byte held.new.items result }
{
    if held.push(byte).is_err() {
        return Admitted::Memory;
    }
    if let Some(fault) = judge(phase, held) {
        return Admitted::Failed(fault);
    }
    if held.len() < HEAD_LEN {
        return Admitted::Held;
    }
    let len = number32_at(held, 6) as usize;
    if !make_room(held, len) {
        return Admitted::Memory;
    }
    if held.len() < HEAD_LEN + len {
        return Admitted::Held;
    }
    bytes_spell_symbols();
    are_bytes(held);
    match make(alloc, phase, held) {
        Ok(frame) => Admitted::Whole(frame),
        Err(Memory) => Admitted::Memory,
    }
}

/// Makes room for the body when the head has just become whole, and tells whether there was memory.
fn make_room(held: &mut Vec<u8>, len: usize) -> bool
    ensures { held.new.items ≡ held.old.items }
{
    held.len() != HEAD_LEN || held.reserve(len).is_ok()
}
