//! The end of a basis.
ghost use Rattle.std.specs.Prelude.{◌≡◌, ◌≤◌, ◌*◌, [], length, IfOk, IfErr};
ghost use Rattle.std.specs.List.{All};
ghost use Rattle.shared_basis.specs.Close.{AreAllPasses, IsCloseOf};
ghost use Rattle.shared_basis.specs.Decoding.{IsBlankFor, IsRoomFor};

use crate::basis::zero_packet;
use crate::decoding::decode_all;
use crate::gathering::gather;
use crate::{CloseRefused, Closed, Params, Pass, SharedBasis};
use basis_core::CallerTrace;
use gf16::Memory;
use linear_spec::{List, Packet, Record};
use std::alloc::Global;
use table_rows::words_of_basis;

impl SharedBasis {
    /// Takes all passes in, and tells what the words hold, and each caller's calls. Memory is taken first: where it is wanting,
    /// basis and passes are handed back as they were.
    pub fn close(self, alloc: Global, passes: List<Pass>) -> Result<Closed, CloseRefused>
        requires { AreAllPasses self passes.items }
        ensures closed { IfOk result (IsCloseOf self passes.items) }
        ensures refused { IfErr result (λ refused. (refused.basis ≡ self) × (refused.passes.items ≡ passes.items)) }
    {
        let Ok(room) = room_to_close(alloc, &self) else {
            return Err(CloseRefused {
                basis: self,
                passes,
            });
        };
        Ok(close_into(self, passes, room))
    }
}

/// The memory that a closing needs.
#[derive(Drop)]
pub(crate) struct Room {
    /// Room for all words.
    pub words: List<u64>,
    /// Packets of zeros, for K packets and K rows.
    pub packets: List<Packet>,
    pub records: List<Record>,
    pub rows: List<Packet>,
    pub callers: List<CallerTrace>,
}

/// Takes the memory that a closing of this basis needs.
fn room_to_close(alloc: Global, basis: &SharedBasis) -> Result<Room, Memory>
    ensures { IfOk result (IsRoomFor basis.now.parameters) }
{
    let params = basis.params;
    let passes = basis.passes;
    let k = usize::from(params.k);
    let words = words_of_basis(params.k, params.s, passes) as usize;
    Ok(Room {
        words: list_with_room(alloc, words)?,
        packets: blank_packets(alloc, &params, 2 * k)?,
        records: list_with_room(alloc, k)?,
        rows: list_with_room(alloc, k)?,
        callers: list_with_room(alloc, passes as usize)?,
    })
}

/// An empty list with room for so many items.
fn list_with_room<T: Drop>(alloc: Global, room: usize) -> Result<List<T>, Memory>
    ensures { IfOk result (λ list. (list.items ≡ []) × (room ≤ list.spare)) }
{
    let mut list = List::new(alloc);
    list.reserve(room)?;
    Ok(list)
}

/// So many packets of zeros.
fn blank_packets(alloc: Global, params: &Params, count: usize) -> Result<List<Packet>, Memory>
    ensures count { IfOk result (λ packets. length packets.items ≡ count) }
    ensures blank { IfOk result (λ packets. All (IsBlankFor params.now.generation params.now.k params.now.s) packets.items) }
{
    let mut packets = List::new(alloc);
    for _at in 0..count {
        packets.push(zero_packet(alloc, params)?)?;
    }
    Ok(packets)
}

/// Closes into the memory that was taken.
fn close_into(basis: SharedBasis, passes: List<Pass>, room: Room) -> Closed
    requires passes { AreAllPasses basis passes.items }
    requires room { IsRoomFor basis.parameters room }
    ensures { IsCloseOf basis passes.items result }
{
    basis_core::laws::histories();
    table_rows::laws::records();
    let Room {
        mut words,
        mut packets,
        mut records,
        mut rows,
        mut callers,
    } = room;
    let founder = gather(&basis, passes, &mut callers);
    callers.as_mut_slice().reverse();
    let params = basis.params;
    basis.table.close(founder, &mut words);
    decode_all(
        &params,
        words.as_slice(),
        &mut packets,
        &mut records,
        &mut rows,
    );
    Closed {
        records,
        rows,
        callers,
    }
}
