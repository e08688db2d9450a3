//! The words of a region: a record, the pivot of its row, and the row.
ghost use Rattle.std.specs.Prelude.{◌≡◌, ◌+◌, ◌*◌, ◌^◌, ◌<◌, ◌≤◌, ◌++◌, drop, length};
ghost use Rattle.table_rows.specs.Layout.{packed_words_of, packet_in, region_for, region_length, row_in, unpacked_of, words_for};

use crate::layout::words_for_symbols;
use crate::symbols::{pack_all, unpack_all};
use linear_spec::Packet;

/// Lays out the words of a record and its row.
pub fn lay_out(caller: u32, call: u32, packet: &Packet, pivot: u64, row: &Packet, words: &mut [u64])
    requires words { length words.old ≡ region_length (length packet.now.coeffs) (length packet.now.payload) }
    requires row { (length row.now.coeffs ≡ length packet.now.coeffs) × (length row.now.payload ≡ length packet.now.payload) }
    ensures { words.new ≡ region_for (record { caller = caller; call = call; packet = packet.now }) pivot row.now }
{
    words[0] = u64::from(caller) * 0x1_0000_0000 + u64::from(call);
    words[1] = pivot;
    lay_out_pair(packet, row, &mut words[2..]);
}

/// Lays out a packet and its row, one behind the other.
fn lay_out_pair(packet: &Packet, row: &Packet, words: &mut [u64])
    requires words { length words.old ≡ 2 * (words_for (length packet.now.coeffs) + words_for (length packet.now.payload)) }
    requires row { (length row.now.coeffs ≡ length packet.now.coeffs) × (length row.now.payload ≡ length packet.now.payload) }
    ensures { words.new ≡ (packed_words_of packet.now.coeffs ++ packed_words_of packet.now.payload)
        ++ (packed_words_of row.now.coeffs ++ packed_words_of row.now.payload) }
{
    let half = words_for_symbols(packet.coeffs.len()) + words_for_symbols(packet.payload.len());
    let (of_packet, of_row) = words.split_at_mut(half);
    lay_out_symbols(packet, of_packet);
    lay_out_symbols(row, of_row);
}

/// Lays out coefficients and payload, each packed by itself.
fn lay_out_symbols(packet: &Packet, words: &mut [u64])
    requires { length words.old ≡ words_for (length packet.now.coeffs) + words_for (length packet.now.payload) }
    ensures { words.new ≡ packed_words_of packet.now.coeffs ++ packed_words_of packet.now.payload }
{
    let (coeffs, payload) = words.split_at_mut(words_for_symbols(packet.coeffs.len()));
    pack_all(packet.coeffs.as_slice(), coeffs);
    pack_all(packet.payload.as_slice(), payload);
}

/// Takes the packet out of a region's words. The generation of `out` stays.
pub fn take_packet(words: &[u64], out: &mut Packet)
    requires { length words.now ≡ region_length (length out.old.coeffs) (length out.old.payload) }
    ensures { out.new ≡ packet_in out.old.generation (length out.old.coeffs) (length out.old.payload) words.now }
{
    take_symbols(&words[2..], out);
}

/// Takes the row out of a region's words. The generation of `out` stays.
pub fn take_row(words: &[u64], out: &mut Packet)
    requires { length words.now ≡ region_length (length out.old.coeffs) (length out.old.payload) }
    ensures { out.new ≡ row_in out.old.generation (length out.old.coeffs) (length out.old.payload) words.now }
{
    let half = words_for_symbols(out.coeffs.len()) + words_for_symbols(out.payload.len());
    take_symbols(&words[2 + half..], out);
}

/// Takes coefficients and payload out of words. The generation of `out` stays.
pub fn take_symbols(words: &[u64], out: &mut Packet)
    requires { words_for (length out.old.coeffs) + words_for (length out.old.payload) ≤ length words.now }
    ensures coeffs { out.new.coeffs ≡ unpacked_of (length out.old.coeffs) words.now }
    ensures payload { out.new.payload ≡ unpacked_of (length out.old.payload) (drop (words_for (length out.old.coeffs)) words.now) }
    ensures generation { out.new.generation ≡ out.old.generation }
    ensures lengths { (length out.new.coeffs ≡ length out.old.coeffs) × (length out.new.payload ≡ length out.old.payload) }
{
    let of_coeffs = words_for_symbols(out.coeffs.len());
    unpack_all(words, out.coeffs.as_mut_slice());
    unpack_all(&words[of_coeffs..], out.payload.as_mut_slice());
}
