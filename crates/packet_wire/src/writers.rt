//! Frames written as bytes.
ghost use Rattle.std.specs.Prelude.{◌≡◌, ◌+◌, ◌*◌, ◌≤◌, ◌++◌, length, OnOk, OnErr};
ghost use Rattle.linear_spec.specs.Symbols.{be_bytes_of};
ghost use Rattle.packet_wire.specs.Frame.{head, number_of};
ghost use Rattle.packet_wire.specs.Stream.{end_frame, manifest_frame, packet_frame, ticket_frame};

use crate::Manifest;
use crate::frame::{Kind, head_of};
use generation::Ticket;
use gf16::Memory;
use linear_spec::laws::bytes_spell_symbols;
use linear_spec::{List, Packet};

const HEAD_LEN: usize = 10;

const MANIFEST_LEN: u32 = 44;

/// Appends the frame of a manifest. On refusal `out` is as before.
pub fn write_manifest(manifest: &Manifest, out: &mut List<u8>) -> Result<(), Memory>
    ensures ok { OnOk result (out.new.items ≡ out.old.items ++ manifest_frame manifest.now) }
    ensures err { OnErr result (out.new.items ≡ out.old.items) }
{
    let shape = &manifest.shape;
    let (len, k, block) = (shape.len(), shape.k(), shape.block());
    start_frame(Kind::Manifest, MANIFEST_LEN, out)?;
    put_bytes(&len.to_be_bytes(), out);
    put_bytes(&k.to_be_bytes(), out);
    put_bytes(&block.to_be_bytes(), out);
    put_bytes(&manifest.digest, out);
    Ok(())
}

/// Appends the frame of a ticket. On refusal `out` is as before.
pub fn write_ticket(ticket: &Ticket, out: &mut List<u8>) -> Result<(), Memory>
    requires checks { ticket.now.checks ≤ 8 }
    requires sums { length ticket.now.sums ≤ 131072 }
    ensures ok { OnOk result (out.new.items ≡ out.old.items ++ ticket_frame ticket.now) }
    ensures err { OnErr result (out.new.items ≡ out.old.items) }
{
    let sums = ticket.sums.as_slice();
    let len = 33 + 2 * sums.len();
    start_frame(Kind::Ticket, len as u32, out)?;
    put_bytes(&ticket.key, out);
    out.put(ticket.checks);
    put_symbols(sums, out);
    bytes_spell_symbols();
    Ok(())
}

/// Appends the frame of a packet. On refusal `out` is as before.
pub fn write_packet(packet: &Packet, out: &mut List<u8>) -> Result<(), Memory>
    requires coeffs { length packet.now.coeffs ≤ 64 }
    requires payload { length packet.now.payload ≤ 2048 }
    ensures ok { OnOk result (out.new.items ≡ out.old.items ++ packet_frame packet.now) }
    ensures err { OnErr result (out.new.items ≡ out.old.items) }
{
    let (coeffs, payload) = (packet.coeffs.as_slice(), packet.payload.as_slice());
    let len = 2 + 2 * coeffs.len() + 2 * payload.len();
    start_frame(Kind::Packet, len as u32, out)?;
    put_bytes(&packet.generation.to_be_bytes(), out);
    put_symbols(coeffs, out);
    put_symbols(payload, out);
    bytes_spell_symbols();
    Ok(())
}

/// Appends the frame of the end. On refusal `out` is as before.
pub fn write_end(out: &mut List<u8>) -> Result<(), Memory>
    ensures ok { OnOk result (out.new.items ≡ out.old.items ++ end_frame) }
    ensures err { OnErr result (out.new.items ≡ out.old.items) }
{
    start_frame(Kind::End, 0, out)
}

/// Makes room for a frame whose body has `len` bytes, and appends its head.
fn start_frame(kind: Kind, len: u32, out: &mut List<u8>) -> Result<(), Memory>
    ensures ok { OnOk result (out.new.items ≡ out.old.items ++ head (number_of kind) len) }
    ensures room { OnOk result (len ≤ out.new.spare) }
    ensures err { OnErr result (out.new.items ≡ out.old.items) }
{
    out.reserve(HEAD_LEN + len as usize)?;
    put_bytes(&head_of(kind, len), out);
    Ok(())
}

/// Appends bytes into spare room.
fn put_bytes(bytes: &[u8], out: &mut List<u8>)
    requires { length bytes.now ≤ out.old.spare }
    ensures items { out.new.items ≡ out.old.items ++ bytes.now }
    ensures spare { out.old.spare ≤ out.new.spare + length bytes.now }
{
    out.extend_from_slice(bytes).unwrap();
}

/// Appends the bytes of symbols into spare room.
#[tactic(auto, unfolding(linear_spec::specs::Symbols::be_bytes_of))]
fn put_symbols(symbols: &[u16], out: &mut List<u8>)
    requires { 2 * length symbols.now ≤ out.old.spare }
    ensures items { out.new.items ≡ out.old.items ++ be_bytes_of symbols.now }
    ensures spare { out.old.spare ≤ out.new.spare + 2 * length symbols.now }
{
    for symbol in symbols {
        let [high, low] = symbol.to_be_bytes();
        out.put(high);
        out.put(low);
    }
}
