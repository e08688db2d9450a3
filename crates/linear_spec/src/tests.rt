//! Each call of the plain data once.
ghost use Rattle.std.specs.Prelude.{length, IfOk};
ghost use Rattle.linear_spec.specs.Packet.{Fits};

use super::*;
use gf16::Memory;
use std::alloc::Global;
use std::test::Fail;

#[test]
fn a_list_grows_at_its_end(rt: HostRuntime) -> Result<(), Fail> {
    let mut list = List::new(rt.alloc());
    list.push(1u8)?;
    list.reserve(2)?;
    assert!(rt; list.spare() >= 2);
    list.extend_from_slice(&[2, 3, 4])?;
    if let Some(item) = list.get_mut(1) {
        *item = 9;
    }
    list.as_mut_slice().reverse();
    assert_eq!(rt; list.as_slice(), [4, 3, 9, 1].as_slice());
    assert_eq!(rt; list.pop(), Some(1));
    assert_eq!(rt; list.len(), 3);
    assert_eq!(rt; list.get(2), Some(&9));
    assert_eq!(rt; list.get(3), None);
    Ok(())
}

#[test]
fn symbols_are_big_endian(rt: HostRuntime) -> Result<(), Fail> {
    let alloc = rt.alloc();
    let vector = SymVec::from_be_bytes(alloc, &[0x61, 0x62, 0x63, 0x00])?;
    assert_eq!(rt; vector.as_slice(), [0x6162, 0x6300].as_slice());
    let mut bytes = List::new(alloc);
    bytes.push(7)?;
    SymVec::from_slice(alloc, &[0x6162, 0x6300])?.append_be_bytes(&mut bytes)?;
    assert_eq!(rt; bytes.as_slice(), [7, 0x61, 0x62, 0x63, 0x00].as_slice());
    let mut zeros = SymVec::zeros(alloc, 2)?;
    zeros.as_mut_slice().reverse();
    assert_eq!(rt; zeros.as_slice(), [0, 0].as_slice());
    assert_eq!(rt; zeros.len(), 2);
    Ok(())
}

#[test]
fn words_are_texts(rt: HostRuntime) -> Result<(), Fail> {
    let mut words = Words::new(rt.alloc());
    words.push("fetch")?;
    words.push("--receivers=2")?;
    assert_eq!(rt; words.len(), 2);
    assert_eq!(rt; words.get(0).ok_or("a word")?, "fetch");
    assert!(rt; words.get(2).is_none());
    assert_eq!(rt;
        words.texts()?.as_slice(),
        ["fetch", "--receivers=2"].as_slice()
    );
    Ok(())
}

fn packet_of(alloc: Global, coeffs: &[u16], payload: &[u16]) -> Result<Packet, Memory>
    ensures { IfOk result (Fits (length coeffs.now) (length payload.now)) }
{
    let packet = Packet {
        generation: 7,
        coeffs: SymVec::from_slice(alloc, coeffs)?,
        payload: SymVec::from_slice(alloc, payload)?,
    };
    laws::packet_fits(&packet);
    Ok(packet)
}

#[test]
fn combines_two_packets(rt: HostRuntime) -> Result<(), Fail> {
    let alloc = rt.alloc();
    let mut packets = List::new(alloc);
    packets.push(packet_of(alloc, &[1, 0], &[0x6162])?)?;
    packets.push(packet_of(alloc, &[0, 1], &[0x6300])?)?;
    let mut out = packet_of(alloc, &[5, 5], &[5])?;
    combine(&[1, 2], &packets, &mut out);
    let copied = out.copy(alloc)?;
    assert_eq!(rt; copied.generation, 7);
    assert_eq!(rt; copied.coeffs.as_slice(), [1, 2].as_slice());
    assert_eq!(rt; copied.payload.as_slice(), [0xA762].as_slice());
    Ok(())
}
