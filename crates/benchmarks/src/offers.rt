//! Packets of chosen symbols that are offered to a basis of one thread.
ghost use Rattle.std.specs.Prelude.{◌≡◌, ◌*◌, ◌<◌, ◌≤◌, ◌^◌, length, IfOk};
ghost use Rattle.std.specs.List.{All};
ghost use Rattle.benchmarks.specs.Offers.{IsOffered};

use gf16::Memory;
use linear_spec::{List, Packet, SymVec};
use plain_basis::PlainBasis;
use std::alloc::Global;

/// Packets that are offered to one basis after another, all to each.
#[derive(Clone, Copy, Debug, PartialEq, Eq)]
pub struct Offers {
    pub k: u16,
    pub s: u16,
    pub count: u16,
    pub turns: u32,
    ghost some_blocks: { (1 ≤ k) × (k ≤ 64) },
}

impl Offers {
    /// The offers that words name, or `None` where they name none: `k` is from 1 to 64.
    pub fn named(k: &str, s: &str, count: &str, turns: &str) -> Option<Offers> {
        let k = k.parse::<u16>().ok()?;
        let s = s.parse::<u16>().ok()?;
        let count = count.parse::<u16>().ok()?;
        let turns = turns.parse::<u32>().ok()?;
        if k < 1 || k > 64 {
            return None;
        }
        Some(Offers { k, s, count, turns })
    }

    /// The number of records of all turns, each of which has a plain basis of its own.
    pub fn records_of_plain(&self, alloc: Global) -> Result<u64, Memory>
        ensures { IfOk result (λ records. records ≤ self.now.turns * self.now.k) }
    {
        let packets = self.packets(alloc)?;
        let mut records = 0;
        for _turn in 0..self.turns {
            let of_turn = plain_records(alloc, self.k, self.s, packets.as_slice())?;
            records += u64::from(of_turn);
        }
        Ok(records)
    }

    /// The packets, with symbols of a linear congruential generator.
    pub fn packets(&self, alloc: Global) -> Result<List<Packet>, Memory>
        ensures count { IfOk result (λ packets. length packets.items ≡ self.now.count) }
        ensures few { IfOk result (λ packets. length packets.items < 2 ^ 16) }
        ensures offered { IfOk result (λ packets. All (IsOffered self.now.k self.now.s) packets.items) }
    {
        let mut state = 2026;
        let mut packets = List::new(alloc);
        for _packet in 0..self.count {
            let packet = spread_packet(alloc, self.k, self.s, &mut state)?;
            packets.push(packet)?;
        }
        Ok(packets)
    }
}

/// A packet with the generator's next symbols.
fn spread_packet(alloc: Global, k: u16, s: u16, state: &mut u32) -> Result<Packet, Memory>
    ensures { IfOk result (IsOffered k s) }
{
    let packet = Packet {
        generation: 0,
        coeffs: next_symbols(alloc, k, state)?,
        payload: next_symbols(alloc, s, state)?,
    };
    linear_spec::laws::packet_fits(&packet);
    Ok(packet)
}

fn next_symbols(alloc: Global, len: u16, state: &mut u32) -> Result<SymVec, Memory>
    ensures { IfOk result (λ symbols. length symbols ≡ len) }
{
    let mut symbols = SymVec::zeros(alloc, usize::from(len))?;
    overwrite(symbols.as_mut_slice(), state);
    Ok(symbols)
}

/// Writes the generator's next symbols.
fn overwrite(symbols: &mut [u16], state: &mut u32) {
    for symbol in symbols.iter_mut() {
        *state = state.wrapping_mul(1_664_525).wrapping_add(1_013_904_223);
        *symbol = (*state >> 16) as u16;
    }
}

/// The number of records of a new plain basis that is offered copies of these packets.
fn plain_records(alloc: Global, k: u16, s: u16, packets: &[Packet]) -> Result<u16, Memory>
    requires { All (IsOffered k s) packets.now }
    ensures { IfOk result (λ records. records ≤ k) }
{
    let mut basis = PlainBasis::new(alloc, k, s);
    for packet in packets {
        basis.offer(packet.copy(alloc)?)?;
    }
    Ok(rank_of(&basis))
}

/// The rank, which is at most K.
fn rank_of(basis: &PlainBasis) -> u16
    ensures { result ≤ basis.now.k }
{
    linear_spec::laws::ranks();
    let _ = basis.records();
    basis.rank()
}
