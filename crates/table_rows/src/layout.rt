//! How the words of a basis are laid out: a directory, then regions, four symbols in a word.
ghost use Rattle.std.specs.Prelude.{◌≡◌, ◌+◌, ◌*◌, ◌^◌, ◌<◌, ◌≤◌, length, take, slice_index};
ghost use Rattle.table_rows.specs.Layout.{basis_length, packed_of, region_length, symbols_in, words_for};

/// How many words a number of symbols takes.
pub fn words_for_symbols(symbols: usize) -> usize
    requires { symbols < 2 ^ 63 }
    ensures { result ≡ words_for symbols }
{
    (symbols + 3) / 4
}

/// The number of words of a region.
pub fn words_of_region(k: u16, s: u16) -> u64
    ensures value { result ≡ region_length k s }
    ensures bound { result < 2 ^ 17 }
{
    let half = words_for_symbols(usize::from(k)) + words_for_symbols(usize::from(s));
    2 + 2 * half as u64
}

/// The number of words of a basis of packets with `k` coefficients and `s` payload symbols, for so many callers.
pub fn words_of_basis(k: u16, s: u16, passes: u32) -> u64
    requires { (1 ≤ passes) × (passes ≤ 16) }
    ensures { result ≡ basis_length k s passes }
{
    u64::from(k) + (u64::from(passes) + u64::from(k)) * words_of_region(k, s)
}

/// The symbol at a place, or 0 past the end.
fn symbol_or_zero(symbols: &[u16], at: usize) -> u64
    ensures value { result ≡ slice_index symbols.now at }
    ensures symbol { result < 2 ^ 16 }
{
    match symbols.get(at) {
        Some(symbol) => u64::from(*symbol),
        None => 0,
    }
}

/// The word of at most four symbols: the first in the highest 16 bits, and zeros past the last.
pub fn pack(symbols: &[u16]) -> u64
    requires { length symbols.now ≤ 4 }
    ensures { result ≡ packed_of symbols.now }
{
    let high = symbol_or_zero(symbols, 0) * 0x1_0000 + symbol_or_zero(symbols, 1);
    let low = symbol_or_zero(symbols, 2) * 0x1_0000 + symbol_or_zero(symbols, 3);
    high * 0x1_0000_0000 + low
}

/// Puts the first symbols of a word in place, as many as `out` has.
pub fn unpack(word: u64, out: &mut [u16])
    requires { length out.old ≤ 4 }
    ensures { out.new ≡ take (length out.old) (symbols_in word) }
{
    let symbols = [
        (word >> 48) as u16,
        (word >> 32 & 0xFFFF) as u16,
        (word >> 16 & 0xFFFF) as u16,
        (word & 0xFFFF) as u16,
    ];
    let count = out.len();
    out.copy_from_slice(&symbols[..count]);
}
