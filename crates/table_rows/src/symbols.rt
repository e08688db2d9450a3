//! Symbols in words, four in each.
ghost use Rattle.std.specs.Prelude.{◌≡◌, ◌≤◌, length};
ghost use Rattle.table_rows.specs.Layout.{packed_words_of, unpacked_of, words_for};

use crate::layout::{pack, unpack, words_for_symbols};

/// Packs symbols into as many words as they take.
pub(crate) fn pack_all(symbols: &[u16], words: &mut [u64])
    requires { length words.old ≡ words_for (length symbols.now) }
    ensures { words.new ≡ packed_words_of symbols.now }
{
    crate::laws::packing();
    for at in 0..words.len() {
        let first = at * 4;
        let end = symbols.len().min(first + 4);
        words[at] = pack(&symbols[first..end]);
    }
}

/// Takes the first symbols out of words, as many as `out` has.
pub(crate) fn unpack_all(words: &[u64], out: &mut [u16])
    requires { words_for (length out.old) ≤ length words.now }
    ensures { out.new ≡ unpacked_of (length out.old) words.now }
{
    crate::laws::packing();
    let count = words_for_symbols(out.len());
    for at in 0..count {
        let first = at * 4;
        let end = out.len().min(first + 4);
        unpack(words[at], &mut out[first..end]);
    }
}
