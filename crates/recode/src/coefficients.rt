//! The coefficients of draws, from random words: those of ChaCha20 (RFC 8439), with 64 bits for the counter and 64 for the stream.
ghost use Rattle.std.specs.Prelude.{◌≡◌, ◌≤◌, ◌+◌, ◌*◌, ◌==◌, length, map};
ghost use Rattle.std.specs.List.{list_all, range_with_len};
ghost use Rattle.rand_chacha.specs.ChaCha.{key_of};
ghost use Rattle.recode.specs.Draws.{symbol_of_word, coefficients_of_words, draw_word, draw_coefficients};

use rand_chacha::ChaCha20Rng;
use rand_core::SeedableRng;
use rand_core::utils::NextWord;

/// A coefficient for each word: its low 16 bits, and the last is 1 where all would be zero.
#[tactic(auto, unfolding(crate::specs::Draws::coefficients_of_words))]
pub fn coefficients_of(words: &[u32], out: &mut [u16])
    requires some { 1 ≤ length words.now }
    requires count { length out.old ≡ length words.now }
    ensures { out.new ≡ coefficients_of_words words.now }
{
    low_halves(words, out);
    if all_zero(out) {
        let last = out.len() - 1;
        out[last] = 1;
    }
}

/// The low half of each word.
fn low_halves(words: &[u32], out: &mut [u16])
    requires { length out.old ≡ length words.now }
    ensures { out.new ≡ map symbol_of_word words.now }
{
    for (i, symbol) in out.iter_mut().enumerate() {
        *symbol = low_half(words[i]);
    }
}

/// Whether all symbols are zero.
fn all_zero(symbols: &[u16]) -> bool
    ensures { result ≡ list_all (λ symbol. symbol == 0) symbols.now }
{
    symbols.iter().all(|symbol| *symbol == 0)
}

/// The low half of a word.
pub(crate) fn low_half(word: u32) -> u16
    ensures { result ≡ symbol_of_word word }
{
    (word % 0x1_0000) as u16
}

/// The generator of the words of a draw, from this place of the draw on.
pub(crate) fn draw_rng(key: &[u8; 32], link: u32, q: u32, place: u8) -> ChaCha20Rng
    ensures { result ≡ record { key = key_of key.now; stream = 16 + link; word_pos = 256 * q + place } }
{
    let mut words = ChaCha20Rng::from_seed(*key);
    words.set_stream(16 + u64::from(link));
    words.set_word_pos(256 * u128::from(q) + u128::from(place));
    words
}

/// The first words of a draw, as many as there is room for.
#[tactic(auto, unfolding(crate::specs::Draws::draw_word))]
fn draw_words(key: &[u8; 32], link: u32, q: u32, words: &mut [u32])
    requires { length words.old ≤ 64 }
    ensures { words.new ≡ map (draw_word key.now link q) (range_with_len 0 (length words.old)) }
{
    let mut rng = draw_rng(key, link, q, 0);
    for word in words.iter_mut() {
        *word = rng.next_word();
    }
}

/// The coefficients of a draw, as many as there is room for.
#[tactic(auto, unfolding(crate::specs::Draws::draw_coefficients))]
pub(crate) fn draw_coefficients(key: &[u8; 32], link: u32, q: u32, out: &mut [u16])
    requires some { 1 ≤ length out.old }
    requires few { length out.old ≤ 64 }
    ensures { out.new ≡ draw_coefficients key.now link q (length out.old) }
{
    let mut words = [0; 64];
    let words = &mut words[..out.len()];
    draw_words(key, link, q, words);
    coefficients_of(words, out);
}
