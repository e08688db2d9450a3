//! The random weights of a check: the words of ChaCha20 (RFC 8439).
ghost use Rattle.std.specs.Prelude.{◌≡◌, ◌<◌, ◌≤◌, ◌*◌, ◌%◌, ◌^◌, ◌++◌, IfOk, OnOk, length};
ghost use Rattle.src_check.specs.Weights.{check_weights_of, weight_of, weights_of_checks};

use gf16::{Gf, Memory};
use linear_spec::{List, SymVec};
use rand_chacha::ChaCha20Rng;
use rand_core::SeedableRng;
use rand_core::utils::NextWord;
use std::alloc::Global;

/// The weight of check `t` at place `j` of a block: the low half of a ChaCha20 word, that at place `j` of stream `t` of this
/// key (RFC 8439, with 64 bits for the counter and 64 for the stream). Takes no memory.
#[tactic(auto, unfolding(crate::specs::Weights::weight_of))]
pub fn weight(key: &[u8; 32], t: u8, j: u16) -> Gf
    requires { t < 8 }
    ensures { result.0 ≡ weight_of key.now t j }
{
    let mut words = ChaCha20Rng::from_seed(*key);
    words.set_stream(u64::from(t));
    words.set_word_pos(u128::from(j));
    low_symbol(words.next_word())
}

/// The weights of the checks, each at the symbols of a block, check after check.
#[tactic(auto, using(crate::proofs::Places::pieces_more, crate::proofs::WeightCounts::length_weights), unfolding(crate::specs::Weights::weights_of_checks))]
pub(crate) fn weights_of_checks(
    alloc: Global,
    key: &[u8; 32],
    s: u16,
    checks: u8,
) -> Result<SymVec, Memory>
    requires { checks ≤ 8 }
    ensures value { IfOk result (λ weights. weights ≡ weights_of_checks key.now s checks) }
    ensures length { IfOk result (λ weights. length weights ≡ checks * s) }
{
    let mut weights = List::new(alloc);
    for check in 0..checks {
        append_check_weights(key, s, check, &mut weights)?;
    }
    SymVec::from_slice(alloc, weights.as_slice())
}

/// Appends the weights of a check, one word after another.
#[tactic(auto, unfolding(crate::specs::Weights::weight_of, crate::specs::Weights::check_weights_of))]
fn append_check_weights(
    key: &[u8; 32],
    s: u16,
    check: u8,
    weights: &mut List<u16>,
) -> Result<(), Memory>
    requires { check < 8 }
    ensures { OnOk result (weights.new.items ≡ weights.old.items ++ check_weights_of key.now s check) }
{
    weights.reserve(usize::from(s))?;
    let mut words = ChaCha20Rng::from_seed(*key);
    words.set_stream(u64::from(check));
    for place in 0..s {
        let weight = low_symbol(words.next_word());
        weights.put(weight.0);
    }
    Ok(())
}

/// The low 16 bits of a word.
fn low_symbol(word: u32) -> Gf
    ensures { result.0 ≡ word % 2 ^ 16 }
{
    Gf((word % 0x1_0000) as u16)
}
