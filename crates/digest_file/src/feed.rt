//! A hasher is fed the bytes of symbols, a piece at a time.
ghost use Rattle.std.specs.Prelude.{◌≡◌, ℕ, ◌*◌, ◌≤◌, List, ◌++◌, length, take};
ghost use Rattle.sha2.specs.Hashers.{Holds256};
ghost use Rattle.linear_spec.specs.Symbols.{be_bytes_of};

use sha2::{Digest, Sha256};

/// The symbols of a piece: as many as a block of SHA-256 has room for.
const PIECE: usize = 32;

/// Adds to the message the bytes of symbols, two bytes each, the high one first: the first `limit` of these bytes.
pub fn feed(hasher: &mut Sha256, symbols: &[u16], limit: usize)
    ensures { (message : List ℕ) → Holds256 hasher.old message
        → Holds256 hasher.new (message ++ take limit (be_bytes_of symbols.now)) }
{
    for number in 0..symbols.len().div_ceil(PIECE) {
        let start = PIECE * number;
        let end = symbols.len().min(start + PIECE);
        feed_piece(
            hasher,
            &symbols[start..end],
            limit.saturating_sub(2 * start),
        );
    }
}

/// Adds to the message the bytes of one piece: the first `limit` of them.
fn feed_piece(hasher: &mut Sha256, piece: &[u16], limit: usize)
    requires { length piece.now ≤ 32 }
    ensures { (message : List ℕ) → Holds256 hasher.old message
        → Holds256 hasher.new (message ++ take limit (be_bytes_of piece.now)) }
{
    let mut bytes = [0; 64];
    spell(piece, &mut bytes);
    let there = limit.min(2 * piece.len());
    hasher.update(&bytes[..there]);
}

/// Writes the bytes of a piece, two bytes a symbol, the high one first.
#[tactic(auto, unfolding(linear_spec::specs::Symbols::be_bytes_of))]
fn spell(piece: &[u16], bytes: &mut [u8; 64])
    requires { length piece.now ≤ 32 }
    ensures { take (2 * length piece.now) bytes.new ≡ be_bytes_of piece.now }
{
    for (i, symbol) in piece.iter().enumerate() {
        let [high, low] = symbol.to_be_bytes();
        bytes[2 * i] = high;
        bytes[2 * i + 1] = low;
    }
}
