//! Laws over the definitions alone: each is the contract of a function that does nothing but take other laws.
ghost use Rattle.std.specs.Prelude.{◌≡◌, ◌*◌, ◌<◌, ℕ, List, length};
ghost use Rattle.std.specs.List.{All, flat_map, range_with_len};
ghost use Rattle.linear_spec.specs.declared.equations.Equations.{Equations};
ghost use Rattle.linear_spec.specs.declared.packet.Packet.{Packet};
ghost use Rattle.linear_spec.specs.Symbols.{IsVector};
ghost use Rattle.linear_spec.specs.Packet.{Fits};
ghost use Rattle.linear_spec.specs.Passing.{AreEquations, HaveSumsOf, Passes};
ghost use Rattle.generation.specs.declared.ticket.Ticket.{Ticket};
ghost use Rattle.generation.specs.Shape.{Dimensions, IsShape, generations_of, symbols_per_block};
ghost use Rattle.generation.specs.Blocks.{IsFile, blocks_of};
ghost use Rattle.src_check.specs.Tickets.{AreEquationsOf, IsTicketOf, IsTrueToFile, file_sums_of, generation_blocks_of};
ghost use Rattle.src_check.specs.Weights.{weights_of_checks};

/// A generation has K blocks, vectors of a block's symbols, and the blocks of all generations in turn are the file's.
pub fn blocks_by_generation()
    ensures count { (d : Dimensions) (file : List ℕ) (g : ℕ) → length (generation_blocks_of d file g) ≡ d.k }
    ensures vectors { (d : Dimensions) (file : List ℕ) (g : ℕ) → IsShape d → IsFile d file → g < generations_of d
        → All (IsVector (symbols_per_block d)) (generation_blocks_of d file g) }
    ensures in_order { (d : Dimensions) (file : List ℕ)
        → blocks_of d file ≡ flat_map (generation_blocks_of d file) (range_with_len 0 (generations_of d)) }
{
    generation::laws::cut_and_join();
}

/// The weights of checks and the sums of a file are vectors.
pub fn weights_and_sums()
    ensures weights { (key : List ℕ) (s checks : ℕ) → IsVector (checks * s) (weights_of_checks key s checks) }
    ensures sums { (d : Dimensions) (file key : List ℕ) (checks : ℕ)
        → IsVector (generations_of d * checks * d.k) (file_sums_of d file key checks) }
{
    gf16::laws::field();
}

/// The equations of a file's ticket have the weighted sums of its blocks, so packets that are true to the file pass them.
pub fn true_packets_pass()
    ensures sums { (d : Dimensions) (file : List ℕ) (ticket : Ticket) (equations : Equations) (g : ℕ)
        → IsTicketOf d file ticket → AreEquationsOf d ticket equations → g < generations_of d
        → HaveSumsOf equations g (generation_blocks_of d file g) }
    ensures pass { (d : Dimensions) (file : List ℕ) (ticket : Ticket) (equations : Equations) (packet : Packet)
        → IsShape d → IsFile d file → IsTicketOf d file ticket → AreEquationsOf d ticket equations → AreEquations equations
        → Fits d.k (symbols_per_block d) packet → packet.generation < generations_of d → IsTrueToFile d file packet
        → Passes equations packet }
{
    linear_spec::laws::checks();
    blocks_by_generation();
}
