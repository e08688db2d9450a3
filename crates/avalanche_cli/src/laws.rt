//! Laws over the definitions alone: each is the contract of a function that does nothing but take other laws.
ghost use Rattle.std.specs.Prelude.{◌≡◌, ◌↔◌, ℕ, List, Option, Some, IsTrue};
ghost use Rattle.std.specs.List.{All};
ghost use Rattle.linear_spec.specs.declared.equations.Equations.{Equations};
ghost use Rattle.linear_spec.specs.declared.packet.Packet.{Packet};
ghost use Rattle.linear_spec.specs.Packet.{Fits};
ghost use Rattle.linear_spec.specs.Passing.{IsFirstFailing, Passes};
ghost use Rattle.basis_core.specs.declared.trace.BasisTrace.{BasisTrace};
ghost use Rattle.generation.specs.Shape.{symbols_per_block};
ghost use Rattle.packet_wire.specs.Stream.{Contents};
ghost use Rattle.shared_reception.specs.declared.sends.Sending.{Sending};
ghost use Rattle.avalanche_cli.specs.declared.trace.Trace.{Trace};
ghost use Rattle.avalanche_cli.specs.Files.{IsFirstIncomplete, IsOnlyFileOf, recorded_packets, source_file};
ghost use Rattle.avalanche_cli.specs.Headline.{IsOneHistory};
ghost use Rattle.avalanche_cli.specs.Packets.{AreTrueTo, HasFullRank, equations_of, first_failing_check, passes};
ghost use Rattle.avalanche_cli.specs.Trace.{IsLegalBasis, IsLegalFetch};

mod relaying;
mod seeding;

pub use relaying::relayed_streams;
pub use seeding::seeded_streams;

/// The check that is found for a packet is the first that it fails, and the packet passes where none is found.
pub fn checks()
    ensures passes { (equations : Equations) (packet : Packet) → IsTrue (passes equations packet) ↔ Passes equations packet }
    ensures first { (equations : Equations) (packet : Packet) (check : ℕ)
        → (first_failing_check equations packet ≡ Some check) ↔ IsFirstFailing equations packet check }
{}

/// A stream has one first generation that lacks rank, and it has one rank; where all have full rank there is none.
pub fn incomplete()
    ensures one { (contents : Contents) (generation rank other its : ℕ) → IsFirstIncomplete contents generation rank
        → IsFirstIncomplete contents other its → (other ≡ generation) × (its ≡ rank) }
    ensures not_full { (contents : Contents) (generation rank : ℕ) → IsFirstIncomplete contents generation rank
        → ¬ HasFullRank contents }
{
    linear_spec::laws::ranks();
}

/// Where all packets that pass are true to some blocks, the only file of a legal trace is the file of these blocks.
pub fn true_packets()
    ensures { (receivers : ℕ) (contents : Contents) (trace : Trace) (blocks : ℕ → List (List ℕ)) (file : List ℕ)
        → IsLegalFetch receivers contents trace
        → IsOnlyFileOf contents.manifest.shape (recorded_packets trace.bases.items) file
        → AreTrueTo contents blocks → file ≡ source_file contents.manifest.shape blocks }
{
    basis_core::laws::callers();
    basis_core::laws::records();
}

/// What the headline says of a basis follows from a legal one, where the stream's packets fit.
pub fn one_history()
    ensures { (receivers : ℕ) (sending : Option Sending) (generation : ℕ) (contents : Contents) (basis : BasisTrace)
        → All (Fits contents.manifest.shape.k (symbols_per_block contents.manifest.shape)) contents.packets
        → IsLegalBasis (equations_of contents) receivers sending contents.packets generation basis
        → IsOneHistory (equations_of contents) receivers sending contents.packets generation basis }
{
    basis_core::laws::callers();
    basis_core::laws::records();
    linear_spec::laws::one_case();
}
