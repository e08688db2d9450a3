//! The laws of blocks that solve packets.
ghost use Rattle.linear_spec.specs.SolvingLaws.{SolutionLaws, SolvingLaws};

/// The laws of solving, for all packets that fit and the rows that stand for them.
pub fn solving()
    ensures { SolvingLaws }
{
    gf16::laws::field();
}

/// Packets that fit and have rows can be solved, and k of them by just one list of blocks.
pub fn solutions()
    ensures { SolutionLaws }
{
    gf16::laws::field();
}
