//! The trait of what bytes are read from.
ghost use Rattle.std.specs.Prelude.{◌<◌, ◌≤◌, ℕ, List, Option, length, IfOk, IsErr, OnErr};
ghost use Rattle.std.specs.Io.KnownBytes.{ReadConsumes};
ghost use Rattle.swarm_io.specs.Counts.{CountsWhere, Rose};

/// A read failed.
#[derive(Clone, Copy, Debug, PartialEq, Eq)]
pub struct Failed;

/// Where bytes come from.
pub trait Source {
    /// The bytes that are left, where the source tells them.
    ghost remaining: { Self → Option (List ℕ) };

    /// How often a read has failed.
    ghost faults: { Self → ℕ };

    /// Moves the next bytes to the front of `buf`, and answers how many: 0 is the end of the input.
    fn read(&mut self, buf: &mut [u8]) -> Result<usize, Failed>
        requires { 0 < length buf.old }
        ensures bound { IfOk result (λ n. n ≤ length buf.old) }
        ensures bytes { ReadConsumes (remaining self.old) (remaining self.new) result buf.new }
        ensures cause { OnErr result (Rose (faults self.old) (faults self.new)) }
        ensures fault_count { CountsWhere (IsErr result) (faults self.old) (faults self.new) }
        ensures faults { faults self.old ≤ faults self.new };
}
