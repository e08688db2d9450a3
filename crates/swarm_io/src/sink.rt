//! The trait of what bytes are written to.
ghost use Rattle.std.specs.Prelude.{◌<◌, ◌≤◌, ℕ, List, Option, length, IfOk, IsErrOf};
ghost use Rattle.std.specs.Io.KnownBytes.{WriteAppends};
ghost use Rattle.swarm_io.specs.Counts.{CountsWhere, Rose};

/// Why a sink took nothing.
#[derive(Clone, Copy, Debug, PartialEq, Eq)]
pub enum SinkRefusal {
    /// A write failed.
    Failed,
    /// Memory was wanted.
    Memory,
}

/// Where bytes go.
pub trait Sink {
    /// The bytes that the sink holds, where it tells them.
    ghost contents: { Self → Option (List ℕ) };

    /// How often a write has failed.
    ghost faults: { Self → ℕ };

    /// How often memory was wanted and refused.
    ghost wants: { Self → ℕ };

    /// Takes bytes from the front of `piece`, at least one, and answers how many.
    fn write(&mut self, piece: &[u8]) -> Result<usize, SinkRefusal>
        requires { 0 < length piece.now }
        ensures bound { IfOk result (λ n. (0 < n) × (n ≤ length piece.now)) }
        ensures bytes { WriteAppends (contents self.old) (contents self.new) result piece.now }
        ensures failed { IsErrOf result SinkRefusal.Failed
            → Rose (faults self.old) (faults self.new) }
        ensures memory { IsErrOf result SinkRefusal.Memory
            → Rose (wants self.old) (wants self.new) }
        ensures fault_count { CountsWhere (IsErrOf result SinkRefusal.Failed)
            (faults self.old) (faults self.new) }
        ensures want_count { CountsWhere (IsErrOf result SinkRefusal.Memory)
            (wants self.old) (wants self.new) }
        ensures faults { faults self.old ≤ faults self.new }
        ensures wants { wants self.old ≤ wants self.new };
}
