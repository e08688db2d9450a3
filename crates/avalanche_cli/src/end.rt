//! The ends of a run.
ghost use Rattle.std.specs.Prelude.{◌≡◌};
ghost use Rattle.avalanche_cli.specs.End.{status_of};

use avalanche_args::{ArgsError, WordClass};
use gf16::Memory;
use packet_wire::WireFault;
use swarm_io::WriteAllError;

/// How a run ended.
#[derive(Clone, Copy, Debug, PartialEq, Eq)]
pub enum End {
    /// The command did all that it does.
    Done,
    /// The words ask for no command.
    Usage(WordClass),
    /// Reading the input failed.
    ReadFault,
    /// Writing the output failed.
    WriteFault,
    /// The input has more bytes than this limit.
    TooLarge { limit: u64 },
    /// The input is no stream: its first fault.
    BadStream(WireFault),
    /// The passing packets of this generation do not determine its blocks: they have this rank.
    Incomplete { generation: u16, rank: u16 },
    /// The solved file has another digest than the manifest says: the one found.
    Mismatch { found: [u8; 32] },
    /// Memory was wanted and refused.
    Memory,
}

impl End {
    /// The process status.
    pub fn status(&self) -> u8
        ensures { result ≡ status_of self.now }
    {
        match self {
            End::Done => 0,
            End::Usage(_) => 1,
            End::ReadFault => 2,
            End::WriteFault => 3,
            End::TooLarge { .. } => 4,
            End::BadStream(_) => 5,
            End::Incomplete { .. } => 6,
            End::Mismatch { .. } => 7,
            End::Memory => 8,
        }
    }
}

impl From<Memory> for End {
    ghost use Rattle.std.specs.Prelude.{◌≡◌};
    ghost use Rattle.avalanche_cli.specs.declared.end.End.TheVariants.{Memory as OutOfMemory};

    ghost from_gives = { λ _ end. end ≡ OutOfMemory };

    fn from(_want: Memory) -> End {
        End::Memory
    }
}

impl From<ArgsError> for End {
    ghost use Rattle.std.specs.Prelude.{◌≡◌};
    ghost use Rattle.avalanche_cli.specs.End.{end_of_words};

    ghost from_gives = { λ error end. end ≡ end_of_words error };

    fn from(error: ArgsError) -> End {
        match error {
            ArgsError::Usage(class) => End::Usage(class),
            ArgsError::Memory => End::Memory,
        }
    }
}

impl From<WriteAllError> for End {
    ghost use Rattle.std.specs.Prelude.{◌≡◌};
    ghost use Rattle.avalanche_cli.specs.End.{end_of_write};

    ghost from_gives = { λ error end. end ≡ end_of_write error };

    fn from(error: WriteAllError) -> End {
        match error {
            WriteAllError::WriteFault => End::WriteFault,
            WriteAllError::Memory => End::Memory,
        }
    }
}
