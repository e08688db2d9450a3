//! Writes of all of some bytes.
ghost use Rattle.std.specs.Prelude.{◌≡◌, ◌≤◌, length, OnOk, OnErr, IsErrOf};
ghost use Rattle.std.specs.Io.KnownBytes.{Appends};
ghost use Rattle.swarm_io.specs.Counts.{CountsWhere, Rose};
ghost use Rattle.swarm_io.specs.Moved.{AppendsPrefix};
ghost use Rattle.swarm_io.specs.SinkRefusal.{write_error_of};

use crate::{Sink, SinkRefusal};
use thiserror::Error;

/// Why not all bytes were written.
#[derive(Clone, Copy, Debug, PartialEq, Eq, Error)]
pub enum WriteAllError {
    #[error("writing failed")]
    WriteFault,
    #[error("out of memory")]
    Memory,
}

impl From<SinkRefusal> for WriteAllError {
    ghost from_gives = { λ refusal e. e ≡ write_error_of refusal };

    fn from(refusal: SinkRefusal) -> WriteAllError {
        match refusal {
            SinkRefusal::Failed => WriteAllError::WriteFault,
            SinkRefusal::Memory => WriteAllError::Memory,
        }
    }
}

/// Writes all the bytes, in as many calls as it takes.
#[tactic(auto, using(crate::proofs::MovedLemmas::writes))]
pub fn write_all_of<O: Sink>(output: &mut O, bytes: &[u8]) -> Result<(), WriteAllError>
    ensures ok { OnOk result (Appends (O.contents output.old) (O.contents output.new) bytes.now) }
    ensures err { OnErr result
        (AppendsPrefix (O.contents output.old) (O.contents output.new) bytes.now) }

    ensures write_fault { IsErrOf result WriteAllError.WriteFault
        → Rose (O.faults output.old) (O.faults output.new) }
    ensures memory { IsErrOf result WriteAllError.Memory
        → Rose (O.wants output.old) (O.wants output.new) }
    ensures fault_count { CountsWhere (IsErrOf result WriteAllError.WriteFault)
        (O.faults output.old) (O.faults output.new) }
    ensures want_count { CountsWhere (IsErrOf result WriteAllError.Memory)
        (O.wants output.old) (O.wants output.new) }
    ensures faults { O.faults output.old ≤ O.faults output.new }
    ensures wants { O.wants output.old ≤ O.wants output.new }

    ensures untouched { length bytes.now ≡ 0 → output.new ≡ output.old }
{
    let mut done = 0;
    while done < bytes.len() {
        done += output.write(&bytes[done..])?;
    }
    Ok(())
}
