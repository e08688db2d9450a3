//! Reads of whole inputs.
ghost use Rattle.std.specs.Prelude.{◌≡◌, ◌+◌, ◌-◌, ◌^◌, ◌<◌, ◌≤◌, length, IfOk, OnOk, IsErrOf};
ghost use Rattle.std.specs.Io.KnownBytes.{Consumes, IsAtEnd};
ghost use Rattle.swarm_io.specs.Counts.{CountsWhere, Rose};
ghost use Rattle.swarm_io.specs.Moved.{Takes, TakesAtMost};
ghost use Rattle.swarm_io.specs.declared.reading.ReadAllError.TheVariants.{ReadFault, Memory as OutOfMemory};

use crate::{Failed, Source};
use gf16::Memory;
use linear_spec::List;
use std::alloc::Global;
use thiserror::Error;

// The most bytes of one read, whose buffer stands on the stack.
const PIECE: usize = 65536;

/// Why a whole input was not read.
#[derive(Clone, Copy, Debug, PartialEq, Eq, Error)]
pub enum ReadAllError {
    #[error("reading failed")]
    ReadFault,
    #[error("the input is too large")]
    TooLarge,
    #[error("out of memory")]
    Memory,
}

impl From<Failed> for ReadAllError {
    ghost from_gives = { λ _ e. e ≡ ReadFault };

    fn from(_failed: Failed) -> ReadAllError {
        ReadAllError::ReadFault
    }
}

impl From<Memory> for ReadAllError {
    ghost from_gives = { λ _ e. e ≡ OutOfMemory };

    fn from(_want: Memory) -> ReadAllError {
        ReadAllError::Memory
    }
}

/// Reads to the end of an input of at most `limit` bytes, in reads of at most 65,536.
///
/// After an error the bytes that were taken are lost.
pub fn read_all<I: Source>(
    alloc: Global,
    input: &mut I,
    limit: u64,
) -> Result<List<u8>, ReadAllError>
    requires { limit < 2 ^ 64 - 1 }

    ensures whole { IfOk result (λ bytes.
        Consumes (I.remaining input.old) (I.remaining input.new) bytes.items) }
    ensures end { OnOk result (IsAtEnd (I.remaining input.new)) }
    ensures within { IfOk result (λ bytes. length bytes.items ≤ limit) }

    ensures read_fault { IsErrOf result ReadAllError.ReadFault
        → Rose (I.faults input.old) (I.faults input.new) }
    ensures too_large { IsErrOf result ReadAllError.TooLarge
        → Takes (I.remaining input.old) (I.remaining input.new) (limit + 1) }
    ensures otherwise { ¬ IsErrOf result ReadAllError.TooLarge
        → TakesAtMost (I.remaining input.old) (I.remaining input.new) limit }
    ensures taken { TakesAtMost (I.remaining input.old) (I.remaining input.new) (limit + 1) }
    ensures fault_count { CountsWhere (IsErrOf result ReadAllError.ReadFault)
        (I.faults input.old) (I.faults input.new) }
    ensures faults { I.faults input.old ≤ I.faults input.new }
{
    let mut bytes = List::new(alloc);
    let mut buffer = [0; PIECE];
    let mut room = limit;
    loop {
        let want = (room + 1).min(PIECE as u64) as usize;
        let count = input.read(&mut buffer[..want])?;
        if count == 0 {
            return Ok(bytes);
        }
        room = room
            .checked_sub(count as u64)
            .ok_or(ReadAllError::TooLarge)?;
        bytes.extend_from_slice(&buffer[..count])?;
    }
}
