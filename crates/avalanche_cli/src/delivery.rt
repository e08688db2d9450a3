//! Writing a file or a stream, so that it is known whether the output took any of it.
ghost use Rattle.std.specs.Prelude.{◌≤◌};
ghost use Rattle.swarm_io.specs.Counts.{Rose};
ghost use Rattle.avalanche_cli.specs.Delivery.{IsAfterDelivery, IsDelivered, IsRestDelivered};

use crate::{End, Outcome, Trace};
use std::alloc::Global;
use swarm_io::{Sink, SinkRefusal, WriteAllError, write_all_of};

/// How writing ended.
#[derive(Clone, Copy, Debug, PartialEq, Eq)]
pub(crate) enum Delivery {
    /// The output took all of it.
    Whole,
    /// A write failed.
    Fault,
    /// The output wanted memory; whether it had taken any bytes.
    Memory { took: bool },
}

/// Writes a file or a stream, all of it.
pub(crate) fn deliver<O: Sink>(output: &mut O, file: &[u8]) -> Delivery
    ensures delivered { IsDelivered file.now (O.contents output.old) (O.contents output.new)
        (Rose (O.faults output.old) (O.faults output.new)) (Rose (O.wants output.old) (O.wants output.new)) result }
    ensures faults { O.faults output.old ≤ O.faults output.new }
    ensures wants { O.wants output.old ≤ O.wants output.new }
{
    if file.is_empty() {
        return Delivery::Whole;
    }
    match output.write(file) {
        Ok(count) => deliver_rest(output, &file[count..]),
        Err(SinkRefusal::Failed) => Delivery::Fault,
        Err(SinkRefusal::Memory) => Delivery::Memory { took: false },
    }
}

/// Writes what is left of a file of which some was taken.
fn deliver_rest<O: Sink>(output: &mut O, rest: &[u8]) -> Delivery
    ensures delivered { IsRestDelivered rest.now (O.contents output.old) (O.contents output.new)
        (Rose (O.faults output.old) (O.faults output.new)) (Rose (O.wants output.old) (O.wants output.new)) result }
    ensures faults { O.faults output.old ≤ O.faults output.new }
    ensures wants { O.wants output.old ≤ O.wants output.new }
{
    match write_all_of(output, rest) {
        Ok(()) => Delivery::Whole,
        Err(WriteAllError::WriteFault) => Delivery::Fault,
        Err(WriteAllError::Memory) => Delivery::Memory { took: true },
    }
}

/// The outcome after a write: with no trace where memory was wanted and the output took nothing.
pub(crate) fn after_delivery(alloc: Global, trace: Trace, delivery: Delivery) -> Outcome
    ensures { IsAfterDelivery trace result delivery }
{
    match delivery {
        Delivery::Whole => Outcome {
            end: End::Done,
            trace,
        },
        Delivery::Fault => Outcome {
            end: End::WriteFault,
            trace,
        },
        Delivery::Memory { took: true } => Outcome {
            end: End::Memory,
            trace,
        },
        Delivery::Memory { took: false } => Outcome::without_trace(alloc, End::Memory),
    }
}
