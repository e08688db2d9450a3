//! Sources and sinks of bytes, whose faults and wants of memory are counted.
#![tactic(auto)]

mod mem;
mod reading;
mod sink;
mod source;
mod standard;
mod steady;
mod writing;

pub use mem::{MemSink, MemSource};
pub use reading::{ReadAllError, read_all};
pub use sink::{Sink, SinkRefusal};
pub use source::{Failed, Source};
pub use standard::{StdSink, StdSource};
pub use steady::{SteadySink, SteadySource};
pub use writing::{WriteAllError, write_all_of};

#[cfg(test)]
mod tests;
