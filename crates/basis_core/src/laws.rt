//! Laws over the definitions alone: each is the contract of a function that does nothing but take other laws.
mod call_laws;
mod history_laws;
mod record_laws;
mod step_laws;
mod trace_laws;

pub use call_laws::calls;
pub use history_laws::histories;
pub use record_laws::{callers, records};
pub use step_laws::steps;
pub use trace_laws::traces;
