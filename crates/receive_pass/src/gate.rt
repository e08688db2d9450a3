//! Gates: what a worker passes before and after each call.

/// What a worker passes before and after each call, so that a test can see where workers are. `call` is the packet's place in
/// the worker's inbox.
pub trait Gate: Sync {
    fn before(&self, caller: u32, call: u32);

    fn after(&self, caller: u32, call: u32);
}

/// A gate that does nothing.
#[derive(Clone, Copy, Debug, PartialEq, Eq)]
pub struct NoGate;

impl Gate for NoGate {
    fn before(&self, _caller: u32, _call: u32) {}

    fn after(&self, _caller: u32, _call: u32) {}
}
