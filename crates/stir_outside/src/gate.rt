/// A point that a worker passes before it judges a call. It tells nothing: tests let workers meet there.
pub trait Gate {
    /// Passes the gate: this worker, counted from 0, is about to judge the call of this number.
    fn at(&mut self, worker: u8, call: u32);
}

/// The gate that does nothing, as the program has it.
#[derive(Clone, Copy, Debug, PartialEq, Eq)]
pub struct NoGate;

impl Gate for NoGate {
    fn at(&mut self, _worker: u8, _call: u32) {}
}
