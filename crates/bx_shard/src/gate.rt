/// Calls of a worker before and after it advances its shards, where a test can stop it.
///
/// `worker`: its number, counted from 0.
pub trait Gate {
    fn before(&self, worker: usize);

    fn after(&self, worker: usize);
}

/// A gate that never waits.
#[derive(Clone, Copy, Debug)]
pub struct OpenGate;

impl Gate for OpenGate {
    fn before(&self, _worker: usize) {}

    fn after(&self, _worker: usize) {}
}
