/// What is told before and after each command of a worker, while no part of the pool is held. It may wait: so a test sees that workers run side
/// by side.
pub trait Gate {
    fn before(&self, worker: u32, command: u32);

    fn after(&self, worker: u32, command: u32);
}

/// The gate that does nothing.
#[derive(Drop)]
pub struct OpenGate;

impl Gate for OpenGate {
    fn before(&self, _worker: u32, _command: u32) {}

    fn after(&self, _worker: u32, _command: u32) {}
}
