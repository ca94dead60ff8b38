//! What is told of each fetch.

/// Told before and behind each fetch of a pass, by the pass's number. It may hold the pass up.
pub trait Gate {
    fn before_fetch(&self, pass: u32);

    fn after_fetch(&self, pass: u32);
}

/// The gate that does nothing.
#[derive(Clone, Copy, Debug, Drop)]
pub struct OpenGate;

impl Gate for OpenGate {
    fn before_fetch(&self, _pass: u32) {}

    fn after_fetch(&self, _pass: u32) {}
}
