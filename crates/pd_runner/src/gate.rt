//! Gates, which may hold an actor back before its step.
use wire_core::ActorId;

/// What is asked before each step of an actor in a thread: who steps, and how much a client has
/// recorded by then. A gate may wait, so that a test can hold actors back.
pub trait Gate {
    fn pass(&self, actor: ActorId, recorded: u64);
}

/// A gate that holds nobody back.
#[derive(Clone, Copy, Debug)]
pub struct OpenGate;

impl Gate for OpenGate {
    fn pass(&self, _actor: ActorId, _recorded: u64) {}
}
