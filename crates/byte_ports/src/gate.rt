// A place where an actor can be held up before it goes on.

/// Whoever runs the actors decides here which of them goes on. It promises nothing.
pub trait Gate {
    /// Called before each board call of an actor, by the actor's number.
    fn pass(&self, actor: u32);
}

/// A gate that lets everybody through at once.
#[derive(Clone, Copy, Debug)]
pub struct OpenGate;

impl Gate for OpenGate {
    fn pass(&self, _actor: u32) {}
}
