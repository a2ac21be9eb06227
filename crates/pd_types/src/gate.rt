use crate::Actor;

/// What may hold an actor back before each of its lines, and hears of each line that was answered. A
/// run on threads asks it; what it answers changes no promise of the run.
pub trait Gate {
    /// Whether the actor still has to wait before the line of this number. It is asked again while it
    /// answers true, at most 1,000,000 times.
    fn hold(&self, actor: Actor, number: u32) -> bool;

    /// The actor answered the line of this number.
    fn done(&self, actor: Actor, number: u32);
}

/// The gate that never holds anybody.
#[derive(Clone, Copy, Debug, Drop)]
pub struct OpenGate;

impl Gate for OpenGate {
    fn hold(&self, _actor: Actor, _number: u32) -> bool {
        false
    }

    fn done(&self, _actor: Actor, _number: u32) {}
}
