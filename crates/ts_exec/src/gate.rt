//! What stands between a claim and its act.

/// Is passed by who claimed an action, before the act. It can hold a worker up, and no more: for tests.
pub trait Gate: Sync {
    /// The action of this number was claimed and is to act.
    fn pass(&self, action: u32);
}

/// Lets everyone pass at once.
#[derive(Clone, Copy, Debug, Drop)]
pub struct OpenGate;

impl Gate for OpenGate {
    fn pass(&self, _action: u32) {}
}
