// What workers pass as each of their pieces starts.

/// Called as each piece of work starts, on the thread that does it. It has no effect on any answer:
/// tests hand in one that holds pieces back, to try every order (docs/MEANING.md, "The outside").
pub trait Gate: Sync {
    /// The piece of that number starts.
    fn enter(&self, piece: u32);
}

/// A gate that does nothing.
#[derive(Clone, Copy, Debug)]
pub struct OpenGate;

impl Gate for OpenGate {
    fn enter(&self, _piece: u32) {}
}
