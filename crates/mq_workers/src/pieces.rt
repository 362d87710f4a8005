//! What workers run.

/// A piece of work, which any thread may run.
pub trait Piece: Send + Drop {
    /// What a piece asks before it is run.
    ghost ready: { Self → Type 0 };

    /// What one run makes of a piece: the piece before, and the piece after.
    ghost ran: { Self → Self → Type 0 };

    /// Does the work. What comes of it, want of memory too, is kept in the piece.
    fn run(&mut self)
        requires ready { ready self.old }
        ensures ran { ran self.old self.new };
}
