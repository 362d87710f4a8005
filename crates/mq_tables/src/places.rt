//! Places of rows.
ghost use Rattle.std.specs.Prelude.{◌≡◌};

/// The places from one on, up to another, counted from 0.
#[derive(Clone, Copy)]
pub struct Places {
    pub from: usize,
    pub to: usize,
}

impl Places {
    /// The first places, so many of them.
    pub fn first(count: usize) -> Places
        ensures { result ≡ record { from = 0; to = count } }
    {
        Places { from: 0, to: count }
    }
}
