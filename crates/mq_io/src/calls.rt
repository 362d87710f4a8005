// How an object in memory counts its calls, and which of them fail.
ghost use Rattle.std.specs.Prelude.{◌≡◌, ◌≤◌};
ghost use Rattle.std.specs.Bool.{OnTrue};
ghost use Rattle.mq_io.specs.Causes.{Rose};
ghost use Rattle.mq_io.specs.Calls.{no_calls, is_due, after_call};

use std::marker::Model;

// The numbers of the calls that are to fail, counted from 1, how many calls were made, and how many
// of them failed.
#[derive(Drop)]
pub struct CallCount {
    failing: Vec<u64>,
    made: u64,
    failed: u64,
}

impl Model for CallCount {
    ghost use Rattle.mq_io.specs.Calls.{Calls};

    ghost Value = { Calls };

    ghost view = { λ c. record { failing = c.failing.items; made = c.made; failed = c.failed } };
}

impl CallCount {
    pub fn new(failing: Vec<u64>) -> Self
        ensures { result ≡ no_calls failing.items }
    {
        CallCount {
            failing,
            made: 0,
            failed: 0,
        }
    }

    // Counts one more call, and says whether it is to fail.
    pub fn fails_next(&mut self) -> bool
        ensures due { result ≡ is_due self.old }
        ensures counted { self.new ≡ after_call self.old }
        ensures later { self.old.failed ≤ self.new.failed }
        ensures rose { OnTrue result (Rose self.old.failed self.new.failed) }
    {
        self.made = self.made.saturating_add(1);
        let due = self.failing.contains(&self.made);
        self.failed = self.failed.saturating_add(u64::from(due));
        due
    }
}
