//! Draws of numbers, by a linear congruential generator.
ghost use Rattle.std.specs.Prelude.{◌≡◌, ◌<◌};
ghost use Rattle.mq_generate.specs.Draws.{draw_of, next_of, start_of};

use std::marker::Model;

/// What a state is multiplied by at a draw.
pub const MULTIPLIER: u64 = 1_103_515_245;

/// What is added to the product.
pub const INCREMENT: u64 = 12_345;

/// How many states there are: a state is what remains by division through their number.
pub const STATES: u64 = 2_147_483_648;

/// A draw leaves this part of its state out, in which numbers repeat soon.
pub const LOW_PART: u64 = 65_536;

/// Numbers are drawn from it one after another. Clauses see it as its state.
#[derive(Drop)]
pub struct Draws {
    state: u64,
}

impl Model for Draws {
    ghost use Rattle.std.specs.Prelude.{ℕ, ◌<◌};
    ghost use Rattle.mq_generate.specs.declared.draws.TheConstants.{STATES};

    ghost Value = { ℕ };

    ghost view = { λ d. d.state };

    ghost invariant = { λ d. d.state < STATES };
}

impl Draws {
    /// The draws that the number starts.
    pub fn new(number: u32) -> Draws
        ensures { result ≡ start_of number }
    {
        Draws {
            state: u64::from(number) % STATES,
        }
    }

    /// Draws a number below the limit.
    pub fn draw(&mut self, limit: u64) -> u64
        requires { 0 < limit }
        ensures drawn { result ≡ draw_of limit self.old }
        ensures below { result < limit }
        ensures next { self.new ≡ next_of self.old }
    {
        self.state = (self.state * MULTIPLIER + INCREMENT) % STATES;
        self.state / LOW_PART % limit
    }
}
