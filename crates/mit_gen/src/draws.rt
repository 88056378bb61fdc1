//! Draws of numbers.

ghost use Rattle.std.specs.Prelude.{◌≡◌, ◌<◌, ◌/◌};
ghost use Rattle.mit_gen.specs.Made.{next_state, state_after, unit_from};

use crate::unit::{Unit, kind_of};

/// Draws from a state, which each draw changes.
#[derive(Drop)]
pub struct Draws {
    state: u32,
}

impl Draws {
    /// Draws that begin with a number as their state.
    pub fn new(number: u32) -> Draws
        ensures { result.state ≡ number }
    {
        Draws { state: number }
    }

    // The next draw, below 32768.
    #[tactic(auto, unfolding(crate::specs::Made::next_state))]
    fn draw(&mut self) -> u32
        ensures state { self.new.state ≡ next_state self.old.state }
        ensures value { result ≡ next_state self.old.state / 65536 }
    {
        let next = (u64::from(self.state) * 1103515245 + 12345) % (1 << 31);
        self.state = next as u32;
        self.state / 65536
    }

    /// A unit of the next four draws.
    pub fn unit(&mut self) -> Unit
        ensures state { self.new.state ≡ state_after self.old.state 4 }
        ensures unit { result ≡ unit_from self.old.state }
        ensures small { result.c < 100 }
    {
        let kind = kind_of(self.draw());
        let a = self.draw() % 4;
        let b = self.draw() % 4;
        let c = self.draw() % 100;
        Unit { kind, a, b, c }
    }
}
