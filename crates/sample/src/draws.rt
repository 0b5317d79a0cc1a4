//! Numbers drawn by a linear congruential generator.

ghost use Rattle.std.specs.Prelude.{◌≡◌, ◌^◌, ◌<◌};
ghost use Rattle.sample.specs.Draws.{drawn, next_state};

use std::marker::Model;

/// The state of the generator, which contracts see as a number below 2^31.
#[derive(Drop)]
pub(crate) struct Draws {
    state: u32,
}

impl Model for Draws {
    ghost use Rattle.std.specs.Prelude.{ℕ, ◌^◌, ◌<◌};

    ghost Value = { ℕ };

    ghost view = { λ d. d.state };

    ghost invariant = { λ d. d.state < 2 ^ 31 };
}

impl Draws {
    /// A generator in this state.
    pub(crate) fn new(state: u32) -> Draws
        requires { state < 2 ^ 31 }
        ensures { result ≡ state }
    {
        Draws { state }
    }

    /// Draws one of the numbers below `count`.
    #[tactic(auto, unfolding(crate::specs::Draws::next_state, crate::specs::Draws::drawn))]
    pub(crate) fn draw(&mut self, count: u32) -> u32
        requires { 0 < count }
        ensures state { self.new ≡ next_state self.old }
        ensures number { result ≡ drawn count self.new }
        ensures bound { result < count }
    {
        let next = u64::from(self.state) * 1103515245 + 12345;
        self.state = (next % 2147483648) as u32;
        self.state / 65536 % count
    }
}
