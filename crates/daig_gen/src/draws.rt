//! The generator of numbers.
ghost use Rattle.std.specs.Prelude.{◌≡◌, ◌<◌};
ghost use Rattle.daig_gen.specs.Draws.{next, pick, variable, constant};

use std::marker::Model;

/// The multiplier of the state.
const MULTIPLIER: u64 = 6364136223846793005;

/// What is added to the state.
const INCREMENT: u64 = 1442695040888963407;

/// How many of a state's lower bits no draw shows.
const HIDDEN_BITS: u32 = 33;

/// A linear congruential generator. Its value is its state.
#[derive(Drop)]
pub(crate) struct Draws {
    state: u64,
}

impl Model for Draws {
    ghost use Rattle.std.specs.Prelude.{ℕ};

    ghost Value = { ℕ };

    ghost view = { λ draws. draws.state };
}

impl Draws {
    /// The generator that begins at the seed.
    pub(crate) fn new(seed: u64) -> Draws
        ensures seed { result ≡ seed }
    {
        Draws { state: seed }
    }

    /// Draws a number below `bound`.
    #[tactic(auto, unfolding(crate::specs::Draws::next, crate::specs::Draws::pick))]
    pub(crate) fn pick(&mut self, bound: u64) -> u64
        requires { 0 < bound }
        ensures number { result ≡ pick bound self.old }
        ensures state { self.new ≡ next self.old }
        ensures below { result < bound }
    {
        self.state = self.state.wrapping_mul(MULTIPLIER).wrapping_add(INCREMENT);
        (self.state >> HIDDEN_BITS) % bound
    }

    /// Draws the number of one of the four variables.
    pub(crate) fn variable(&mut self) -> u64
        ensures number { result ≡ variable self.old }
        ensures state { self.new ≡ next self.old }
    {
        self.pick(4)
    }

    /// Draws a constant below 100.
    pub(crate) fn constant(&mut self) -> u64
        ensures number { result ≡ constant self.old }
        ensures state { self.new ≡ next self.old }
    {
        self.pick(100)
    }
}
