ghost use Rattle.std.specs.Prelude.{◌≡◌, ℕ};
ghost use Rattle.disk_model.specs.Generator.{next_state, number_of};

use std::marker::Model;

// What the state is multiplied by in a draw, and what is then added.
const FACTOR: u64 = 6_364_136_223_846_793_005;

const SUMMAND: u64 = 1_442_695_040_888_963_407;

/// Numbers that are drawn one after another, by the same rule as those of `disk_model`'s disks.
/// Contracts see the state, which the seed begins.
#[derive(Drop)]
pub(crate) struct Generator {
    state: u64,
}

impl Model for Generator {
    ghost Value = { ℕ };

    ghost view = { λ g. g.state };
}

impl Generator {
    /// A generator of which nothing was drawn.
    pub(crate) fn new(seed: u64) -> Generator
        ensures { result ≡ seed }
    {
        Generator { state: seed }
    }

    /// The next number, of 31 bits.
    #[tactic(auto, unfolding(disk_model::specs::Generator::next_state))]
    pub(crate) fn draw(&mut self) -> u64
        ensures state { self.new ≡ next_state self.old }
        ensures number { result ≡ number_of (next_state self.old) }
    {
        self.state = self.state.wrapping_mul(FACTOR).wrapping_add(SUMMAND);
        upper_bits(self.state)
    }
}

// The upper 31 bits of a state.
#[tactic(auto, unfolding(disk_model::specs::Generator::number_of))]
fn upper_bits(state: u64) -> u64
    ensures { result ≡ number_of state }
{
    state >> 33
}
