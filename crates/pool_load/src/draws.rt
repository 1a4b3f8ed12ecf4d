ghost use Rattle.std.specs.Prelude.{◌≡◌, ◌<◌};
ghost use Rattle.pool_load.specs.Draws.{next_state, number_of};

const MULTIPLIER: u64 = 6_364_136_223_846_793_005;

const INCREMENT: u64 = 1_442_695_040_888_963_407;

/// Numbers that are drawn one after another: a linear congruential generator, of whose 64 bits the upper 31 are used.
#[derive(Clone, Copy, Debug, PartialEq, Eq)]
pub struct Draws {
    /// What the last draw left, and before the first the seed.
    pub state: u64,
}

impl Draws {
    /// Draws a number below this one.
    #[tactic(auto, using(crate::proofs::Drawing::one_drawn), unfolding(crate::specs::Draws::next_state, crate::specs::Draws::number_of))]
    pub fn draw(&mut self, below: u64) -> u64
        requires { 0 < below }
        ensures state { self.new.state ≡ next_state self.old.state }
        ensures value { result ≡ number_of below (next_state self.old.state) }
        ensures below { result < below }
    {
        self.state = self.state.wrapping_mul(MULTIPLIER).wrapping_add(INCREMENT);
        (self.state >> 33) % below
    }
}
