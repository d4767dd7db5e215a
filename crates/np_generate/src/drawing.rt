//! Numbers drawn one after another.

ghost use Rattle.std.specs.Prelude.{◌≡◌, ◌<◌};
ghost use Rattle.np_generate.specs.Drawing.{draw};

/// A linear congruential generator with 32 bits of state; its multiplier and increment are those of
/// Numerical Recipes (Press and others, 2nd edition, section 7.1).
#[derive(Drop)]
pub struct Draws {
    pub state: u32,
}

impl Draws {
    /// A number below the bound.
    #[tactic(auto, unfolding(crate::specs::Drawing::draw))]
    pub fn draw(&mut self, bound: u32) -> u32
        requires { 0 < bound }
        ensures value { result ≡ (draw bound self.old.state).0 }
        ensures state { self.new.state ≡ (draw bound self.old.state).1 }
        ensures below { result < bound }
    {
        let next = (1664525 * u64::from(self.state) + 1013904223) % 4294967296;
        self.state = next as u32;
        self.state / 65536 % bound
    }
}
