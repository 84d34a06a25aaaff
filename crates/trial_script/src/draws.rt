//! The numbers that are drawn.
ghost use Rattle.std.specs.Prelude.{◌≡◌, ◌<◌};
ghost use Rattle.trial_script.specs.Draws.{drawn, stepped};

// What the state is multiplied by at each draw, and what is added then.
const FACTOR: u64 = 6_364_136_223_846_793_005;

const TERM: u64 = 1_442_695_040_888_963_407;

/// Sets the state to the next one, and gives a number below the bound.
#[tactic(auto, unfolding(crate::specs::Draws::drawn, crate::specs::Draws::stepped))]
pub(crate) fn draw(state: &mut u64, bound: u64) -> u64
    requires { 0 < bound }
    ensures state { state.new ≡ stepped state.old }
    ensures value { result ≡ drawn state.new bound }
    ensures below { result < bound }
{
    *state = state.wrapping_mul(FACTOR).wrapping_add(TERM);
    (*state >> 33) % bound
}
