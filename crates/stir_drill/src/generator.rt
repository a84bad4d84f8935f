//! The numbers that are drawn.
ghost use Rattle.std.specs.Prelude.{◌≡◌, ◌≤◌, ◌<◌};
ghost use Rattle.stir_drill.specs.Draw.{drawn, next};

const MULTIPLIER: u64 = 6_364_136_223_846_793_005;

const INCREMENT: u64 = 1_442_695_040_888_963_407;

/// How many low bits of the state aren't drawn.
const LOW_BITS: u32 = 33;

/// The next draw, from 0 up to 2,147,483,647, by which the state goes on.
#[tactic(auto, using(crate::proofs::DrawLaws::next_wrapped))]
pub(crate) fn draw(state: &mut u64) -> u64
    ensures state { state.new ≡ next state.old }
    ensures drawn { result ≡ drawn state.new }
{
    *state = state.wrapping_mul(MULTIPLIER).wrapping_add(INCREMENT);
    *state >> LOW_BITS
}
