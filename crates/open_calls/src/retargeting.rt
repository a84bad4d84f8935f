//! A call that is to go on, with all that is handed in beside it.
ghost use Rattle.std.specs.Prelude.{◌≡◌, length};
ghost use Rattle.open_calls.specs.OpenCalls.{judged_in};

use crate::call::OpenCall;
use crate::chains::OpenChains;
use crate::target::Target;
use crate::world::OpenWorld;

/// A call that is to go on to a target (RFC 8946, section 4), over its chains, one for each PASSporT, if these of its
/// own questions were confirmed.
#[derive(Clone, Copy)]
pub struct Retargeting<'a> {
    /// The world under which the call was opened.
    pub world: &'a OpenWorld,
    /// The call.
    pub call: &'a OpenCall,
    /// What was given for each of its PASSporTs.
    pub chains: &'a OpenChains<'a>,
    /// A byte for each of its own questions, which is 0 if it wasn't confirmed.
    pub good: &'a [u8],
    /// Where it goes on.
    pub target: Target<'a>,
    ghost one_each: { length chains.now ≡ length (judged_in call.now) },
}
