//! What a handle of C's owns.
ghost use Rattle.std.specs.Prelude.{◌≡◌, length};
ghost use Rattle.open_calls.specs.OpenCalls.{judged_in};

use crate::call_chains::CallChains;
use open_calls::{OpenCall, OpenChain, OpenWorld};
use std::alloc::Global;
use std::sync::Arc;

/// A share of a chain, and one of the world under which it was opened.
#[derive(Drop)]
pub struct HeldChain {
    pub(crate) world: Arc<OpenWorld, Global>,
    pub(crate) chain: Arc<OpenChain, Global>,
}

/// A call, a share of the world under which it was opened, and the chains that were handed in for its PASSporTs.
#[derive(Drop)]
pub struct HeldCall {
    pub(crate) world: Arc<OpenWorld, Global>,
    pub(crate) call: OpenCall,
    pub(crate) chains: CallChains,
    pub(crate) ghost one_each: { length chains ≡ length (judged_in call) },
}

/// What a handle owns.
#[derive(Drop)]
pub enum Owner {
    /// A share of a world.
    World(Arc<OpenWorld, Global>),
    /// A chain.
    Chain(HeldChain),
    /// A call.
    Call(HeldCall),
}
