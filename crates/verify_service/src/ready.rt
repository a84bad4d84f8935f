//! A round whose calls are ready to be judged, and what is lent to those who judge them.
use crate::kept::KeptChains;
use crate::screening::ReadyCall;
use cert_store::{Cache, World};
use replay_desk::{Desk, Past};

/// What those who judge the calls of a round share: the calls, the chains that the round keeps, and the desk on which
/// calls claim the class of their ticket.
#[derive(Drop)]
pub(crate) struct Round {
    pub(crate) calls: Vec<ReadyCall>,
    pub(crate) kept: KeptChains,
    pub(crate) desk: Desk,
}

/// What a service and a round lend to those who judge calls.
#[derive(Clone, Copy)]
pub(crate) struct Lent<'a> {
    pub(crate) materials: &'a World,
    pub(crate) cache: &'a Cache,
    pub(crate) past: &'a Past,
    pub(crate) kept: &'a KeptChains,
    pub(crate) desk: &'a Desk,
}
