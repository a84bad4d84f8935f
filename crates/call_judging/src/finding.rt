//! What comes of a call by itself, before the calls around it are looked at.
ghost use Rattle.call_judging.specs.Judging.{IsOfVerdict};

use verify_rules::{Place, Refusal, Verdict};

/// How a call is known again: the digest of what was signed as its last PASSporT (RFC 8225, section 9), and the last
/// second at which that is fresh, in Unix time.
#[derive(Clone, Copy)]
pub struct Pass {
    pub ticket: [u8; 32],
    pub last: u64,
}

/// What comes of a call by all rules but the one on replay.
#[derive(Clone, Copy)]
pub enum Finding {
    /// This is the first rule that it breaks.
    Refused(Refusal),
    /// It is set aside: the file with the certificates of the PASSporT there couldn't be read.
    Unread(Place),
    /// It is set aside: the provider failed at a signature.
    Unasked(Place),
    /// It breaks none.
    Passes(Pass),
}

impl Finding {
    /// The verdict by the rules, without what the call is known again by.
    pub fn verdict(&self) -> Verdict
        ensures { IsOfVerdict result self.now }
    {
        match self {
            Finding::Refused(refusal) => Verdict::Refused(*refusal),
            Finding::Unread(place) => Verdict::Unread(*place),
            Finding::Unasked(place) => Verdict::Unasked(*place),
            Finding::Passes(_) => Verdict::Passed,
        }
    }
}
