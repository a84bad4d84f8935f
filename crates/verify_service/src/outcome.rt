//! What comes of a call.
ghost use Rattle.std.specs.Prelude.{◌≡◌};
ghost use Rattle.verify_service.specs.Adding.{is_valid};

use verify_rules::{Place, Refusal};

/// What comes of a call in a round.
#[derive(Clone, Copy, Debug, PartialEq, Eq, Default)]
pub enum Outcome {
    /// It breaks no rule, and of the calls that pass with its last PASSporT it is the one that may.
    #[default]
    Valid,
    /// This is the first rule that it breaks.
    Refused(Refusal),
    /// It breaks no other rule, and a call with the same last PASSporT is valid: the one of this number.
    Replay {
        /// The number of the valid call.
        winner: u32,
    },
    /// It is set aside: the file with the certificates of the PASSporT there couldn't be read.
    Unread(Place),
    /// It is set aside: the provider failed at a signature. It is that of a certificate, whose number the part is, or
    /// of the PASSporT if the part is 0.
    Unasked(Place),
}

impl Outcome {
    /// The call is valid.
    pub fn is_valid(&self) -> bool
        ensures { result ≡ is_valid self.now }
    {
        match self {
            Outcome::Valid => true,
            Outcome::Refused(_) => false,
            Outcome::Replay { .. } => false,
            Outcome::Unread(_) => false,
            Outcome::Unasked(_) => false,
        }
    }
}
