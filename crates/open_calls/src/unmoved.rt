//! Why no message goes on.
ghost use Rattle.std.specs.Prelude.{◌≡◌};
ghost use Rattle.open_calls.specs.Unmoved.{IsNamed, unmoved_of};

use crate::unsigned::Unread;
use retarget::HopFault;
use verify_rules::{Refusal, Verdict};

/// Why no message goes on.
#[derive(Clone, Copy, Debug)]
pub enum Unmoved {
    /// An input is at fault, or memory ran out.
    Input(Unread),
    /// The call breaks this rule first.
    Refused(Refusal),
    /// The call can't go on there: 21 the target gives no number, 22 the call has been at it, 23 there is no room for
    /// one field or one diversion more, 24 the message would be longer than 65,535 bytes, 25 the first certificate
    /// doesn't cover the number that was called before.
    Held(u8),
    /// There is no signature for this digest.
    Digest([u8; 32]),
}

/// Why no message goes on, by the gateway's fault.
pub(crate) fn why(fault: HopFault) -> Unmoved
    requires { IsNamed fault }
    ensures { result ≡ unmoved_of fault }
{
    match fault {
        HopFault::Verdict(Verdict::Refused(refusal)) => Unmoved::Refused(refusal),
        HopFault::Verdict(Verdict::Passed) => unreachable!(),
        HopFault::Verdict(Verdict::Unread(_)) => unreachable!(),
        HopFault::Verdict(Verdict::Unasked(_)) => unreachable!(),
        HopFault::Target => Unmoved::Held(21),
        HopFault::Loop => Unmoved::Held(22),
        HopFault::Full => Unmoved::Held(23),
        HopFault::Size => Unmoved::Held(24),
        HopFault::Authority => Unmoved::Held(25),
        HopFault::NoSignature { digest } => Unmoved::Digest(digest),
        HopFault::Provider => unreachable!(),
        HopFault::Memory => Unmoved::Input(Unread::Memory),
    }
}
