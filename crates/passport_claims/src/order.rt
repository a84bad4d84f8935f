//! The order of a diverted call's PASSporTs, and why there is none.
ghost use Rattle.std.specs.Prelude.{◌≡◌};
ghost use Rattle.passport_claims.specs.OrderReading.{fault_at};

use std::error::Error;
use std::fmt;

/// How many links an order has at most (this project's own limit).
pub(crate) const MOST_LINKS: usize = 8;

/// The links of a diverted call, its PASSporTs of type `div`, in the order in which the call went (RFC 8946, section
/// 4.2).
#[derive(Clone, Copy, Debug, PartialEq, Eq)]
pub struct Order {
    /// How many links there are, at most 8.
    pub length: u8,
    /// The number of each link, counted from 1 in the order of the message; zeros after `length`.
    pub turn: [u8; MOST_LINKS],
}

/// Why links are in no order, and which link shows it.
#[derive(Clone, Copy, Debug, PartialEq, Eq)]
pub struct ChainFault {
    /// What is wrong: one of the numbers below, which are tried in this order.
    pub kind: u8,
    /// The link, counted from 1 in the order of the message; 0 if there is none.
    pub link: u8,
}

impl ChainFault {
    /// There are more than 8 links. The link is 9.
    pub const MANY: u8 = 1;
    /// The link's div is its own dest, or an earlier link has its div or its dest. The link is the first of these.
    pub const REPEAT: u8 = 2;
    /// There is no start: no link has a div that is no link's dest, and the link is 1; or several have, and it is the
    /// second of these; or one has, it is this one, and the originating PASSporT doesn't call its div.
    pub const START: u8 = 3;
    /// The link isn't reached from the start. It is the first of these.
    pub const CUT: u8 = 4;
    /// The call ends elsewhere: the dest of the link, the last one, isn't the called number; or there are no links, the
    /// originating PASSporT doesn't call that number, and the link is 0.
    pub const CALLED: u8 = 5;

    /// The fault of this kind at this link.
    pub(crate) fn new(kind: u8, link: u8) -> ChainFault
        ensures { result ≡ fault_at kind link }
    {
        ChainFault { kind, link }
    }
}

impl fmt::Display for ChainFault {
    fn fmt<W: fmt::Write>(&self, f: &mut fmt::Formatter<W>) -> fmt::Result {
        let reason = match self.kind {
            ChainFault::MANY => "there are more than 8",
            ChainFault::REPEAT => "it repeats a number",
            ChainFault::START => "there is no start",
            ChainFault::CUT => "it isn't reached from the start",
            _ => "the call ends elsewhere",
        };
        write!(f, "link {}: {reason}", self.link)
    }
}

impl Error for ChainFault {}
