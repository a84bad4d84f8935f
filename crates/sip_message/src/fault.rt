//! Why bytes are no message.
ghost use Rattle.std.specs.Prelude.{◌≡◌};
ghost use Rattle.sip_message.specs.declared.fault.MessageFault.TheVariants.{Memory};

use std::alloc::{AllocError, AllocFailed};
use std::error::Error;
use std::fmt;

/// The first fault of bytes that are no message.
#[derive(Clone, Copy, Debug, PartialEq, Eq)]
pub struct FormFault {
    /// 1 the size, 2 the start line, 3 a line of the head, 4 no empty line, 5 From, 6 To.
    pub kind: u8,
    /// The offset in bytes of the fault, at most the length of the bytes.
    pub place: u32,
}

/// Why [`Message::read`](crate::Message::read) gave no message.
#[derive(Clone, Copy, Debug, PartialEq, Eq)]
pub enum MessageFault {
    /// The bytes are no message.
    Form(FormFault),
    /// Memory ran out.
    Memory,
}

impl fmt::Display for MessageFault {
    fn fmt<W: fmt::Write>(&self, f: &mut fmt::Formatter<W>) -> fmt::Result {
        match self {
            MessageFault::Form(fault) => {
                write!(
                    f,
                    "no SIP message: fault {} at byte {}",
                    fault.kind, fault.place
                )
            }
            MessageFault::Memory => write!(f, "out of memory"),
        }
    }
}

impl Error for MessageFault {}

impl From<AllocError> for MessageFault {
    ghost from_gives = { λ _ fault. fault ≡ Memory };

    fn from(_error: AllocError) -> MessageFault {
        MessageFault::Memory
    }
}

impl<T: Drop> From<AllocFailed<T>> for MessageFault {
    ghost from_gives = { λ _ fault. fault ≡ Memory };

    fn from(_error: AllocFailed<T>) -> MessageFault {
        MessageFault::Memory
    }
}
