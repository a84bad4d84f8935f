ghost use Rattle.std.specs.Prelude.{◌≡◌};

use std::marker::Model;

/// A call of the log: its number, when it came, in Unix seconds, and its message.
#[derive(Drop)]
pub struct Call {
    number: u32,
    moment: u64,
    message: Vec<u8>,
}

impl Model for Call {
    ghost use Rattle.call_log.specs.Entry.{Entry};

    ghost Value = { Entry };

    ghost view = { λ c. record { number = c.number; moment = c.moment; message = c.message.items } };
}

impl Call {
    /// The call of these parts.
    pub fn new(number: u32, moment: u64, message: Vec<u8>) -> Call
        ensures { result ≡ record { number = number; moment = moment; message = message.items } }
    {
        Call {
            number,
            moment,
            message,
        }
    }

    /// Its number in the log.
    pub fn number(&self) -> u32
        ensures { result ≡ self.now.number }
    {
        self.number
    }

    /// When it came, in Unix seconds.
    pub fn moment(&self) -> u64
        ensures { result ≡ self.now.moment }
    {
        self.moment
    }

    /// The bytes of its message.
    pub fn message(&self) -> &[u8]
        ensures { result.now ≡ self.now.message }
    {
        self.message.as_slice()
    }
}
