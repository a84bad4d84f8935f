//! A ticket's pieces.
ghost use Rattle.std.specs.Prelude.{◌≡◌, ◌≤◌, ◌<◌, take, drop};
ghost use Rattle.live_desk.specs.Ticket.{number_after, pieces};
ghost use Rattle.live_desk.specs.Rule.{code_of};

/// How many pieces a ticket has, and how many levels a desk.
pub const LEVELS: usize = 6;

/// The pieces of a ticket: five of 43 bits and a last one of 41, most significant first.
pub fn cut(ticket: &[u8; 32]) -> [u64; LEVELS]
    ensures { result ≡ pieces ticket.now }
{
    let a = quarter(ticket, 0);
    let b = quarter(ticket, 8);
    let c = quarter(ticket, 16);
    let d = quarter(ticket, 24);
    [
        a / (1 << 21),
        a % (1 << 21) * (1 << 22) + b / (1 << 42),
        b % (1 << 42) * (1 << 1) + c / (1 << 63),
        c / (1 << 20) % (1 << 43),
        c % (1 << 20) * (1 << 23) + d / (1 << 41),
        d % (1 << 41),
    ]
}

/// Eight bytes of a ticket as a number, the most significant one first.
fn quarter(ticket: &[u8; 32], from: usize) -> u64
    requires { from ≤ 24 }
    ensures { result ≡ number_after 0 (take 8 (drop from ticket.now)) }
{
    let mut number = 0u64;
    for index in 0..8 {
        number = number * 256 + u64::from(ticket[from + index]);
    }
    number
}

/// The code of a piece under a slot of the level before. It is above 0.
pub fn code(parent: u64, piece: u64) -> u64
    requires parent { parent < 1048576 }
    requires piece { piece < 8796093022208 }
    ensures { result ≡ code_of parent piece }
{
    parent * (1 << 43) + piece + 1
}
