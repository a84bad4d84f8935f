//! How a call of the drill differs from one that is valid.
ghost use Rattle.std.specs.Prelude.{◌≡◌, ◌≤◌, ◌<◌};
ghost use Rattle.stir_drill.specs.Change.{calling_in, change_of_call, has_identity, is_confirmed, issued_in, repeats};

/// How many seconds before its call the PASSporT of a stale one was issued.
const STALE: u64 = 61;

/// The first of the numbers that the leaf speaks for, and of those that it doesn't.
const WITHIN: u64 = 12_155_550_000;

const OUTSIDE: u64 = 12_165_550_000;

/// How a call differs from one that is valid.
#[derive(Clone, Copy)]
pub(crate) enum Change {
    /// It doesn't.
    Plain,
    /// Its message is that of the call before.
    Repeats,
    /// Its message has no Identity header field.
    Unsigned,
    /// Its PASSporT was issued 61 seconds before it came.
    Stale,
    /// The signature of its PASSporT isn't confirmed.
    Unconfirmed,
    /// Its calling number is none of the leaf's.
    Outside,
}

impl Change {
    /// The change of the call of this number, the first being 1, by its first draw modulo 8.
    pub(crate) fn of_call(number: u64, kind: u64) -> Change
        ensures { result ≡ change_of_call number kind }
    {
        match kind {
            0 if number == 1 => Change::Plain,
            0 => Change::Repeats,
            1 => Change::Unsigned,
            2 => Change::Stale,
            3 => Change::Unconfirmed,
            4 => Change::Outside,
            _ => Change::Plain,
        }
    }

    /// Whether the message is that of the call before.
    pub(crate) fn repeats(self) -> bool
        ensures { result ≡ repeats self }
    {
        match self {
            Change::Repeats => true,
            Change::Plain
            | Change::Unsigned
            | Change::Stale
            | Change::Unconfirmed
            | Change::Outside => false,
        }
    }

    /// The calling number, by its last four digits.
    pub(crate) fn calling(self, line: u64) -> u64
        requires { line < 10000 }
        ensures { result ≡ calling_in self line }
    {
        match self {
            Change::Outside => OUTSIDE + line,
            Change::Plain
            | Change::Repeats
            | Change::Unsigned
            | Change::Stale
            | Change::Unconfirmed => WITHIN + line,
        }
    }

    /// When the PASSporT of a call of this moment was issued, in Unix seconds.
    pub(crate) fn issued(self, moment: u64) -> u64
        requires { 61 ≤ moment }
        ensures { result ≡ issued_in self moment }
    {
        match self {
            Change::Stale => moment - STALE,
            Change::Plain
            | Change::Repeats
            | Change::Unsigned
            | Change::Unconfirmed
            | Change::Outside => moment,
        }
    }

    /// Whether the message has an Identity header field.
    pub(crate) fn has_identity(self) -> bool
        ensures { result ≡ has_identity self }
    {
        match self {
            Change::Unsigned => false,
            Change::Plain
            | Change::Repeats
            | Change::Stale
            | Change::Unconfirmed
            | Change::Outside => true,
        }
    }

    /// Whether the answers confirm the signature of the PASSporT.
    pub(crate) fn is_confirmed(self) -> bool
        ensures { result ≡ is_confirmed self }
    {
        match self {
            Change::Plain | Change::Stale | Change::Outside => true,
            Change::Repeats | Change::Unsigned | Change::Unconfirmed => false,
        }
    }
}
