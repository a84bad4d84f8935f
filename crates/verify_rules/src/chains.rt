//! The certificate chains of a call's PASSporTs, as they are handed in.

use cert_store::Judged;

/// What is known of the certificate chain of a PASSporT.
#[derive(Clone, Copy)]
pub enum ChainState<'a> {
    /// The chain was judged.
    Have(&'a Judged),
    /// There is none: no file is listed for the x5u, or the file that is isn't there.
    NoChain,
    /// Its file has more bytes than a chain may have.
    Long,
    /// It isn't known: its file couldn't be read.
    Unread,
}

/// The chains of the PASSporTs of a call that was screened, in the order in which the call went. In contracts they are
/// the list of what is known of each.
pub trait Chains {
    ghost use Rattle.std.specs.Prelude.{◌≡◌, ◌<◌, List, length, Some};
    ghost use Rattle.std.specs.List.{slice_get};
    ghost use Rattle.verify_rules.specs.States.{State, seen};

    ghost states: { Self → List State };

    /// How many there are.
    fn count(&self) -> usize
        ensures { result ≡ length (states self.now) };

    /// What is known of the chain of the PASSporT at this index.
    fn state(&self, i: usize) -> ChainState<'_>
        requires { i < length (states self.now) }
        ensures { slice_get (states self.now) i ≡ Some (seen result) };
}
