//! A list of PASSporTs, wherever they are kept.

use crate::passport::Passport;

/// A list of PASSporTs, wherever they are kept. In contracts it is the list of what they say.
pub trait Passports {
    ghost use Rattle.std.specs.Prelude.{◌≡◌, ◌<◌, List, length, Some};
    ghost use Rattle.std.specs.List.{slice_get};
    ghost use Rattle.passport_claims.specs.Passport.{ClaimsView};

    ghost list: { Self → List ClaimsView };

    /// How many there are.
    fn count(&self) -> usize
        ensures { result ≡ length (list self.now) };

    /// The one at this index.
    fn passport(&self, i: usize) -> &Passport
        requires { i < length (list self.now) }
        ensures { slice_get (list self.now) i ≡ Some result.now };
}

impl<'a> Passports for &'a [Passport] {
    ghost list = { λ passports. passports.now };

    fn count(&self) -> usize {
        self.len()
    }

    fn passport(&self, i: usize) -> &Passport {
        &self[i]
    }
}
