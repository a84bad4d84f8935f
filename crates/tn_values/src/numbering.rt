//! The local numbering.
ghost use Rattle.std.specs.Prelude.{◌≡◌, Some};
ghost use Rattle.tn_values.specs.Local.{is_local, local_of};

use crate::alphabet::are_digits;
use crate::numbers::Number;
use std::marker::Model;

/// How a text without `+` is read: the digits of the country, and how many digits a national number has.
///
/// A contract sees the two as `country`, a list of bytes, and `national`, a number.
#[derive(Clone, Copy, Debug, PartialEq, Eq, Hash)]
pub struct Local {
    country: Number,
    national: u8,
}

impl Model for Local {
    ghost use Rattle.std.specs.Prelude.{IsTrue};
    ghost use Rattle.tn_values.specs.Local.{LocalView, is_local};

    ghost Value = { LocalView };

    ghost view = { λ l. record { country = l.country; national = l.national } };

    ghost invariant = { λ l. IsTrue (is_local l.country l.national) };

    ghost inverse = { λ v. record { country = v.country; national = v.national } };
}

impl Local {
    /// The local numbering of a country with the digits `country`, whose national numbers have `national` digits.
    ///
    /// None if `country` isn't 1 to 3 digits, `national` isn't 1 to 14, or their lengths together exceed the 15 of a
    /// number.
    pub fn new(country: &[u8], national: u8) -> Option<Local>
        ensures { result ≡ local_of country.now national }
    {
        if !is_local(country, national) {
            return None;
        }
        match Number::exact(country) {
            Some(country) => Some(Local { country, national }),
            None => None,
        }
    }

    /// The digits of the country, 1 to 3.
    pub fn country(&self) -> Number
        ensures value { result ≡ self.now.country }
        ensures again { local_of self.now.country self.now.national ≡ Some self.now }
    {
        self.country
    }

    /// How many digits a national number has, 1 to 14.
    pub fn national(&self) -> u8
        ensures value { result ≡ self.now.national }
        ensures again { local_of self.now.country self.now.national ≡ Some self.now }
    {
        self.national
    }
}

/// Whether there is a local numbering of this country and so many digits.
#[tactic(auto, unfolding(crate::specs::Local::is_local))]
fn is_local(country: &[u8], national: u8) -> bool
    ensures { result ≡ is_local country.now national }
{
    match (country.len(), national) {
        (1..=3, 1..=14) => country.len() + usize::from(national) <= 15 && are_digits(country),
        _ => false,
    }
}
