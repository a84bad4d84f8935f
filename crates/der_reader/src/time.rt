//! UTCTime and GeneralizedTime (X.690, sections 11.7 and 11.8, RFC 5280, section 4.1.2.5).

ghost use Rattle.std.specs.Prelude.{◌≡◌, ℕ, ℤ, ◌+◌, ◌*◌, ◌<◌, ◌≤◌, IfOk, IfErr, Ok};
ghost use Rattle.der_reader.specs.Fault.{bad_value};
ghost use Rattle.der_reader.specs.Time.{TimeText, generalized_moment, moment_at, moment_of, time_of, two_front};
ghost use Rattle.der_reader.specs.Time.{two_view, utc_moment};

use crate::element::Der;
use crate::fault::DerFault;
use crate::moment::Moment;
use crate::tags::{GENERALIZED_TIME, UTC_TIME};

impl<'a> Der<'a> {
    /// The Unix seconds of a UTCTime `YYMMDDhhmmssZ`, whose years of 50 and above are 19yy and the
    /// others 20yy, or of a GeneralizedTime `YYYYMMDDhhmmssZ`.
    ///
    /// Anything else is `VALUE` at 0, also a date that the Gregorian calendar doesn't have, an hour
    /// past 23, and a minute or a second past 59.
    #[tactic(auto, unfolding(crate::specs::Time::time_of))]
    pub fn time(&self) -> Result<i64, DerFault>
        ensures exact { result ≡ time_of self.now.tag self.now.content.now }
        ensures found { IfOk result (TimeText self.now.tag self.now.content.now) }
        ensures only { (seconds : ℤ) → TimeText self.now.tag self.now.content.now seconds → result ≡ Ok seconds }
        ensures fault { IfErr result (λ fault. fault ≡ bad_value) }
    {
        moment_in(self.tag, self.content)?.unix_seconds()
    }
}

/// The moment that a time of either form says.
#[tactic(auto, unfolding(crate::specs::Time::moment_of, crate::specs::Time::utc_moment, crate::specs::Time::generalized_moment))]
fn moment_in(tag: u8, content: &[u8]) -> Result<Moment, DerFault>
    ensures value { result ≡ moment_of tag content.now }
    ensures digits { IfOk result (λ m. (m.year ≤ 9999) × (m.month < 100) × (m.day < 100)) }
    ensures fault { IfErr result (λ fault. fault ≡ bad_value) }
{
    match tag {
        UTC_TIME => {
            let (year, rest) = two_digits(content)?;
            let century = if year < 50 { 2000 } else { 1900 };
            moment_of_year(century + u16::from(year), rest)
        }
        GENERALIZED_TIME => {
            let (century, rest) = two_digits(content)?;
            let (year, rest) = two_digits(rest)?;
            moment_of_year(u16::from(century) * 100 + u16::from(year), rest)
        }
        _ => Err(DerFault::value()),
    }
}

/// The moment of a year that `MMDDhhmmssZ` says.
#[tactic(auto, unfolding(crate::specs::Time::moment_at))]
fn moment_of_year(year: u16, text: &[u8]) -> Result<Moment, DerFault>
    ensures value { result ≡ moment_at year text.now }
    ensures digits { IfOk result (λ m. (m.year ≡ year) × (m.month < 100) × (m.day < 100)) }
    ensures fault { IfErr result (λ fault. fault ≡ bad_value) }
{
    let (month, text) = two_digits(text)?;
    let (day, text) = two_digits(text)?;
    let (hour, text) = two_digits(text)?;
    let (minute, text) = two_digits(text)?;
    let (second, text) = two_digits(text)?;
    match text {
        [b'Z'] => Ok(Moment {
            year,
            month,
            day,
            hour,
            minute,
            second,
        }),
        _ => Err(DerFault::value()),
    }
}

/// The number of the two decimal digits that the text begins with, and what follows them.
#[tactic(auto, unfolding(crate::specs::Time::two_front))]
fn two_digits(text: &[u8]) -> Result<(u8, &[u8]), DerFault>
    ensures value { two_view result ≡ two_front text.now }
    ensures bound { IfOk result (λ r. r.0 < 100) }
    ensures fault { IfErr result (λ fault. fault ≡ bad_value) }
{
    match text {
        [tens @ b'0'..=b'9', ones @ b'0'..=b'9', rest @ ..] => {
            Ok(((*tens - b'0') * 10 + (*ones - b'0'), rest))
        }
        _ => Err(DerFault::value()),
    }
}
