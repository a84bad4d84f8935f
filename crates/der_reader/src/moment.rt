//! A civil date and a time of day in UTC.

ghost use Rattle.std.specs.Prelude.{◌≡◌, ◌+◌, ◌*◌, ◌<◌, ◌≤◌, pos, ◌+ℤ◌, ◌*ℤ◌, ◌≤ℤ◌, neg_ℤ, IfOk};
ghost use Rattle.jiff_core.specs.Calendar.{IsBetween};
ghost use Rattle.der_reader.specs.Moment.{day_of, seconds_of};

use crate::fault::DerFault;
use jiff_core::civil::Date;

/// A date of the Gregorian calendar and a time of day, as read from decimal digits: either may not
/// exist.
#[derive(Clone, Copy)]
pub struct Moment {
    pub year: u16,
    pub month: u8,
    pub day: u8,
    pub hour: u8,
    pub minute: u8,
    pub second: u8,
}

impl Moment {
    /// The seconds since 1970-01-01 00:00:00 UTC, or `VALUE` if there is no such date or time of
    /// day.
    #[tactic(auto, unfolding(crate::specs::Moment::seconds_of, crate::specs::Moment::day_of, crate::specs::Moment::unix_seconds))]
    pub fn unix_seconds(self) -> Result<i64, DerFault>
        requires digits { (self.year ≤ 9999) × (self.month < 100) × (self.day < 100) }
        ensures { result ≡ seconds_of self }
    {
        let days = day_number(self.year, self.month, self.day)?;
        if self.hour > 23 || self.minute > 59 || self.second > 59 {
            return Err(DerFault::value());
        }
        let clock = u32::from(self.hour) * 3_600
            + u32::from(self.minute) * 60
            + u32::from(self.second);
        Ok(seconds_at(days, clock))
    }
}

/// The day number of a year, month and day, or `VALUE` if there is no such date.
#[tactic(auto, unfolding(crate::specs::Moment::day_of))]
fn day_number(year: u16, month: u8, day: u8) -> Result<i32, DerFault>
    requires digits { (year ≤ 9999) × (month < 100) × (day < 100) }
    ensures value { result ≡ day_of year month day }
    ensures bound { IfOk result (IsBetween (neg_ℤ (pos 4371587)) (pos 2932896)) }
{
    match Date::new(year as i16, month as i8, day as i8) {
        Ok(date) => Ok(date.to_unix_epoch_day()),
        Err(_) => Err(DerFault::value()),
    }
}

/// The seconds from 1970 to the second `clock` of day number `days`.
fn seconds_at(days: i32, clock: u32) -> i64
    requires { clock < 86400 }
    ensures { result ≡ (days *ℤ pos 86400) +ℤ pos clock }
{
    i64::from(days) * 86_400 + i64::from(clock)
}
