//! Where a call is to go on, and by what it is judged before.
ghost use Rattle.std.specs.Prelude.{◌≡◌};
ghost use Rattle.std.specs.Option.{option_map};
ghost use Rattle.stir_words.specs.ClapRules.{values_in};
ghost use Rattle.stir_words.specs.Order.{retargeting_of};
ghost use Rattle.stir_words.specs.Seen.{retargeting_view};

use crate::order::{Judging, judging_of};
use crate::values::{iat_of, key_of, moment_of, x5u_of};
use clap::ArgMatches;

/// By what a call is judged, where it goes on, and how its diversion is signed.
#[derive(Clone, Copy, Debug)]
pub struct Retargeting<'a> {
    /// By what the call is judged. The table is also that for the codes in the authority list of the key's certificate.
    pub judging: Judging<'a>,
    /// The name by which the provider of signatures knows the key, as in [`Signing`](crate::Signing).
    pub key: &'a str,
    /// The URI of the key's certificates, as in [`Signing`](crate::Signing).
    pub x5u: &'a str,
    /// When the diversion is signed, in Unix seconds, at most 253,402,300,799.
    pub iat: u64,
    /// The request URI of the message that goes on: any text.
    pub target: &'a str,
    /// The name of the file with the certificate of the holder of the key.
    pub leaf: &'a str,
    /// When the call came, in Unix seconds, at most 253,402,300,799.
    pub moment: u64,
}

/// Where a call is to go on.
pub(crate) fn retargeting_of<'a>(given: &ArgMatches<'a>) -> Option<Retargeting<'a>>
    ensures { option_map retargeting_view result ≡ retargeting_of (values_in given.now) }
{
    let Some(judging) = judging_of(given) else {
        return None;
    };
    Some(Retargeting {
        judging,
        key: key_of(given)?,
        x5u: x5u_of(given)?,
        iat: iat_of(given)?,
        target: given.get_str("target")?,
        leaf: given.get_str("leaf")?,
        moment: moment_of(given)?,
    })
}
