//! What is to be signed.
ghost use Rattle.std.specs.Prelude.{◌≡◌};
ghost use Rattle.std.specs.Option.{option_copied, option_map};
ghost use Rattle.stir_words.specs.Order.{diverting_of, holder_by, holder_of, signer_of, signing_of};
ghost use Rattle.stir_words.specs.Seen.{diverting_view, holder_view, signer_view, signing_view};
ghost use Rattle.stir_words.specs.ClapRules.{values_in};

use crate::values::{earlier_of, form_of, iat_of, key_of, local_of, x5u_of};
use clap::ArgMatches;
use passport_claims::Form;
use tn_values::{Local, Number};

/// The names of the files that say who holds the key.
#[derive(Clone, Copy, Debug)]
pub struct HolderFiles<'a> {
    /// The holder's certificate.
    pub leaf: &'a str,
    /// The code table, for the codes in the certificate's authority list.
    pub table: &'a str,
}

/// By which key it is signed, when, and for whom.
#[derive(Clone, Copy, Debug)]
pub struct Signer<'a> {
    /// The name by which the provider of signatures knows the key: 1 to 64 bytes of visible ASCII other than `;`, `,`,
    /// `"`, `<`, `>` and backslash.
    pub key: &'a str,
    /// The URI of the key's certificates: 1 to 2,048 bytes of visible ASCII other than `"`, `<`, `>` and backslash.
    pub x5u: &'a str,
    /// When it is signed, in Unix seconds, at most 253,402,300,799.
    pub iat: u64,
    /// How numbers without `+` are read.
    pub local: Local,
    /// The name of the file with the answers of the provider of signatures.
    pub answers: &'a str,
    /// Whose key it is, if that is looked at.
    pub holder: Option<HolderFiles<'a>>,
}

/// What is to be signed of a call, and how.
#[derive(Clone, Copy, Debug)]
pub struct Signing<'a> {
    /// The form of the PASSporT.
    pub form: Form,
    pub signer: Signer<'a>,
}

/// How the diversion of a call is to be signed.
#[derive(Clone, Copy, Debug)]
pub struct Diverting<'a> {
    /// The number that was called before the diversion.
    pub earlier: Number,
    pub signer: Signer<'a>,
}

/// What is to be signed of a call.
pub(crate) fn signing_of<'a>(given: &ArgMatches<'a>) -> Option<Signing<'a>>
    ensures { option_map signing_view result ≡ signing_of (values_in given.now) }
{
    let Some(form) = form_of(given) else {
        return None;
    };
    let Some(signer) = signer_of(given) else {
        return None;
    };
    Some(Signing { form, signer })
}

/// How a diversion is to be signed.
pub(crate) fn diverting_of<'a>(given: &ArgMatches<'a>) -> Option<Diverting<'a>>
    ensures { option_map diverting_view result ≡ diverting_of (values_in given.now) }
{
    let Some(earlier) = earlier_of(given) else {
        return None;
    };
    let Some(signer) = signer_of(given) else {
        return None;
    };
    Some(Diverting { earlier, signer })
}

/// The key, when it signs, and for whom.
fn signer_of<'a>(given: &ArgMatches<'a>) -> Option<Signer<'a>>
    ensures { option_map signer_view result ≡ signer_of (values_in given.now) }
{
    Some(Signer {
        key: key_of(given)?,
        x5u: x5u_of(given)?,
        iat: iat_of(given)?,
        local: local_of(given)?,
        answers: given.get_str("answers")?,
        holder: holder_of(given)?,
    })
}

/// The files of the holder, if they are given; None if only one of the two is.
fn holder_of<'a>(given: &ArgMatches<'a>) -> Option<Option<HolderFiles<'a>>>
    ensures { option_map (option_map holder_view) result ≡ holder_of (values_in given.now) }
{
    holder_by(given.get_str("leaf"), given.get_str("table"))
}

/// The files of the holder, which are given together or not at all.
fn holder_by<'a>(leaf: Option<&'a str>, table: Option<&'a str>) -> Option<Option<HolderFiles<'a>>>
    ensures { option_map (option_map holder_view) result
        ≡ holder_by (option_copied leaf.entry) (option_copied table.entry) }
{
    match (leaf, table) {
        (Some(leaf), Some(table)) => Some(Some(HolderFiles { leaf, table })),
        (None, None) => Some(None),
        _ => None,
    }
}
