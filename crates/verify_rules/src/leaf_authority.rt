//! Rule 17: what the leaf's authority must cover.
ghost use Rattle.std.specs.Prelude.{◌≡◌};
ghost use Rattle.std.specs.List.{list_any};
ghost use Rattle.std.specs.Option.{option_copied};
ghost use Rattle.passport_claims.specs.Kind.{div_in, level_in};
ghost use Rattle.verify_rules.specs.Late.{allows_code, covers_by, covers_kind, covers_leaf, is_code, is_partial};
ghost use Rattle.verify_rules.specs.Late.{vouched};

use delegation::covers;
use passport_claims::{Attest, Passport};
use tn_auth_list::{AuthList, CodeTable, Entry};
use tn_values::Number;
use x509_profile::Certificate;

/// Whether the leaf's authority covers what a PASSporT vouches for (ATIS-1000074, section 5.2.3; RFC 8946, section
/// 4.2): the calling number if the PASSporT has no type or attests in full; that, or any service provider code, if it
/// attests in part or as a gateway; and the diverted number if it is a diversion. It doesn't if there is no leaf, or
/// this has no authority list.
pub(crate) fn covers_leaf(
    table: &CodeTable,
    passport: &Passport,
    leaf: Option<&Certificate>,
) -> bool
    ensures { result ≡ covers_leaf table.now passport.now (option_copied leaf.entry) }
{
    match leaf {
        Some(leaf) => covers_by(table, passport, leaf.list()),
        None => false,
    }
}

/// Whether an authority list does.
fn covers_by(table: &CodeTable, passport: &Passport, list: Option<&AuthList>) -> bool
    ensures { result ≡ covers_by table.now passport.now (option_copied list.entry) }
{
    match list {
        Some(list) => covers_passport(table, list, passport),
        None => false,
    }
}

/// Whether an authority list covers what a PASSporT vouches for, as rule 17 asks of the leaf's: the calling number, or
/// that which was diverted if it is of a diversion; or it has any service provider code, and the PASSporT attests in
/// part or as a gateway.
pub fn covers_passport(table: &CodeTable, list: &AuthList, passport: &Passport) -> bool
    ensures { result ≡ covers_kind table.now list.now passport.now.orig passport.now.kind }
{
    covers(list, &vouched(passport), table) || allows_code(passport) && has_code(list.entries())
}

/// The number that a PASSporT vouches for.
fn vouched(passport: &Passport) -> Number
    ensures { result ≡ vouched passport.now.orig (div_in passport.now.kind) }
{
    match passport.kind().div() {
        Some(diverted) => diverted,
        None => passport.orig(),
    }
}

/// Whether the attestation of a PASSporT, if it has one, lets any service provider code do.
fn allows_code(passport: &Passport) -> bool
    ensures { result ≡ allows_code (level_in passport.now.kind) }
{
    match passport.kind().attest() {
        Some(attest) => is_partial(attest),
        None => false,
    }
}

/// Whether an attestation is in part, or that of a gateway.
fn is_partial(attest: Attest) -> bool
    ensures { result ≡ is_partial attest }
{
    match attest {
        Attest::A => false,
        Attest::B | Attest::C => true,
    }
}

/// Whether one of these entries is a service provider code.
fn has_code(entries: &[Entry]) -> bool
    ensures { result ≡ list_any is_code entries.now }
{
    entries.iter().any(is_code)
}

/// Whether this is a service provider code.
fn is_code(entry: &Entry) -> bool
    ensures { result ≡ is_code entry.now }
{
    match entry {
        Entry::Code(_) => true,
        Entry::Range(_) | Entry::Single(_) => false,
    }
}
