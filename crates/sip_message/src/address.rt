//! The telephone number of an address or a URI.
ghost use Rattle.std.specs.Prelude.{◌≡◌};
ghost use Rattle.std.specs.Option.{option_copied};
ghost use Rattle.sip_message.specs.Address.{address, address_number, before, uri_number, behind_bracket, behind_scheme};
ghost use Rattle.sip_message.specs.Address.{tel_number, user_number};
ghost use Rattle.sip_message.specs.Quoting.{after, bracket_from};
ghost use Rattle.sip_message.specs.declared.address.Quoting.TheVariants.{Outside};
ghost use Rattle.tn_values.specs.Canon.{Canon};

use text_grammar::cut;
use tn_values::{Local, Number};

/// Where a byte is in a value with quoted strings (RFC 3261, section 25.1, `quoted-string`).
#[derive(Clone, Copy, Debug, PartialEq, Eq)]
enum Quoting {
    Outside,
    Inside,
    Escaped,
}

impl Quoting {
    /// Where the next byte is.
    fn after(self, byte: u8) -> Quoting
        ensures { result ≡ after self byte }
    {
        match (self, byte) {
            (Quoting::Outside, b'"') => Quoting::Inside,
            (Quoting::Outside, _) => Quoting::Outside,
            (Quoting::Inside, b'\\') => Quoting::Escaped,
            (Quoting::Inside, b'"') => Quoting::Outside,
            (Quoting::Inside, _) => Quoting::Inside,
            (Quoting::Escaped, _) => Quoting::Inside,
        }
    }
}

/// The number of the first address of a From, To or P-Asserted-Identity value (RFC 3261, section 20.10), None if it has
/// none.
pub(crate) fn address_number(value: &[u8], local: &Local) -> Option<Number>
    ensures { result ≡ address_number value.now local.now }
{
    uri_number(address(value), local)
}

/// The number of a `tel:`, `sip:` or `sips:` URI (RFC 3966, section 3; RFC 3261, section 19.1.6), None if it has none.
pub fn uri_number(uri: &[u8], local: &Local) -> Option<Number>
    ensures { result ≡ uri_number uri.now local.now }
{
    if let Some(text) = behind_scheme(uri, b"tel:") {
        return tel_number(text, local);
    }
    if let Some(text) = behind_scheme(uri, b"sip:") {
        return user_number(text, local);
    }
    match behind_scheme(uri, b"sips:") {
        Some(text) => user_number(text, local),
        None => None,
    }
}

/// The number of the user part before the first `@`.
fn user_number(text: &[u8], local: &Local) -> Option<Number>
    ensures { result ≡ user_number local.now text.now }
{
    match cut(text, b'@') {
        Some((user, _)) => user_part_number(user, local),
        None => None,
    }
}

/// The number of a user part up to its first `;` or `:`. A text that stands for a number has neither, so the whole part
/// is read first.
fn user_part_number(user: &[u8], local: &Local) -> Option<Number>
    ensures { result ≡ Canon (before 58 (before 59 user.now)) local.now }
{
    match Number::read(user, local) {
        Some(number) => Some(number),
        None => Number::read(before(before(user, b';'), b':'), local),
    }
}

/// The number of the text after `tel:` up to its first `;`. A text that stands for a number has none, so all of it is
/// read first.
fn tel_number(text: &[u8], local: &Local) -> Option<Number>
    ensures { result ≡ tel_number local.now text.now }
{
    match Number::read(text, local) {
        Some(number) => Some(number),
        None => Number::read(before(text, b';'), local),
    }
}

/// What comes after the scheme, which is compared without case.
fn behind_scheme<'a>(uri: &'a [u8], scheme: &[u8]) -> Option<&'a [u8]>
    ensures { option_copied result ≡ behind_scheme scheme.now uri.now }
{
    if uri.len() < scheme.len() {
        return None;
    }
    let (front, rest) = uri.split_at(scheme.len());
    if front.eq_ignore_ascii_case(scheme) {
        Some(rest)
    } else {
        None
    }
}

/// The URI of the first address of a value.
fn address(value: &[u8]) -> &[u8]
    ensures { result.now ≡ address value.now }
{
    match behind_bracket(value) {
        Some(rest) => before(rest, b'>'),
        None => before(before(before(before(value, b';'), b','), b' '), b'\t'),
    }
}

/// What comes after the first `<` outside of quoted strings.
fn behind_bracket(value: &[u8]) -> Option<&[u8]>
    ensures { option_copied result ≡ behind_bracket value.now }
{
    let mut quoting = Quoting::Outside;
    let mut rest = value;
    'bytes: while let [byte, more @ ..] = rest {
        if quoting == Quoting::Outside && *byte == b'<' {
            return Some(more);
        }
        quoting = quoting.after(*byte);
        rest = more;
    }
    None
}

/// The text up to the first such byte, all of it if it has none.
fn before(text: &[u8], byte: u8) -> &[u8]
    ensures { result.now ≡ before byte text.now }
{
    match cut(text, byte) {
        Some((front, _)) => front,
        None => text,
    }
}
