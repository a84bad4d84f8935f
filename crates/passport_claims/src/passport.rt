//! A PASSporT.
ghost use Rattle.std.specs.Prelude.{◌≡◌, ◌≤◌, Some, None, Err, IfOk, if◌then◌else◌};
ghost use Rattle.std.specs.Option.{option_copied};
ghost use Rattle.text_grammar.specs.Uri.{is_uri};
ghost use Rattle.passport_claims.specs.Claims.{Claims};
ghost use Rattle.passport_claims.specs.Kind.{IsKnown};
ghost use Rattle.passport_claims.specs.Made.{is_called_count, made};
ghost use Rattle.passport_claims.specs.Passport.{ClaimsView, IsPassport};
ghost use Rattle.passport_claims.specs.Read.{read_claims};
ghost use Rattle.passport_claims.specs.Reading.{Gives, IfRefused, IsOkUnlessMemory};
ghost use Rattle.passport_claims.specs.Refused.{Refused};

use crate::fault::ClaimFault;
use crate::kind::{Kind, checked_kind};
use crate::members::{called_in, number_in};
use crate::rows::{checked_header, most_called};
use passport_json::Token;
use std::alloc::Global;
use std::marker::Model;
use std::str;
use text_grammar::{LAST_SECOND, is_uri};
use tn_values::Number;

/// What a PASSporT says: its type with the claims of that type, the certificate's URI, when it was issued, the calling
/// number and the called ones. In contracts it is the record of these five.
#[derive(Debug, Drop)]
pub struct Passport {
    kind: Kind,
    x5u: String,
    iat: u64,
    orig: Number,
    dest: Vec<Number>,
}

impl Model for Passport {
    ghost use Rattle.std.specs.Prelude.{string_bytes};
    ghost use Rattle.passport_claims.specs.Passport.{ClaimsView, IsPassport};

    ghost Value = { ClaimsView };

    ghost view = { λ p.
        record { kind = p.kind; x5u = string_bytes p.x5u; iat = p.iat; orig = p.orig; dest = p.dest.items } };

    ghost invariant = { λ p. IsPassport
        (record { kind = p.kind; x5u = string_bytes p.x5u; iat = p.iat; orig = p.orig; dest = p.dest.items }) };
}

impl Passport {
    /// Reads the claims of a token (RFC 8225, sections 4 and 5), for the type and the certificate's URI that its
    /// Identity header field has. The claims are tried in the order of [`ClaimFault`], and the first that is broken is
    /// the fault. `Attest` and `Origid` are looked at only for `shaken`, and `Div` only for `div`. Members that aren't
    /// named there are passed over.
    ///
    /// The type is none, `shaken` or `div`.
    #[tactic(auto, using(crate::proofs::ClaimsLaws::claims_found, crate::proofs::ClaimsLaws::claims_only_of, crate::proofs::ClaimsLaws::claims_unique, crate::proofs::RefusedLaws::claims_refused))]
    pub fn from_token(
        alloc: Global,
        token: &Token,
        ppt: Option<&[u8]>,
        info: &[u8],
    ) -> Result<Passport, ClaimFault>
        requires { IsKnown (option_copied ppt) }
        ensures exact { Gives (λ passport. passport) result
            (read_claims token.now.header token.now.payload (option_copied ppt.entry) info.now) }
        ensures found { IfOk result
            (λ passport. Claims token.now.header token.now.payload (option_copied ppt.entry) info.now passport) }
        ensures only { (claims : ClaimsView)
            → Claims token.now.header token.now.payload (option_copied ppt.entry) info.now claims
            → IsOkUnlessMemory result (λ passport. passport ≡ claims) }
        ensures unique { (one other : ClaimsView)
            → Claims token.now.header token.now.payload (option_copied ppt.entry) info.now one
            → Claims token.now.header token.now.payload (option_copied ppt.entry) info.now other → one ≡ other }

        // A fault is the first claim that is broken, and the first that is broken is the fault.
        ensures refused { IfRefused result
            (Refused token.now.header token.now.payload (option_copied ppt.entry) info.now) }
        ensures only_refused { (fault : ClaimFault)
            → Refused token.now.header token.now.payload (option_copied ppt.entry) info.now fault
            → Gives (λ passport. passport) result (Err fault) }
    {
        claims_of(alloc, token, ppt, info)
    }

    /// The PASSporT of these parts. The URI is 1 to 2,048 visible ASCII bytes without `"`, `<`, `>` and backslash;
    /// `iat` is at most 253,402,300,799; 1 to 32 numbers are called, and exactly one for `div`; the identifier of the
    /// call is a UUID in 36 characters. What isn't so is refused as `X5u`, `Iat`, `Dest` and `Origid`, in this order.
    #[tactic(auto, using(crate::proofs::PassportLaws::made_meets), unfolding(crate::specs::Made::made))]
    pub fn new(
        alloc: Global,
        kind: Kind,
        x5u: &[u8],
        iat: u64,
        orig: Number,
        dest: &[Number],
    ) -> Result<Passport, ClaimFault>
        ensures { Gives (λ passport. passport) result (made kind x5u.now iat orig dest.now) }
    {
        let Some(uri) = uri_text(x5u) else {
            return Err(ClaimFault::X5u);
        };
        if iat > LAST_SECOND {
            return Err(ClaimFault::Iat);
        }
        if !is_called_count(&kind, dest.len()) {
            return Err(ClaimFault::Dest);
        }
        if !kind.has_origid() {
            return Err(ClaimFault::Origid);
        }
        Ok(Passport {
            kind,
            x5u: String::from_str(alloc, uri)?,
            iat,
            orig,
            dest: Vec::from_slice(alloc, dest)?,
        })
    }

    /// The type with the claims of that type.
    pub fn kind(&self) -> Kind
        ensures { result ≡ self.now.kind }
    {
        self.kind
    }

    /// The URI of the certificate (RFC 8225, section 4.3).
    pub fn x5u(&self) -> &[u8]
        ensures { result.now ≡ self.now.x5u }
    {
        self.x5u.as_bytes()
    }

    /// The certificate's URI, as text.
    pub(crate) fn uri(&self) -> &str
        ensures { result.now ≡ self.now.x5u }
    {
        &self.x5u
    }

    /// The allocator of its collections.
    pub(crate) fn alloc(&self) -> Global {
        *self.dest.allocator()
    }

    /// When it was issued, in Unix seconds, at most 253,402,300,799 (RFC 8225, section 5.1.1).
    pub fn iat(&self) -> u64
        ensures value { result ≡ self.now.iat }
        ensures within { result ≤ 253402300799 }
    {
        self.iat
    }

    /// The calling number (RFC 8225, section 5.2.1).
    pub fn orig(&self) -> Number
        ensures { result ≡ self.now.orig }
    {
        self.orig
    }

    /// The called numbers, 1 to 32, and exactly one for `div` (RFC 8225, section 5.2.1).
    pub fn dest(&self) -> &[Number]
        ensures value { result.now ≡ self.now.dest }
        ensures meets { IsPassport self.now }
    {
        &self.dest
    }
}

/// What header and payload of a token say.
#[tactic(auto, using(crate::proofs::ClaimsLaws::read_meets), unfolding(crate::specs::Read::read_claims))]
fn claims_of(
    alloc: Global,
    token: &Token,
    ppt: Option<&[u8]>,
    info: &[u8],
) -> Result<Passport, ClaimFault>
    requires { IsKnown (option_copied ppt) }
    ensures { Gives (λ passport. passport) result
        (read_claims token.now.header token.now.payload (option_copied ppt.entry) info.now) }
{
    let x5u = checked_header(token.header(), ppt, info)?;
    let Some(iat) = token.issued_at() else {
        return Err(ClaimFault::Iat);
    };
    let Some(orig) = number_in(token.payload(), "orig") else {
        return Err(ClaimFault::Orig);
    };
    let dest = called_in(alloc, token.payload(), most_called(ppt))?;
    let kind = checked_kind(token.payload(), ppt)?;
    Ok(Passport {
        kind,
        x5u: String::from_str(alloc, x5u)?,
        iat,
        orig,
        dest,
    })
}

/// The URI as text, if it is one: it is ASCII.
fn uri_text(uri: &[u8]) -> Option<&str>
    ensures { option_copied result ≡ (if is_uri uri.now then Some uri.now else None) }
{
    if !is_uri(uri) {
        return None;
    }
    match str::from_utf8(uri) {
        Ok(text) => Some(text),
        Err(_) => None,
    }
}

/// Whether a PASSporT of this type may have so many called numbers.
fn is_called_count(kind: &Kind, count: usize) -> bool
    ensures { result ≡ is_called_count kind.now count }
{
    1 <= count && count <= most_called(kind.ppt().map(str::as_bytes))
}
