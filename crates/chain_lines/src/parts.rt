//! The parts of a certificate.
ghost use Rattle.std.specs.Option.{option_map};
ghost use Rattle.std.specs.Prelude.{◌≡◌, ◌++◌, IfOk, OnOk};
ghost use Rattle.std.specs.Fmt.{signed_decimal};
ghost use Rattle.chain_lines.specs.Parts.{PartIs, code_line, code_lines};

use crate::revocation::revocation_of;
use crate::serial::serial_of;
use std::alloc::{AllocError, Global};
use tn_auth_list::Entry;
use x509_profile::Certificate;

/// A part of a certificate.
#[derive(Clone, Copy, Debug, PartialEq, Eq)]
pub enum Part {
    /// The content of its serial number (RFC 5280, section 4.1.2.2).
    Serial,
    /// Its subject, the whole element (section 4.1.2.6).
    Subject,
    /// Its issuer, the whole element (section 4.1.2.4).
    Issuer,
    /// The service provider codes of its authority list (RFC 8226, section 9), each with an LF.
    Codes,
    /// The SHA-256 of its signed part.
    Digest,
    /// The first second at which it is valid, in Unix time, in decimal digits.
    NotBefore,
    /// The last one.
    NotAfter,
    /// The URIs of its CRL distribution points (RFC 5280, section 4.2.1.13), each with an LF.
    Revocation,
}

/// The bytes of a part of a certificate. `None` if it has no authority list, or no CRL distribution points; every
/// certificate has the other parts. `AllocError` is the only error.
pub fn certificate_part(
    alloc: Global,
    certificate: &Certificate,
    part: Part,
) -> Result<Option<Vec<u8>>, AllocError>
    ensures { IfOk result (λ bytes. PartIs certificate.now part (option_map (λ v. v.items) bytes)) }
{
    match part {
        Part::Serial => copy(alloc, serial_of(certificate)),
        Part::Subject => copy(alloc, certificate.subject()),
        Part::Issuer => copy(alloc, certificate.issuer()),
        Part::Codes => codes_of(alloc, certificate),
        Part::Digest => copy(alloc, certificate.digest()),
        Part::NotBefore => second(alloc, certificate.not_before()),
        Part::NotAfter => second(alloc, certificate.not_after()),
        Part::Revocation => revocation_of(alloc, certificate.whole()),
    }
}

/// A copy of these bytes.
fn copy(alloc: Global, bytes: &[u8]) -> Result<Option<Vec<u8>>, AllocError>
    ensures { IfOk result (λ copy. option_map (λ v. v.items) copy ≡ Some bytes.now) }
{
    Ok(Some(bytes.to_vec(alloc)?))
}

/// A second in decimal digits, with a hyphen before them if it is before 1970.
fn second(alloc: Global, second: i64) -> Result<Option<Vec<u8>>, AllocError>
    ensures { IfOk result (λ text. option_map (λ v. v.items) text ≡ Some (signed_decimal second)) }
{
    let text = format!(in alloc; "{second}")?;
    Ok(Some(text.into_bytes()))
}

/// The codes of the authority list, if there is one.
fn codes_of(alloc: Global, certificate: &Certificate) -> Result<Option<Vec<u8>>, AllocError>
    ensures { IfOk result (λ codes. option_map (λ v. v.items) codes ≡ option_map code_lines certificate.now.list) }
{
    match certificate.list() {
        Some(list) => Ok(Some(code_lines(alloc, list.entries())?)),
        None => Ok(None),
    }
}

/// The codes among these entries.
#[tactic(auto, using(crate::proofs::ShowSteps::entries_more, crate::proofs::ShowSteps::entries_done))]
fn code_lines(alloc: Global, entries: &[Entry]) -> Result<Vec<u8>, AllocError>
    ensures { IfOk result (λ lines. lines.items ≡ code_lines entries.now) }
{
    let mut lines = Vec::new(alloc);
    'lines: for entry in entries {
        add_code(&mut lines, entry)?;
    }
    Ok(lines)
}

/// Adds the line of an entry, if it is a code.
fn add_code(lines: &mut Vec<u8>, entry: &Entry) -> Result<(), AllocError>
    ensures { OnOk result (lines.new.items ≡ lines.old.items ++ code_line entry.now) }
{
    match entry {
        Entry::Code(code) => {
            lines.extend_from_slice(code.bytes())?;
            lines.push(b'\n')?;
            Ok(())
        }
        Entry::Range(_) => Ok(()),
        Entry::Single(_) => Ok(()),
    }
}
