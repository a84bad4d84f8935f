//! The lines of certificates.
ghost use Rattle.std.specs.Prelude.{◌≡◌, ◌≤◌, length, IfOk, Some, string_bytes};
ghost use Rattle.chain_lines.specs.Show.{authority_lines, certificate_lines, entry_line, key_lines, number_or_none};
ghost use Rattle.chain_lines.specs.Show.{show, usage_or_none, validity_lines, yes_or_no};

use std::alloc::{AllocError, Global};
use tn_auth_list::Entry;
use x509_profile::Certificate;

/// The lines of the certificates of a chain, which are at most six, numbered from 1. `AllocError` is the only error.
#[tactic(auto, using(crate::proofs::ShowSteps::lines_more, crate::proofs::ShowSteps::lines_done))]
pub fn lines_of_chain(alloc: Global, certificates: &[Certificate]) -> Result<String, AllocError>
    requires { length certificates.now ≤ 6 }
    ensures { IfOk result (λ text. string_bytes text ≡ show certificates.now) }
{
    let mut text = String::new(alloc);
    'lines: for (index, certificate) in certificates.iter().enumerate() {
        let lines = certificate_lines(alloc, index + 1, certificate)?;
        text.push_str(lines.as_str())?;
    }
    Ok(text)
}

/// The lines of one certificate.
fn certificate_lines(
    alloc: Global,
    number: usize,
    certificate: &Certificate,
) -> Result<String, AllocError>
    ensures { IfOk result (λ text. string_bytes text ≡ certificate_lines number certificate.now) }
{
    let validity = validity_lines(alloc, number, certificate)?;
    let key = key_lines(alloc, certificate)?;
    let authority = authority_lines(alloc, certificate)?;
    format!(in alloc; "{validity}{key}{authority}")
}

/// The number of the certificate, and the seconds at which it is valid.
fn validity_lines(
    alloc: Global,
    number: usize,
    certificate: &Certificate,
) -> Result<String, AllocError>
    ensures { IfOk result (λ text. string_bytes text ≡ validity_lines number certificate.now) }
{
    let not_before = certificate.not_before();
    let not_after = certificate.not_after();
    format!(in alloc; "certificate {number}\nnot-before {not_before}\nnot-after {not_after}\n")
}

/// The key, and what it may be used for.
fn key_lines(alloc: Global, certificate: &Certificate) -> Result<String, AllocError>
    ensures { IfOk result (λ text. string_bytes text ≡ key_lines certificate.now) }
{
    let ca = yes_or_no(certificate.is_ca());
    let path_length = number_or_none(alloc, certificate.path_length())?;
    let usage = usage_or_none(alloc, certificate.usage())?;
    let key = hex::encode(alloc, certificate.key().as_slice())?;
    format!(in alloc; "ca {ca}\npath-length {path_length}\nusage {usage}\nkey {key}\n")
}

fn yes_or_no(truth: bool) -> &'static str
    ensures { result.now ≡ yes_or_no truth }
{
    if truth { "yes" } else { "no" }
}

fn number_or_none(alloc: Global, number: Option<u64>) -> Result<String, AllocError>
    ensures { IfOk result (λ text. string_bytes text ≡ number_or_none number) }
{
    match number {
        Some(number) => format!(in alloc; "{number}"),
        None => String::from_str(alloc, "none"),
    }
}

/// The flags as four hex digits.
fn usage_or_none(alloc: Global, usage: Option<u16>) -> Result<String, AllocError>
    ensures { IfOk result (λ text. string_bytes text ≡ usage_or_none usage) }
{
    match usage {
        Some(flags) => hex::encode(alloc, [(flags / 256) as u8, (flags % 256) as u8]),
        None => String::from_str(alloc, "none"),
    }
}

/// Whom the holder may speak for: all, or a line for each entry of the list.
fn authority_lines(alloc: Global, certificate: &Certificate) -> Result<String, AllocError>
    ensures { IfOk result (λ text. string_bytes text ≡ authority_lines certificate.now.list) }
{
    match certificate.list() {
        Some(list) => entry_lines(alloc, list.entries()),
        None => String::from_str(alloc, "authority all\n"),
    }
}

#[tactic(auto, using(crate::proofs::ShowSteps::entries_more, crate::proofs::ShowSteps::entries_done))]
fn entry_lines(alloc: Global, entries: &[Entry]) -> Result<String, AllocError>
    ensures { IfOk result (λ text. string_bytes text ≡ authority_lines (Some entries.now)) }
{
    let mut text = String::from_str(alloc, "authority list\n")?;
    'lines: for entry in entries {
        let line = entry_line(alloc, entry)?;
        text.push_str(line.as_str())?;
    }
    Ok(text)
}

fn entry_line(alloc: Global, entry: &Entry) -> Result<String, AllocError>
    ensures { IfOk result (λ text. string_bytes text ≡ entry_line entry.now) }
{
    match entry {
        Entry::Code(code) => format!(in alloc; "code {}\n", code.as_str()),
        Entry::Range(span) => {
            let start = span.start();
            let size = span.size();
            format!(in alloc; "range {start} {size}\n")
        }
        Entry::Single(number) => format!(in alloc; "number {number}\n"),
    }
}
