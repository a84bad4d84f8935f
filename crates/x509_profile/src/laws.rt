//! Laws: a function here does nothing, and its clauses are the law.
ghost use Rattle.std.specs.Prelude.{◌≡◌, ◌↔◌, ◌-◌, ℕ, List, Ok, Err, true};
ghost use Rattle.der_reader.specs.Elem.{AllBytes};
ghost use Rattle.der_reader.specs.declared.part.Fault.{Fault};
ghost use Rattle.x509_profile.specs.Authority.{SaysAuthority};
ghost use Rattle.x509_profile.specs.Cert.{Cert};
ghost use Rattle.x509_profile.specs.Chain.{Chain, EndsAt, RefusedCertificate, Whole, certificates_in};
ghost use Rattle.x509_profile.specs.Read.{read_certificate};
ghost use Rattle.x509_profile.specs.Refused.{Refused};
ghost use Rattle.x509_profile.specs.View.{CertView};

/// A certificate is read from bytes exactly if these are one of the profile that says so, and a fault exactly if it is
/// their first (RFC 5280, section 4.1; RFC 8226).
pub fn certificate_law()
    ensures again { (bytes : List ℕ) (certificate : CertView) → Cert bytes certificate
        → read_certificate bytes ≡ Ok certificate }
    ensures found { (bytes : List ℕ) (certificate : CertView) → AllBytes bytes → read_certificate bytes ≡ Ok certificate
        → Cert bytes certificate }
    ensures refused { (bytes : List ℕ) (fault : Fault) → AllBytes bytes
        → (read_certificate bytes ≡ Err fault) ↔ Refused bytes fault }
{}

/// Certificates are read from bytes exactly if these are their chain. Else reading ends after as many whole
/// certificates as the bytes begin with, of at most six.
#[tactic(auto, using(crate::proofs::ChainLaws::chain_again, crate::proofs::ChainLaws::chain_ends, crate::proofs::ChainLaws::ends_whole))]
pub fn chain_law()
    ensures again { (bytes : List ℕ) (certificates : List CertView) → Chain bytes certificates
        → certificates_in bytes ≡ Ok certificates }
    ensures found { (bytes : List ℕ) (certificates : List CertView) → AllBytes bytes
        → certificates_in bytes ≡ Ok certificates → Chain bytes certificates }
    ensures ends { (bytes : List ℕ) (refused : RefusedCertificate) → AllBytes bytes
        → certificates_in bytes ≡ Err refused → EndsAt bytes refused }
    ensures whole { (bytes : List ℕ) (refused : RefusedCertificate) → EndsAt bytes refused
        → Whole bytes (refused.number - 1) }
{}

/// A certificate is one of a certification authority only if one of its extensions is basicConstraints, whose cA is
/// true (RFC 5280, section 4.2.1.9): without that extension it is none.
pub fn authority_law()
    ensures { (bytes : List ℕ) (c : CertView) → (certificate : Cert bytes c) → c.is_ca ≡ true
        → SaysAuthority certificate.parts.extensions }
{}
