//! The serial number of a certificate.
ghost use Rattle.std.specs.Prelude.{◌≡◌};
ghost use Rattle.der_reader.specs.Elem.{AllBytes};
ghost use Rattle.chain_lines.specs.Revocation.{bytes_view};
ghost use Rattle.chain_lines.specs.Serial.{IsSerial, serial_in};

use der_reader::{Der, DerFault, element_law};
use x509_profile::{Certificate, certificate_law};

/// The content of the serial number (RFC 5280, section 4.1.2.2).
pub(crate) fn serial_of(certificate: &Certificate) -> &[u8]
    ensures { IsSerial certificate.now result.now }
{
    certificate_law();
    element_law();
    let bytes = certificate.whole();
    are_bytes(bytes);
    match serial_in(bytes) {
        Ok(serial) => serial,
        Err(_) => unreachable!(),
    }
}

/// The same, or why the bytes can't be read.
#[tactic(auto, unfolding(crate::specs::Serial::serial_in))]
fn serial_in(whole: &[u8]) -> Result<&[u8], DerFault>
    ensures { bytes_view result ≡ serial_in whole.now }
{
    let (certificate, _) = Der::next(whole)?;
    let (signed, _) = Der::next(certificate.content)?;
    let (_, behind) = Der::next(signed.content)?;
    let (serial, _) = Der::next(behind)?;
    Ok(serial.content)
}

/// Does nothing: bytes are bytes.
fn are_bytes(bytes: &[u8])
    ensures { AllBytes bytes.now }
{
    let _ = bytes;
}
