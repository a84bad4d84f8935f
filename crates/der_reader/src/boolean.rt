//! BOOLEANs (X.690, sections 8.2 and 11.1).

ghost use Rattle.std.specs.Prelude.{◌≡◌, Bool, IfOk, IfErr, Ok};
ghost use Rattle.der_reader.specs.Fault.{bad_value};
ghost use Rattle.der_reader.specs.Boolean.{boolean_of, boolean_text};

use crate::element::Der;
use crate::fault::DerFault;
use crate::tags::BOOLEAN;

impl<'a> Der<'a> {
    /// The truth value of a BOOLEAN: `FF` is true and `00` false; anything else is `VALUE` at 0.
    #[tactic(auto, unfolding(crate::specs::Boolean::boolean_of))]
    pub fn boolean(&self) -> Result<bool, DerFault>
        ensures exact { result ≡ boolean_of self.now.tag self.now.content.now }
        ensures found { IfOk result (λ truth. (self.now.tag ≡ 1) × (self.now.content.now ≡ boolean_text truth)) }
        ensures only { (truth : Bool) → self.now.tag ≡ 1 → self.now.content.now ≡ boolean_text truth
            → result ≡ Ok truth }
        ensures fault { IfErr result (λ fault. fault ≡ bad_value) }
    {
        match self.content {
            [0xFF] if self.tag == BOOLEAN => Ok(true),
            [0x00] if self.tag == BOOLEAN => Ok(false),
            _ => Err(DerFault::value()),
        }
    }
}
