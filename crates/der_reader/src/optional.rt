//! Elements that may be absent (X.690, section 11.5).

ghost use Rattle.std.specs.Prelude.{◌≡◌, ◌≤◌, length, IfOk};
ghost use Rattle.std.specs.Option.{option_map};
ghost use Rattle.der_reader.specs.Elem.{element_of};
ghost use Rattle.der_reader.specs.Next.{optional_at, optional_view};
ghost use Rattle.der_reader.specs.Optional.{flag_of, limit_of};

use crate::element::Der;
use crate::fault::DerFault;

impl<'a> Der<'a> {
    /// The first element of `bytes`, if it has this tag, and what comes after it. If there are no bytes or the first
    /// element has another tag, the answer is None and all bytes.
    #[tactic(auto, unfolding(crate::specs::Next::optional_at))]
    pub fn optional(bytes: &'a [u8], tag: u8) -> Result<(Option<Der<'a>>, &'a [u8]), DerFault>
        ensures exact { optional_view result ≡ optional_at tag bytes.now }
        ensures within { IfOk result (λ r. length r.1.now ≤ length bytes.now) }
    {
        if bytes.is_empty() {
            return Ok((None, bytes));
        }
        let (der, rest) = Der::next(bytes)?;
        if der.tag == tag {
            Ok((Some(der), rest))
        } else {
            Ok((None, bytes))
        }
    }

    /// The truth value of a BOOLEAN that may be absent; absent it is false.
    pub fn flag(boolean: Option<Der>) -> Result<bool, DerFault>
        ensures { result ≡ flag_of (option_map element_of boolean.entry) }
    {
        match boolean {
            Some(boolean) => boolean.boolean(),
            None => Ok(false),
        }
    }

    /// The number of an INTEGER below 2^64 that may be absent.
    pub fn limit(integer: Option<Der>) -> Result<Option<u64>, DerFault>
        ensures { result ≡ limit_of (option_map element_of integer.entry) }
    {
        match integer {
            Some(integer) => Ok(Some(integer.unsigned()?)),
            None => Ok(None),
        }
    }
}
