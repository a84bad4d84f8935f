//! The DER element that some bytes begin with (X.690, sections 8.1.2, 8.1.3 and 10.1).

ghost use Rattle.std.specs.Prelude.{◌≡◌, ◌+◌, ◌<◌, ◌≤◌, length, Err, IfOk, IfErr, IsOkAnd, List, ℕ};
ghost use Rattle.der_reader.specs.Elem.{BeginsWith, Element, element_of};
ghost use Rattle.der_reader.specs.Unreadable.{Unreadable};
ghost use Rattle.der_reader.specs.Next.{content_at, header_at, next_at, next_view, pair_at, pair_view, sole_at};
ghost use Rattle.der_reader.specs.Next.{sole_view};

use crate::fault::DerFault;
use crate::tags::SEQUENCE;

/// The low five bits of a tag byte; all set, they announce a tag number in further bytes.
const TAG_NUMBER_BITS: u8 = 0x1F;

/// A DER element: views into the bytes that it was read from.
#[derive(Clone, Copy, Debug)]
pub struct Der<'a> {
    /// The tag byte.
    pub tag: u8,
    /// All bytes of the element: tag, length and content.
    pub whole: &'a [u8],
    /// The bytes after tag and length.
    pub content: &'a [u8],
}

/// Tag and length of an element.
#[derive(Clone, Copy)]
struct Header {
    tag: u8,
    /// How many bytes tag and length take.
    size: usize,
    /// How many bytes the content takes.
    content_size: usize,
}

impl<'a> Der<'a> {
    /// The first element of `bytes` and the bytes after it.
    ///
    /// Faults are tried in this order: no byte is `SHORT` at 0; a tag whose low five bits are all
    /// set is `TAG` at 0; no length byte is `SHORT` at 1; a first length byte of `80` or above `82`
    /// is `LENGTH` at 1; missing length bytes are `SHORT` at the number of bytes; a length that
    /// isn't the shortest is `LENGTH` at 1; missing content is `SHORT` at the number of bytes.
    #[tactic(auto, unfolding(crate::specs::Next::next_at))]
    pub fn next(bytes: &'a [u8]) -> Result<(Der<'a>, &'a [u8]), DerFault>
        // The element and the rest, or the first fault of the table.
        ensures exact { next_view result ≡ next_at bytes.now }

        // An answer is an element that the bytes begin with, and each such element is the answer.
        ensures found { IfOk result (λ r. BeginsWith bytes.now (element_of r.0) r.1.now) }
        ensures only { (element : Element) (rest : List ℕ) → BeginsWith bytes.now element rest
            → IsOkAnd result (λ r. (element_of r.0 ≡ element) × (r.1.now ≡ rest)) }

        // Two elements that the same bytes begin with are one.
        ensures unique { (a b : Element) (r s : List ℕ) → BeginsWith bytes.now a r → BeginsWith bytes.now b s
            → (a ≡ b) × (r ≡ s) }

        // A fault is the first test that the bytes fail, and the first that they fail is the fault.
        ensures refused { IfErr result (λ fault. Unreadable bytes.now fault) }
        ensures only_refused { (fault : DerFault) → Unreadable bytes.now fault → result ≡ Err fault }

        ensures shorter { IfOk result (λ r. length r.1.now < length bytes.now) }
        ensures place { IfErr result (λ fault. fault.place ≤ length bytes.now) }
    {
        Header::read(bytes)?.split(bytes)
    }

    /// The one element that `bytes` are, which has to have this tag; another tag or bytes left over are `VALUE` at 0.
    #[tactic(auto, unfolding(crate::specs::Next::sole_at), using(crate::proofs::PartLaws::element_sizes))]
    pub fn sole(bytes: &'a [u8], tag: u8) -> Result<Der<'a>, DerFault>
        ensures exact { sole_view result ≡ sole_at tag bytes.now }
        ensures whole { IfOk result (λ der. length der.whole.now ≤ length bytes.now) }
        ensures inside { IfOk result (λ der. length der.content.now < length bytes.now) }
    {
        let (der, rest) = Der::next(bytes)?;
        if der.tag == tag && rest.is_empty() {
            Ok(der)
        } else {
            Err(DerFault::value())
        }
    }

    /// The two elements of the one SEQUENCE that `bytes` are; another tag, more elements or bytes left over are `VALUE`
    /// at 0.
    #[tactic(auto, unfolding(crate::specs::Next::pair_at))]
    pub fn pair(bytes: &'a [u8]) -> Result<(Der<'a>, Der<'a>), DerFault>
        ensures exact { pair_view result ≡ pair_at bytes.now }
    {
        let sequence = Der::sole(bytes, SEQUENCE)?;
        let (first, rest) = Der::next(sequence.content)?;
        let (second, behind) = Der::next(rest)?;
        if behind.is_empty() {
            Ok((first, second))
        } else {
            Err(DerFault::value())
        }
    }
}

impl Header {
    /// The tag and length that `bytes` begin with.
    #[tactic(auto, unfolding(crate::specs::Next::header_at))]
    fn read(bytes: &[u8]) -> Result<Header, DerFault>
        ensures exact { result ≡ header_at bytes.now }
        ensures bound { IfOk result (λ h. (h.size ≤ 4) × (h.content_size < 65536)) }
        ensures fits { IfOk result (λ h. h.size ≤ length bytes.now) }
        ensures place { IfErr result (λ fault. fault.place ≤ length bytes.now) }
    {
        match bytes {
            [] => Err(DerFault::short(0)),
            [tag, ..] if *tag & TAG_NUMBER_BITS == TAG_NUMBER_BITS => Err(DerFault::tag()),
            [_] => Err(DerFault::short(1)),
            [tag, size @ 0..=0x7F, ..] => Ok(Header {
                tag: *tag,
                size: 2,
                content_size: *size as usize,
            }),
            [_, 0x81] | [_, 0x82] | [_, 0x82, _] => Err(DerFault::short(bytes.len())),
            [tag, 0x81, size @ 0x80.., ..] => Ok(Header {
                tag: *tag,
                size: 3,
                content_size: *size as usize,
            }),
            [tag, 0x82, high @ 1.., low, ..] => Ok(Header {
                tag: *tag,
                size: 4,
                content_size: *high as usize * 0x100 + *low as usize,
            }),
            _ => Err(DerFault::length()),
        }
    }

    /// The element that these bytes begin with, by its tag and length, and the rest.
    fn split<'a>(self, bytes: &'a [u8]) -> Result<(Der<'a>, &'a [u8]), DerFault>
        requires fits { self.size ≤ length bytes.now }
        requires bound { (self.size ≤ 4) × (self.content_size < 65536) }
        ensures { next_view result ≡ content_at bytes.now self }
    {
        let end = self.size + self.content_size;
        if bytes.len() < end {
            return Err(DerFault::short(bytes.len()));
        }
        let (whole, rest) = bytes.split_at(end);
        let der = Der {
            tag: self.tag,
            whole,
            content: &whole[self.size..],
        };
        Ok((der, rest))
    }
}
