//! Elements one after another within the element around them, each with its place in the whole text.

ghost use Rattle.std.specs.Prelude.{◌≡◌, ◌+◌, ◌<◌, ◌≤◌, ◌^◌, length, IfOk, IfErr};

use crate::element::Der;

/// What is broken in a format of elements, and where.
#[derive(Clone, Copy, Debug)]
pub struct Fault {
    /// What is broken, by the format's own numbers; 1 is `DER`.
    pub kind: u8,
    /// The offset, in bytes from the whole text's first one, at which it is.
    pub place: u32,
}

impl Fault {
    ghost use Rattle.der_reader.specs.Part.{at_kind};

    /// An element can't be read or has another tag, or bytes are left over.
    pub const DER: u8 = 1;

    /// A fault of this kind at this place.
    pub fn at(kind: u8, place: u32) -> Fault
        ensures { result ≡ at_kind kind place }
    {
        Fault { kind, place }
    }
}

/// The bytes that are left up to the end of the element around them.
#[derive(Clone, Copy)]
pub struct Part<'a> {
    /// These bytes.
    pub left: &'a [u8],
    /// The place of the first of them in the whole text.
    pub place: u32,
    ghost small: { place + length left.now < 2 ^ 32 },
}

/// An element of a part.
#[derive(Clone, Copy)]
pub struct Item<'a> {
    /// The element.
    pub der: Der<'a>,
    /// Its place in the whole text.
    pub place: u32,
    /// The place of its content.
    pub inside: u32,
    /// What comes after it in the part.
    pub behind: Part<'a>,
    ghost small: { place + length der.whole.now < 2 ^ 32 },
    ghost ends: { inside + length der.content.now ≡ place + length der.whole.now },
}

impl<'a> Part<'a> {
    ghost use Rattle.der_reader.specs.Part.{item_at, element_at, end_at, part_of, item_of, item_view, end_of};
    ghost use Rattle.der_reader.specs.Part.{content_end};

    /// The element that the part begins with. One that can't be read is `DER` at the place of its fault, which is the
    /// part's end if the element is cut short.
    #[tactic(auto, unfolding(crate::specs::Part::item_at), using(crate::proofs::PartLaws::element_sizes))]
    pub fn item(&self) -> Result<Item<'a>, Fault>
        ensures exact { item_view result ≡ item_at (part_of self.now) }
        ensures inside { IfOk result (λ item. content_end item ≤ end_of self.now) }
        ensures behind { IfOk result (λ item. end_of item.behind ≡ end_of self.now) }
        ensures shorter { IfOk result (λ item. length item.behind.left.now < length self.now.left.now) }
        ensures own { IfOk result (λ item. item.place ≤ end_of self.now) }
        ensures place { IfErr result (λ fault. fault.place ≤ end_of self.now) }
    {
        match Der::next(self.left) {
            Ok((der, rest)) => Ok(Item {
                der,
                place: self.place,
                inside: self.place + (der.whole.len() - der.content.len()) as u32,
                behind: Part {
                    left: rest,
                    place: self.place + der.whole.len() as u32,
                },
            }),
            Err(fault) => Err(Fault::at(Fault::DER, self.place + fault.place)),
        }
    }

    /// The element that the part begins with, if it has this tag; another is `DER` where it begins.
    #[tactic(auto, unfolding(crate::specs::Part::element_at))]
    pub fn element(&self, tag: u8) -> Result<Item<'a>, Fault>
        ensures exact { item_view result ≡ element_at tag (part_of self.now) }
        ensures inside { IfOk result (λ item. content_end item ≤ end_of self.now) }
        ensures behind { IfOk result (λ item. end_of item.behind ≡ end_of self.now) }
        ensures own { IfOk result (λ item. item.place ≤ end_of self.now) }
        ensures place { IfErr result (λ fault. fault.place ≤ end_of self.now) }
    {
        let item = self.item()?;
        if item.der.tag == tag {
            Ok(item)
        } else {
            Err(item.fault(Fault::DER))
        }
    }

    /// The value, if nothing is left; bytes left over are `DER` at the first of them.
    pub fn end<T: Drop>(&self, value: T) -> Result<T, Fault>
        ensures exact { result ≡ end_at (part_of self.now) value }
        ensures place { IfErr result (λ fault. fault.place ≤ end_of self.now) }
    {
        if self.left.is_empty() {
            Ok(value)
        } else {
            Err(Fault::at(Fault::DER, self.place))
        }
    }
}

/// The element that a whole text begins with.
#[derive(Clone, Copy)]
pub struct Outer<'a> {
    /// The element.
    pub der: Der<'a>,
    /// What comes after it in the text.
    pub behind: &'a [u8],
    ghost small: { length der.whole.now < 2 ^ 17 },
    ghost sizes: { length der.content.now ≤ length der.whole.now },
}

impl<'a> Outer<'a> {
    ghost use Rattle.der_reader.specs.Part.{at_kind, element_at, outer_of, outer_view, part_of, whole_text};

    /// The element that a whole text, of any length, begins with. One that can't be read is `DER` at the place of its
    /// fault, and one with another tag at 0.
    #[tactic(auto, unfolding(crate::specs::Part::element_at, crate::specs::Part::item_at), using(crate::proofs::PartLaws::element_small))]
    pub fn read(bytes: &'a [u8], tag: u8) -> Result<Outer<'a>, Fault>
        ensures exact { outer_view result ≡ element_at tag (whole_text bytes.now) }
        ensures within { IfOk result (λ outer. length outer.der.whole.now ≤ length bytes.now) }
        ensures place { IfErr result (λ fault. fault.place ≤ length bytes.now) }
    {
        let (der, behind) = match Der::next(bytes) {
            Ok(found) => found,
            Err(fault) => return Err(Fault::at(Fault::DER, fault.place)),
        };
        if der.tag == tag {
            Ok(Outer { der, behind })
        } else {
            Err(Fault::at(Fault::DER, 0))
        }
    }

    /// The content of the element.
    pub fn content(&self) -> Part<'a>
        ensures part { part_of result ≡ (outer_of self.now).content }
        ensures end { result.place + length result.left.now ≡ length self.now.der.whole.now }
    {
        Part {
            left: self.der.content,
            place: (self.der.whole.len() - self.der.content.len()) as u32,
        }
    }

    /// The fault of bytes after the element: `DER` at the first of them.
    pub fn left_over(&self) -> Fault
        ensures { result ≡ at_kind 1 (outer_of self.now).behind.place }
    {
        Fault::at(Fault::DER, self.der.whole.len() as u32)
    }
}

impl<'a> Item<'a> {
    ghost use Rattle.der_reader.specs.Part.{at_kind, part_of, item_of};

    /// The content of the element.
    pub fn content(&self) -> Part<'a>
        ensures { part_of result ≡ (item_of self.now).content }
    {
        Part {
            left: self.der.content,
            place: self.inside,
        }
    }

    /// A fault of this kind where the element begins.
    pub fn fault(&self, kind: u8) -> Fault
        ensures { result ≡ at_kind kind self.now.place }
    {
        Fault::at(kind, self.place)
    }
}
