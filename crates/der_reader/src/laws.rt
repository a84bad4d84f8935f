//! Laws: a function here does nothing, and its clauses are the law.
ghost use Rattle.std.specs.Prelude.{◌≡◌, ◌<◌, ◌≤◌, ◌^◌, ◌++◌, ℕ, ℤ, Bool, List, length, take, Ok, Err};
ghost use Rattle.der_reader.specs.BitString.{BitText, bits_of};
ghost use Rattle.der_reader.specs.Boolean.{boolean_of, boolean_text};
ghost use Rattle.der_reader.specs.Elem.{AllBytes, BeginsWith, Elem, Element};
ghost use Rattle.der_reader.specs.Fault.{short_at};
ghost use Rattle.der_reader.specs.Integer.{IntegerText, big_endian, scalar_of, unsigned_of};
ghost use Rattle.der_reader.specs.Next.{next_at};
ghost use Rattle.der_reader.specs.Time.{TimeText, time_of};

/// A prefix of bytes is bytes: the first of two texts that are joined, and the first so many of one.
pub fn bytes_law()
    ensures front { (xs ys : List ℕ) → AllBytes (xs ++ ys) → AllBytes xs }
    ensures taken { (n : ℕ) (xs : List ℕ) → AllBytes xs → AllBytes (take n xs) }
{}

/// An element and the rest are read from bytes exactly if these begin with this element and go on with this rest
/// (X.690, sections 8.1.2, 8.1.3 and 10.1). A prefix of an element is cut short at its end. The rest is shorter, and it
/// and the content are bytes if all are.
pub fn element_law()
    ensures again { (bytes : List ℕ) (element : Element) (rest : List ℕ) → BeginsWith bytes element rest
        → next_at bytes ≡ Ok (element, rest) }
    ensures found { (bytes : List ℕ) (found : Element × List ℕ) → AllBytes bytes → next_at bytes ≡ Ok found
        → BeginsWith bytes found.0 found.1 }
    ensures shorter { (bytes : List ℕ) (found : Element × List ℕ) → next_at bytes ≡ Ok found
        → length found.1 < length bytes }
    ensures cut_short { (tag : ℕ) (whole content front more : List ℕ) → Elem whole tag content → whole ≡ front ++ more
        → 1 ≤ length more → next_at front ≡ Err (short_at (length front)) }
    ensures parts { (bytes : List ℕ) (element : Element) (rest : List ℕ) → AllBytes bytes
        → BeginsWith bytes element rest → AllBytes element.content × AllBytes rest }
{}

/// Bytes are read from a BIT STRING exactly if it is the string of these bytes without unused bits (X.690, section
/// 8.6).
pub fn bit_string_law()
    ensures again { (tag : ℕ) (content bytes : List ℕ) → tag ≡ 3 → BitText content 0 bytes
        → bits_of tag content ≡ Ok bytes }
    ensures found { (tag : ℕ) (content bytes : List ℕ) → bits_of tag content ≡ Ok bytes
        → (tag ≡ 3) × BitText content 0 bytes }
{}

/// A truth value is read from a BOOLEAN exactly if the content is the one text of it (X.690, sections 8.2 and 11.1).
pub fn boolean_law()
    ensures again { (tag : ℕ) (content : List ℕ) (truth : Bool) → tag ≡ 1 → content ≡ boolean_text truth
        → boolean_of tag content ≡ Ok truth }
    ensures found { (tag : ℕ) (content : List ℕ) (truth : Bool) → boolean_of tag content ≡ Ok truth
        → (tag ≡ 1) × (content ≡ boolean_text truth) }
{}

/// A number below 2^64 is read from an INTEGER exactly if the content is this number in its fewest bytes. What is read
/// from one as 32 bytes is its number (X.690, section 8.3).
pub fn integer_law()
    ensures unsigned_again { (tag : ℕ) (content : List ℕ) (number : ℕ) → tag ≡ 2 → IntegerText content number
        → number < 2 ^ 64 → unsigned_of tag content ≡ Ok number }
    ensures unsigned_found { (tag : ℕ) (content : List ℕ) (number : ℕ) → unsigned_of tag content ≡ Ok number
        → (tag ≡ 2) × IntegerText content number × (number < 2 ^ 64) }
    ensures scalar_found { (tag : ℕ) (content bytes : List ℕ) → scalar_of tag content ≡ Ok bytes
        → (tag ≡ 2) × (length bytes ≡ 32) × IntegerText content (big_endian bytes) }
{}

/// Seconds are read from a time exactly if it says a moment that exists, which is so many seconds from 1970 (X.690,
/// sections 11.7 and 11.8; RFC 5280, section 4.1.2.5).
pub fn time_law()
    ensures again { (tag : ℕ) (content : List ℕ) (s : ℤ) → TimeText tag content s → time_of tag content ≡ Ok s }
    ensures found { (tag : ℕ) (content : List ℕ) (s : ℤ) → time_of tag content ≡ Ok s → TimeText tag content s }
{}
