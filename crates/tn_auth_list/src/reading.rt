//! From the bytes of a list to its entries.
ghost use Rattle.std.specs.Prelude.{◌≡◌, ◌≤◌, length, ◌⊎◌, IfOk, IfErr};
ghost use Rattle.tn_auth_list.specs.Fault.{GivesSeen, IsPlaceBelow};
ghost use Rattle.tn_auth_list.specs.Read.{code_in, single_in, start_of, counted, span_in, range_in, entry_in};
ghost use Rattle.tn_auth_list.specs.Read.{content_entries, read_list};
ghost use Rattle.der_reader.specs.Elem.{AllBytes};
ghost use Rattle.der_reader.specs.Part.{part_of, item_of, end_of, content_end};
ghost use Rattle.tn_values.specs.Digit.{are_digits};
ghost use Rattle.der_reader.specs.Integer.{unsigned_of};

use crate::codes::Code;
use crate::entries::{Entry, MOST};
use crate::faults::ListFault;
use der_reader::tags::{IA5_STRING, INTEGER, SEQUENCE};
use der_reader::{Der, Fault, Item, Outer, Part};
use std::alloc::Global;
use tn_values::{Number, Span};

/// The entries of the list that the bytes are.
#[tactic(auto, unfolding(crate::specs::Read::read_list))]
pub(crate) fn read_list(alloc: Global, bytes: &[u8]) -> Result<Vec<Entry>, ListFault>
    ensures exact { GivesSeen (λ entries. entries.items) result (read_list bytes.now) }
    ensures bytes { AllBytes bytes.now }
    ensures place { IsPlaceBelow (length bytes.now) result }
{
    let list = Outer::read(bytes, SEQUENCE)?;
    let entries = content_entries(alloc, &list.content())?;
    if list.behind.is_empty() {
        Ok(entries)
    } else {
        Err(list.left_over().into())
    }
}

/// The entries of the list's SEQUENCE, of which there are 1 to 1,000.
#[tactic(auto, unfolding(crate::specs::Read::content_entries), using(crate::proofs::ListLaws::none_left, crate::proofs::ListLaws::one_too_many, crate::proofs::ListLaws::next))]
fn content_entries(alloc: Global, content: &Part) -> Result<Vec<Entry>, ListFault>
    ensures exact { GivesSeen (λ entries. entries.items) result (content_entries (part_of content.now)) }
    ensures place { IsPlaceBelow (end_of content.now) result }
{
    if content.left.is_empty() {
        return Err(Fault::at(ListFault::EMPTY, 0).into());
    }
    let mut entries = Vec::new(alloc);
    let mut rest = *content;
    let mut room = MOST;
    while !rest.left.is_empty() {
        if room == 0 {
            return Err(Fault::at(ListFault::LIMIT, rest.place).into());
        }
        let item = rest.item()?;
        entries.push(entry_in(&item)?)?;
        rest = item.behind;
        room -= 1;
    }
    Ok(entries)
}

/// The entry that an element is, by its tag.
#[tactic(auto, unfolding(crate::specs::Read::entry_in))]
fn entry_in(item: &Item) -> Result<Entry, Fault>
    ensures exact { result ≡ entry_in (item_of item.now) }
    ensures place { IfErr result (λ fault. (fault.place ≤ item.now.place) ⊎ (fault.place ≤ content_end item.now)) }
{
    match item.der.tag {
        Entry::CODE_TAG => code_in(&item.content()),
        Entry::RANGE_TAG => range_in(&item.content()),
        Entry::SINGLE_TAG => single_in(&item.content()),
        _ => Err(item.fault(ListFault::DER)),
    }
}

/// The code in the content of an element.
#[tactic(auto, unfolding(crate::specs::Read::string_in))]
fn code_in(part: &Part) -> Result<Entry, Fault>
    ensures exact { result ≡ code_in (part_of part.now) }
    ensures place { IfErr result (λ fault. fault.place ≤ end_of part.now) }
{
    let string = part.element(IA5_STRING)?;
    let Some(code) = Code::new(string.der.content) else {
        return Err(string.fault(ListFault::CODE));
    };
    string.behind.end(Entry::Code(code))
}

/// The single number in the content of an element.
#[tactic(auto, unfolding(crate::specs::Read::string_in))]
fn single_in(part: &Part) -> Result<Entry, Fault>
    ensures exact { result ≡ single_in (part_of part.now) }
    ensures place { IfErr result (λ fault. fault.place ≤ end_of part.now) }
{
    let string = part.element(IA5_STRING)?;
    let Some(number) = Number::exact(string.der.content) else {
        return Err(string.fault(ListFault::NUMBER));
    };
    string.behind.end(Entry::Single(number))
}

/// The range in the content of an element.
#[tactic(auto, unfolding(crate::specs::Read::range_in))]
fn range_in(part: &Part) -> Result<Entry, Fault>
    ensures exact { result ≡ range_in (part_of part.now) }
    ensures place { IfErr result (λ fault. fault.place ≤ end_of part.now) }
{
    let sequence = part.element(SEQUENCE)?;
    let span = span_in(&sequence.content())?;
    sequence.behind.end(Entry::Range(span))
}

/// The start and the count of a range.
#[tactic(auto, unfolding(crate::specs::Read::span_in))]
fn span_in(part: &Part) -> Result<Span, Fault>
    ensures exact { result ≡ span_in (part_of part.now) }
    ensures place { IfErr result (λ fault. fault.place ≤ end_of part.now) }
{
    let string = part.element(IA5_STRING)?;
    let Some(start) = start_of(string.der.content) else {
        return Err(string.fault(ListFault::NUMBER));
    };
    let integer = string.behind.element(INTEGER)?;
    let Some(span) = counted(start, &integer.der) else {
        return Err(integer.fault(ListFault::COUNT));
    };
    integer.behind.end(span)
}

/// The number of digits alone that a range begins with.
fn start_of(text: &[u8]) -> Option<Number>
    ensures { result ≡ start_of text.now }
{
    if are_digits(text) {
        Number::exact(text)
    } else {
        None
    }
}

/// Whether all bytes are digits.
fn are_digits(text: &[u8]) -> bool
    ensures { result ≡ are_digits text.now }
{
    text.iter().all(|byte| byte.is_ascii_digit())
}

/// The range from `start` on, by the INTEGER of its count.
fn counted(start: Number, integer: &Der) -> Option<Span>
    ensures { result ≡ counted start (unsigned_of integer.now.tag integer.now.content.now) }
{
    match integer.unsigned() {
        Ok(count) if count >= 2 => Span::new(start, count),
        _ => None,
    }
}
