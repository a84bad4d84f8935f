//! From a list to its bytes.
ghost use Rattle.std.specs.Prelude.{◌≡◌, ◌≤◌, ◌++◌, true, length, IfOk, OnOk, IsTrue};
ghost use Rattle.der_reader.specs.Elem.{element_text};
ghost use Rattle.tn_auth_list.specs.declared.entries.Entry.TheVariants.{Range};
ghost use Rattle.tn_auth_list.specs.Entry.{is_list, is_typed};
ghost use Rattle.tn_auth_list.specs.ListText.{ListText, entry_text, span_text};

use crate::Memory;
use crate::entries::Entry;
use der_reader::tags::{IA5_STRING, INTEGER, SEQUENCE};
use der_reader::{encode, put, put_integer};
use std::alloc::Global;
use tn_values::Span;

/// The text of the list of these entries.
#[tactic(auto, using(crate::proofs::WriteLaws::one_written, crate::proofs::WriteLaws::content_short, crate::proofs::WriteLaws::text_written))]
pub(crate) fn list_text(alloc: Global, entries: &[Entry]) -> Result<Vec<u8>, Memory>
    requires { IsTrue (is_list entries.now) }
    ensures { IfOk result (λ text. ListText text.items entries.now) }
{
    let mut content = Vec::new(alloc);
    for entry in entries {
        put_entry(alloc, &mut content, entry)?;
    }
    let text = encode(alloc, SEQUENCE, &content)?;
    Ok(text)
}

/// Appends an entry.
fn put_entry(alloc: Global, out: &mut Vec<u8>, entry: &Entry) -> Result<(), Memory>
    ensures text { OnOk result (out.new.items ≡ out.old.items ++ entry_text entry.now) }
    ensures entry { OnOk result (is_typed entry.now ≡ true) }
{
    match entry {
        Entry::Code(code) => {
            let text = encode(alloc, IA5_STRING, code.bytes())?;
            put(out, Entry::CODE_TAG, &text)
        }
        Entry::Range(span) => {
            let range = range_text(alloc, span)?;
            put(out, Entry::RANGE_TAG, &range)
        }
        Entry::Single(number) => {
            let text = encode(alloc, IA5_STRING, number.bytes())?;
            put(out, Entry::SINGLE_TAG, &text)
        }
    }
}

/// The SEQUENCE of a range.
#[tactic(auto, using(der_reader::proofs::IntegerTexts::integer_short))]
fn range_text(alloc: Global, span: &Span) -> Result<Vec<u8>, Memory>
    ensures typed { OnOk result (is_typed (Range span.now) ≡ true) }
    ensures short { IfOk result (λ text. length text.items ≤ 34) }
    ensures text { IfOk result (λ text. text.items ≡ element_text 0x30 (span_text span.now)) }
{
    let mut content = encode(alloc, IA5_STRING, span.start().bytes())?;
    let mut count = Vec::new(alloc);
    put_integer(&mut count, span.size())?;
    put(&mut content, INTEGER, &count)?;
    encode(alloc, SEQUENCE, &content)
}
