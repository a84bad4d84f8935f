//! The header fields of a head, read line by line up to its empty line.
ghost use Rattle.std.specs.Prelude.{◌≡◌, ◌≤◌, [], length, map, filter, false, OnOk};
ghost use Rattle.sip_message.specs.Known.{is_named};
ghost use Rattle.sip_message.specs.Lines.{behind_continuations, continuations};
ghost use Rattle.sip_message.specs.Reading.{fault, field_at, fields_after, surplus};
ghost use Rattle.sip_message.specs.Seen.{Gives, GivesOr, head_seen, line_seen, placed_seen};

use crate::fault::{FormFault, MessageFault};
use crate::field::Field;
use crate::field_line::field_line;
use crate::known::Known;
use crate::lines::{Line, Lines};
use crate::name::Name;
use crate::value::read_value;
use std::alloc::Global;

/// The kind of a fault of a header line.
const HEADER_LINE: u8 = 3;

/// The kind of a head without an empty line at its end.
const NO_END: u8 = 4;

/// For how many header fields there is room at once. More take new room, and most heads have fewer.
const EXPECTED_FIELDS: usize = 16;

/// The fields of a head and the offset of the empty line that ends it.
#[derive(Drop)]
pub(crate) struct HeadFields<'a> {
    pub fields: Vec<Field<'a>>,
    pub end: u32,
}

/// Reads the fields up to the first empty line of bytes of this size.
#[tactic(auto, using(crate::proofs::HeadSteps::field_read, crate::proofs::HeadSteps::field_missing, crate::proofs::HeadSteps::head_ended, crate::proofs::HeadSteps::shorter))]
pub(crate) fn read_head<'a>(
    alloc: Global,
    size: u32,
    lines: &mut Lines<'a>,
) -> Result<HeadFields<'a>, MessageFault>
    ensures { Gives head_seen result (fields_after size false [] lines.old) }
{
    let mut fields = Vec::with_capacity(alloc, EXPECTED_FIELDS)?;
    'lines: while let Some(line) = lines.next() {
        if line.text.is_empty() {
            return Ok(HeadFields {
                fields,
                end: line.place,
            });
        }
        let field = read_field(alloc, line, lines)?;
        fields.push(field)?;
    }
    Err(MessageFault::Form(FormFault {
        kind: NO_END,
        place: size,
    }))
}

/// Reads the field that begins with the line and goes on over the continuations at the beginning of the lines.
fn read_field<'a>(
    alloc: Global,
    line: Line<'a>,
    lines: &mut Lines<'a>,
) -> Result<Field<'a>, MessageFault>
    ensures field { GivesOr placed_seen (fault 3 line.entry.place) result
        (field_at (line_seen line.entry) (continuations lines.old)) }
    ensures left { OnOk result (lines.new ≡ behind_continuations lines.old) }
{
    let Some((name, rest)) = field_line(line.text) else {
        return Err(MessageFault::Form(FormFault {
            kind: HEADER_LINE,
            place: line.place,
        }));
    };
    let value = read_value(alloc, rest, lines)?;
    Ok(Field {
        place: line.place,
        name: Name::new(name),
        value,
    })
}

impl HeadFields<'_> {
    /// None if exactly one field is such a one; else the offset of the second, or of the empty line if there is none.
    #[tactic(auto, using(crate::proofs::FieldSteps::placed_step, crate::proofs::FieldSteps::placed_end))]
    pub(crate) fn surplus(&self, known: Known) -> Option<u32>
        ensures { result ≡ surplus (is_named known) (head_seen self.now) }
    {
        let mut is_found = false;
        for field in &self.fields {
            if !field.name.is(known) {
                continue;
            }
            if is_found {
                return Some(field.place);
            }
            is_found = true;
        }
        if is_found { None } else { Some(self.end) }
    }
}
