//! The code table.
ghost use Rattle.std.specs.Prelude.{◌≡◌, ◌<◌, ◌↔◌, ℕ, List, length, IfOk, IfErr, Some, Ok, Err};
ghost use Rattle.tn_auth_list.specs.CodeTable.{FirstBad, TableText, row_of, table_rows};
ghost use Rattle.tn_auth_list.specs.TableLine.{IsTableLine};
ghost use Rattle.tn_auth_list.specs.declared.table_rows.Row.{Row};
ghost use Rattle.tn_auth_list.specs.Grant.{FaultOf, GrantOf, TableOf, grant_in, grant_view};

use crate::codes::Code;
use crate::table_groups::{Groups, Held};
use std::alloc::{AllocError, Global};
use std::collections::BTreeMap;
use std::error::Error;
use std::fmt;
use std::marker::Model;
use text_grammar::{Lines, words_law};
use tn_values::NumberSet;

/// Which telephone numbers each service provider code stands for.
///
/// A contract sees what each code holds.
#[derive(Debug, Drop)]
pub struct CodeTable {
    held: BTreeMap<Code, Held>,
}

impl Model for CodeTable {
    ghost use Rattle.std.specs.Prelude.{ℕ, List};
    ghost use Rattle.tn_auth_list.specs.declared.table_groups.Held.{Held};

    ghost Value = { List (List ℕ × Held) };

    ghost view = { λ t. t.held.entries };
}

/// Why a text is no code table.
#[derive(Clone, Copy, Debug, PartialEq, Eq)]
pub enum TableFault {
    /// This line is the first that is outside the grammar or past a limit; lines count from 1.
    Line { line: u32 },
    /// Memory ran out.
    Memory,
}

impl fmt::Display for TableFault {
    fn fmt<W: fmt::Write>(&self, f: &mut fmt::Formatter<W>) -> fmt::Result {
        match self {
            TableFault::Line { line } => write!(f, "line {line} isn't one of a code table"),
            TableFault::Memory => f.write_str("memory ran out"),
        }
    }
}

impl Error for TableFault {}

impl From<AllocError> for TableFault {
    ghost use Rattle.std.specs.Prelude.{◌≡◌};
    ghost use Rattle.tn_auth_list.specs.declared.table.TableFault.TheVariants.{Memory};

    ghost from_gives = { λ _ fault. fault ≡ Memory };

    fn from(_refused: AllocError) -> TableFault {
        TableFault::Memory
    }
}

/// What the table grants a code.
#[derive(Clone, Copy, Debug)]
pub enum Grant<'a> {
    /// No line names the code.
    Nothing,
    /// A line of the code says `*`: it stands for every number.
    All,
    /// The numbers of the code's lines.
    These(&'a NumberSet),
}

impl CodeTable {
    /// Reads a code table.
    ///
    /// Each line is `CODE *`, `CODE NUMBER` or `CODE START COUNT`, its words parted by exactly one space; empty lines
    /// and lines that begin with `;` are passed over and counted. Lines of one code add up. A table has at most 20,000
    /// codes, and at most 200,000 lines that give a number or a range. The fault names the first line that is none of
    /// these or that passes a limit.
    pub fn read(alloc: Global, text: &[u8]) -> Result<CodeTable, TableFault>
        requires { length text.now < 4294967295 }
        ensures table { IfOk result (TableOf text.now) }
        ensures fault { IfErr result (FaultOf text.now) }
        // what a table is, and which line is the first bad one
        ensures rows { (rows : List Row) → (table_rows text.now ≡ Ok rows) ↔ TableText text.now rows }
        ensures first_bad { (number : ℕ) → (table_rows text.now ≡ Err number) ↔ FirstBad text.now number }
        // what a line says, in the words of the format
        ensures line { (line : List ℕ) (row : Row) → (row_of line ≡ Some row) ↔ IsTableLine line row }
    {
        words_law();
        read_table(alloc, text)
    }

    /// What the table grants the code.
    pub fn numbers(&self, code: &Code) -> Grant<'_>
        ensures exact { grant_view result ≡ grant_in self.now code.now }
        ensures rows { (text : List ℕ) (table : TableOf text self.now)
            → GrantOf table.rows code.now (grant_view result) }
    {
        self.grant(code)
    }

    /// What is held for the code, as a grant.
    #[tactic(auto, using(crate::proofs::HeldLaws::get_by_bytes))]
    fn grant(&self, code: &Code) -> Grant<'_>
        ensures { grant_view result ≡ grant_in self.now code.now }
    {
        match self.held.get(code) {
            None => Grant::Nothing,
            Some(Held::All) => Grant::All,
            Some(Held::These(set)) => Grant::These(set),
        }
    }
}

/// Reads the lines one by one, up to the first bad one.
#[tactic(auto, using(text_grammar::proofs::ReachedLaws::one_more, text_grammar::proofs::ReachedLaws::bad_line), unfolding(crate::specs::CodeTable::table_rows))]
fn read_table(alloc: Global, text: &[u8]) -> Result<CodeTable, TableFault>
    requires { length text.now < 4294967295 }
    ensures table { IfOk result (TableOf text.now) }
    ensures fault { IfErr result (FaultOf text.now) }
{
    let mut groups = Groups::new(alloc);
    let mut lines = Lines::new(text);
    while let Some(line) = lines.next() {
        if !groups.add_line(line.text)? {
            return Err(TableFault::Line { line: line.number });
        }
    }
    let held = groups.finish()?;
    Ok(CodeTable { held })
}
