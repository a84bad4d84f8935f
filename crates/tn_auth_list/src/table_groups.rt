//! What each code is given, as it is kept while the table is read.
ghost use Rattle.std.specs.Prelude.{◌≡◌, [], Some, IfOk, OnOk};
ghost use Rattle.tn_auth_list.specs.CodeGroups.{HeldByCode, HeldFrom, IsGroups, PutsRow, has_room, no_group};
ghost use Rattle.tn_auth_list.specs.CodeGroups.{with_gives};
ghost use Rattle.tn_auth_list.specs.CodeTable.{add_row, is_past};
ghost use Rattle.text_grammar.specs.Rows.{Adds, AddsLine};

use crate::Memory;
use crate::codes::Code;
use crate::table_rows::{Gives, Row, row_of};
use std::alloc::Global;
use std::collections::BTreeMap;
use std::marker::Model;
use tn_values::{Number, NumberSet, Span};

/// The most codes that a table names.
const MOST_CODES: usize = 20_000;

/// The most lines of a table that give a number or a range.
const MOST_GIVEN: u32 = 200_000;

/// What the lines of one code give it.
#[derive(Drop)]
pub(crate) struct Group {
    all: bool,
    spans: Vec<Span>,
    singles: Vec<Number>,
}

impl Model for Group {
    ghost use Rattle.tn_auth_list.specs.GroupView.{GroupView};

    ghost Value = { GroupView };

    ghost view = { λ g. record { all = g.all; spans = g.spans.items; singles = g.singles.items } };
}

impl Group {
    /// Nothing yet.
    fn new(alloc: Global) -> Group
        ensures { result ≡ no_group }
    {
        Group {
            all: false,
            spans: Vec::new(alloc),
            singles: Vec::new(alloc),
        }
    }

    /// Adds what a line gives.
    fn add(&mut self, gives: Gives) -> Result<(), Memory>
        ensures { OnOk result (self.new ≡ with_gives self.old gives) }
    {
        match gives {
            Gives::All => self.all = true,
            Gives::Range(span) => self.spans.push(span)?,
            Gives::Single(number) => self.singles.push(number)?,
        }
        Ok(())
    }

    /// What the lines give together: all numbers, or a set of them.
    fn held(self) -> Result<Held, Memory>
        ensures { IfOk result (λ held. HeldFrom (Some self) (Some held)) }
    {
        if self.all {
            return Ok(Held::All);
        }
        Ok(Held::These(NumberSet::build(self.spans, self.singles)?))
    }
}

/// What a whole table gives a code that it names.
#[derive(Debug, Drop)]
pub(crate) enum Held {
    All,
    These(NumberSet),
}

/// What the lines read so far give each code.
#[derive(Drop)]
pub(crate) struct Groups {
    alloc: Global,
    by_code: BTreeMap<Code, Group>,
    given: u32,
}

impl Groups {
    /// The groups of no lines.
    pub(crate) fn new(alloc: Global) -> Groups
        ensures { IsGroups [] result }
    {
        Groups {
            alloc,
            by_code: BTreeMap::new(alloc),
            given: 0,
        }
    }

    /// Adds what a line says; false if the line is bad.
    pub(crate) fn add_line(&mut self, line: &[u8]) -> Result<bool, Memory>
        ensures { IfOk result (AddsLine add_row IsGroups self.old self.new line.now) }
    {
        match row_of(line) {
            Some(row) => self.add(row),
            None => Ok(false),
        }
    }

    /// Adds what a row gives; false if it passes a limit of the table.
    fn add(&mut self, row: Row) -> Result<bool, Memory>
        ensures { IfOk result (Adds is_past IsGroups self.old self.new row) }
    {
        if !self.has_room(&row) {
            return Ok(false);
        }
        put(self.alloc, &mut self.by_code, row)?;
        self.given += u32::from(!row.gives.is_all());
        Ok(true)
    }

    /// Whether a line with this row is within the limits of the table.
    fn has_room(&self, row: &Row) -> bool
        ensures { result ≡ has_room self.now row.now }
    {
        (self.by_code.len() < MOST_CODES || self.by_code.contains_key(&row.code))
            && (self.given < MOST_GIVEN || row.gives.is_all())
    }

    /// What the lines give each code together, as sets of numbers.
    pub(crate) fn finish(self) -> Result<BTreeMap<Code, Held>, Memory>
        ensures { IfOk result (HeldByCode self.by_code) }
    {
        let mut held_by_code = BTreeMap::new(self.alloc);
        for (code, group) in self.by_code {
            drop(held_by_code.insert(code, group.held()?)?);
        }
        Ok(held_by_code)
    }
}

/// Adds what a row gives to what its code has.
fn put(alloc: Global, by_code: &mut BTreeMap<Code, Group>, row: Row) -> Result<(), Memory>
    ensures { OnOk result (PutsRow by_code.old by_code.new row) }
{
    let group = by_code.entry(row.code)?.or_insert(Group::new(alloc));
    group.add(row.gives)
}
