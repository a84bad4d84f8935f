//! The code table.
ghost use Rattle.std.specs.Prelude.{◌≤◌, IfOk, IfErr, length};
ghost use Rattle.tn_auth_list.specs.CodeTable.{table_rows};
ghost use Rattle.tn_auth_list.specs.Grant.{TableOf};
ghost use Rattle.stir_files.specs.Named.{IsRefusal, refusal_of};

use crate::fault::FileFault;
use std::alloc::Global;
use tn_auth_list::{CodeTable, TableFault};

/// The most bytes of a code table.
pub(crate) const MOST_BYTES: usize = 16_777_216;

/// The code table that the content is; the place of a fault is the first bad line.
#[tactic(auto, using(crate::proofs::FileSteps::place_at))]
pub(crate) fn read_table(alloc: Global, content: &[u8]) -> Result<CodeTable, FileFault>
    requires { length content.now ≤ MOST_BYTES }
    ensures read { IfOk result (TableOf content.now) }
    ensures refused { IfErr result (IsRefusal (refusal_of (table_rows content.now))) }
{
    match CodeTable::read(alloc, content) {
        Ok(table) => Ok(table),
        Err(TableFault::Line { line }) => Err(FileFault::Refused {
            place: u64::from(line),
        }),
        Err(TableFault::Memory) => Err(FileFault::Memory),
    }
}
