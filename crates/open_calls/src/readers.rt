//! The readers of a world's parts, with their faults.
ghost use Rattle.std.specs.Prelude.{◌≡◌, ◌⊎◌, IfErr, IfOk};
ghost use Rattle.delegation.specs.Anchors.{AnchorText};
ghost use Rattle.tn_auth_list.specs.Grant.{TableOf};
ghost use Rattle.open_calls.specs.Worlds.{AreNoAnchors, IsFaultFor, IsNoTable};

use crate::world::WorldFault;
use delegation::{AnchorFault, Anchors};
use std::alloc::Global;
use tn_auth_list::{CodeTable, TableFault};

/// How many bytes a code table may have.
const MOST_TABLE: usize = 16_777_216;

/// The anchors that these bytes are.
pub(crate) fn read_anchors(alloc: Global, bytes: &[u8]) -> Result<Anchors, WorldFault>
    ensures read { IfOk result (AnchorText bytes.now) }
    ensures fault { IfErr result (IsFaultFor WorldFault.Anchors (AreNoAnchors bytes.now)) }
{
    match Anchors::read(alloc, bytes) {
        Ok(anchors) => Ok(anchors),
        Err(fault) => match fault {
            AnchorFault::At { .. } => Err(WorldFault::Anchors),
            AnchorFault::Memory => Err(WorldFault::Memory),
        },
    }
}

/// The code table that a text is.
pub(crate) fn read_table(alloc: Global, text: &[u8]) -> Result<CodeTable, WorldFault>
    ensures read { IfOk result (TableOf text.now) }
    ensures fault { IfErr result (IsFaultFor WorldFault.Table (IsNoTable text.now)) }
{
    if text.len() > MOST_TABLE {
        return Err(WorldFault::Table);
    }
    match CodeTable::read(alloc, text) {
        Ok(table) => Ok(table),
        Err(fault) => match fault {
            TableFault::Line { .. } => Err(WorldFault::Table),
            TableFault::Memory => Err(WorldFault::Memory),
        },
    }
}
