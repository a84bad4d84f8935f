//! The files of the drill, as they are read.
ghost use Rattle.std.specs.Prelude.{◌≡◌, ◌≢◌, ◌<◌, ◌≤◌, ◌-◌, ◌^◌, ℕ, length, Ok, Err, IfOk};
ghost use Rattle.cert_store.specs.ChainMap.{MapOf, map_rows};
ghost use Rattle.delegation.specs.Anchors.{anchors_in};
ghost use Rattle.drill.specs.Files.{FilesOf};
ghost use Rattle.stir_drill.specs.World.{anchors_text, answers_of, chain_map_text, table_text};
ghost use Rattle.stir_outside.specs.AnswersText.{answer_rows};
ghost use Rattle.stir_outside.specs.Held.{AnswersOf};
ghost use Rattle.tn_auth_list.specs.CodeTable.{table_rows};
ghost use Rattle.tn_auth_list.specs.Grant.{TableOf};

use crate::file_laws::files_law;
use cert_store::{ChainMap, MapFault, World};
use delegation::{AnchorFault, Anchors};
use std::alloc::{AllocError, Global};
use stir_drill::answers_law;
use stir_outside::{AnswerFault, Answers};
use tn_auth_list::{CodeTable, TableFault};

/// What calls of the drill are judged by: what its files say.
#[derive(Drop)]
pub struct DrillFiles {
    /// The chain map, the trust anchors and the code table.
    pub world: World,
    /// The signatures that are good.
    pub answers: Answers,
}

/// Reads the files of the drill of this seed, with so many calls. They are in their grammars, so that `AllocError` is
/// the only error.
pub(crate) fn read_files(
    alloc: Global,
    seed: u64,
    count: u32,
    chains: &[u8],
    anchors: &[u8],
    table: &[u8],
    answers: &[u8],
) -> Result<DrillFiles, AllocError>
    requires few { count ≤ 100000 }
    requires chains { chains.now ≡ chain_map_text }
    requires anchors { anchors.now ≡ anchors_text }
    requires table { table.now ≡ table_text }
    requires answers { answers.now ≡ answers_of seed count }
    ensures { IfOk result (FilesOf seed count) }
{
    let _ = seed;
    let _ = count;
    files_law();
    answers_law();
    let chains = read_chains(alloc, chains)?;
    let anchors = read_anchors(alloc, anchors)?;
    let table = read_table(alloc, table)?;
    let answers = read_answers(alloc, answers)?;
    Ok(DrillFiles {
        world: World {
            chains,
            anchors,
            table,
        },
        answers,
    })
}

/// Reads a chain map that has no bad line.
fn read_chains(alloc: Global, text: &[u8]) -> Result<ChainMap, AllocError>
    requires short { length text.now < 2 ^ 32 - 1 }
    requires good { (bad : ℕ) → map_rows text.now ≢ Err bad }
    ensures { IfOk result (MapOf text.now) }
{
    match ChainMap::read(alloc, text) {
        Ok(chains) => Ok(chains),
        Err(MapFault::Line { .. }) => unreachable!(),
        Err(MapFault::Memory) => Err(AllocError),
    }
}

/// Reads trust anchors that are all anchors.
fn read_anchors(alloc: Global, bytes: &[u8]) -> Result<Anchors, AllocError>
    requires good { (bad : ℕ) → anchors_in bytes.now ≢ Err bad }
    ensures { IfOk result (λ anchors. anchors_in bytes.now ≡ Ok anchors) }
{
    match Anchors::read(alloc, bytes) {
        Ok(anchors) => Ok(anchors),
        Err(AnchorFault::At { .. }) => unreachable!(),
        Err(AnchorFault::Memory) => Err(AllocError),
    }
}

/// Reads a code table that has no bad line.
fn read_table(alloc: Global, text: &[u8]) -> Result<CodeTable, AllocError>
    requires short { length text.now < 2 ^ 32 - 1 }
    requires good { (bad : ℕ) → table_rows text.now ≢ Err bad }
    ensures { IfOk result (TableOf text.now) }
{
    match CodeTable::read(alloc, text) {
        Ok(table) => Ok(table),
        Err(TableFault::Line { .. }) => unreachable!(),
        Err(TableFault::Memory) => Err(AllocError),
    }
}

/// Reads answers that have no bad line.
fn read_answers(alloc: Global, text: &[u8]) -> Result<Answers, AllocError>
    requires short { length text.now < 2 ^ 32 - 1 }
    requires good { (bad : ℕ) → answer_rows text.now ≢ Err bad }
    ensures { IfOk result (AnswersOf text.now) }
{
    match Answers::read(alloc, text) {
        Ok(answers) => Ok(answers),
        Err(AnswerFault::Line { .. }) => unreachable!(),
        Err(AnswerFault::Memory) => Err(AllocError),
    }
}
