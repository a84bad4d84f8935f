//! The drill.
ghost use Rattle.std.specs.Prelude.{◌≡◌, ◌≤◌, IfOk};
ghost use Rattle.stir_drill.specs.Calls.{log_of};
ghost use Rattle.stir_drill.specs.World.{anchors_text, answers_of, chain_map_text, shelf, table_text};

use crate::Memory;
use crate::calls::make_calls;
use crate::world::World;
use std::alloc::Global;
use stir_outside::ShelfMem;

/// The input of the drill: a log of calls, and the files by which they are judged.
#[derive(Drop)]
pub struct Drill {
    /// The call log.
    pub log: Vec<u8>,
    /// The shelf, with the one file of the chain of all calls. No read of it is to fail.
    pub shelf: ShelfMem,
    /// The trust anchors, one certificate in DER.
    pub anchors: Vec<u8>,
    /// The code table, which is empty.
    pub table: Vec<u8>,
    /// The chain map, of one line.
    pub chains: Vec<u8>,
    /// The answers: what of certificates and calls is confirmed.
    pub answers: Vec<u8>,
}

impl Drill {
    /// The drill of this seed with so many calls, at most 100,000. `Memory` comes if there is no memory for it.
    pub fn make(alloc: Global, seed: u64, count: u32) -> Result<Drill, Memory>
        requires { count ≤ 100000 }
        ensures log { IfOk result (λ drill. drill.log.items ≡ log_of seed count) }
        ensures shelf { IfOk result (λ drill. drill.shelf ≡ shelf) }
        ensures anchors { IfOk result (λ drill. drill.anchors.items ≡ anchors_text) }
        ensures table { IfOk result (λ drill. drill.table.items ≡ table_text) }
        ensures chains { IfOk result (λ drill. drill.chains.items ≡ chain_map_text) }
        ensures answers { IfOk result (λ drill. drill.answers.items ≡ answers_of seed count) }
    {
        let world = World::make(alloc)?;
        let calls = make_calls(alloc, seed, count, world.answers)?;
        Ok(Drill {
            log: calls.log,
            shelf: world.shelf,
            anchors: world.anchors,
            table: Vec::new(alloc),
            chains: world.chains,
            answers: calls.answers,
        })
    }
}
