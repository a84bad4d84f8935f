//! The shelf of the drill.
ghost use Rattle.std.specs.Prelude.{◌≡◌, ℕ, ◌≤◌, [], Option, Some, None, Err, IfOk, is_ok, vec_len, if◌then◌else◌};
ghost use Rattle.stir_outside.specs.Count.{Rose, one_more};
ghost use Rattle.stir_outside.specs.Files.{CountsGoOn, IsLonger, OfFile};

use std::alloc::Global;
use std::marker::Model;
use stir_outside::{Shelf, ShelfFault, ShelfMem};

/// A shelf of files in memory of which no read fails.
#[derive(Drop)]
pub(crate) struct DrillShelf {
    shelf: ShelfMem,
}

impl Model for DrillShelf {
    ghost use Rattle.std.specs.Prelude.{◌≡◌, []};
    ghost use Rattle.stir_outside.specs.Memory.{ShelfState};

    ghost Value = { ShelfState };

    ghost view = { λ s. s.shelf };

    ghost invariant = { λ s. s.shelf.failing ≡ [] };
}

impl DrillShelf {
    /// The shelf with these files.
    pub(crate) fn new(shelf: ShelfMem) -> DrillShelf
        requires { shelf.failing ≡ [] }
        ensures { result ≡ shelf }
    {
        DrillShelf { shelf }
    }
}

impl Shelf for DrillShelf {
    ghost files = { λ s. Some s.files };

    ghost counts = { λ s. record s.counts { faults = 0 } };

    fn read(&mut self, alloc: Global, name: &str, limit: usize) -> Result<Vec<u8>, ShelfFault> {
        self.shelf.read(alloc, name, limit)
    }
}
