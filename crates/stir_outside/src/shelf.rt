ghost use Rattle.std.specs.Prelude.{◌≡◌, ℕ, ◌+◌, ◌≤◌, Option, Some, None, Err, IfOk, is_ok, vec_len, if◌then◌else◌};
ghost use Rattle.stir_outside.specs.Count.{Rose, one_more};
ghost use Rattle.stir_outside.specs.Files.{Files, Counts, CountsGoOn, OfFile, IsLonger, tries};

use std::alloc::Global;

/// Why a shelf gives no file.
#[derive(Clone, Copy, Debug, PartialEq, Eq)]
pub enum ShelfFault {
    /// There is no file of that name.
    Missing,
    /// The file has more bytes than the limit.
    Long,
    /// The file can't be read.
    Failed,
    /// Memory ran out.
    Memory,
}

/// A shelf of named files, as a folder of the file system.
///
/// `files` is the map from names to contents, if the shelf tells it; no call changes it. What a file holds are bytes:
/// its content is what the map says, each number as a byte. `counts` are its counts of files read, missing, too long
/// and failed, each in 64 bits; a call raises one of them, and by one, or none.
pub trait Shelf {
    ghost files: { Self → Option Files };

    ghost counts: { Self → Counts };

    /// Reads the file of that name whole, if it has at most `limit` bytes.
    fn read(&mut self, alloc: Global, name: &str, limit: usize) -> Result<Vec<u8>, ShelfFault>
        ensures same { files self.new ≡ files self.old }
        ensures go_on { CountsGoOn (counts self.old) (counts self.new) }
        ensures reads { (counts self.new).reads ≡ (if is_ok result then one_more (counts self.old).reads
            else (counts self.old).reads) }
        ensures tries { tries (counts self.new) ≤ tries (counts self.old) + 1 }

        ensures within { IfOk result (λ bytes. vec_len bytes ≤ limit) }
        ensures found { IfOk result (λ bytes. OfFile (files self.old) name.now (λ held. held ≡ Some bytes.items)) }

        ensures missing_rose { result ≡ Err ShelfFault.Missing
            → Rose (counts self.old).misses (counts self.new).misses }
        ensures missing { result ≡ Err ShelfFault.Missing → OfFile (files self.old) name.now (λ held. held ≡ None) }

        ensures long_rose { result ≡ Err ShelfFault.Long → Rose (counts self.old).longs (counts self.new).longs }
        ensures long { result ≡ Err ShelfFault.Long → OfFile (files self.old) name.now (IsLonger limit) }

        ensures failed_rose { result ≡ Err ShelfFault.Failed → Rose (counts self.old).faults (counts self.new).faults };
}
