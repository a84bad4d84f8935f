//! A named file that can't be had, and what is said of it.
ghost use Rattle.std.specs.Prelude.{◌≡◌, IfOk, string_bytes};
ghost use Rattle.stir_files.specs.Event.{event_line, fault_status};

use crate::fault::FileFault;
use std::alloc::{AllocError, Global};
use stir_outside::{Status, memory_line};

/// The first named file, in the order of reading, that can't be had.
#[derive(Clone, Copy, Debug)]
pub struct FileError<'a> {
    /// Its name, as it was given.
    pub name: &'a str,
    /// Why it can't be had.
    pub fault: FileFault,
}

impl FileError<'_> {
    /// The line that says it, with its LF: `missing NAME`, `long NAME`, `read fault NAME`, `refused NAME PLACE`,
    /// `no list NAME` or `want of memory`.
    pub fn line(&self, alloc: Global) -> Result<String, AllocError>
        ensures { IfOk result (λ line. string_bytes line ≡ event_line self.now.name.now self.now.fault) }
    {
        let name = self.name;
        match self.fault {
            FileFault::Missing => format!(in alloc; "missing {name}\n"),
            FileFault::Long => format!(in alloc; "long {name}\n"),
            FileFault::Failed => format!(in alloc; "read fault {name}\n"),
            FileFault::Refused { place } => format!(in alloc; "refused {name} {place}\n"),
            FileFault::NoList => format!(in alloc; "no list {name}\n"),
            FileFault::Memory => String::from_str(alloc, memory_line()),
        }
    }

    /// The status that the program ends with.
    pub fn status(&self) -> Status
        ensures { result ≡ fault_status self.now.fault }
    {
        self.fault.status()
    }
}
