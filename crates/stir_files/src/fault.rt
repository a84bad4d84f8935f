//! Why a named file can't be had.
ghost use Rattle.std.specs.Prelude.{◌≡◌};
ghost use Rattle.stir_files.specs.Event.{fault_status};

use stir_outside::Status;

/// Why a named file can't be had.
#[derive(Clone, Copy, Debug, PartialEq, Eq)]
pub enum FileFault {
    /// There is no file of that name.
    Missing,
    /// The file has more bytes than its limit.
    Long,
    /// The file can't be read.
    Failed,
    /// The file is outside its grammar.
    Refused {
        /// The first bad line, counted from 1; of trust anchors the offset of the first that is none; of a certificate
        /// that of its first broken part.
        place: u64,
    },
    /// The file is a certificate without an authority list.
    NoList,
    /// Memory ran out.
    Memory,
}

impl FileFault {
    /// The status that the program ends with.
    pub fn status(self) -> Status
        ensures { result ≡ fault_status self }
    {
        match self {
            FileFault::Missing | FileFault::Long | FileFault::Refused { .. } | FileFault::NoList =>
                Status::Input,
            FileFault::Failed => Status::Read,
            FileFault::Memory => Status::Memory,
        }
    }
}
