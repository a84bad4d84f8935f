ghost use Rattle.std.specs.Prelude.{◌≡◌, ◌≢◌, ℕ, ◌+◌, ◌<◌, ◌≤◌, None, Err, IfOk, IfSome, is_ok, length, vec_len};
ghost use Rattle.std.specs.Prelude.{if◌then◌else◌};
ghost use Rattle.stir_outside.specs.Count.{Rose, one_more};
ghost use Rattle.stir_outside.specs.Files.{CountsGoOn, tries};
ghost use Rattle.stir_outside.specs.Shelf.{counted};

use crate::adapters::stdin::StdinSource;
use crate::shelf::{Shelf, ShelfFault};
use crate::source::Source;
use crate::transfer::{ReadFault, read_up_to};
use std::alloc::Global;
use std::fs;
use std::io::ErrorKind;
use std::marker::Model;
use std::rt::Files;

/// The shelf over the file system. A file that isn't there is `Missing`; one that is there and can't be
/// opened or read, as a folder, is `Failed`. Of a file that is too long, one byte past the limit is read.
///
/// A contract sees it as its counts alone: it tells nothing of the files.
#[derive(Drop)]
pub struct FileShelf<R: Files + Drop> {
    rt: R,
    reads: u64,
    misses: u64,
    longs: u64,
    faults: u64,
}

impl<R: Files + Drop> Model for FileShelf<R> {
    ghost use Rattle.stir_outside.specs.Files.{Counts};

    ghost Value = { Counts };

    ghost view = { λ s. record { reads = s.reads; misses = s.misses; longs = s.longs; faults = s.faults } };
}

impl<R: Files + Drop> FileShelf<R> {
    /// The shelf over this runtime's files, with no count so far.
    pub fn new(rt: R) -> FileShelf<R>
        ensures { result ≡ record { reads = 0; misses = 0; longs = 0; faults = 0 } }
    {
        FileShelf {
            rt,
            reads: 0,
            misses: 0,
            longs: 0,
            faults: 0,
        }
    }

    /// How many files were read.
    pub fn reads(&self) -> u64
        ensures { result ≡ self.now.reads }
    {
        self.reads
    }

    /// How many files were missing.
    pub fn misses(&self) -> u64
        ensures { result ≡ self.now.misses }
    {
        self.misses
    }

    /// How many files were too long.
    pub fn longs(&self) -> u64
        ensures { result ≡ self.now.longs }
    {
        self.longs
    }

    /// How many reads failed.
    pub fn faults(&self) -> u64
        ensures { result ≡ self.now.faults }
    {
        self.faults
    }
}

impl<R: Files + Drop> Shelf for FileShelf<R> {
    ghost files = { λ _. None };

    ghost counts = { λ s. s };

    fn read(&mut self, alloc: Global, name: &str, limit: usize) -> Result<Vec<u8>, ShelfFault>
        ensures go_on { CountsGoOn self.old self.new }
        ensures reads { self.new.reads ≡ (if is_ok result then one_more self.old.reads else self.old.reads) }
        ensures tries { tries self.new ≤ tries self.old + 1 }

        ensures within { IfOk result (λ bytes. vec_len bytes ≤ limit) }
        ensures missing_rose { result ≡ Err ShelfFault.Missing → Rose self.old.misses self.new.misses }
        ensures long_rose { result ≡ Err ShelfFault.Long → Rose self.old.longs self.new.longs }
        ensures failed_rose { result ≡ Err ShelfFault.Failed → Rose self.old.faults self.new.faults }

        // Each answer raises its own count and no other; running out of memory raises none.
        ensures counted { self.new ≡ counted self.old result }
    {
        let result = content(&self.rt, alloc, name, limit);
        match result {
            Ok(_) => self.reads = self.reads.saturating_add(1),
            Err(ShelfFault::Missing) => self.misses = self.misses.saturating_add(1),
            Err(ShelfFault::Long) => self.longs = self.longs.saturating_add(1),
            Err(ShelfFault::Failed) => self.faults = self.faults.saturating_add(1),
            Err(ShelfFault::Memory) => {}
        }
        result
    }
}

/// The file of that name, opened and read whole.
fn content<R: Files>(rt: &R, alloc: Global, name: &str, limit: usize) -> Result<Vec<u8>, ShelfFault>
    ensures { IfOk result (λ bytes. vec_len bytes ≤ limit) }
{
    match fs::open(rt, name) {
        Ok(file) => whole(alloc, &mut StdinSource::new(file), limit),
        Err(error) if error.kind() == ErrorKind::NotFound => Err(ShelfFault::Missing),
        Err(_) => Err(ShelfFault::Failed),
    }
}

/// All that the source has left, if that is no more than the limit.
fn whole<I: Source>(alloc: Global, source: &mut I, limit: usize) -> Result<Vec<u8>, ShelfFault>
    ensures within { IfOk result (λ bytes. vec_len bytes ≤ limit) }
    ensures whole { IfOk result (λ bytes. IfSome (I.left source.old) (λ left. bytes.items ≡ left)) }
    ensures long { result ≡ Err ShelfFault.Long → IfSome (I.left source.old) (λ left. limit < length left) }
    ensures failed { result ≡ Err ShelfFault.Failed → Rose (I.faults source.old) (I.faults source.new) }
    ensures present { result ≢ Err ShelfFault.Missing }
{
    let mut bytes = Vec::new(alloc);
    match read_up_to(source, &mut bytes, limit.saturating_add(1)) {
        Ok(()) if bytes.len() > limit => Err(ShelfFault::Long),
        Ok(()) => Ok(bytes),
        Err(ReadFault::Source) => Err(ShelfFault::Failed),
        Err(ReadFault::Memory) => Err(ShelfFault::Memory),
    }
}
