ghost use Rattle.std.specs.Prelude.{◌≡◌, ℕ, ◌+◌, ◌≤◌, Option, Some, None, Err, IfOk, is_ok, vec_len, map, false};
ghost use Rattle.std.specs.Prelude.{if◌then◌else◌};
ghost use Rattle.std.specs.Option.{option_copied};
ghost use Rattle.stir_outside.specs.Count.{Rose, one_more};
ghost use Rattle.stir_outside.specs.Files.{CountsGoOn, OfFile, IsLonger, bytes_of, file, tries};
ghost use Rattle.stir_outside.specs.Memory.{is_failing};
ghost use Rattle.stir_outside.specs.Shelf.{counted, is_failed};

use crate::shelf::{Shelf, ShelfFault};
use std::alloc::Global;
use std::marker::Model;

/// A shelf of files in memory, whose reads fail at chosen calls.
#[derive(Drop)]
pub struct ShelfMem {
    files: Vec<(Vec<u8>, Vec<u8>)>,
    failing: Vec<u64>,
    calls: u64,
    reads: u64,
    misses: u64,
    longs: u64,
    faults: u64,
}

impl Model for ShelfMem {
    ghost use Rattle.std.specs.Prelude.{map};
    ghost use Rattle.stir_outside.specs.Memory.{ShelfState};

    ghost Value = { ShelfState };

    ghost view = { λ s. record {
      files = map (λ entry. (entry.0.items, entry.1.items)) s.files.items;
      calls = s.calls;
      failing = s.failing.items;
      counts = record { reads = s.reads; misses = s.misses; longs = s.longs; faults = s.faults };
    } };
}

impl ShelfMem {
    /// A shelf of these files, each a name and a content; if a name comes twice, its first counts. The calls of `read`
    /// that are listed, counted from 1, fail.
    pub fn new(files: Vec<(Vec<u8>, Vec<u8>)>, failing: Vec<u64>) -> ShelfMem
        ensures { result ≡ record {
          files = map (λ entry. (entry.0.items, entry.1.items)) files.items;
          calls = 0;
          failing = failing.items;
          counts = record { reads = 0; misses = 0; longs = 0; faults = 0 };
        } }
    {
        ShelfMem {
            files,
            failing,
            calls: 0,
            reads: 0,
            misses: 0,
            longs: 0,
            faults: 0,
        }
    }

    /// How many files were read.
    pub fn reads(&self) -> u64
        ensures { result ≡ self.now.counts.reads }
    {
        self.reads
    }

    /// How many files were missing.
    pub fn misses(&self) -> u64
        ensures { result ≡ self.now.counts.misses }
    {
        self.misses
    }

    /// How many files were too long.
    pub fn longs(&self) -> u64
        ensures { result ≡ self.now.counts.longs }
    {
        self.longs
    }

    /// How many reads failed.
    pub fn faults(&self) -> u64
        ensures { result ≡ self.now.counts.faults }
    {
        self.faults
    }
}

impl Shelf for ShelfMem {
    ghost files = { λ s. Some s.files };

    ghost counts = { λ s. s.counts };

    fn read(&mut self, alloc: Global, name: &str, limit: usize) -> Result<Vec<u8>, ShelfFault>
        ensures same { Some self.new.files ≡ Some self.old.files }
        ensures go_on { CountsGoOn self.old.counts self.new.counts }
        ensures reads { self.new.counts.reads ≡ (if is_ok result then one_more self.old.counts.reads
            else self.old.counts.reads) }
        ensures tries { tries self.new.counts ≤ tries self.old.counts + 1 }

        ensures within { IfOk result (λ bytes. vec_len bytes ≤ limit) }
        ensures found { IfOk result (λ bytes. OfFile (Some self.old.files) name.now (λ held. held ≡ Some bytes.items)) }

        ensures missing_rose { result ≡ Err ShelfFault.Missing → Rose self.old.counts.misses self.new.counts.misses }
        ensures missing { result ≡ Err ShelfFault.Missing
            → OfFile (Some self.old.files) name.now (λ held. held ≡ None) }

        ensures long_rose { result ≡ Err ShelfFault.Long → Rose self.old.counts.longs self.new.counts.longs }
        ensures long { result ≡ Err ShelfFault.Long → OfFile (Some self.old.files) name.now (IsLonger limit) }

        ensures failed_rose { result ≡ Err ShelfFault.Failed → Rose self.old.counts.faults self.new.counts.faults }

        // Exactly the listed calls fail; of any other the file decides.
        ensures fails { is_failed result ≡ is_failing self.old.calls self.old.failing }
        ensures counted { self.new.counts ≡ counted self.old.counts result }
        ensures absent { is_failed result ≡ false → file name.now self.old.files ≡ None
            → result ≡ Err ShelfFault.Missing }
        ensures too_long { is_failed result ≡ false → IsLonger limit (file name.now self.old.files)
            → result ≡ Err ShelfFault.Long }
        ensures calls { self.new.calls ≡ one_more self.old.calls }
        ensures failing { self.new.failing ≡ self.old.failing }
    {
        self.calls = self.calls.saturating_add(1);
        if self.failing.contains(&self.calls) {
            self.faults = self.faults.saturating_add(1);
            return Err(ShelfFault::Failed);
        }
        let Some(content) = find(self.files.as_slice(), name.as_bytes()) else {
            self.misses = self.misses.saturating_add(1);
            return Err(ShelfFault::Missing);
        };
        if content.len() > limit {
            self.longs = self.longs.saturating_add(1);
            return Err(ShelfFault::Long);
        }
        let Ok(bytes) = Vec::from_slice(alloc, content) else {
            return Err(ShelfFault::Memory);
        };
        self.reads = self.reads.saturating_add(1);
        Ok(bytes)
    }
}

/// The content of the first file of this name.
fn find<'a>(files: &'a [(Vec<u8>, Vec<u8>)], name: &[u8]) -> Option<&'a [u8]>
    ensures { option_copied result ≡ file name.now (map (λ entry. (entry.0.items, entry.1.items)) files.now) }
{
    for (key, content) in files {
        if name == key.as_slice() {
            return Some(held(content.as_slice()));
        }
    }
    None
}

/// What a file holds, as it is: these are bytes.
fn held(content: &[u8]) -> &[u8]
    ensures { result.now ≡ bytes_of content.now }
{
    content
}
