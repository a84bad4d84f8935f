//! The adapters over real files, the standard streams and a device without room.

use std::alloc::Global;
use std::fs;
use std::test::Fail;
use stir_outside::{
    Failed, FileShelf, Shelf, ShelfFault, Sink, Source, StdinSource, StdoutSink, write_whole,
};

/// Whether a file was read and holds these bytes.
pub fn holds(found: Result<Vec<u8>, ShelfFault>, wanted: &[u8]) -> bool {
    match found {
        Ok(bytes) => bytes.as_slice() == wanted,
        Err(_) => false,
    }
}

#[test]
fn adapters_reach_the_real_files_and_streams(rt: HostRuntime) -> Result<(), Fail> {
    let alloc: Global = rt.alloc();
    let name = "/tmp/stir_tests_file";
    fs::write(&rt, name, b"abc")?;
    let mut shelf = FileShelf::new(rt);
    assert!(rt; holds(shelf.read(alloc, name, 3), b"abc"));
    assert!(rt; shelf.read(alloc, name, 2).err() == Some(ShelfFault::Long));
    assert!(rt; shelf.read(alloc, "/tmp", 9).err() == Some(ShelfFault::Failed));
    let below_a_file = "/tmp/stir_tests_file/x";
    assert!(rt; shelf.read(alloc, below_a_file, 9).err() == Some(ShelfFault::Failed));
    let mut source = StdinSource::new(fs::open(&rt, name)?);
    let mut buf = [0; 8];
    assert!(rt; source.read(&mut buf) == Ok(3) && &buf[..3] == b"abc".as_slice());
    assert!(rt; source.read(&mut buf) == Ok(0));
    let mut folder = StdinSource::new(fs::open(&rt, "/tmp")?);
    assert!(rt; folder.read(&mut buf) == Err(Failed) && folder.faults() == 1);
    fs::remove_file(&rt, name)?;
    assert!(rt; shelf.read(alloc, name, 9).err() == Some(ShelfFault::Missing));
    assert_eq!(rt;
        (shelf.reads(), shelf.misses(), shelf.longs(), shelf.faults()),
        (1, 1, 1, 2)
    );
    let mut sink = StdoutSink::new(rt.stdout());
    assert!(rt; write_whole(&mut sink, b"to the standard output\n") == Ok(()));
    let mut full = StdoutSink::new(fs::File::options().write(true).open(&rt, "/dev/full")?);
    assert!(rt; full.write(b"a") == Err(Failed) && full.faults() == 1);
    Ok(())
}
