//! The memory forms of the outside by themselves, and transfers with them that go in blocks.

use crate::adapters::holds;
use std::test::Fail;
use stir_outside::{
    Failed, Shelf, ShelfFault, ShelfMem, SinkMem, SlowMem, Source, SourceMem, read_up_to,
    write_whole,
};

#[test]
fn shelf_in_memory_answers_by_name_and_limit(rt: HostRuntime) -> Result<(), Fail> {
    let alloc = rt.alloc();
    let mut files = Vec::new(alloc);
    files.push((b"a".to_vec(alloc)?, b"one".to_vec(alloc)?))?;
    files.push((b"b".to_vec(alloc)?, b"".to_vec(alloc)?))?;
    let mut shelf = ShelfMem::new(files, [4].to_vec(alloc)?);
    assert!(rt; holds(shelf.read(alloc, "a", 3), b"one"));
    assert!(rt; holds(shelf.read(alloc, "b", 0), b""));
    assert!(rt; shelf.read(alloc, "c", 9).err() == Some(ShelfFault::Missing));
    assert!(rt; shelf.read(alloc, "a", 3).err() == Some(ShelfFault::Failed));
    assert!(rt; shelf.read(alloc, "a", 2).err() == Some(ShelfFault::Long));
    assert_eq!(rt;
        (shelf.reads(), shelf.misses(), shelf.longs(), shelf.faults()),
        (2, 1, 1, 1)
    );
    Ok(())
}

#[test]
fn transfers_go_in_blocks(rt: HostRuntime) -> Result<(), Fail> {
    let alloc = rt.alloc();
    let mut source = SourceMem::new(b"abcdef".to_vec(alloc)?, Vec::new(alloc));
    let mut bytes = b"_".to_vec(alloc)?;
    assert!(rt; read_up_to(&mut source, &mut bytes, 3) == Ok(()));
    assert_eq!(rt; bytes.as_slice(), b"_ab".as_slice());
    let mut sink = SinkMem::new(alloc, Vec::new(alloc));
    sink.reserve(2)?;
    assert!(rt; write_whole(&mut sink, b"abc") == Err(Failed));
    assert_eq!(rt; sink.bytes(), b"ab".as_slice());
    Ok(())
}

#[test]
fn a_slow_source_gives_one_byte_a_read(rt: HostRuntime) -> Result<(), Fail> {
    let mut source = SlowMem::new(b"abc".to_vec(rt.alloc())?);
    let mut buf = [0; 2];
    assert!(rt; source.read(&mut buf) == Ok(1) && buf == [b'a', 0]);
    assert_eq!(rt; source.bytes(), b"bc".as_slice());
    let mut bytes = Vec::new(rt.alloc());
    assert!(rt; read_up_to(&mut source, &mut bytes, 9) == Ok(()));
    assert_eq!(rt; bytes.as_slice(), b"bc".as_slice());
    assert!(rt; source.read(&mut buf) == Ok(0));
    Ok(())
}
