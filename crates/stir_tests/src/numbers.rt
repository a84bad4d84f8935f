//! The hash of telephone numbers.

use std::hash::{DefaultHasher, Hash, Hasher};
use std::test::Fail;
use tn_values::{Local, Number};

fn hash_of(number: &Number) -> u64 {
    let mut state = DefaultHasher::new();
    number.hash(&mut state);
    state.finish()
}

#[test]
fn equal_numbers_hash_alike(rt: HostRuntime) -> Result<(), Fail> {
    let local = Local::new(b"1", 10).ok_or("country 1")?;
    let number = Number::exact(b"12155551212").ok_or("a number")?;
    let read = Number::read(b"(215) 555-1212", &local).ok_or("a national number")?;
    assert_eq!(rt; hash_of(&number), hash_of(&read));
    Ok(())
}
