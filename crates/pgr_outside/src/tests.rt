use crate::{
    Failed, MemorySink, MemoryStore, Part, ReadRefused, Store, StoreFault, read_file, write_all,
    write_parts,
};
use std::alloc::{AllocError, Global};
use std::test::Fail;

/// A file `a` with five bytes and a file `b` with none, read by at most two bytes at a time.
fn make_store(alloc: Global, fails: Vec<u64>) -> Result<MemoryStore, AllocError> {
    let mut files = Vec::new(alloc);
    let name = String::from_str(alloc, "a")?;
    files.push((name, Vec::from_slice(alloc, b"12345")?))?;
    let name = String::from_str(alloc, "b")?;
    files.push((name, Vec::new(alloc)))?;
    Ok(MemoryStore::new(files, 2, fails))
}

#[test]
fn a_file_exactly_at_the_limit_is_read_whole(rt: HostRuntime) -> Result<(), Fail> {
    let alloc = rt.alloc();
    let mut store = make_store(alloc, Vec::new(alloc))?;
    let bytes = read_file(alloc, &mut store, "a", 5)?;
    assert_eq!(rt; bytes.as_slice(), b"12345".as_slice());
    let empty = read_file(alloc, &mut store, "b", 0)?;
    assert!(rt; empty.is_empty());
    Ok(())
}

#[test]
fn a_file_past_the_limit_is_too_long(rt: HostRuntime) -> Result<(), Fail> {
    let alloc = rt.alloc();
    let mut store = make_store(alloc, Vec::new(alloc))?;
    let refused = read_file(alloc, &mut store, "a", 4).err();
    assert_eq!(rt; refused, Some(ReadRefused::TooLong));
    Ok(())
}

#[test]
fn a_name_that_is_not_there_and_a_chosen_call_fail(rt: HostRuntime) -> Result<(), Fail> {
    let alloc = rt.alloc();
    let mut store = make_store(alloc, Vec::from_slice(alloc, &[3])?)?;
    let refused = read_file(alloc, &mut store, "c", 5).err();
    assert_eq!(rt; refused, Some(ReadRefused::Failed));
    let mut buf = [0u8; 4];
    assert_eq!(rt; store.read_at("a", 4, &mut buf), Ok(1));
    assert_eq!(rt; buf[0], b'5');
    assert_eq!(rt; store.read_at("a", 0, &mut buf), Err(StoreFault::Failed));
    Ok(())
}

#[test]
fn bytes_are_written_whole_in_short_pieces(rt: HostRuntime) -> Result<(), Fail> {
    let alloc = rt.alloc();
    let mut sink = MemorySink::with_room(alloc, 5, 2, Vec::new(alloc))?;
    write_all(&mut sink, b"12345")?;
    assert_eq!(rt; sink.bytes(), b"12345".as_slice());
    Ok(())
}

#[test]
fn a_second_write_that_fails_leaves_the_front(rt: HostRuntime) -> Result<(), Fail> {
    let alloc = rt.alloc();
    let mut sink = MemorySink::with_room(alloc, 5, 2, Vec::from_slice(alloc, &[2])?)?;
    assert_eq!(rt; write_all(&mut sink, b"12345"), Err(Failed));
    assert_eq!(rt; sink.bytes(), b"12".as_slice());
    Ok(())
}

#[test]
fn parts_are_one_text_and_long_words_pass_whole(rt: HostRuntime) -> Result<(), Fail> {
    let alloc = rt.alloc();
    let mut sink = MemorySink::with_room(alloc, 1000, 1000, Vec::new(alloc))?;
    let parts = [
        Part::Words("record "),
        Part::Number(18446744073709551615),
        Part::Words(""),
        Part::Signed(-7),
    ];
    write_parts(&mut sink, &parts)?;
    assert_eq!(rt; sink.bytes(), b"record 18446744073709551615-7".as_slice());
    let mut long = String::new(alloc);
    for _ in 0..300 {
        long.push('x')?;
    }
    let mut sink = MemorySink::with_room(alloc, 1000, 1000, Vec::from_slice(alloc, &[3])?)?;
    let parts = [
        Part::Words("ab"),
        Part::Words(long.as_str()),
        Part::Words("c"),
    ];
    assert_eq!(rt; write_parts(&mut sink, &parts), Err(Failed));
    assert_eq!(rt; sink.bytes().len(), 302);
    Ok(())
}
