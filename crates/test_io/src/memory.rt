// A shelf and a sink in memory.
use bp_shelf::{MemShelf, MemSink, Shelf, ShelfFault, Sink};
use std::test::Fail;

#[test]
fn bytes_are_added_and_replaced(rt: HostRuntime) -> Result<(), Fail> {
    let alloc = rt.alloc();
    let mut shelf = MemShelf::make(alloc, &[])?;
    let mut buffer = [0u8; 8];
    assert!(rt; shelf.extend("f", b"ab").is_ok());
    assert!(rt; shelf.extend("f", b"c").is_ok());
    assert!(rt; shelf.read_at("f", 0, &mut buffer) == Ok(3));
    assert_eq!(rt; &buffer[..3], b"abc".as_slice());
    assert!(rt; shelf.read_at("f", 3, &mut buffer) == Ok(0));
    assert!(rt; shelf.replace("f", b"").is_ok());
    assert!(rt; shelf.read_at("f", 0, &mut buffer) == Ok(0));
    assert!(rt; shelf.read_at("g", 0, &mut buffer) == Err(ShelfFault::Missing));
    assert!(rt; shelf.calls() == 7);
    Ok(())
}

#[test]
fn a_failed_write_leaves_the_first_half(rt: HostRuntime) -> Result<(), Fail> {
    let alloc = rt.alloc();
    let mut shelf = MemShelf::make(alloc, &[1])?;
    let mut buffer = [0u8; 8];
    assert!(rt; shelf.replace("f", b"abcd") == Err(ShelfFault::Failed));
    assert!(rt; shelf.read_at("f", 0, &mut buffer) == Ok(2));
    assert_eq!(rt; &buffer[..2], b"ab".as_slice());
    Ok(())
}

#[test]
fn a_full_sink_takes_what_fits(rt: HostRuntime) -> Result<(), Fail> {
    let alloc = rt.alloc();
    let mut sink = MemSink::make(alloc, 5, &[])?;
    assert!(rt; sink.put(b"optimal 8\n").is_err());
    assert_eq!(rt; sink.bytes(), b"optim".as_slice());
    Ok(())
}
