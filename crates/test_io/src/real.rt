// A shelf of the system's files, and the standard output.
use bp_real::{FileShelf, OutSink};
use bp_shelf::{Shelf, ShelfFault, Sink};
use std::fs;
use std::test::Fail;

#[test]
fn a_file_is_replaced_extended_and_read(rt: HostRuntime) -> Result<(), Fail> {
    let name = "bprice_file_shelf_test";
    let mut shelf = FileShelf::new(&rt);
    let mut buffer = [0u8; 8];
    assert!(rt; shelf.replace(name, b"some longer text").is_ok());
    assert!(rt; shelf.replace(name, b"abc").is_ok());
    assert!(rt; shelf.extend(name, b"de").is_ok());
    assert!(rt; shelf.read_at(name, 1, &mut buffer) == Ok(4));
    assert_eq!(rt; &buffer[..4], b"bcde".as_slice());
    assert!(rt; shelf.read_at(name, 5, &mut buffer) == Ok(0));
    let below = "bprice_file_shelf_test/below";
    assert!(rt; shelf.read_at(below, 0, &mut buffer) == Err(ShelfFault::Missing));
    assert!(rt; shelf.replace(below, b"abc") == Err(ShelfFault::Failed));
    assert!(rt; shelf.read_at("/", 0, &mut buffer) == Err(ShelfFault::Failed));
    fs::remove_file(&rt, name)?;
    assert!(rt; shelf.read_at(name, 0, &mut buffer) == Err(ShelfFault::Missing));
    assert!(rt; shelf.extend(name, b"f").is_ok());
    assert!(rt; shelf.read_at(name, 0, &mut buffer) == Ok(1));
    fs::remove_file(&rt, name)?;
    Ok(())
}

#[test]
fn the_output_takes_bytes(rt: HostRuntime) -> Result<(), Fail> {
    let mut sink = OutSink::new(&rt);
    assert!(rt; sink.put(b"some bytes\n").is_ok());
    Ok(())
}
