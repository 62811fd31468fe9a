//! The adapters over files and streams of the system.

use sp_outside::{Failed, RealShelf, RealSink, RealSource, Shelf, Sink, Source};
use std::fs;
use std::test::Fail;

#[test]
fn files_of_the_system_are_read_in_parts(rt: HostRuntime) -> Result<(), Fail> {
    fs::write(&rt, "t.spectra", "spec X")?;
    fs::create_dir(&rt, "folder")?;
    let mut shelf = RealShelf::make(rt);
    let mut buf = [0u8; 4];
    assert_eq!(rt; shelf.read_part("t.spectra", 0, &mut buf), Ok(Some(4)));
    assert_eq!(rt; buf.as_slice(), b"spec".as_slice());
    assert_eq!(rt; shelf.read_part("t.spectra", 4, &mut buf), Ok(Some(2)));
    assert_eq!(rt; buf.as_slice(), b" Xec".as_slice());
    assert_eq!(rt; shelf.read_part("t.spectra", 6, &mut buf), Ok(Some(0)));
    assert_eq!(rt; shelf.read_part("none.spectra", 0, &mut buf), Ok(None));
    assert_eq!(rt; shelf.read_part("folder", 0, &mut buf), Err(Failed));
    assert_eq!(rt; shelf.read_part("a\0b", 0, &mut buf), Err(Failed));
    Ok(())
}

#[test]
fn a_reader_of_the_system_is_read_to_its_end(rt: HostRuntime) -> Result<(), Fail> {
    let mut source = RealSource::make(rt.stdin());
    let mut buf = [0u8; 4];
    assert_eq!(rt; source.read(&mut buf), Ok(0));
    fs::create_dir(&rt, "unreadable")?;
    let mut folder = RealSource::make(fs::open(&rt, "unreadable")?);
    assert_eq!(rt; folder.read(&mut buf), Err(Failed));
    Ok(())
}

#[test]
fn a_writer_that_takes_nothing_has_failed(rt: HostRuntime) -> Result<(), Fail> {
    // A full slice takes nothing of what it is given.
    let mut room = [0u8; 2];
    let mut sink = RealSink::make(room.as_mut_slice());
    assert_eq!(rt; sink.write(b"abc"), Ok(2));
    assert_eq!(rt; sink.write(b"c"), Err(Failed));
    assert_eq!(rt; sink.write(b""), Ok(0));
    Ok(())
}
