use io_ports::{
    Failed, FileSink, FileSource, Gate, MemSink, MemSource, NoGate, OutSink, Place, Sink, Source,
};
use std::fs;
use std::test::Fail;

#[test]
fn memory_is_read_and_written(rt: HostRuntime) -> Result<(), Fail> {
    let alloc = rt.alloc();
    let mut source = MemSource::of(b"12345".to_vec(alloc)?, [2u64].to_vec(alloc)?);
    let mut piece = [0u8; 4];
    assert_eq!(rt; source.read(&mut piece), Ok(4));
    assert_eq!(rt; source.read(&mut piece), Err(Failed));
    assert_eq!(rt; source.read(&mut piece), Ok(1));
    assert_eq!(rt; piece, *b"5234");
    assert_eq!(rt; source.read(&mut piece), Ok(0));
    assert_eq!(rt; source.faults(), 1);
    let mut sink = MemSink::of(alloc, 4, [2u64].to_vec(alloc)?)?;
    assert_eq!(rt; sink.write(b"123"), Ok(3));
    assert_eq!(rt; sink.write(b"45"), Err(Failed));
    assert_eq!(rt; sink.write(b"45"), Ok(1));
    assert_eq!(rt; sink.write(b"5"), Err(Failed));
    assert_eq!(rt; sink.write(b""), Ok(0));
    assert_eq!(rt; sink.faults(), 2);
    assert_eq!(rt; sink.bytes(), b"1234".as_slice());
    NoGate.at(Place::Acted { worker: 0, pid: 1 });
    Ok(())
}

#[test]
fn a_file_is_written_and_read(rt: HostRuntime) -> Result<(), Fail> {
    let alloc = rt.alloc();
    {
        let mut sink = FileSink::of(&rt, String::from_str(alloc, "a")?);
        assert_eq!(rt; sink.write(b"12345"), Ok(5));
        assert_eq!(rt; sink.write(b""), Ok(0));
        assert_eq!(rt; sink.faults(), 0);
    }
    let mut source = FileSource::of(&rt, String::from_str(alloc, "a")?);
    let mut piece = [0u8; 4];
    assert_eq!(rt; source.read(&mut piece), Ok(4));
    assert_eq!(rt; piece, *b"1234");
    assert_eq!(rt; source.read(&mut piece), Ok(1));
    assert_eq!(rt; source.read(&mut piece), Ok(0));
    assert_eq!(rt; source.faults(), 0);
    fs::remove_file(&rt, "a")?;
    Ok(())
}

#[test]
fn a_file_that_is_missing_is_counted(rt: HostRuntime) -> Result<(), Fail> {
    let alloc = rt.alloc();
    let mut source = FileSource::of(&rt, String::from_str(alloc, "none")?);
    let mut piece = [0u8; 4];
    assert_eq!(rt; source.read(&mut piece), Err(Failed));
    assert_eq!(rt; source.faults(), 1);
    let mut sink = FileSink::of(&rt, String::from_str(alloc, "none/a")?);
    assert_eq!(rt; sink.write(b"1"), Err(Failed));
    assert_eq!(rt; sink.faults(), 1);
    let mut out = OutSink::of(&rt);
    assert_eq!(rt; out.write(b""), Ok(0));
    assert_eq!(rt; out.faults(), 0);
    Ok(())
}
