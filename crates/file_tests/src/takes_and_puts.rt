// Files of the system, and packages and sinks in memory whose calls fail.
use board_io::{FolderPackage, MemoryPackage, MemorySink, Package, Put, Sink, StreamSink, Take};
use std::alloc::Global;
use std::fs;
use std::test::Fail;

#[test]
fn files_of_the_system(rt: HostRuntime) -> Result<(), Fail> {
    let mut into = Vec::new(rt.alloc());
    let mut sink = StreamSink::new(fs::create(&rt, "board_io_row.txt")?);
    assert_eq!(rt; sink.put(b"four"), Put::Done);
    let mut package = FolderPackage::new(rt);
    assert_eq!(rt; package.take("board_io_row.txt", 4, &mut into), Take::Whole);
    assert_eq!(rt; into.as_slice(), b"four".as_slice());
    assert_eq!(rt;
        package.take("board_io_row.txt", 3, &mut into),
        Take::Longer
    );
    assert_eq!(rt;
        package.take("board_io_none.txt", 4, &mut into),
        Take::Failed
    );
    assert!(rt; into.is_empty());
    Ok(())
}

// Files about the size of the buffer, and one of many buffers: what the sink puts, the package hands over.
#[test]
fn sizes_of_files(rt: HostRuntime) -> Result<(), Fail> {
    let mut into = Vec::new(rt.alloc());
    let mut bytes = Vec::new(rt.alloc());
    let mut package = FolderPackage::new(rt);
    for size in &[0, 1, 4095, 4096, 4097, 1_000_000] {
        bytes.clear();
        for place in 0..*size {
            bytes.push((place % 251) as u8)?;
        }
        let mut sink = StreamSink::new(fs::create(&rt, "board_io_size.txt")?);
        assert_eq!(rt; sink.put(bytes.as_slice()), Put::Done);
        assert_eq!(rt;
            package.take("board_io_size.txt", *size, &mut into),
            Take::Whole
        );
        assert!(rt; into.as_slice() == bytes.as_slice());
    }
    Ok(())
}

#[test]
fn memory_that_fails(rt: HostRuntime) -> Result<(), Fail> {
    let alloc = rt.alloc();
    let mut into = Vec::new(alloc);
    let mut package = MemoryPackage::new(alloc);
    package.hold("a", b"four")?;
    package.fail_at(2)?;
    let answers = [
        ("a", 3, Take::Longer),
        ("a", 4, Take::Whole),
        ("a", 4, Take::Failed),
        ("b", 4, Take::Failed),
    ];
    for (name, most, want) in &answers {
        assert_eq!(rt; package.take(*name, *most, &mut into), *want);
    }
    assert_eq!(rt; package.calls(), 4);

    let mut sink = MemorySink::new(alloc, 12)?;
    sink.fail_at(1, 3)?;
    let puts = [
        (b"board".as_slice(), Put::Done),
        (b"netting".as_slice(), Put::Failed),
        (b"lists".as_slice(), Put::Failed),
    ];
    for (piece, want) in &puts {
        assert_eq!(rt; sink.put(*piece), *want);
    }
    assert_eq!(rt; sink.bytes(), b"boardnetlist".as_slice());
    Ok(())
}
