//! Decimal numbers, shelves and sinks.

use shade_base::{
    Failed, FileShelf, MemoryShelf, MemorySink, Shelf, ShelfRefusal, Sink, StdSink, decimal_value,
};
use std::collections::BTreeMap;
use std::fs::OpenOptions;
use std::test::Fail;

const DECIMALS: &[(&str, Option<u32>)] = &[
    ("0", Some(0)),
    ("10", Some(10)),
    ("4294967295", Some(4_294_967_295)),
    ("4294967296", None),
    ("01", None),
    ("1u", None),
    ("", None),
];

#[test]
fn decimals(rt: HostRuntime) -> Result<(), Fail> {
    for (text, value) in DECIMALS {
        assert_eq!(rt; decimal_value(text.as_bytes()), *value, "{text}");
    }
    Ok(())
}

#[test]
fn a_shelf_in_memory(rt: HostRuntime) -> Result<(), Fail> {
    let alloc = rt.alloc();
    let mut texts = BTreeMap::new(alloc);
    let name = String::from_str(alloc, "a.wgsl")?;
    let _ = texts.insert(name, Vec::from_slice(alloc, b"hello")?)?;
    let mut shelf = MemoryShelf::new(alloc, texts, vec![in alloc; 2]?);
    // The second name is absent, and the third call fails.
    let reads: [(&str, usize, Option<&[u8]>); 6] = [
        ("a.wgsl", 3, Some(b"hell")),
        ("b.wgsl", 3, None),
        ("a.wgsl", 3, None),
        ("a.wgsl", 4, Some(b"hello")),
        ("a.wgsl", 9, Some(b"hello")),
        ("a.wgsl", 0, Some(b"h")),
    ];
    for (name, limit, want) in reads {
        let read = shelf.read(alloc, name, limit);
        match want {
            Some(bytes) => assert_eq!(rt; read?.as_slice(), bytes, "{name} to {limit}"),
            None => assert!(rt;
                matches!(&read, Err(ShelfRefusal::Failed)),
                "{name} to {limit}"
            ),
        }
    }
    Ok(())
}

#[test]
fn a_sink_in_memory(rt: HostRuntime) -> Result<(), Fail> {
    let alloc = rt.alloc();
    // Of the two entries for the second call the first counts.
    let failing = vec![in alloc; (1, 2), (1, 3), (3, 9)]?;
    let mut sink = MemorySink::new(alloc, 9, failing)?;
    let writes: [(&[u8], bool, &[u8]); 5] = [
        (b"abc", true, b"abc"),
        (b"def", false, b"abcde"),
        (b"g", true, b"abcdeg"),
        (b"hi", false, b"abcdeghi"),
        (b"jkl", false, b"abcdeghij"),
    ];
    for (piece, taken, held) in writes {
        assert_eq!(rt; sink.write(piece).is_ok(), taken);
        assert_eq!(rt; sink.bytes(), held);
    }
    Ok(())
}

#[test]
fn a_shelf_of_files(rt: HostRuntime) -> Result<(), Fail> {
    let alloc = rt.alloc();
    std::fs::write(&rt, "shelf_of_files.txt", "hello")?;
    let mut shelf = FileShelf::new(alloc, rt.clone()?);
    let short = shelf.read(alloc, "shelf_of_files.txt", 3);
    let whole = shelf.read(alloc, "shelf_of_files.txt", 9);
    std::fs::remove_file(&rt, "shelf_of_files.txt")?;
    assert_eq!(rt; short?.as_slice(), b"hell".as_slice());
    assert_eq!(rt; whole?.as_slice(), b"hello".as_slice());
    // The first cannot be opened, and the second, a folder, can be opened but not read.
    for name in ["shelf_of_files.txt", "/"] {
        let read = shelf.read(alloc, name, 3);
        assert!(rt; matches!(&read, Err(ShelfRefusal::Failed)), "{name}");
    }
    Ok(())
}

#[test]
fn a_sink_over_a_writer(rt: HostRuntime) -> Result<(), Fail> {
    let mut out = StdSink::new(rt.stdout());
    assert!(rt; out.write(b"a line\n").is_ok());
    let full = OpenOptions::new().write(true).open(&rt, "/dev/full")?;
    let mut sink = StdSink::new(full);
    assert_eq!(rt; sink.write(b"a line\n"), Err(Failed));
    Ok(())
}
