use crate::{
    FailingShelf, FailingSink, FileShelf, MemoryShelf, MemorySink, Shelf, ShelfFault, Sink,
    SinkFault, StdSink,
};
use std::alloc::AllocGlobal;
use std::test::*;

/// What a shelf gives for a name, or an empty list.
fn fetched<S: Shelf>(
    rt: &(impl std::process::Abort + AllocGlobal),
    shelf: &mut S,
    name: &str,
) -> Result<Vec<u8>, ShelfFault> {
    let mut bytes = Vec::new(rt.alloc());
    match shelf.fetch(name, &mut bytes) {
        Ok(()) => Ok(bytes),
        Err(fault) => Err(fault),
    }
}

#[test]
fn memory_shelf_keeps_files(rt: HostRuntime) -> Result<(), Fail> {
    let mut shelf = MemoryShelf::new(rt.alloc());
    assert!(rt; shelf.store("a", b"one").is_ok());
    assert!(rt; shelf.store("b", b"").is_ok());
    assert!(rt; shelf.store("a", b"two").is_ok());
    let a = fetched(&rt, &mut shelf, "a").map_err(|_| "a")?;
    assert!(rt; a.as_slice() == b"two".as_slice());
    let b = fetched(&rt, &mut shelf, "b").map_err(|_| "b")?;
    assert!(rt; b.is_empty());
    assert!(rt; matches!(fetched(&rt, &mut shelf, "c"), Err(ShelfFault::Failed)));
    Ok(())
}

#[test]
fn memory_sink_keeps_text(rt: HostRuntime) -> Result<(), Fail> {
    let mut sink = MemorySink::new(rt.alloc());
    assert!(rt; sink.write(b"one").is_ok());
    assert!(rt; sink.write(b" two").is_ok());
    assert!(rt; sink.bytes() == b"one two".as_slice());
    Ok(())
}

#[test]
fn failing_calls_fail(rt: HostRuntime) -> Result<(), Fail> {
    let mut inner = MemoryShelf::new(rt.alloc());
    assert!(rt; inner.store("a", b"one").is_ok());
    let numbers = vec![in rt.alloc(); 1u64].map_err(|_| "numbers")?;
    let mut shelf = FailingShelf::new(rt.alloc(), inner, numbers);
    assert!(rt; fetched(&rt, &mut shelf, "a").is_ok());
    assert!(rt; matches!(fetched(&rt, &mut shelf, "a"), Err(ShelfFault::Failed)));
    assert!(rt; fetched(&rt, &mut shelf, "a").is_ok());
    assert!(rt; shelf.store("a", b"two").is_ok());
    let numbers = vec![in rt.alloc(); 0u64].map_err(|_| "numbers")?;
    let mut sink = FailingSink::new(MemorySink::new(rt.alloc()), numbers);
    assert!(rt; matches!(sink.write(b"x"), Err(SinkFault::Failed)));
    assert!(rt; sink.write(b"x").is_ok());
    Ok(())
}

#[test]
fn file_shelf_reads_what_it_stored(rt: HostRuntime) -> Result<(), Fail> {
    let mut shelf = FileShelf::new(rt.alloc(), &rt);
    assert!(rt; shelf.store("stored.txt", b"some bytes\n").is_ok());
    let bytes = fetched(&rt, &mut shelf, "stored.txt").map_err(|_| "fetch")?;
    assert!(rt; bytes.as_slice() == b"some bytes\n".as_slice());
    assert!(rt;
        matches!(
            fetched(&rt, &mut shelf, "missing.txt"),
            Err(ShelfFault::Failed)
        )
    );
    Ok(())
}

#[test]
fn std_sink_writes(rt: HostRuntime) -> Result<(), Fail> {
    let mut sink = StdSink::new(rt.stdout());
    assert!(rt; sink.write(b"").is_ok());
    Ok(())
}
