//! What no clause says: that calls succeed with ample memory, and that the adapters pass on what
//! the machine gives.
use io_edge::{
    DiskFiles, Failed, FaultPlan, Files, InputSource, LoadFault, MemFiles, MemSink, MemSource,
    NamedFile, OutputSink, Sink, Source, SureFiles, SureSink, SureSource,
};
use std::alloc::Global;
use std::fs::{self, File};
use std::process::Abort;
use std::test::Fail;

fn named(alloc: Global, name: &str, bytes: &[u8]) -> Result<Vec<NamedFile>, Fail> {
    let file = NamedFile::new(String::from_str(alloc, name)?, bytes.to_vec(alloc)?);
    Ok(vec![in alloc; file]?)
}

fn failing(alloc: Global, call: u64) -> Result<FaultPlan, Fail> {
    Ok(FaultPlan::new(vec![in alloc; call]?))
}

/// Asserts what a load gives, and how many calls failed so far.
fn expect_load<F: Files>(
    rt: &impl Abort,
    alloc: Global,
    files: &mut F,
    load: (&str, usize),
    wanted: Result<&[u8], LoadFault>,
    faults: u64,
) {
    let (name, limit) = load;
    match files.load(alloc, name, limit) {
        Ok(bytes) => assert!(rt; wanted == Ok(bytes.as_slice()), "{name} {limit}: {bytes:?}"),
        Err(fault) => assert!(rt; wanted == Err(fault), "{name} {limit}: {fault:?}"),
    }
    assert_eq!(rt; files.fault_count(), faults, "{name} {limit}");
}

#[test]
fn files_in_memory(rt: HostRuntime) -> Result<(), Fail> {
    let alloc = rt.alloc();
    let mut files = MemFiles::new(named(alloc, "a", b"xyz")?, failing(alloc, 1)?);
    expect_load(&rt, alloc, &mut files, ("a", 3), Ok(b"xyz"), 0);
    expect_load(&rt, alloc, &mut files, ("a", 3), Err(LoadFault::Failed), 1);
    expect_load(&rt, alloc, &mut files, ("a", 2), Err(LoadFault::TooLong), 1);
    expect_load(&rt, alloc, &mut files, ("b", 3), Err(LoadFault::Absent), 1);
    Ok(())
}

#[test]
fn sure_files_in_memory(rt: HostRuntime) -> Result<(), Fail> {
    let mut files = SureFiles::new(named(rt.alloc(), "a", b"xyz")?);
    expect_load(&rt, rt.alloc(), &mut files, ("a", 3), Ok(b"xyz"), 0);
    Ok(())
}

#[test]
fn source_in_memory(rt: HostRuntime) -> Result<(), Fail> {
    let alloc = rt.alloc();
    let mut buffer = [0u8; 4];
    let mut source = MemSource::new(b"abc".to_vec(alloc)?, 2, failing(alloc, 1)?);
    let reads: [(Result<usize, Failed>, &str); 4] = [
        (Ok(2), "ab"),
        (Err(Failed), "ab"),
        (Ok(1), "cb"),
        (Ok(0), "cb"),
    ];
    for (wanted, left) in reads {
        assert_eq!(rt; source.read(&mut buffer), wanted);
        assert_eq!(rt; &buffer[..2], left.as_bytes());
    }
    Ok(())
}

#[test]
fn sure_source_in_memory(rt: HostRuntime) -> Result<(), Fail> {
    let mut buffer = [0u8; 4];
    let mut source = SureSource::new(b"abc".to_vec(rt.alloc())?);
    assert_eq!(rt; source.read(&mut buffer), Ok(3));
    assert_eq!(rt; &buffer[..3], b"abc".as_slice());
    Ok(())
}

#[test]
fn sink_in_memory(rt: HostRuntime) -> Result<(), Fail> {
    let alloc = rt.alloc();
    let mut sink = MemSink::new(alloc, 2, failing(alloc, 1)?);
    for (bytes, wanted) in [("abc", Ok(2)), ("c", Err(Failed)), ("c", Ok(1))] {
        assert_eq!(rt; sink.write(bytes.as_bytes()), wanted);
    }
    assert_eq!(rt; sink.bytes(), b"abc".as_slice());
    Ok(())
}

#[test]
fn sure_sink(rt: HostRuntime) {
    assert_eq!(rt; SureSink.write(b"abc"), Ok(3));
}

#[test]
fn real_files(rt: HostRuntime) -> Result<(), Fail> {
    let alloc = rt.alloc();
    let name = "io_edge_test.txt";
    fs::write(&rt, name, b"hello")?;
    let mut files = DiskFiles::new(&rt);
    expect_load(&rt, alloc, &mut files, (name, 5), Ok(b"hello"), 0);
    expect_load(
        &rt,
        alloc,
        &mut files,
        (name, 4),
        Err(LoadFault::TooLong),
        0,
    );
    fs::remove_file(&rt, name)?;
    expect_load(&rt, alloc, &mut files, (name, 5), Err(LoadFault::Failed), 1);
    Ok(())
}

#[test]
fn real_output(rt: HostRuntime) -> Result<(), Fail> {
    let name = "io_edge_output.txt";
    let mut sink = OutputSink::new(File::create(&rt, name)?);
    for piece in ["hello\n", "", "you\n"] {
        assert_eq!(rt; sink.write(piece.as_bytes()), Ok(piece.len()));
    }
    drop(sink);
    let written = fs::read(&rt, name)?;
    fs::remove_file(&rt, name)?;
    assert_eq!(rt; written.as_slice(), b"hello\nyou\n".as_slice());
    Ok(())
}

#[test]
fn real_input(rt: HostRuntime) -> Result<(), Fail> {
    let name = "io_edge_input.txt";
    fs::write(&rt, name, b"hello")?;
    let mut source = InputSource::new(File::open(&rt, name)?);
    let mut buffer = [0u8; 4];
    for wanted in ["hell", "o", ""] {
        assert_eq!(rt; source.read(&mut buffer), Ok(wanted.len()));
        assert_eq!(rt; &buffer[..wanted.len()], wanted.as_bytes());
    }
    drop(source);
    fs::remove_file(&rt, name)?;
    Ok(())
}
