//! Tests of what no contract tells, and of each implementation through its trait.
use ci_base::{Bytes, OutOfMemory};
use ci_outside::{
    DirShelf, Failed, Fetch, Gate, MemShelf, MemSink, NamedFile, NamedFiles, NumberList, OpenGate,
    OutSink, Shelf, Sink, SureShelf, SureSink, put_all, put_three, put_two,
};
use std::alloc::Global;
use std::fmt::Display;
use std::io::Print;
use std::test::Fail;
use std::{fs, io};

fn file(alloc: Global, name: &[u8], content: &[u8]) -> Result<NamedFile, OutOfMemory> {
    Ok(NamedFile {
        name: Bytes::copy(alloc, name)?,
        content: Bytes::copy(alloc, content)?,
    })
}

/// Two files of one name, and one without content.
fn three_files(alloc: Global) -> Result<NamedFiles, OutOfMemory> {
    let mut files = NamedFiles::empty(alloc);
    files.add(file(alloc, b"a.ci", b"abc")?)?;
    files.add(file(alloc, b"a.ci", b"later")?)?;
    files.add(file(alloc, b"b.ci", b"")?)?;
    Ok(files)
}

fn numbers(alloc: Global, number: u64) -> Result<NumberList, OutOfMemory> {
    let mut list = NumberList::empty(alloc);
    list.add(number)?;
    Ok(list)
}

/// Whether a fetch gives this content or this refusal.
fn gives<S: Shelf>(
    shelf: &mut S,
    alloc: Global,
    name: &[u8],
    limit: u32,
    want: Result<&[u8], Fetch>,
) -> Result<bool, OutOfMemory> {
    let name = Bytes::copy(alloc, name)?;
    let same = match shelf.fetch(alloc, &name, limit) {
        Ok(content) => match want {
            Ok(wanted) => content.bytes() == wanted,
            Err(_) => false,
        },
        Err(refusal) => match want {
            Ok(_) => false,
            Err(wanted) => refusal == wanted,
        },
    };
    Ok(same)
}

#[test]
fn memory_shelf(rt: HostRuntime) -> Result<(), Fail> {
    let mut shelf = MemShelf::of(three_files(rt.alloc())?, numbers(rt.alloc(), 2)?);
    let rows = [
        (b"a.ci", 3, Ok(b"abc".as_slice())),
        (b"a.ci", 3, Err(Fetch::Failed)),
        (b"a.ci", 2, Err(Fetch::TooLong)),
        (b"b.ci", 0, Ok(b"".as_slice())),
        (b"c.ci", 9, Err(Fetch::Absent)),
    ];
    for (name, limit, want) in rows {
        assert!(rt; gives(&mut shelf, rt.alloc(), name, limit, want)?);
    }
    Ok(())
}

#[test]
fn sure_shelf(rt: HostRuntime) -> Result<(), Fail> {
    let mut shelf = SureShelf::of(three_files(rt.alloc())?);
    assert!(rt; gives(&mut shelf, rt.alloc(), b"a.ci", 3, Ok(b"abc"))?);
    assert!(rt; gives(&mut shelf, rt.alloc(), b"c.ci", 3, Err(Fetch::Absent))?);
    Ok(())
}

#[test]
fn memory_sink(rt: HostRuntime) -> Result<(), Fail> {
    let mut out = MemSink::of(rt.alloc(), 1, numbers(rt.alloc(), 4)?);
    assert_eq!(rt; put_all(&mut out, b"report"), Err(Failed));
    assert_eq!(rt; out.bytes(), b"rep".as_slice());
    assert_eq!(rt; put_two(&mut out, b"e", b"at"), Ok(()));
    assert_eq!(rt; put_three(&mut out, b"", b"e", b"d"), Ok(()));
    assert_eq!(rt; out.bytes(), b"repeated".as_slice());
    let mut wide = MemSink::of(rt.alloc(), 4, NumberList::empty(rt.alloc()));
    assert_eq!(rt; wide.put(b"report"), Ok(4));
    assert_eq!(rt; wide.put(b""), Ok(0));
    Ok(())
}

#[test]
fn sure_sink_and_open_gate(rt: HostRuntime) {
    let mut out = SureSink::of();
    assert_eq!(rt; out.put(b"abc"), Ok(3));
    assert_eq!(rt; put_all(&mut out, b"abc"), Ok(()));
    OpenGate.away(1, 1, 0);
}

#[test]
fn machine_shelf(rt: HostRuntime) -> Result<(), Fail> {
    let mut shelf = DirShelf::new(&rt);
    let own = fs::read(&rt, "/proc/self/exe")?;
    let size = u32::try_from(own.len())?;
    let rows = [
        (b"/proc/self/exe".as_slice(), size, Ok(own.as_slice())),
        (
            b"/proc/self/exe".as_slice(),
            size.saturating_sub(1),
            Err(Fetch::TooLong),
        ),
        (b"/proc/self/absent".as_slice(), 9, Err(Fetch::Absent)),
        (b"\xff".as_slice(), 9, Err(Fetch::Absent)),
        (b"".as_slice(), 9, Err(Fetch::Absent)),
    ];
    for (name, limit, want) in rows {
        assert!(rt; gives(&mut shelf, rt.alloc(), name, limit, want)?);
    }
    assert_eq!(rt; shelf.faults(), 0);
    assert!(rt; gives(&mut shelf, rt.alloc(), b"/", 9, Err(Fetch::Failed))?);
    assert_eq!(rt; shelf.faults(), 1);
    assert!(rt; gives(&mut shelf, rt.alloc(), b"/proc\0", 9, Err(Fetch::Failed))?);
    assert_eq!(rt; shelf.faults(), 2);
    Ok(())
}

#[test]
fn machine_sink(rt: HostRuntime) {
    let mut out = OutSink::new(&rt);
    assert_eq!(rt; out.put(b"put\n"), Ok(4));
    assert_eq!(rt; out.put(b""), Ok(0));
    assert_eq!(rt; out.faults(), 0);
}

/// A standard output that takes nothing.
#[derive(Drop)]
struct Stuck;

impl Print for Stuck {
    fn print<D: Display + Drop>(&self, _value: D) -> io::Result<()> {
        Ok(())
    }

    fn println<D: Display + Drop>(&self, _value: D) -> io::Result<()> {
        Ok(())
    }

    fn write_all(&self, _bytes: &[u8]) -> io::Result<()> {
        Ok(())
    }

    fn write_some(&self, _bytes: &[u8]) -> io::Result<usize> {
        Ok(0)
    }
}

#[test]
fn stuck_sink(rt: HostRuntime) {
    let stuck = Stuck;
    let mut out = OutSink::new(&stuck);
    assert_eq!(rt; out.put(b""), Ok(0));
    assert_eq!(rt; out.faults(), 0);
    assert_eq!(rt; put_all(&mut out, b"put"), Err(Failed));
    assert_eq!(rt; out.faults(), 1);
}
