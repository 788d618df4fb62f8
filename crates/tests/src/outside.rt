// The real objects of the outside: 20,000 bytes, readers and writers that fail, a folder, and a shelf in memory
// whose calls fail.
use std::alloc::Global;
use std::io;
use std::io::{BufWriter, ErrorKind, Read, Write};
use std::process::Abort;
use std::rt::Files;
use std::test::Fail;
use vms_io::{
    FetchFault, FileShelf, MemShelf, Shelf, Source, StdSink, StdSource, StoreFault, read_exact_of,
    write_all_of,
};

fn read_of<S: Source>(source: &mut S, buf: &mut [u8]) -> Option<usize> {
    read_exact_of(source, buf).ok()
}

fn fetched<H: Shelf>(alloc: Global, shelf: &mut H, name: &str) -> Result<Vec<u8>, FetchFault> {
    shelf.fetch(alloc, name, 4)
}

// The number of bytes that go through each object: more than two of its blocks.
const MANY: usize = 20_000;

// Returns byte `n` of them.
fn byte(n: usize) -> u8 {
    (n % 251) as u8
}

// Returns these bytes.
fn many(alloc: Global) -> Result<Vec<u8>, Fail> {
    let mut bytes = Vec::with_capacity(alloc, MANY)?;
    for n in 0..MANY {
        bytes.push(byte(n))?;
    }
    Ok(bytes)
}

#[test]
fn a_slice_gives_its_bytes(rt: HostRuntime) -> Result<(), Fail> {
    let mut buf = [0; 4];
    let mut source = StdSource::new(rt.alloc(), b"ab".as_slice());
    assert_eq!(rt; read_of(&mut source, &mut buf), Some(2));
    assert_eq!(rt; buf, [97, 98, 0, 0]);
    Ok(())
}

// A reader of these bytes, which returns at most 777 in one read. Read number `fails` is an error.
#[derive(Drop)]
struct Pieces {
    at: usize,
    reads: u32,
    fails: u32,
}

impl Pieces {
    fn new(fails: u32) -> Pieces {
        Pieces {
            at: 0,
            reads: 0,
            fails,
        }
    }
}

impl Read for Pieces {
    fn read(&mut self, buf: &mut [u8]) -> io::Result<usize> {
        self.reads = self.reads.saturating_add(1);
        if self.reads == self.fails {
            return Err(io::Error::from(ErrorKind::Other));
        }
        let count = MANY.saturating_sub(self.at).min(buf.len()).min(777);
        for i in 0..count {
            buf[i] = byte(self.at.wrapping_add(i));
        }
        self.at = self.at.saturating_add(count);
        Ok(count)
    }
}

// Reads to the end or to the first failure, 100 bytes at a time. Returns the number of bytes, whether a read
// failed, and whether each byte was right.
fn read_on<S: Source>(source: &mut S, from: usize) -> (usize, bool, bool) {
    let mut came = from;
    let mut right = true;
    for _ in 0..MANY {
        let mut buf = [0; 100];
        let Ok(count) = source.read(&mut buf) else {
            return (came, true, right);
        };
        if count == 0 {
            break;
        }
        for i in 0..count {
            right = right && buf[i] == byte(came.wrapping_add(i));
        }
        came = came.saturating_add(count);
    }
    (came, false, right)
}

#[test]
fn a_reader_gives_all_its_pieces(rt: HostRuntime) -> Result<(), Fail> {
    let alloc = rt.alloc();
    let mut source = StdSource::new(alloc, Pieces::new(0));
    assert_eq!(rt; read_on(&mut source, 0), (MANY, false, true));
    let bytes = many(alloc)?;
    let mut source = StdSource::new(alloc, bytes.as_slice());
    assert_eq!(rt; read_on(&mut source, 0), (MANY, false, true));
    Ok(())
}

#[test]
fn an_error_of_a_reader_is_no_end(rt: HostRuntime) -> Result<(), Fail> {
    let mut source = StdSource::new(rt.alloc(), Pieces::new(3));
    assert_eq!(rt; read_on(&mut source, 0), (1_554, true, true));
    assert_eq!(rt; read_on(&mut source, 1_554), (MANY, false, true));
    Ok(())
}

// A writer that takes at most 999 bytes in one write. Write number `fails` is an error.
#[derive(Drop)]
struct Taker {
    took: Vec<u8>,
    writes: u32,
    fails: u32,
}

impl Write for Taker {
    fn write(&mut self, buf: &[u8]) -> io::Result<usize> {
        self.writes = self.writes.saturating_add(1);
        if self.writes == self.fails {
            return Err(io::Error::from(ErrorKind::Other));
        }
        let count = buf.len().min(999);
        self.took.extend_from_slice(&buf[..count])?;
        Ok(count)
    }

    fn flush(&mut self) -> io::Result<()> {
        Ok(())
    }
}

fn taking(alloc: Global, fails: u32) -> StdSink<Taker> {
    StdSink::new(Taker {
        took: Vec::new(alloc),
        writes: 0,
        fails,
    })
}

// Writes the bytes in pieces of 100 and flushes. Returns whether no call failed.
fn write_on<W: Write + Drop>(sink: &mut StdSink<W>, bytes: &[u8]) -> bool {
    bytes
        .chunks(100)
        .all(|piece| write_all_of(sink, piece).is_ok())
        && sink.flush().is_ok()
}

#[test]
fn a_writer_takes_all_that_is_flushed(rt: HostRuntime) -> Result<(), Fail> {
    let alloc = rt.alloc();
    let bytes = many(alloc)?;
    let mut sink = taking(alloc, 0);
    assert!(rt; write_on(&mut sink, &bytes));
    assert!(rt; sink.get_ref().took == bytes);
    // a buffered writer writes what it holds at the flush
    let mut sink = StdSink::new(BufWriter::with_capacity(alloc, 32_768, Vec::new(alloc))?);
    assert!(rt; write_on(&mut sink, &bytes));
    assert!(rt; *sink.get_ref().get_ref() == bytes);
    Ok(())
}

#[test]
fn an_error_of_a_writer_is_told(rt: HostRuntime) -> Result<(), Fail> {
    let alloc = rt.alloc();
    let bytes = many(alloc)?;
    let mut sink = taking(alloc, 5);
    assert!(rt; !write_on(&mut sink, &bytes));
    let took = sink.get_ref().took.as_slice();
    assert!(rt; took.len() == 2_999);
    assert!(rt; bytes.as_slice().starts_with(took));
    Ok(())
}

// Returns why `name` can't be fetched from the shelf.
fn refusal<H: Shelf>(alloc: Global, shelf: &mut H, name: &str) -> Option<FetchFault> {
    fetched(alloc, shelf, name).err()
}

fn holds<H: Shelf>(alloc: Global, shelf: &mut H, name: &str, bytes: &[u8]) -> bool {
    fetched(alloc, shelf, name).is_ok_and(|held| held.as_slice() == bytes)
}

#[test]
fn a_folder_answers_by_name(rt: HostRuntime) -> Result<(), Fail> {
    let alloc = rt.alloc();
    rt.create_dir("folder")?;
    rt.create_dir("folder/inner")?;
    let mut shelf = FileShelf::new(rt.clone()?, String::from_str(alloc, "folder")?);
    answers_by_name(&rt, alloc, &mut shelf);
    Ok(())
}

fn answers_by_name<H: Shelf>(rt: &impl Abort, alloc: Global, shelf: &mut H) {
    assert!(rt; refusal(alloc, shelf, "a") == Some(FetchFault::NotThere));
    assert!(rt; refusal(alloc, shelf, "inner") == Some(FetchFault::Failed));
    assert!(rt; shelf.store("inner", b"x") == Err(StoreFault::Failed));
    assert!(rt; shelf.store("a", b"four").is_ok());
    assert!(rt; holds(alloc, shelf, "a", b"four"));
    assert!(rt; shelf.store("a", b"five!").is_ok());
    assert!(rt; refusal(alloc, shelf, "a") == Some(FetchFault::TooLarge));
}

fn fails_at_1_and_3<H: Shelf>(alloc: Global, shelf: &mut H) -> bool {
    refusal(alloc, shelf, "a") == Some(FetchFault::Failed)
        && shelf.store("a", b"four").is_ok()
        && refusal(alloc, shelf, "a") == Some(FetchFault::Failed)
        && holds(alloc, shelf, "a", b"four")
}

#[test]
fn a_shelf_in_memory_fails_at_the_listed_calls(rt: HostRuntime) -> Result<(), Fail> {
    let alloc = rt.alloc();
    let mut shelf = MemShelf::new(alloc, vec![in alloc; 1, 3]?);
    assert!(rt; fails_at_1_and_3(alloc, &mut shelf));
    Ok(())
}

// Checks whether the shelf holds exactly these bytes under the name, within the limit.
fn gives<H: Shelf>(alloc: Global, shelf: &mut H, name: &str, limit: u32, bytes: &[u8]) -> bool {
    shelf
        .fetch(alloc, name, limit)
        .is_ok_and(|held| held.as_slice() == bytes)
}

#[test]
fn a_folder_keeps_many_bytes(rt: HostRuntime) -> Result<(), Fail> {
    let alloc = rt.alloc();
    rt.create_dir("many")?;
    let bytes = many(alloc)?;
    let mut shelf = FileShelf::new(rt.clone()?, String::from_str(alloc, "many")?);
    keeps_many(&rt, alloc, &mut shelf, &bytes);
    Ok(())
}

fn keeps_many<H: Shelf>(rt: &impl Abort, alloc: Global, shelf: &mut H, bytes: &[u8]) {
    let limit = MANY as u32;
    assert!(rt; shelf.store("a", bytes).is_ok());
    assert!(rt; gives(alloc, shelf, "a", limit, bytes));
    assert!(rt; gives(alloc, shelf, "a", 20_001, bytes));
    assert!(rt; shelf.fetch(alloc, "a", 19_999).err() == Some(FetchFault::TooLarge));
    // a shorter content leaves none of the earlier bytes
    assert!(rt; shelf.store("a", b"four").is_ok());
    assert!(rt; gives(alloc, shelf, "a", 4, b"four"));
    assert!(rt; refusal(alloc, shelf, ".a.new") == Some(FetchFault::NotThere));
}
