// Each object once: a happy path, and calls that fail.
use eb_base::Text;
use eb_outside::{
    Fault, FolderShelf, MemShelf, MemSink, MemSource, OutsideError, Shelf, Sink, Source, StdSink,
    StdSource,
};
use std::alloc::{AllocError, Global};
use std::io::{ErrorKind, Read, Write};
use std::rt::Files;
use std::test::Fail;
use std::{fs, io};

const NAME: &str = "outside-test.bin";

// Where in the script a fake of a stream stands.
#[derive(Drop)]
struct Turn(u8);

impl Turn {
    fn next(&mut self) -> u8 {
        let turn = self.0;
        self.0 = turn.saturating_add(1);
        turn
    }
}

// Interrupted, then a byte, then broken, then at its end.
impl Read for Turn {
    fn read(&mut self, buf: &mut [u8]) -> io::Result<usize> {
        match (self.next(), buf.first_mut()) {
            (0, _) => Err(io::Error::from(ErrorKind::Interrupted)),
            (1, Some(first)) => {
                *first = 7;
                Ok(1)
            }
            (2, _) => Err(io::Error::from(ErrorKind::Other)),
            _ => Ok(0),
        }
    }
}

// Interrupted, then at most two bytes, then broken, then full. What it took can't be passed on the second time.
impl Write for Turn {
    fn write(&mut self, buf: &[u8]) -> io::Result<usize> {
        match self.next() {
            0 => Err(io::Error::from(ErrorKind::Interrupted)),
            1 | 3 => Ok(buf.len().min(2)),
            5 => Err(io::Error::from(ErrorKind::BrokenPipe)),
            _ => Ok(0),
        }
    }

    fn flush(&mut self) -> io::Result<()> {
        match self.next() {
            4 => Err(io::Error::from(ErrorKind::Other)),
            _ => Ok(()),
        }
    }
}

fn file(alloc: Global, name: &[u8], bytes: &[u8]) -> Result<(Text, Vec<u8>), AllocError> {
    let name = Text::from_vec(Vec::from_slice(alloc, name)?);
    let bytes = Vec::from_slice(alloc, bytes)?;
    Ok((name, bytes))
}

/// A shelf with the files a and b, whose calls 1 and 4 fail.
fn two_files(alloc: Global) -> Option<MemShelf> {
    let mut files = Vec::new(alloc);
    files.push(file(alloc, b"a", &[1, 2]).ok()?).ok()?;
    files.push(file(alloc, b"b", &[3, 4]).ok()?).ok()?;
    let fails = Vec::from_slice(alloc, &[1, 4]).ok()?;
    Some(MemShelf::open(alloc, files, fails))
}

/// Whether a call reads these bytes.
fn reads<S: Shelf>(shelf: &mut S, name: &str, wanted: &[u8]) -> bool {
    match shelf.read(name) {
        Ok(Some(bytes)) => bytes.as_slice() == wanted,
        _ => false,
    }
}

/// Whether a call finds no file.
fn misses<S: Shelf>(shelf: &mut S, name: &str) -> bool {
    match shelf.read(name) {
        Ok(found) => found.is_none(),
        Err(_) => false,
    }
}

/// Whether the six calls on the shelf answer as they must, the second and the fifth by a fault.
fn calls(shelf: &mut MemShelf) -> [bool; 6] {
    [
        reads(shelf, "a", &[1, 2]),
        shelf.write("b", &[5]) == Err(OutsideError::Fault),
        shelf.write("b", &[5]).is_ok(),
        shelf.write("c", &[]).is_ok(),
        shelf.read("c").is_err(),
        misses(shelf, "d"),
    ]
}

/// Whether the shelf holds a file of these bytes.
fn holds(shelf: &MemShelf, name: &str, wanted: &[u8]) -> bool {
    match shelf.file(name) {
        Some(bytes) => bytes == wanted,
        None => false,
    }
}

/// The calls, the files behind them, and the count of faults.
fn shelf_facts(alloc: Global) -> Option<([bool; 6], [bool; 3], u64)> {
    let mut shelf = two_files(alloc)?;
    let calls = calls(&mut shelf);
    let files = [
        holds(&shelf, "a", &[1, 2]),
        holds(&shelf, "b", &[5]),
        holds(&shelf, "c", &[]),
    ];
    Some((calls, files, shelf.faults()))
}

/// Whether a file stays as it was where writing it failed.
fn keeps(alloc: Global) -> Option<bool> {
    let mut shelf = two_files(alloc)?;
    let _ = shelf.read("a");
    let failed = shelf.write("b", &[5]).is_err();
    Some(failed && holds(&shelf, "b", &[3, 4]))
}

#[test]
fn a_shelf_in_memory(rt: HostRuntime) {
    assert_eq!(rt; shelf_facts(rt.alloc()), Some(([true; 6], [true; 3], 2)));
    assert_eq!(rt; keeps(rt.alloc()), Some(true));
}

/// What a call for two bytes answers, and the first of the two afterwards.
type Taken = (Result<usize, Fault>, u8);

fn taken<S: Source>(source: &mut S, piece: &mut [u8; 2]) -> Taken {
    let answer = source.take(piece);
    (answer, piece[0])
}

/// The place of the first call that answers otherwise, and the two bytes at the end.
fn other_take<S: Source>(source: &mut S, wanted: &[Taken]) -> (Option<usize>, [u8; 2]) {
    let mut piece = [0u8; 2];
    for (index, told) in wanted.iter().enumerate() {
        if taken(source, &mut piece) != *told {
            return (Some(index), piece);
        }
    }
    (None, piece)
}

/// Two bytes, a fault, two bytes, one, the end.
const TAKEN: [Taken; 5] = [
    (Ok(2), 1),
    (Err(Fault), 1),
    (Ok(2), 3),
    (Ok(1), 5),
    (Ok(0), 5),
];

/// The first call on a source in memory that answers otherwise, its count of faults, and whether nothing is left.
fn source_facts(alloc: Global) -> Option<(Option<usize>, u64, bool)> {
    let bytes = Vec::from_slice(alloc, &[1, 2, 3, 4, 5]).ok()?;
    let fails = Vec::from_slice(alloc, &[1]).ok()?;
    let mut source = MemSource::open(bytes, 3, fails);
    let (other, _) = other_take(&mut source, &TAKEN);
    Some((other, source.faults(), source.left().is_empty()))
}

/// The calls on a sink in memory, whether it holds the bytes, and its count of faults.
fn sink_facts(alloc: Global) -> Option<([bool; 3], bool, u64)> {
    let fails = Vec::from_slice(alloc, &[0]).ok()?;
    let mut sink = MemSink::open(alloc, fails);
    let calls = [
        sink.give(&[8, 9]) == Err(OutsideError::Fault),
        sink.give(&[8, 9]) == Ok(2),
        sink.give(&[8, 9]) == Ok(2),
    ];
    let held = sink.bytes() == [8, 9, 8, 9].as_slice();
    Some((calls, held, sink.faults()))
}

#[test]
fn source_and_sink_in_memory(rt: HostRuntime) {
    assert_eq!(rt; source_facts(rt.alloc()), Some((None, 1, true)));
    assert_eq!(rt; sink_facts(rt.alloc()), Some(([true; 3], true, 1)));
}

/// Whether the file holds these bytes after they were written.
fn rewritten<R: Files + AllocGlobal>(shelf: &mut FolderShelf<'_, R>, bytes: &[u8]) -> bool {
    shelf.write(NAME, bytes).is_ok() && reads(shelf, NAME, bytes)
}

#[test]
fn files_in_the_current_folder(rt: HostRuntime) -> Result<(), Fail> {
    let mut shelf = FolderShelf::open(&rt);
    assert!(rt; misses(&mut shelf, NAME));
    assert!(rt; rewritten(&mut shelf, [7u8; 40_000].as_slice()));
    assert!(rt; rewritten(&mut shelf, &[1, 2]));
    assert!(rt; rewritten(&mut shelf, &[]));
    assert!(rt; misses(&mut shelf, "outside-test.bin.new"));
    fs::remove_file(&rt, NAME)?;
    assert_eq!(rt; shelf.faults(), 0);
    Ok(())
}

// A folder can't be read as a file, and where there is none nothing is written.
#[test]
fn what_is_no_file_in_the_current_folder(rt: HostRuntime) {
    let mut shelf = FolderShelf::open(&rt);
    assert!(rt; shelf.read(".").is_err());
    assert!(rt; shelf.write("no-such-folder/file", &[1]) == Err(OutsideError::Fault));
    assert_eq!(rt; shelf.faults(), 2);
}

const READ: [Taken; 3] = [(Ok(2), 4), (Ok(1), 6), (Ok(0), 6)];

/// Whether a call on a broken source answers so, with this count of faults.
fn breaks(source: &mut StdSource<Turn>, wanted: Taken, faults: u64) -> bool {
    let mut piece = [7u8; 2];
    taken(source, &mut piece) == wanted && source.faults() == faults
}

#[test]
fn a_reader_as_source(rt: HostRuntime) {
    let mut source = StdSource::open([4u8, 5, 6].as_slice());
    assert_eq!(rt; other_take(&mut source, &READ), (None, [6, 5]));
    assert_eq!(rt; source.faults(), 0);
    let mut broken = StdSource::open(Turn(0));
    assert!(rt; breaks(&mut broken, (Ok(1), 7), 0));
    assert!(rt; breaks(&mut broken, (Err(Fault), 7), 1));
    assert!(rt; breaks(&mut broken, (Ok(0), 7), 1));
}

/// Whether a writer as sink takes all three bytes, and what its count of faults is.
fn writes(alloc: Global) -> (bool, u64, bool) {
    let mut out = Vec::new(alloc);
    let mut sink = StdSink::open(&mut out);
    let given = sink.give(&[1, 2, 3]) == Ok(3);
    let faults = sink.faults();
    (given, faults, out.as_slice() == [1, 2, 3].as_slice())
}

/// Whether a call on a broken sink answers so, with this count of faults.
fn gives<W: Write + Drop>(
    sink: &mut StdSink<W>,
    wanted: Result<usize, OutsideError>,
    faults: u64,
) -> bool {
    sink.give(&[1, 2, 3]) == wanted && sink.faults() == faults
}

#[test]
fn a_writer_as_sink(rt: HostRuntime) {
    assert_eq!(rt; writes(rt.alloc()), (true, 0, true));
    let mut broken = StdSink::open(Turn(0));
    let fault = Err(OutsideError::Fault);
    assert!(rt; gives(&mut broken, Ok(2), 0));
    assert!(rt; gives(&mut broken, fault, 1));
    assert!(rt; gives(&mut broken, fault, 2));
    assert!(rt; gives(&mut broken, fault, 3));
}
