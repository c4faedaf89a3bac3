// A case is played over memory.
use crate::cases::Case;
use crate::noting_shelf::NotingShelf;
use case_parts::CaseFault;
use eb_outside::{MemShelf, MemSink, MemSource};
use eb_run::{run, run_within};
use std::alloc::Global;
use std::thread::Threads;

/// How many bytes of the input come at once.
const PIECE: usize = 64;

/// What a run ended with.
#[derive(Drop)]
pub struct Ending {
    pub status: u8,
    pub shelf: NotingShelf,
    pub sink: MemSink,
}

/// Runs what a case gives: within the limits that it sets, or else as the program does.
pub fn play<T: Threads + Sync>(
    rt: &T,
    alloc: Global,
    case: &Case<'_>,
) -> Result<Ending, CaseFault> {
    let limits = case.limits()?;
    let words = case.words(alloc)?;
    let shelf_fails = case.fails(alloc, b"shelf")?;
    let source_fails = case.fails(alloc, b"source")?;
    let sink_fails = case.fails(alloc, b"sink")?;
    let input = Vec::from_slice(alloc, case.body(b"in", b"").unwrap_or(b""))?;
    let mut shelf = NotingShelf {
        alloc,
        folder: MemShelf::open(alloc, case.files(alloc)?, shelf_fails),
        written: Vec::new(alloc),
    };
    let mut source = MemSource::open(input, PIECE, source_fails);
    let mut sink = MemSink::open(alloc, sink_fails);
    let words = words.as_slice();
    let status = match limits {
        None => run(rt, alloc, words, &mut shelf, &mut source, &mut sink),
        Some(limits) => run_within(
            rt,
            alloc,
            &limits,
            words,
            &mut shelf,
            &mut source,
            &mut sink,
        ),
    };
    Ok(Ending {
        status,
        shelf,
        sink,
    })
}
