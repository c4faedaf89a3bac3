// The whole run: words, opening, lines, status.
ghost use Rattle.std.specs.Prelude.{◌≡◌, ◌≢◌, ◌+◌, ◌<◌, ◌≤◌, ◌-◌, ◌^◌, ◌⊎◌, ℕ, Bool, true, false, None, Ok, IfOk, IfSome, OnOk, IsErrOf, ◌↔◌};
ghost use Rattle.eb_outside.specs.Causes.{Rose};
ghost use Rattle.eb_run.specs.Words.{is_form};
ghost use Rattle.eb_session.specs.Opening.{opened, OpensAs};
ghost use Rattle.eb_serve.specs.Machines.{ended};
ghost use Rattle.eb_serve.specs.Progress.{first_standing, whole, IsFront, IsSpent};
ghost use Rattle.eb_serve.specs.Remains.{KeepsBut, IsWritten, TakesAtMost};
ghost use Rattle.eb_run.specs.Answering.{answering, IsNextSection};
ghost use Rattle.eb_run.specs.Runs.{Runs, moment};
ghost use Rattle.eb_run.specs.Told.{told, Follows, IsFaultless, IsRefused, IsWithin, WhereTold};
ghost use Rattle.eb_run.specs.Faults.{HasAnswered, IsAtOpening, IsAtPublication};

use crate::responding::Answering;
use crate::words::{is_session, usage};
use eb_base::{Steps, Text};
use eb_outside::{Shelf, Sink, Source};
use eb_serve::outlet::give_all;
use eb_serve::{Limits, Stop, serve};
use eb_session::{OpenEnd, Session};
use std::alloc::Global;
use std::marker::Brand;
use std::sync::ledger::{Blank, Ledger};
use std::thread::Threads;

/// Opens a session on the folder. Its steps are counted by themselves.
fn open_session<H: Shelf, L: Ledger>(
    blank: Blank,
    alloc: Global,
    shelf: &mut H,
) -> Result<Session, OpenEnd>
    requires name { blank.name ≡ L.name }
    requires parts { blank.parts ≡ L.parts }
    requires some { 0 < blank.parts }
    ensures opened { IfSome (H.files shelf.old) (λ files. OpensAs result (opened files)) }
    ensures first { IfOk result (λ session. session.generation ≡ 0) }
    ensures empty { IfOk result (λ session. session.made ≡ 0) }
    ensures files { H.files shelf.new ≡ H.files shelf.old }
    ensures later { H.faults shelf.old ≤ H.faults shelf.new }
    ensures cause { IsErrOf result OpenEnd.Shelf → Rose (H.faults shelf.old) (H.faults shelf.new) }
{
    let mut steps: Steps<L> = Steps::open(blank);
    let session = Session::open(alloc, shelf, &mut steps)?;
    Ok(session)
}

/// Answers the lines of the source in a session that has just been opened, and answers the status.
fn answer_lines<H: Shelf, I: Source, O: Sink>(
    alloc: Global,
    limits: &Limits,
    session: Session,
    shelf: &mut H,
    source: &mut I,
    sink: &mut O,
) -> Result<u8, Stop>
    requires generation { session.generation ≡ 0 }
    requires made { session.made ≡ 0 }
    requires opens { IfSome (H.files shelf.old) (λ files. opened files ≡ Ok session) }
    ensures told { Follows result
        (whole answering (first_standing limits.now.lines limits.now.bytes session) (H.files shelf.old) (I.left source.old) (O.put sink.old))
        (H.files shelf.new) (I.left source.new) (O.put sink.new) }
    ensures status { IfOk result (λ status. status ≡ 0) }
    ensures spent { OnOk result (IsSpent (I.left source.new)) }
    ensures taken { TakesAtMost (limits.now.bytes + 1) (I.left source.old) (I.left source.new) }
    ensures names { KeepsBut (IsWritten IsNextSection limits.now.lines) (H.files shelf.old) (H.files shelf.new) }
    ensures causes { IsErrOf result Stop.Outside → Rose (O.faults sink.old) (O.faults sink.new)
        ⊎ ((Rose (I.faults source.old) (I.faults source.new) × HasAnswered (H.files shelf.old) (I.left source.old) (I.left source.new) (O.put sink.old) (O.put sink.new))
        ⊎ (Rose (H.faults shelf.old) (H.faults shelf.new) × IsAtPublication limits.now.lines limits.now.bytes (H.files shelf.old) (I.left source.old) (O.put sink.old) (O.put sink.new))) }
    ensures shelf { H.faults shelf.old ≤ H.faults shelf.new }
    ensures source { I.faults source.old ≤ I.faults source.new }
    ensures sink { O.faults sink.old ≤ O.faults sink.new }
{
    let mut answering = Answering::of(session);
    let served = serve(alloc, limits, &mut answering, shelf, source, sink);
    answering.close();
    served?;
    Ok(0)
}

/// The status of the words' run, or why it stopped.
fn outcome<H: Shelf, I: Source, O: Sink>(
    alloc: Global,
    limits: &Limits,
    words: &[Text],
    shelf: &mut H,
    source: &mut I,
    sink: &mut O,
) -> Result<u8, Stop>
    ensures told { Follows result
        (told limits.now.lines limits.now.bytes words.now (H.files shelf.old) (I.left source.old) (O.put sink.old))
        (H.files shelf.new) (I.left source.new) (O.put sink.new) }
    ensures status { IfOk result (λ status. (status ≡ 0) ⊎ ((status ≡ 2) ⊎ (status ≡ 3))) }
    ensures words { IfOk result (λ status. status ≡ 2 ↔ (is_form words.now ≡ false)) }
    ensures refused { IfOk result (λ status. status ≡ 3 → (is_form words.now ≡ true) × IfSome (H.files shelf.old) IsRefused) }
    ensures limit { IsErrOf result Stop.Limit → is_form words.now ≡ true }
    ensures shelf { H.faults shelf.old ≤ H.faults shelf.new }
    ensures source { I.faults source.old ≤ I.faults source.new }
    ensures sink { O.faults sink.old ≤ O.faults sink.new }
    ensures causes { IsErrOf result Stop.Outside → Rose (O.faults sink.old) (O.faults sink.new)
        ⊎ ((Rose (I.faults source.old) (I.faults source.new) × HasAnswered (H.files shelf.old) (I.left source.old) (I.left source.new) (O.put sink.old) (O.put sink.new))
        ⊎ (Rose (H.faults shelf.old) (H.faults shelf.new) × (IsAtOpening (I.left source.old) (I.left source.new) (O.put sink.old) (O.put sink.new)
        ⊎ IsAtPublication limits.now.lines limits.now.bytes (H.files shelf.old) (I.left source.old) (O.put sink.old) (O.put sink.new)))) }
    ensures spent { IfOk result (λ status. status ≡ 0 → IsSpent (I.left source.new)) }
    ensures taken { TakesAtMost (limits.now.bytes + 1) (I.left source.old) (I.left source.new) }
    ensures names { KeepsBut (IsWritten IsNextSection limits.now.lines) (H.files shelf.old) (H.files shelf.new) }
    ensures untouched { (is_form words.now ≡ false) ⊎ (result ≡ Ok 3) → (I.left source.new ≡ I.left source.old) × (I.faults source.new ≡ I.faults source.old) }
{
    if !is_session(words) {
        give_all(sink, usage())?;
        return Ok(2);
    }
    match open_session::<H, Brand>(Blank::new(1), alloc, shelf) {
        Ok(session) => answer_lines(alloc, limits, session, shelf, source, sink),
        Err(OpenEnd::Refused { line }) => {
            give_all(sink, line.bytes())?;
            Ok(3)
        }
        Err(OpenEnd::Shelf) => Err(Stop::Outside),
        Err(OpenEnd::Memory) => Err(Stop::Memory),
    }
}

/// Runs the program on the words behind its name, within limits, and answers its status.
pub fn run_within<T: Threads + Sync, H: Shelf, I: Source, O: Sink>(
    _rt: &T,
    alloc: Global,
    limits: &Limits,
    words: &[Text],
    shelf: &mut H,
    source: &mut I,
    sink: &mut O,
) -> u8
    ensures { Runs limits.now.lines limits.now.bytes words.now result
        (moment (H.files shelf.old) (I.left source.old) (O.put sink.old) (H.faults shelf.old) (I.faults source.old) (O.faults sink.old))
        (moment (H.files shelf.new) (I.left source.new) (O.put sink.new) (H.faults shelf.new) (I.faults source.new) (O.faults sink.new)) }
{
    match outcome(alloc, limits, words, shelf, source, sink) {
        Ok(status) => status,
        Err(Stop::Outside) => 1,
        Err(Stop::Memory) => 4,
        Err(Stop::Limit) => 5,
    }
}

/// Runs the program on the words behind its name, and answers its status: 0 done, 1 a counted fault of the
/// outside, 2 words that are no form, 3 a refused folder, 4 want of memory, 5 a limit.
pub fn run<T: Threads + Sync, H: Shelf, I: Source, O: Sink>(
    rt: &T,
    alloc: Global,
    words: &[Text],
    shelf: &mut H,
    source: &mut I,
    sink: &mut O,
) -> u8
    ensures { Runs (2 ^ 32 - 1) (2 ^ 40) words.now result
        (moment (H.files shelf.old) (I.left source.old) (O.put sink.old) (H.faults shelf.old) (I.faults source.old) (O.faults sink.old))
        (moment (H.files shelf.new) (I.left source.new) (O.put sink.new) (H.faults shelf.new) (I.faults source.new) (O.faults sink.new)) }
{
    run_within(rt, alloc, &Limits::most(), words, shelf, source, sink)
}
