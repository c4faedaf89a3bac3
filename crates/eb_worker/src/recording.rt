// The workers: each half of them in a thread of its own, down to one.
ghost use Rattle.std.specs.Prelude.{◌≡◌, ◌<◌, ◌≤◌, IfOk};
ghost use Rattle.std.specs.Thread.{IsSync};
ghost use Rattle.eb_claims.specs.Claiming.{EachOnce};
ghost use Rattle.eb_claims.specs.Seats.{IsSeatOf};
ghost use Rattle.eb_worker.specs.Recording.{HasRecorded, IsFresh, IsSortOf, lists_of};

use crate::finishing::finish;
use crate::gathered::{Gathered, merge, record_alone};
use crate::recorder::{Keyed, Recorder};
use eb_base::Memory;
use eb_claims::{ClaimSeat, Claims};
use std::alloc::Global;
use std::thread::{Threads, join};

/// What `record_all` answers: the claims, the seat of all workers, and the list.
#[derive(Drop)]
pub struct Recording<E> {
    pub claims: Claims,
    pub seat: ClaimSeat,
    pub list: Vec<E>,
}

/// Records each item once, by as many workers as the seat stands for, and sorts what they recorded. Workers share the word of
/// the claims and nothing else, and none waits for another but at the end. With Memory nothing is handed back.
/// `docs/claims.md`, "The recorded list".
pub fn record_all<E: Keyed + Drop + Send, R: Recorder<E> + Sync, T: Threads + Sync>(
    rt: &T,
    alloc: Global,
    claims: Claims,
    seat: ClaimSeat,
    recorder: &R,
) -> Result<Recording<E>, Memory>
    requires of { IsSeatOf claims seat }
    requires fresh { IsFresh claims.workers seat }
    ensures list { IfOk result (λ r. IsSortOf E.key_of (lists_of (R.lists recorder.now) claims.items) r.list.items) }
    ensures claims { IfOk result (λ r. r.claims ≡ claims) }
    ensures of { IfOk result (λ r. IsSeatOf r.claims r.seat) }
    ensures whole { IfOk result (λ r. r.seat.view.share ≡ claims.workers) }
    ensures stop { IfOk result (λ r. 0 < r.seat.view.stops) }
    ensures once { IfOk result (λ r. EachOnce claims.items r.seat.view.list) }
{
    let workers = claims.workers();
    let gathered = record_some(rt, alloc, &claims, seat, workers, recorder)?;
    finish(claims, recorder, gathered)
}

// What so many workers record, who begin with a seat that stands for them.
fn record_some<E: Keyed + Drop + Send, R: Recorder<E> + Sync, T: Threads + Sync>(
    rt: &T,
    alloc: Global,
    claims: &Claims,
    mut seat: ClaimSeat,
    workers: u32,
    recorder: &R,
) -> Result<Gathered<E>, Memory>
    requires of { IsSeatOf claims.now seat }
    requires workers { 0 < workers }
    requires fresh { IsFresh workers seat }
    ensures { IfOk result (λ g. HasRecorded claims.now (R.lists recorder.now) workers g.seat g.entries.items) }
{
    if workers == 1 {
        return record_alone(alloc, claims, seat, recorder);
    }
    let half = workers / 2;
    let rest = workers - half;
    let other = claims.split(&mut seat, half);
    let (mine, theirs) = join(
        rt,
        move || -> Result<Gathered<E>, Memory>
            requires threads { IsSync T.row × IsSync R.row }
            requires of { IsSeatOf claims.now seat }
            requires workers { 0 < rest }
            requires fresh { IsFresh rest seat }
            ensures { IfOk result (λ g. HasRecorded claims.entry.now (R.lists recorder.entry.now) rest g.seat g.entries.items) }
        { record_some(rt, alloc, claims, seat, rest, recorder) },
        move || -> Result<Gathered<E>, Memory>
            requires threads { IsSync T.row × IsSync R.row }
            requires of { IsSeatOf claims.now other }
            requires workers { 0 < half }
            requires fresh { IsFresh half other }
            ensures { IfOk result (λ g. HasRecorded claims.entry.now (R.lists recorder.entry.now) half g.seat g.entries.items) }
        { record_some(rt, alloc, claims, other, half, recorder) },
    );
    merge(claims, recorder, mine?, theirs?)
}
