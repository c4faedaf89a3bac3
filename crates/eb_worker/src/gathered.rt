// What workers have recorded so far, and the seats that claimed the items of it.
ghost use Rattle.std.specs.Prelude.{◌≡◌, ◌+◌, ◌<◌, IfOk};
ghost use Rattle.eb_claims.specs.Seats.{IsSeatOf};
ghost use Rattle.eb_worker.specs.Recording.{HasRecorded, IsFresh};

use crate::recorder::{Keyed, Recorder};
use eb_base::Memory;
use eb_claims::{ClaimSeat, Claims};
use std::alloc::Global;

// A seat, and the lists of the items that it claimed, in that order.
#[derive(Drop)]
pub(crate) struct Gathered<E> {
    pub seat: ClaimSeat,
    pub entries: Vec<E>,
}

// What one worker records: the list of each item that it claims, until a claim finds none.
pub(crate) fn record_alone<E: Keyed + Drop, R: Recorder<E>>(
    alloc: Global,
    claims: &Claims,
    mut seat: ClaimSeat,
    recorder: &R,
) -> Result<Gathered<E>, Memory>
    requires of { IsSeatOf claims.now seat }
    requires fresh { IsFresh 1 seat }
    ensures { IfOk result (λ g. HasRecorded claims.now (R.lists recorder.now) 1 g.seat g.entries.items) }
{
    let mut entries = Vec::new(alloc);
    while let Some(item) = claims.claim(&mut seat) {
        let mut list = recorder.commands_of(alloc, item)?;
        entries.append(&mut list)?;
    }
    Ok(Gathered { seat, entries })
}

// What two have recorded, in one.
pub(crate) fn merge<E: Keyed + Drop, R: Recorder<E>>(
    claims: &Claims,
    recorder: &R,
    mine: Gathered<E>,
    theirs: Gathered<E>,
) -> Result<Gathered<E>, Memory>
    requires mine { HasRecorded claims.now (R.lists recorder.now) mine.seat.view.share mine.seat mine.entries.items }
    requires theirs { HasRecorded claims.now (R.lists recorder.now) theirs.seat.view.share theirs.seat theirs.entries.items }
    ensures { IfOk result (λ g. HasRecorded claims.now (R.lists recorder.now) (mine.seat.view.share + theirs.seat.view.share) g.seat g.entries.items) }
{
    let _ = recorder;
    let Gathered {
        mut seat,
        mut entries,
    } = mine;
    let Gathered {
        seat: other,
        entries: mut more,
    } = theirs;
    claims.join(&mut seat, other);
    entries.append(&mut more)?;
    Ok(Gathered { seat, entries })
}
