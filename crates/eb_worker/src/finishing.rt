// The end of a recording: the seat learns that it has each item once, and the list is sorted.
ghost use Rattle.std.specs.Prelude.{◌≡◌, ◌<◌, IfOk, IsPermutation, IsSortedByKey};
ghost use Rattle.eb_claims.specs.Claiming.{EachOnce};
ghost use Rattle.eb_claims.specs.Seats.{IsSeatOf};
ghost use Rattle.eb_worker.specs.Recording.{HasRecorded, IsSortOf, lists_of, key_cmp};

use crate::gathered::Gathered;
use crate::recorder::{Keyed, Recorder};
use crate::recording::Recording;
use eb_base::Memory;
use eb_claims::Claims;

// The recording of all workers.
pub(crate) fn finish<E: Keyed + Drop, R: Recorder<E>>(
    claims: Claims,
    recorder: &R,
    gathered: Gathered<E>,
) -> Result<Recording<E>, Memory>
    requires { HasRecorded claims (R.lists recorder.now) claims.workers gathered.seat gathered.entries.items }
    ensures list { IfOk result (λ r. IsSortOf E.key_of (lists_of (R.lists recorder.now) claims.items) r.list.items) }
    ensures claims { IfOk result (λ r. r.claims ≡ claims) }
    ensures of { IfOk result (λ r. IsSeatOf r.claims r.seat) }
    ensures whole { IfOk result (λ r. r.seat.view.share ≡ claims.workers) }
    ensures stop { IfOk result (λ r. 0 < r.seat.view.stops) }
    ensures once { IfOk result (λ r. EachOnce claims.items r.seat.view.list) }
{
    let _ = recorder;
    let Gathered { mut seat, entries } = gathered;
    claims.learn(&mut seat);
    let list = in_order(entries)?;
    Ok(Recording { claims, seat, list })
}

// The entries by key, item and place.
fn in_order<E: Keyed + Drop>(mut entries: Vec<E>) -> Result<Vec<E>, Memory>
    ensures { IfOk result (λ list. IsSortOf E.key_of entries.items list.items) }
{
    entries.sort_by_key(|entry| entry.sort_key())?;
    Ok(entries)
}
