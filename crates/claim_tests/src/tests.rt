// Claims by hand, and recordings by 1 to 64 workers.
use crate::meeting::Meeting;
use crate::notes::{Note, Notes};
use eb_claims::{ClaimSeat, Claims, MOST_ITEMS, MOST_WORKERS};
use eb_worker::{Recording, record_all};
use std::alloc::AllocGlobal;
use std::test::Fail;

// Accepts what may be shared and what may go to another thread.
fn crosses<S: Send, T: Sync>(_seat: S, _claims: &T)
where
    S: Drop,
{}

#[test]
fn claims_are_shared_and_seats_move(rt: HostRuntime) -> Result<(), Fail> {
    let (claims, seat) = Claims::open(rt.alloc(), MOST_ITEMS, MOST_WORKERS)?;
    assert_eq!(rt; (claims.items(), claims.workers()), (262_144, 64));
    crosses::<ClaimSeat, Claims>(seat, &claims);
    Ok(())
}

#[test]
fn two_seats_claim_two_items(rt: HostRuntime) -> Result<(), Fail> {
    let (claims, mut seat) = Claims::open(rt.alloc(), 2, 2)?;
    assert_eq!(rt; (claims.items(), claims.workers()), (2, 2));
    let mut other = claims.split(&mut seat, 1);
    let Some(first) = claims.claim(&mut seat) else {
        panic!(rt; "the first claim finds an item");
    };
    let Some(second) = claims.claim(&mut seat) else {
        panic!(rt; "the second claim finds an item");
    };
    assert_eq!(rt; (first, second), (0, 1));
    let None = claims.claim(&mut seat) else {
        panic!(rt; "no third item is there");
    };
    assert_eq!(rt; claims.claim(&mut other), None);
    claims.join(&mut seat, other);
    claims.learn(&mut seat);
    claims.close(seat);
    Ok(())
}

#[test]
fn each_list_is_recorded_once(rt: HostRuntime) -> Result<(), Fail> {
    let expected = [(-4, 0, 1, 71), (-4, 2, 0, 72), (9, 0, 0, 70)];
    for (items, workers) in [(3, 1), (3, 2), (3, 3), (3, 7), (3, 64), (50_000, 64)] {
        let (claims, seat) = Claims::open(rt.alloc(), items, workers)?;
        let recording = record_all(&rt, rt.alloc(), claims, seat, &Notes)?;
        let Recording { claims, seat, list } = recording;
        claims.close(seat);
        assert_eq!(rt; list.len(), 3, "{items} items, {workers} workers");
        for (found, wanted) in list.iter().zip(expected) {
            let fields = (found.key, found.item, found.place, found.value);
            assert_eq!(rt; fields, wanted, "{items} items, {workers} workers");
        }
    }
    Ok(())
}

#[test]
fn no_items_give_no_list(rt: HostRuntime) -> Result<(), Fail> {
    let (claims, seat) = Claims::open(rt.alloc(), 0, 64)?;
    let recording = record_all(&rt, rt.alloc(), claims, seat, &Notes)?;
    assert!(rt; recording.list.is_empty());
    let Recording {
        claims,
        seat,
        list: _,
    } = recording;
    claims.close(seat);
    Ok(())
}

#[test]
fn two_workers_run_beside_each_other(rt: HostRuntime) -> Result<(), Fail> {
    let meeting = Meeting::new();
    let (claims, seat) = Claims::open(rt.alloc(), 2, 2)?;
    let recording = record_all(&rt, rt.alloc(), claims, seat, &meeting)?;
    assert!(rt; recording.list.is_empty());
    assert_eq!(rt; meeting.missed(), 0);
    Ok(())
}
