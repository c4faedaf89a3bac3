// The table that workers share, and its steps.
ghost use Rattle.std.specs.Prelude.{◌≡◌, ◌+◌, ◌<◌, ◌≤◌, length, IfOk, IfSome, IfNone};
ghost use Rattle.eb_claims.specs.Claiming.{EachOnce, first, work, took, stopped, less, fresh, joined, most_items, most_workers};
ghost use Rattle.eb_claims.specs.Seats.{IsSeatOf, held, with_view};

use crate::rule::{Claim, Cut, Fair, Glue, Look, Part, View, Work};
use crate::seats::ClaimSeat;
use atomic_table::Table;
use eb_base::Memory;
use std::alloc::Global;
use std::marker::{Brand, Model};

/// How many items there are at most.
pub const MOST_ITEMS: u32 = 262_144;

/// How many workers claim them at most.
pub const MOST_WORKERS: u32 = 64;

/// Items to be claimed, by any number of threads at once: one word, which counts the claims. Contracts see which table it is,
/// and its two numbers.
#[derive(Drop)]
pub struct Claims {
    table: Table<(), View, Work, Fair, Global>,
    items: u32,
    workers: u32,
}

impl Model for Claims {
    ghost use Rattle.eb_claims.specs.Seats.{Known, IsOpen, known, known_coded};

    ghost Value = { Known };

    ghost coded = { known_coded };

    ghost view = { λ c. known c.table.shared.table_id c.items c.workers };

    ghost invariant = { λ c. IsOpen c.table.shared.table_id c.table.shared.key c.items c.workers };
}

impl Claims {
    /// Claims of the items from 0 on, by these workers, and the seat that stands for all of them. `docs/claims.md`, "The steps".
    pub fn open(alloc: Global, items: u32, workers: u32) -> Result<(Claims, ClaimSeat), Memory>
        requires items { items ≤ most_items }
        requires workers { (0 < workers) × (workers ≤ most_workers) }
        ensures numbers { IfOk result (λ r. (r.0.items ≡ items) × (r.0.workers ≡ workers)) }
        ensures seat { IfOk result (λ r. r.1 ≡ held r.0.table (first (work items workers))) }
    {
        let (table, seat) = Table::of_words(alloc, &[0], &Work { items, workers })?;
        let claims = Claims {
            table,
            items,
            workers,
        };
        Ok((claims, ClaimSeat { seat }))
    }

    /// How many items there are.
    pub fn items(&self) -> u32
        ensures { result ≡ self.now.items }
    {
        self.items
    }

    /// How many workers there are.
    pub fn workers(&self) -> u32
        ensures { result ≡ self.now.workers }
    {
        self.workers
    }

    /// Claims an item, by one atomic addition. None where each has been claimed, and then the seat notes a stop: it may note
    /// one for each worker that it stands for. Takes no memory and waits for nothing. `docs/claims.md`, "The steps".
    pub fn claim(&self, seat: &mut ClaimSeat) -> Option<u32>
        requires of { IsSeatOf self.now seat.old }
        requires room { seat.old.view.stops < seat.old.view.share }
        ensures some { IfSome result (λ item. (item < self.now.items) × (seat.new ≡ with_view seat.old (took seat.old.view item))) }
        ensures none { IfNone result (seat.new ≡ with_view seat.old (stopped seat.old.view)) }
        ensures few { length seat.new.view.list ≤ self.now.items }
    {
        let found = self.table.shared.fetch_add::<Claim>(&mut seat.seat, 0, 1);
        if found < u64::from(self.items) {
            Some(found as u32)
        } else {
            None
        }
    }

    /// A new seat for `part` of the workers that this one stands for: it has claimed nothing yet, and may go to another
    /// thread. The seat keeps one worker more than it has stops, at least. Takes no memory. `docs/claims.md`, "The steps".
    pub fn split(&self, seat: &mut ClaimSeat, part: u32) -> ClaimSeat
        requires of { IsSeatOf self.now seat.old }
        requires part { 0 < part }
        requires room { seat.old.view.stops + part + 1 ≤ seat.old.view.share }
        ensures kept { seat.new ≡ with_view seat.old (less part seat.old.view) }
        ensures given { result ≡ with_view seat.old (fresh part seat.old.view) }
    {
        self.split_by::<Brand>(seat, part)
    }

    // The same, where the part is the one that was picked.
    fn split_by<P: Part>(&self, seat: &mut ClaimSeat, part: u32) -> ClaimSeat
        requires picked { part ≡ P.part }
        requires of { IsSeatOf self.now seat.old }
        requires part { 0 < part }
        requires room { seat.old.view.stops + part + 1 ≤ seat.old.view.share }
        ensures kept { seat.new ≡ with_view seat.old (less part seat.old.view) }
        ensures given { result ≡ with_view seat.old (fresh part seat.old.view) }
    {
        let _ = part;
        let seat = self.table.shared.split_seat::<Cut<P>>(&mut seat.seat);
        ClaimSeat { seat }
    }

    /// Takes another seat in: its items, its stops and its share. Takes no memory. `docs/claims.md`, "The steps".
    pub fn join(&self, seat: &mut ClaimSeat, other: ClaimSeat)
        requires of { IsSeatOf self.now seat.old }
        requires other { IsSeatOf self.now other }
        ensures { seat.new ≡ with_view seat.old (joined seat.old.view other.view) }
    {
        let ClaimSeat { seat: other } = other;
        self.table.shared.join_seat::<Glue>(&mut seat.seat, other);
    }

    /// Looks at the table, and changes nothing: a seat that stands for all workers, one of which found no item, has claimed
    /// each item once. Takes no memory. `docs/claims.md`, "What follows from the rule".
    pub fn learn(&self, seat: &mut ClaimSeat)
        requires of { IsSeatOf self.now seat.old }
        requires whole { seat.old.view.share ≡ self.now.workers }
        requires stop { 0 < seat.old.view.stops }
        ensures same { seat.new ≡ seat.old }
        ensures once { EachOnce self.now.items seat.old.view.list }
    {
        self.table.shared.load::<Look>(&mut seat.seat, 0);
    }

    /// Gives the table back: the seat stands for all workers, one of which found no item, and so has claimed each item once.
    /// Takes no memory. `docs/claims.md`, "What follows from the rule".
    pub fn close(self, seat: ClaimSeat)
        requires of { IsSeatOf self seat }
        requires whole { seat.view.share ≡ self.workers }
        requires stop { 0 < seat.view.stops }
        ensures { EachOnce self.items seat.view.list }
    {
        let Claims {
            table,
            items: _,
            workers: _,
        } = self;
        let ClaimSeat { seat } = seat;
        table.close_with(seat).free();
    }
}
