// What statements work on: the names that are visible, and what was added to entities.
use crate::values::Value;
use eb_base::Items;
use eb_schema::Cell;

/// What was added to an extra entity.
#[derive(Drop)]
pub struct Extra {
    /// How many extras of the baker stand before it in the text.
    pub number: usize,
    /// A cell for each `add`, in the order of evaluation. A later one replaces an earlier one of its type.
    pub cells: Items<Cell>,
}

/// What statements have come to.
#[derive(Drop)]
pub struct Scope {
    /// The values of the visible names, in the order in which they became visible. That of an extra or a created entity is
    /// the reference to it.
    pub names: Items<Value>,
    /// A cell for each `add` to the own entity, in the order of evaluation. A later one replaces an earlier one of its type.
    pub own: Items<Cell>,
    /// The extras that were reached, in the order of evaluation, also those without a cell.
    pub extras: Items<Extra>,
}
