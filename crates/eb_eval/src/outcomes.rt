// What a run gives.
use eb_base::{Items, Name};
use eb_meaning::RunFault;
use eb_schema::Row;

/// An entity that a run makes.
#[derive(Drop)]
pub struct Output {
    /// Its name: the object's own entity, or an extra one of the baker.
    pub name: Name,
    /// What the run adds to it.
    pub row: Row,
}

/// What comes of a run. `docs/baking.md`, "Runs".
#[derive(Drop)]
pub enum Outcome {
    /// The object's own entity first, its row possibly empty, and then each extra that was reached, in the order of the text.
    Made(Items<Output>),
    /// The first fault. Such a run gives nothing.
    Fault(RunFault),
}
