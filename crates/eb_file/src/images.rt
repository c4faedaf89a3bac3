// The image of a section: its stored entities, as a section file holds them.
use eb_base::{Items, Name, Place, TypeNo};

/// Where a stored reference leads.
#[derive(Clone, Copy)]
pub enum Link {
    /// To an entity of the same section.
    Local(Name),
    /// To an entity of section 0 of the same scene; only in other sections.
    Zero(Name),
    /// To no entity.
    Null,
}

/// The value of one field.
#[derive(Clone, Copy)]
pub enum Stored {
    /// The value of a number field; of a fixed-point field in units of 1/65536.
    Num(i64),
    /// The value of a reference field.
    Link(Link),
}

/// A component of an entity.
#[derive(Drop)]
pub struct StoredCell {
    /// Its type.
    pub kind: TypeNo,
    /// One value for each field of the type, in the schema's order.
    pub values: Items<Stored>,
}

/// An entity with its components.
#[derive(Drop)]
pub struct ImageRow {
    /// Its name.
    pub name: Name,
    /// Its components, ascending by type, at most 32.
    pub cells: Items<StoredCell>,
}

/// A section as it is stored.
#[derive(Drop)]
pub struct Image {
    /// The section's place.
    pub place: Place,
    /// Its entities, ascending by name, at most 65,536.
    pub rows: Items<ImageRow>,
}
