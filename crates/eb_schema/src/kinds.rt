// What a schema is made of: kinds of fields, fields, component types and authoring types.
use crate::tables::Listed;
use eb_base::{AuthorNo, Items, Text, TypeNo};

/// What one field holds.
#[derive(Clone, Copy, Debug, PartialEq, Eq)]
pub enum Kind {
    /// A whole number of 8 bits with its sign.
    I8,
    /// A whole number of 16 bits with its sign.
    I16,
    /// A whole number of 32 bits with its sign.
    I32,
    /// A whole number of 64 bits with its sign.
    I64,
    /// A fixed-point number of 64 bits, in units of 1/65536.
    Fix,
    /// A reference to an object or to an entity.
    Ref,
    /// The number of an asset; only in authoring types.
    Asset,
}

/// What baking does with a component.
#[derive(Clone, Copy, Debug, PartialEq, Eq)]
pub enum Mode {
    /// It is stored in section files.
    Stored,
    /// It serves baking, and is left out of section files.
    Baking,
    /// An entity that has it isn't stored at all.
    Only,
}

/// A field of a type, or of the assets.
#[derive(Drop)]
pub struct Field {
    /// A name, different from those of the other fields of its list.
    pub name: Text,
    /// What it holds.
    pub kind: Kind,
}

/// A component type: what an entity may have.
#[derive(Drop)]
pub struct Component {
    /// Its number, different from those of the other component types.
    pub number: TypeNo,
    /// Its name, different from those of the other component types.
    pub name: Text,
    /// What baking does with it.
    pub mode: Mode,
    /// At most 16 fields, none of kind `Asset`.
    pub fields: Items<Field>,
}

/// An authoring type: what an object of a project may have.
#[derive(Drop)]
pub struct Authoring {
    /// Its number, different from those of the other authoring types.
    pub number: AuthorNo,
    /// Its name, different from those of the other authoring types.
    pub name: Text,
    /// The component type that it is copied to, which has the same fields.
    pub copy: Option<TypeNo>,
    /// At most 16 fields.
    pub fields: Items<Field>,
}

impl Listed for Component {
    ghost number_of = { λ c. c.number };

    ghost name_of = { λ c. c.name };

    fn number(&self) -> u8 {
        self.number.number()
    }

    fn name(&self) -> &[u8] {
        self.name.bytes()
    }
}

impl Listed for Authoring {
    ghost number_of = { λ a. a.number };

    ghost name_of = { λ a. a.name };

    fn number(&self) -> u8 {
        self.number.number()
    }

    fn name(&self) -> &[u8] {
        self.name.bytes()
    }
}
