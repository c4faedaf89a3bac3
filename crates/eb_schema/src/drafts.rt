// A schema's document that has its form and isn't tested further: each part that a refusal can name has its place.
use crate::kinds::{Authoring, Component, Field, Mode};
use crate::tables::Listed;
use eb_base::{AuthorNo, Items, Text, TypeNo};

/// A part of a document, and the place of its node.
#[derive(Drop)]
pub struct Placed<T> {
    pub place: u32,
    pub value: T,
}

/// A field: its name, and the text that should name its kind.
#[derive(Drop)]
pub struct DraftField {
    pub name: Placed<Text>,
    pub kind: Placed<Text>,
}

/// A component type.
#[derive(Drop)]
pub struct DraftComponent {
    pub fields: Placed<Items<DraftField>>,
    pub mode: Mode,
    pub name: Placed<Text>,
    pub number: Placed<TypeNo>,
}

/// An authoring type, with the name of the component type that it is copied to.
#[derive(Drop)]
pub struct DraftAuthoring {
    pub copy: Placed<Option<Text>>,
    pub fields: Placed<Items<DraftField>>,
    pub name: Placed<Text>,
    pub number: Placed<AuthorNo>,
}

/// A whole schema.
#[derive(Drop)]
pub struct Draft {
    pub assets: Placed<Items<DraftField>>,
    pub authoring: Placed<Items<DraftAuthoring>>,
    pub components: Placed<Items<DraftComponent>>,
}

/// What a list of fields belongs to.
#[derive(Clone, Copy)]
pub enum Holder {
    OfAssets,
    OfAuthoring,
    OfComponent,
}

/// The lists of a schema.
#[derive(Drop)]
pub struct Lists {
    pub assets: Items<Field>,
    pub authoring: Items<Authoring>,
    pub components: Items<Component>,
}

impl Listed for DraftComponent {
    ghost number_of = { λ d. d.number.value };

    ghost name_of = { λ d. d.name.value };

    fn number(&self) -> u8 {
        self.number.value.number()
    }

    fn name(&self) -> &[u8] {
        self.name.value.bytes()
    }
}

impl Listed for DraftAuthoring {
    ghost number_of = { λ d. d.number.value };

    ghost name_of = { λ d. d.name.value };

    fn number(&self) -> u8 {
        self.number.value.number()
    }

    fn name(&self) -> &[u8] {
        self.name.value.bytes()
    }
}
