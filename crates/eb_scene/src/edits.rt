// What is asked of a project: edits, with their refusals.
use eb_base::{Items, Memory, Text};

/// A value as an edit writes it, before it is known for which field.
#[derive(Clone, Copy)]
pub enum Raw {
    /// A whole number.
    Int(i64),
    /// A fixed-point number, in units of 1/65536.
    Units(i64),
    /// Neither an object nor an asset.
    Null,
}

/// A value for a field of this name.
#[derive(Drop)]
pub struct RawField {
    /// The field's name.
    pub name: Text,
    /// Its value.
    pub value: Raw,
}

/// A change to a project. Of equal names in `fields` the first counts.
#[derive(Drop)]
pub enum Edit {
    /// Makes an empty scene.
    AddScene {
        /// The scene, 1 to 16.
        scene: u8,
    },
    /// Takes a scene away, with all that is in it.
    RemoveScene {
        /// The scene.
        scene: u8,
    },
    /// Makes an object without components.
    AddObject {
        /// The scene.
        scene: u8,
        /// The object's number, from 1.
        object: u32,
        /// The object that it stands below, if it does.
        parent: Option<u32>,
        /// Its mark, if it has one.
        section: Option<u32>,
    },
    /// Takes an object away, and all below it.
    RemoveObject {
        /// The scene.
        scene: u8,
        /// The object.
        object: u32,
    },
    /// Puts an object below another one, or below none.
    SetParent {
        /// The scene.
        scene: u8,
        /// The object.
        object: u32,
        /// The object that it stands below from now on.
        parent: Option<u32>,
    },
    /// Gives an object a mark, or takes it away.
    SetSection {
        /// The scene.
        scene: u8,
        /// The object.
        object: u32,
        /// Its mark from now on.
        section: Option<u32>,
    },
    /// Gives an object a component, in place of the one of the type if there is one.
    PutComponent {
        /// The scene.
        scene: u8,
        /// The object.
        object: u32,
        /// The name of the authoring type.
        kind: Text,
        /// Values; a field that isn't named is 0 or null.
        fields: Items<RawField>,
    },
    /// Takes a component away.
    RemoveComponent {
        /// The scene.
        scene: u8,
        /// The object.
        object: u32,
        /// The name of the authoring type.
        kind: Text,
    },
    /// Gives a field of a component another value.
    SetField {
        /// The scene.
        scene: u8,
        /// The object.
        object: u32,
        /// The name of the authoring type.
        kind: Text,
        /// The name of the field.
        field: Text,
        /// Its value from now on.
        value: Raw,
    },
    /// Makes an asset, in place of the one of the number if there is one.
    PutAsset {
        /// The asset's number, from 1.
        asset: u32,
        /// Values; a field that isn't named is 0 or null.
        fields: Items<RawField>,
    },
    /// Takes an asset away.
    RemoveAsset {
        /// The asset.
        asset: u32,
    },
    /// Gives a field of an asset another value.
    SetAssetField {
        /// The asset.
        asset: u32,
        /// The name of the field.
        field: Text,
        /// Its value from now on.
        value: Raw,
    },
}

/// Why an edit is refused.
#[derive(Clone, Copy, Debug, PartialEq, Eq)]
pub enum EditFault {
    /// There was no memory for it.
    Memory,
    /// The scene isn't there.
    NoScene,
    /// The scene to be made is there.
    SceneTaken,
    /// The object isn't in the scene.
    NoObject,
    /// The object to be made is in the scene.
    ObjectTaken,
    /// The parent isn't in the scene.
    NoParent,
    /// The parent is the object itself, or stands below it.
    Cycle,
    /// No authoring type has the name.
    NoType,
    /// The object has no component of the type.
    NoComponent,
    /// No field has the name.
    NoField,
    /// A value doesn't fit its field.
    BadValue {
        /// The place of the first such field in its list, from 0.
        index: usize,
    },
    /// The asset isn't there.
    NoAsset,
    /// It would be asset 4,097.
    AssetLimit,
    /// It would be object 16,385 of its scene, or component 17 of its object.
    ObjectLimit,
    /// An object would stand deeper than 64; one that is below none has depth 1.
    DepthLimit,
    /// The mark is above 63.
    SectionRange,
}

impl From<Memory> for EditFault {
    ghost use Rattle.std.specs.Prelude.{◌≡◌};
    ghost use Rattle.eb_scene.specs.declared.edits.EditFault.TheVariants as fault;

    ghost from_gives = { λ _ e. e ≡ fault.Memory };

    fn from(_: Memory) -> Self {
        EditFault::Memory
    }
}
