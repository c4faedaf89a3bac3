// A project's document that has its form: what it writes, in its order, and nothing of it tested further.
use eb_base::{Items, Text};
use eb_scene::RawField;

/// An asset.
#[derive(Drop)]
pub struct DraftAsset {
    pub number: u32,
    pub fields: Items<RawField>,
}

/// A component of an object, under the name of its type.
#[derive(Drop)]
pub struct DraftPart {
    pub kind: Text,
    pub fields: Items<RawField>,
}

/// An object.
#[derive(Drop)]
pub struct DraftObject {
    pub number: u32,
    pub parent: Option<u32>,
    pub section: Option<u32>,
    pub components: Items<DraftPart>,
}

/// A scene.
#[derive(Drop)]
pub struct DraftScene {
    pub number: u8,
    pub objects: Items<DraftObject>,
}

/// A whole project.
#[derive(Drop)]
pub struct DraftProject {
    pub assets: Items<DraftAsset>,
    pub scenes: Items<DraftScene>,
}
