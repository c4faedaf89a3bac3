// What a scene is made of: objects, their components, and the values of these.
use eb_base::{AuthorNo, Items};

/// The value of one field of a component or of an asset.
#[derive(Clone, Copy, Debug, PartialEq, Eq)]
pub enum Given {
    /// A number; in a fixed-point field its units of 1/65536.
    Num(i64),
    /// A reference to the object of this number in the same scene, which need not be there.
    Object(u32),
    /// The asset of this number, which need not be there.
    Asset(u32),
    /// No object, or no asset.
    Null,
}

/// A component of an object.
#[derive(Drop)]
pub struct Part {
    /// Its authoring type.
    pub kind: AuthorNo,
    /// One value for each field of the type, in the order of the schema.
    pub values: Items<Given>,
}

/// An object of a scene.
#[derive(Drop)]
pub struct Object {
    /// Its number, different from those of the other objects of its scene.
    pub number: u32,
    /// The object that it stands below, if it does.
    pub parent: Option<u32>,
    /// The section that it begins for itself and all below it, 0 to 63, if it does.
    pub mark: Option<u8>,
    /// Its components, ascending by type, at most 16.
    pub components: Items<Part>,
}
