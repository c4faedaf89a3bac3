// What a run of baking may look at in a project.
use eb_base::AuthorNo;

/// What is looked at: each key names one thing of a project, whether it is there or not.
#[derive(Clone, Copy, PartialEq, Eq)]
pub enum Key {
    /// The values of a component of an object.
    Comp {
        /// The scene, 1 to 16.
        scene: u8,
        /// The object's number.
        object: u32,
        /// The authoring type.
        kind: AuthorNo,
    },
    /// The parent of an object.
    Parent {
        /// The scene, 1 to 16.
        scene: u8,
        /// The object's number.
        object: u32,
    },
    /// The objects right below an object.
    Children {
        /// The scene, 1 to 16.
        scene: u8,
        /// The object's number.
        object: u32,
    },
    /// Whether an object is there.
    Exists {
        /// The scene, 1 to 16.
        scene: u8,
        /// The object's number.
        object: u32,
    },
    /// The values of an asset.
    Asset {
        /// The asset's number.
        asset: u32,
    },
}
