// Which run is meant.

/// A run: a baker on an object.
#[derive(Clone, Copy, PartialEq, Eq)]
pub struct RunId {
    /// The scene, 1 to 16.
    pub scene: u8,
    /// The object's number.
    pub object: u32,
    /// The baker: 1 to 64, or 0 for the copy baker.
    pub baker: u8,
}
