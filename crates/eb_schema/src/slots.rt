// The value of one field in a block, and how wide it is.
ghost use Rattle.std.specs.Prelude.{◌≡◌, ◌+◌, ◌≤◌, length};
ghost use Rattle.std.specs.Int.{w16, w32, w64, from_le_bytes};
ghost use Rattle.eb_base.specs.Names.{IsName};
ghost use Rattle.eb_schema.specs.Slots.{width, Fits, slot_bytes, slot_of, entity_bytes, entity_in, name_bytes, name_in, IsEntity};

use crate::kinds::Kind;
use eb_base::{Entity, Name};

/// The value of one field in a block.
#[derive(Clone, Copy, Debug, PartialEq, Eq)]
pub enum Slot {
    /// A whole number, or for a fixed-point field its units of 1/65536.
    Num(i64),
    /// A reference to the entity of this handle.
    Link(Entity),
}

impl Kind {
    /// How many bytes a value of this kind takes in a block; an asset isn't kept in one.
    pub fn width(self) -> usize
        ensures value { result ≡ width self }
        ensures most { result ≤ 12 }
    {
        macro_rules! table {
            ($of:expr; $($kind:ident $bytes:literal),*) => {
                match $of {
                    $(Kind::$kind => $bytes,)*
                }
            };
        }
        table!(self; I8 1, I16 2, I32 4, I64 8, Fix 8, Ref 12, Asset 0)
    }
}

// A number of two bytes, the lower first.
fn read_two(bytes: &[u8]) -> u16
    requires { length bytes.now ≡ 2 }
    ensures { result ≡ from_le_bytes w16 bytes.now }
{
    u16::from_le_bytes([bytes[0], bytes[1]])
}

// A number of four bytes, the lowest first.
fn read_four(bytes: &[u8]) -> u32
    requires { length bytes.now ≡ 4 }
    ensures { result ≡ from_le_bytes w32 bytes.now }
{
    u32::from_le_bytes([bytes[0], bytes[1], bytes[2], bytes[3]])
}

// A number of eight bytes, the lowest first.
fn read_eight(bytes: &[u8]) -> u64
    requires { length bytes.now ≡ 8 }
    ensures { result ≡ from_le_bytes w64 bytes.now }
{
    u64::from_le_bytes([
        bytes[0], bytes[1], bytes[2], bytes[3], bytes[4], bytes[5], bytes[6], bytes[7],
    ])
}

/// Writes a handle into 12 bytes: the index in four, the serial in eight, each with its lowest byte first.
#[tactic(auto, unfolding(crate::specs::Slots::entity_bytes))]
pub fn put_entity(entity: Entity, into: &mut [u8])
    requires { length into.old ≡ 12 }
    ensures bytes { into.new ≡ entity_bytes entity }
    ensures range { IsEntity entity }
{
    let (index, serial) = into.split_at_mut(4);
    index.copy_from_slice(&entity.index.to_le_bytes());
    serial.copy_from_slice(&entity.serial.to_le_bytes());
}

/// The handle that 12 bytes hold.
#[tactic(auto, unfolding(crate::specs::Slots::entity_in))]
pub fn get_entity(from: &[u8]) -> Entity
    requires { length from.now ≡ 12 }
    ensures { result ≡ entity_in from.now }
{
    let (index, serial) = from.split_at(4);
    Entity {
        index: read_four(index),
        serial: read_eight(serial),
    }
}

/// Writes a name into 16 bytes: its four numbers in four bytes each, the lowest first.
#[tactic(auto, unfolding(crate::specs::Slots::name_bytes))]
pub fn put_name(name: Name, into: &mut [u8])
    requires { length into.old ≡ 16 }
    ensures bytes { into.new ≡ name_bytes name }
    ensures range { IsName name }
{
    let (front, back) = into.split_at_mut(8);
    let (play, scene) = front.split_at_mut(4);
    play.copy_from_slice(&name.play.to_le_bytes());
    scene.copy_from_slice(&name.scene.to_le_bytes());
    let (object, extra) = back.split_at_mut(4);
    object.copy_from_slice(&name.object.to_le_bytes());
    extra.copy_from_slice(&name.extra.to_le_bytes());
}

/// The name that 16 bytes hold.
#[tactic(auto, unfolding(crate::specs::Slots::name_in))]
pub fn get_name(from: &[u8]) -> Name
    requires { length from.now ≡ 16 }
    ensures { result ≡ name_in from.now }
{
    let (play, from) = from.split_at(4);
    let (scene, from) = from.split_at(4);
    let (object, extra) = from.split_at(4);
    Name {
        play: read_four(play),
        scene: read_four(scene),
        object: read_four(object),
        extra: read_four(extra),
    }
}

/// Writes the value of a field into as many bytes as its kind is wide, the lowest first. The value fits the kind.
#[tactic(auto, unfolding(crate::specs::Slots::slot_bytes))]
pub fn put_slot(kind: Kind, slot: Slot, into: &mut [u8])
    requires fits { Fits kind slot }
    requires size { length into.old ≡ width kind }
    ensures { into.new ≡ slot_bytes kind slot }
{
    match (kind, slot) {
        (Kind::I8, Slot::Num(number)) => into.copy_from_slice(&(number as i8).to_le_bytes()),
        (Kind::I16, Slot::Num(number)) => into.copy_from_slice(&(number as i16).to_le_bytes()),
        (Kind::I32, Slot::Num(number)) => into.copy_from_slice(&(number as i32).to_le_bytes()),
        (Kind::I64 | Kind::Fix, Slot::Num(number)) => into.copy_from_slice(&number.to_le_bytes()),
        (Kind::Ref, Slot::Link(entity)) => put_entity(entity, into),
        _ => {}
    }
}

/// The value of a field that as many bytes hold as its kind is wide; it fits the kind.
#[tactic(auto, unfolding(crate::specs::Slots::slot_of))]
pub fn get_slot(kind: Kind, from: &[u8]) -> Slot
    requires { length from.now ≡ width kind }
    ensures value { result ≡ slot_of kind from.now }
    ensures fits { Fits kind result }
{
    match kind {
        Kind::I8 => Slot::Num(i64::from(from[0].cast_signed())),
        Kind::I16 => Slot::Num(i64::from(read_two(from).cast_signed())),
        Kind::I32 => Slot::Num(i64::from(read_four(from).cast_signed())),
        Kind::I64 | Kind::Fix => Slot::Num(read_eight(from).cast_signed()),
        Kind::Ref => Slot::Link(get_entity(from)),
        Kind::Asset => Slot::Num(0),
    }
}

/// The law that each value that fits is as wide as its kind, and that what is written reads back.
pub fn slots_read_back()
    ensures size { (kind : Kind) (slot : Slot) → Fits kind slot → length (slot_bytes kind slot) ≡ width kind }
    ensures back { (kind : Kind) (slot : Slot) → Fits kind slot → slot_of kind (slot_bytes kind slot) ≡ slot }
    ensures entities { (entity : Entity) → IsEntity entity → entity_in (entity_bytes entity) ≡ entity }
    ensures names { (name : Name) → IsName name → name_in (name_bytes name) ≡ name }
{}
