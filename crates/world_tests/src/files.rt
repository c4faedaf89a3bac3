// Files of sections that no run publishes yet: their headers name the scene and the section.
ghost use Rattle.std.specs.Prelude.{◌<◌, ◌≤◌};

use eb_base::{Items, Place};
use eb_file::{Image, encode};
use eb_schema::Schema;
use std::alloc::Global;
use std::test::*;

/// The file of a section without rows.
fn empty_file(alloc: Global, scene: u8, section: u8) -> Option<Vec<u8>>
    requires some { 0 < scene }
    requires scene { scene ≤ 16 }
    requires section { section ≤ 63 }
{
    let schema = Schema::plain(alloc).ok()?;
    let image = Image {
        place: Place { scene, section },
        rows: Items::new(alloc),
    };
    encode(alloc, &schema, &image).ok()
}

const OF_SCENE_3: [u8; 20] = [
    0x45, 0x42, 0x53, 0x46, 1, 0, 3, 5, 0, 0, 0, 0, 0, 0, 0, 0, 0, 0, 0, 0,
];

const OF_SCENE_16: [u8; 20] = [
    0x45, 0x42, 0x53, 0x46, 1, 0, 16, 63, 0, 0, 0, 0, 0, 0, 0, 0, 0, 0, 0, 0,
];

#[test]
fn a_header_names_scene_and_section(rt: HostRuntime) -> Result<(), Fail> {
    let file = empty_file(rt.alloc(), 3, 5).ok_or("no file")?;
    assert!(rt; file.as_slice() == OF_SCENE_3.as_slice());
    let file = empty_file(rt.alloc(), 16, 63).ok_or("no file")?;
    assert!(rt; file.as_slice() == OF_SCENE_16.as_slice());
    Ok(())
}
