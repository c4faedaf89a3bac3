// How many objects and assets there may be.
ghost use Rattle.std.specs.Prelude.{◌≤◌};

use crate::edit_texts::{ARMS, SCENE};
use crate::making::edited;
use eb_base::Items;
use eb_scene::{Edit, EditFault, Key, Project};
use std::alloc::Global;

/// Makes an object without a mark.
fn add(project: &mut Project, object: u32, parent: Option<u32>) -> Result<Vec<Key>, EditFault>
    requires { 1 ≤ object }
{
    project.edit(&Edit::AddObject {
        scene: 1,
        object,
        parent,
        section: None,
    })
}

/// A project of 16,384 objects, each below the one of half its number.
fn full(alloc: Global) -> Option<Project> {
    let mut project = edited(alloc, ARMS, &[SCENE])?;
    add(&mut project, 1, None).ok()?;
    for object in 2..16385 {
        add(&mut project, object, Some(object / 2)).ok()?;
    }
    Some(project)
}

/// The rule that one more object breaks, and how many are left without object 2.
fn full_facts(alloc: Global) -> Option<(Option<EditFault>, usize)> {
    let mut project = full(alloc)?;
    let refusal = add(&mut project, 20000, None).err();
    let edit = Edit::RemoveObject {
        scene: 1,
        object: 2,
    };
    project.edit(&edit).ok()?;
    Some((refusal, project.objects(1).len()))
}

#[test]
fn a_full_scene_takes_no_object_and_loses_half_of_its_own(rt: HostRuntime) {
    let wanted = Some((Some(EditFault::ObjectLimit), 8192));
    assert!(rt; full_facts(rt.alloc()) == wanted);
}

/// Makes an asset.
fn put_asset(alloc: Global, project: &mut Project, asset: u32) -> Result<Vec<Key>, EditFault>
    requires { 1 ≤ asset }
{
    let fields = Items::new(alloc);
    project.edit(&Edit::PutAsset { asset, fields })
}

/// The rule that asset 4,097 breaks.
fn asset_limit(alloc: Global) -> Option<Option<EditFault>> {
    let mut project = edited(alloc, ARMS, &[SCENE])?;
    for asset in 1..4097 {
        put_asset(alloc, &mut project, asset).ok()?;
    }
    Some(put_asset(alloc, &mut project, 4097).err())
}

#[test]
fn assets_end_at_4096(rt: HostRuntime) {
    assert!(rt; asset_limit(rt.alloc()) == Some(Some(EditFault::AssetLimit)));
}
