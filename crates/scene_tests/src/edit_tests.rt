// What stands in a small project behind its edits, and which keys they touch.
use crate::edit_texts::*;
use crate::making::{apply, edited};
use eb_base::AuthorNo;
use eb_scene::{Given, Key, Project};
use std::alloc::Global;

const MOVED: [Key; 3] = [
    Key::Parent {
        scene: 1,
        object: 6,
    },
    Key::Children {
        scene: 1,
        object: 4,
    },
    Key::Children {
        scene: 1,
        object: 3,
    },
];

const REMOVED: [Key; 8] = [
    Key::Exists {
        scene: 1,
        object: 4,
    },
    Key::Parent {
        scene: 1,
        object: 4,
    },
    Key::Children {
        scene: 1,
        object: 4,
    },
    Key::Exists {
        scene: 1,
        object: 6,
    },
    Key::Parent {
        scene: 1,
        object: 6,
    },
    Key::Children {
        scene: 1,
        object: 6,
    },
    Key::Comp {
        scene: 1,
        object: 6,
        kind: AuthorNo::FIRST,
    },
    Key::Children {
        scene: 1,
        object: 5,
    },
];

/// Whether an edit touches these keys behind others.
fn touches(alloc: Global, before: &[&str], edit: &str, wanted: &[Key]) -> Option<bool> {
    let mut project = edited(alloc, ARMS, before)?;
    let keys = apply(alloc, &mut project, edit)?.ok()?;
    Some(keys.as_slice() == wanted)
}

#[test]
fn edits_answer_the_keys_that_they_touch(rt: HostRuntime) {
    let asset = [Key::Asset { asset: 2 }];
    assert_eq!(rt;
        touches(rt.alloc(), &FAMILY, OBJECT_6_BELOW_3, &MOVED),
        Some(true)
    );
    assert_eq!(rt;
        touches(rt.alloc(), &ARMED, NO_OBJECT_4, &REMOVED),
        Some(true)
    );
    assert_eq!(rt;
        touches(rt.alloc(), &EQUIPPED, NO_ASSET_2, &asset),
        Some(true)
    );
}

/// Edits, an object or none, and the objects right below it, or all of scene 1.
type Listed = (&'static [&'static str], Option<u32>, &'static [u32]);

const MOVED_EDITS: [&str; 6] = [
    SCENE,
    OBJECT_5,
    OBJECT_4,
    OBJECT_3,
    OBJECT_6,
    OBJECT_6_BELOW_3,
];

const REMOVED_EDITS: [&str; 6] = [SCENE, OBJECT_5, OBJECT_4, OBJECT_3, OBJECT_6, NO_OBJECT_4];

const OBJECTS: [Listed; 6] = [
    (&FAMILY, None, &[3, 4, 5, 6]),
    (&FAMILY, Some(5), &[3, 4]),
    (&MOVED_EDITS, Some(4), &[]),
    (&MOVED_EDITS, Some(3), &[6]),
    (&REMOVED_EDITS, None, &[3, 5]),
    (&REMOVED_EDITS, Some(5), &[3]),
];

/// Whether the objects of a project are these.
fn lists(alloc: Global, edits: &[&str], parent: Option<u32>, wanted: &[u32]) -> Option<bool> {
    let project = edited(alloc, ARMS, edits)?;
    let found = match parent {
        Some(parent) => project.children(1, parent),
        None => project.objects(1),
    };
    Some(found == wanted)
}

/// The place of the first case that lists other objects.
fn other_list(alloc: Global, cases: &[Listed]) -> Option<usize> {
    for (index, (edits, parent, wanted)) in cases.iter().enumerate() {
        if lists(alloc, edits, *parent, wanted) != Some(true) {
            return Some(index);
        }
    }
    None
}

#[test]
fn objects_and_children_ascend(rt: HostRuntime) {
    assert_eq!(rt; other_list(rt.alloc(), &OBJECTS), None);
}

/// The parent of object 6, and that which the object itself says; how many fields assets have; whether a scene is there
/// that went.
fn family_facts(alloc: Global) -> Option<(Option<u32>, Option<u32>, usize, bool)> {
    let project = edited(alloc, ARMS, &FAMILY)?;
    let ended = edited(alloc, ARMS, &[SCENE, NO_SCENE])?;
    Some((
        project.parent(1, 6),
        project.object(1, 6)?.parent,
        project.schema().asset_fields().len(),
        ended.has_scene(1),
    ))
}

#[test]
fn objects_answer_what_was_set(rt: HostRuntime) {
    assert_eq!(rt;
        family_facts(rt.alloc()),
        Some((Some(4), Some(4), 1, false))
    );
}

/// The sections of object 6, of object 3 and of none, where 4 begins section 63.
fn sections(alloc: Global) -> Option<[Option<u8>; 3]> {
    let edits = [SCENE, OBJECT_5, OBJECT_4, OBJECT_3, OBJECT_6, MARK_63];
    let project = edited(alloc, ARMS, &edits)?;
    Some([
        project.section_of(1, 6),
        project.section_of(1, 3),
        project.section_of(1, 9),
    ])
}

#[test]
fn a_mark_begins_a_section(rt: HostRuntime) {
    assert_eq!(rt; sections(rt.alloc()), Some([Some(63), Some(0), None]));
}

/// Whether object 6 has a gun with these values.
fn has_gun(project: &Project, wanted: &[Given]) -> bool {
    match project.component(1, 6, AuthorNo::FIRST) {
        Some(gun) => gun.values.items() == wanted,
        None => false,
    }
}

/// Whether the gun of object 6 has the rank that was set and its model, and whether there is one after it was taken away.
fn gun_facts(alloc: Global) -> Option<(bool, bool)> {
    let ranked = [SCENE, OBJECT_5, OBJECT_4, OBJECT_3, OBJECT_6, GUN, RANK];
    let mut project = edited(alloc, ARMS, &ranked)?;
    let set = has_gun(&project, &[Given::Asset(2), Given::Num(4)]);
    apply(alloc, &mut project, NO_GUN)?.ok()?;
    Some((set, project.component(1, 6, AuthorNo::FIRST).is_some()))
}

#[test]
fn values_are_set_and_go(rt: HostRuntime) {
    assert_eq!(rt; gun_facts(rt.alloc()), Some((true, false)));
}

/// Whether asset 2 is the one asset, and whether it has the power that was set.
fn asset_facts(alloc: Global) -> Option<(bool, bool)> {
    let project = edited(alloc, ARMS, &EQUIPPED)?;
    let values = project.asset(2)?;
    Some((
        project.assets() == [2].as_slice(),
        values == [Given::Num(8)].as_slice(),
    ))
}

#[test]
fn assets_are_listed_with_their_values(rt: HostRuntime) {
    assert_eq!(rt; asset_facts(rt.alloc()), Some((true, true)));
}
