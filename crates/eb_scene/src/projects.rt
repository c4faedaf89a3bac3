// The project: what can be asked of it, and its edits.
ghost use Rattle.std.specs.Prelude.{◌≡◌, [], is_some, option_map, IfOk, OnOk, OnErr};
ghost use Rattle.std.specs.Option.{option_copied};
ghost use Rattle.std.specs.Map.{keys_of};
ghost use Rattle.std.specs.List.Sorted.{IsStrictlySortedBy};
ghost use Rattle.std.specs.Ordering.{nat_cmp};
ghost use Rattle.eb_scene.specs.declared.keys.Key.TheVariants as key;
ghost use Rattle.eb_scene.specs.Projects.{numbered, objects_of, object_in, part_in, section_in};
ghost use Rattle.eb_scene.specs.Tables.{with_numbered};
ghost use Rattle.eb_scene.specs.Edits.{Tells, scene_added, scene_removed, on_scene, object_added, object_removed, parent_set, section_set, component_put, component_removed, field_set, asset_put, asset_removed, asset_field_set, edited};
ghost use Rattle.eb_scene.specs.Touched.{touched, removed_keys, moved_keys, objects_gone, gone_from};
ghost use Rattle.eb_scene.specs.Validity.{IsSceneNumber, IsNumber, IsValid, IsEdit};
ghost use Rattle.eb_scene.specs.Answers.{answer, Values, Above, Below, There};

use crate::assets::Assets;
use crate::component_edits::{put_component, remove_component, set_field};
use crate::edits::{Edit, EditFault, Raw, RawField};
use crate::fits::{field_fitted, fitted};
use crate::keys::Key;
use crate::objects::{Given, Object, Part};
use crate::parts::part_of;
use crate::scene_edits::{add_object, remove_object, set_parent, set_section};
use crate::scenes::Scene;
use crate::touching::{added_keys, moved_keys, part_key, removed_keys, single_key};
use crate::tree::{MOST_DEPTH, section, subtree};
use eb_base::{AuthorNo, Memory};
use eb_schema::Schema;
use std::alloc::Global;
use std::collections::BTreeMap;
use std::marker::Model;

/// Most assets of a project.
const MOST_ASSETS: usize = 4096;

/// A project: a schema, scenes and assets. Contracts see these, all under their numbers in ascending order, and know
/// that the project is valid.
#[derive(Drop)]
pub struct Project {
    schema: Schema,
    scenes: BTreeMap<u8, Scene>,
    assets: Assets,
    alloc: Global,
}

impl Model for Project {
    ghost use Rattle.eb_scene.specs.Projects.{Content};
    ghost use Rattle.eb_scene.specs.Validity.{IsValid};

    ghost Value = { Content };

    ghost view = { λ p. record { schema = p.schema; scenes = p.scenes.entries; assets = p.assets } };

    ghost invariant = { λ p. IsValid (record { schema = p.schema; scenes = p.scenes.entries; assets = p.assets }) };
}

impl Project {
    /// The project of this schema without scenes and assets. Takes no memory; `alloc` is what its edits take theirs of.
    pub fn open(alloc: Global, schema: Schema) -> Self
        ensures { result ≡ record { schema = schema; scenes = []; assets = [] } }
    {
        Project {
            schema,
            scenes: BTreeMap::new(alloc),
            assets: Assets::new(alloc),
            alloc,
        }
    }

    /// The schema. Takes no memory.
    pub fn schema(&self) -> &Schema
        ensures schema { result.now ≡ self.now.schema }
        ensures valid { IsValid self.now }
    {
        &self.schema
    }

    /// Whether a scene is there. Takes no memory.
    pub fn has_scene(&self, scene: u8) -> bool
        ensures { result ≡ is_some (numbered self.now.scenes scene) }
    {
        self.scenes.get(&scene).is_some()
    }

    /// The numbers of the scenes, ascending.
    pub fn scenes(&self) -> Result<Vec<u8>, Memory>
        ensures numbers { IfOk result (λ scenes. scenes.items ≡ keys_of self.now.scenes) }
        ensures order { IsStrictlySortedBy nat_cmp (keys_of self.now.scenes) }
    {
        let scenes = self.scenes.keys().copied().collect(self.alloc)?;
        Ok(scenes)
    }

    /// The numbers of the objects of a scene, ascending; none where the scene isn't there. Takes no memory.
    pub fn objects(&self, scene: u8) -> &[u32]
        ensures { result.now ≡ keys_of (objects_of self.now scene) }
    {
        match self.scenes.get(&scene) {
            Some(scene) => scene.numbers(),
            None => &[],
        }
    }

    /// An object; none exactly where it isn't in the scene. Takes no memory.
    pub fn object(&self, scene: u8, object: u32) -> Option<&Object>
        ensures object { option_copied result ≡ object_in self.now scene object }
        ensures answer { answer self.now (key.Exists scene object) ≡ There (is_some result) }
    {
        match self.scenes.get(&scene) {
            Some(scene) => scene.get(object),
            None => None,
        }
    }

    /// The parent of an object; none exactly where it has none or isn't there. Takes no memory.
    pub fn parent(&self, scene: u8, object: u32) -> Option<u32>
        ensures { answer self.now (key.Parent scene object) ≡ Above result }
    {
        match self.scenes.get(&scene) {
            Some(scene) => scene.parent(object),
            None => None,
        }
    }

    /// The numbers of the objects right below one, ascending; none where it isn't there. Takes no memory.
    pub fn children(&self, scene: u8, object: u32) -> &[u32]
        ensures { answer self.now (key.Children scene object) ≡ Below result.now }
    {
        match self.scenes.get(&scene) {
            Some(scene) => scene.children(object),
            None => &[],
        }
    }

    /// A component; none exactly where the object has none of the type or isn't there. Takes no memory.
    pub fn component(&self, scene: u8, object: u32, kind: AuthorNo) -> Option<&Part>
        ensures part { option_copied result ≡ part_in self.now scene object kind }
        ensures answer { answer self.now (key.Comp scene object kind) ≡ Values (option_map (λ p. p.now.values) result) }
    {
        match self.object(scene, object) {
            Some(object) => part_of(object.components.items(), kind),
            None => None,
        }
    }

    /// The section of an object, that of the nearest mark upward, itself first, or else 0; none exactly where the
    /// object isn't there. Takes no memory.
    pub fn section_of(&self, scene: u8, object: u32) -> Option<u8>
        ensures { result ≡ section_in self.now scene object }
    {
        let scene = self.scenes.get(&scene)?;
        if scene.has(object) {
            Some(section(scene, object))
        } else {
            None
        }
    }

    /// The values of an asset; none exactly where it isn't there. Takes no memory.
    pub fn asset(&self, asset: u32) -> Option<&[Given]>
        ensures { answer self.now (key.Asset asset) ≡ Values (option_copied result) }
    {
        self.assets.get(asset)
    }

    /// The numbers of the assets, ascending. Takes no memory.
    pub fn assets(&self) -> &[u32]
        ensures { result.now ≡ keys_of self.now.assets }
    {
        self.assets.numbers()
    }

    /// Begins a scene. Where there is no memory, nothing changes.
    fn begin_scene(&mut self, scene: u8) -> Result<(), Memory>
        requires { IsSceneNumber scene }
        ensures ok { OnOk result (self.new ≡ record self.old { scenes = with_numbered self.old.scenes scene [] }) }
        ensures err { OnErr result (self.new ≡ self.old) }
    {
        self.scenes.insert(scene, Scene::new(self.alloc))?;
        Ok(())
    }

    /// Makes an empty scene. `SceneTaken` comes exactly where it is there.
    fn add_scene(&mut self, scene: u8) -> Result<(), EditFault>
        requires { IsSceneNumber scene }
        ensures { Tells result self.old self.new (scene_added self.old scene) }
    {
        if self.has_scene(scene) {
            return Err(EditFault::SceneTaken);
        }
        self.begin_scene(scene)?;
        Ok(())
    }

    /// Takes a scene away, with all that is in it. `NoScene` comes exactly where it isn't there.
    fn remove_scene(&mut self, scene: u8) -> Result<(), EditFault>
        ensures { Tells result self.old self.new (scene_removed self.old scene) }
    {
        if !self.has_scene(scene) {
            return Err(EditFault::NoScene);
        }
        self.scenes.remove(&scene);
        Ok(())
    }

    /// Makes an object without components.
    fn add_object(
        &mut self,
        scene: u8,
        object: u32,
        parent: Option<u32>,
        section: Option<u32>,
    ) -> Result<(), EditFault>
        requires { IsNumber object }
        ensures { Tells result self.old self.new (on_scene self.old scene (λ es. object_added es object parent section)) }
    {
        match self.scenes.get_mut(&scene) {
            Some(found) => add_object(found, self.alloc, object, parent, section),
            None => Err(EditFault::NoScene),
        }
    }

    /// Gives an object a mark, or takes it away.
    fn set_section(&mut self, scene: u8, object: u32, section: Option<u32>) -> Result<(), EditFault>
        ensures { Tells result self.old self.new (on_scene self.old scene (λ es. section_set es object section)) }
    {
        match self.scenes.get_mut(&scene) {
            Some(found) => set_section(found, object, section),
            None => Err(EditFault::NoScene),
        }
    }

    /// Takes an object away, and all below it, which are in `gone`.
    fn remove_object(&mut self, scene: u8, object: u32, gone: Vec<u32>) -> Result<(), EditFault>
        requires { gone.items ≡ gone_from object (numbered self.old.scenes scene) }
        ensures { Tells result self.old self.new (on_scene self.old scene (λ es. object_removed es object)) }
    {
        match self.scenes.get_mut(&scene) {
            Some(found) => remove_object(found, object, gone),
            None => Err(EditFault::NoScene),
        }
    }

    /// Puts an object below another one, or below none.
    fn set_parent(&mut self, scene: u8, object: u32, parent: Option<u32>) -> Result<(), EditFault>
        ensures { Tells result self.old self.new (on_scene self.old scene (λ es. parent_set es object parent)) }
    {
        match self.scenes.get_mut(&scene) {
            Some(found) => set_parent(found, self.alloc, object, parent),
            None => Err(EditFault::NoScene),
        }
    }

    /// Gives an object a component, in place of the one of the type if there is one.
    fn put_component(
        &mut self,
        scene: u8,
        object: u32,
        kind: &[u8],
        fields: &[RawField],
    ) -> Result<(), EditFault>
        ensures { Tells result self.old self.new (on_scene self.old scene (λ es. component_put self.old.schema es object kind.now fields.now)) }
    {
        match self.scenes.get_mut(&scene) {
            Some(found) => { put_component(found, self.alloc, &self.schema, object, kind, fields) }
            None => Err(EditFault::NoScene),
        }
    }

    /// Takes a component away.
    fn remove_component(&mut self, scene: u8, object: u32, kind: &[u8]) -> Result<(), EditFault>
        ensures { Tells result self.old self.new (on_scene self.old scene (λ es. component_removed self.old.schema es object kind.now)) }
    {
        match self.scenes.get_mut(&scene) {
            Some(found) => remove_component(found, &self.schema, object, kind),
            None => Err(EditFault::NoScene),
        }
    }

    /// Gives a field of a component another value.
    fn set_field(
        &mut self,
        scene: u8,
        object: u32,
        kind: &[u8],
        field: &[u8],
        value: Raw,
    ) -> Result<(), EditFault>
        ensures { Tells result self.old self.new (on_scene self.old scene (λ es. field_set self.old.schema es object kind.now field.now value)) }
    {
        match self.scenes.get_mut(&scene) {
            Some(found) => set_field(found, &self.schema, object, kind, field, value),
            None => Err(EditFault::NoScene),
        }
    }

    /// Makes an asset, in place of the one of the number if there is one.
    fn put_asset(&mut self, asset: u32, fields: &[RawField]) -> Result<(), EditFault>
        requires { IsNumber asset }
        ensures { Tells result self.old self.new (asset_put self.old asset fields.now) }
    {
        let values = fitted(self.alloc, self.schema.asset_fields(), fields)?;
        if !self.assets.has(asset) && self.assets.len() >= MOST_ASSETS {
            return Err(EditFault::AssetLimit);
        }
        self.assets.put(asset, values)?;
        Ok(())
    }

    /// Takes an asset away. `NoAsset` comes exactly where it isn't there.
    fn remove_asset(&mut self, asset: u32) -> Result<(), EditFault>
        ensures { Tells result self.old self.new (asset_removed self.old asset) }
    {
        if !self.assets.has(asset) {
            return Err(EditFault::NoAsset);
        }
        self.assets.take(asset);
        Ok(())
    }

    /// Gives a field of an asset another value.
    fn set_asset_field(&mut self, asset: u32, field: &[u8], value: Raw) -> Result<(), EditFault>
        ensures { Tells result self.old self.new (asset_field_set self.old asset field.now value) }
    {
        let (place, value) = field_fitted(self.schema.asset_fields(), field, value)?;
        if !self.assets.has(asset) {
            return Err(EditFault::NoAsset);
        }
        self.assets.set_value(asset, place, value);
        Ok(())
    }

    /// The objects that an edit takes out.
    fn gone(&self, edit: &Edit) -> Result<Vec<u32>, Memory>
        ensures { IfOk result (λ all. all.items ≡ objects_gone self.now edit.now) }
    {
        match edit {
            Edit::RemoveObject { scene, object } => self.gone_from(*scene, *object),
            _ => Ok(Vec::new(self.alloc)),
        }
    }

    /// The objects that go with one, itself first.
    fn gone_from(&self, scene: u8, object: u32) -> Result<Vec<u32>, Memory>
        ensures { IfOk result (λ all. all.items ≡ gone_from object (numbered self.now.scenes scene)) }
    {
        match self.scenes.get(&scene) {
            Some(found) => {
                let all = subtree(found, self.alloc, MOST_DEPTH, object)?;
                Ok(all)
            }
            None => Ok(Vec::new(self.alloc)),
        }
    }

    /// The keys that an edit touches that takes these objects out.
    fn touched(&self, edit: &Edit, gone: &[u32]) -> Result<Vec<Key>, Memory>
        requires { gone.now ≡ objects_gone self.now edit.now }
        ensures { IfOk result (λ keys. keys.items ≡ touched self.now edit.now) }
    {
        let alloc = self.alloc;
        match edit {
            Edit::AddScene { .. } | Edit::RemoveScene { .. } | Edit::SetSection { .. } => {
                Ok(Vec::new(alloc))
            }
            Edit::AddObject {
                scene,
                object,
                parent,
                ..
            } => added_keys(alloc, *scene, *object, *parent),
            Edit::RemoveObject { scene, object } => self.removed(*scene, *object, gone),
            Edit::SetParent {
                scene,
                object,
                parent,
            } => self.moved(*scene, *object, *parent),
            Edit::PutComponent {
                scene,
                object,
                kind,
                ..
            }
            | Edit::RemoveComponent {
                scene,
                object,
                kind,
            }
            | Edit::SetField {
                scene,
                object,
                kind,
                ..
            } => part_key(alloc, &self.schema, *scene, *object, kind.bytes()),
            Edit::PutAsset { asset, .. }
            | Edit::RemoveAsset { asset }
            | Edit::SetAssetField { asset, .. } => single_key(alloc, Key::Asset { asset: *asset }),
        }
    }

    /// The keys that go with an object and all below it.
    fn removed(&self, scene: u8, object: u32, gone: &[u32]) -> Result<Vec<Key>, Memory>
        requires { gone.now ≡ gone_from object (numbered self.now.scenes scene) }
        ensures { IfOk result (λ keys. keys.items ≡ removed_keys scene object (numbered self.now.scenes scene)) }
    {
        match self.scenes.get(&scene) {
            Some(found) => {
                let keys = removed_keys(self.alloc, found, scene, object, gone)?;
                Ok(keys)
            }
            None => Ok(Vec::new(self.alloc)),
        }
    }

    /// The keys of an object that gets another parent.
    fn moved(&self, scene: u8, object: u32, parent: Option<u32>) -> Result<Vec<Key>, Memory>
        ensures { IfOk result (λ keys. keys.items ≡ moved_keys scene object parent (numbered self.now.scenes scene)) }
    {
        match self.scenes.get(&scene) {
            Some(found) => {
                let keys = moved_keys(self.alloc, found, scene, object, parent)?;
                Ok(keys)
            }
            None => Ok(Vec::new(self.alloc)),
        }
    }

    /// Does an edit that takes these objects out.
    fn apply(&mut self, edit: &Edit, gone: Vec<u32>) -> Result<(), EditFault>
        requires fits { IsEdit edit.now }
        requires gone { gone.items ≡ objects_gone self.old edit.now }
        ensures { Tells result self.old self.new (edited self.old edit.now) }
    {
        match edit {
            Edit::AddScene { scene } => self.add_scene(*scene),
            Edit::RemoveScene { scene } => self.remove_scene(*scene),
            Edit::AddObject {
                scene,
                object,
                parent,
                section,
            } => self.add_object(*scene, *object, *parent, *section),
            Edit::RemoveObject { scene, object } => self.remove_object(*scene, *object, gone),
            Edit::SetParent {
                scene,
                object,
                parent,
            } => self.set_parent(*scene, *object, *parent),
            Edit::SetSection {
                scene,
                object,
                section,
            } => self.set_section(*scene, *object, *section),
            Edit::PutComponent {
                scene,
                object,
                kind,
                fields,
            } => self.put_component(*scene, *object, kind.bytes(), fields.items()),
            Edit::RemoveComponent {
                scene,
                object,
                kind,
            } => self.remove_component(*scene, *object, kind.bytes()),
            Edit::SetField {
                scene,
                object,
                kind,
                field,
                value,
            } => self.set_field(*scene, *object, kind.bytes(), field.bytes(), *value),
            Edit::PutAsset { asset, fields } => self.put_asset(*asset, fields.items()),
            Edit::RemoveAsset { asset } => self.remove_asset(*asset),
            Edit::SetAssetField {
                asset,
                field,
                value,
            } => self.set_asset_field(*asset, field.bytes(), *value),
        }
    }

    /// Does an edit, and answers the keys that it touched. Otherwise it answers the first rule that the edit breaks,
    /// in the order of `EditFault`, and nothing changes. The edit's scene is 1 to 16, and its object and its asset
    /// aren't 0.
    pub fn edit(&mut self, edit: &Edit) -> Result<Vec<Key>, EditFault>
        requires { IsEdit edit.now }
        ensures edited { Tells result self.old self.new (edited self.old edit.now) }
        ensures touched { IfOk result (λ keys. keys.items ≡ touched self.old edit.now) }
    {
        let gone = self.gone(edit)?;
        let keys = self.touched(edit, &gone)?;
        self.apply(edit, gone)?;
        Ok(keys)
    }
}
