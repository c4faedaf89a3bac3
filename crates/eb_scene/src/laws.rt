// Laws of projects and their edits. They do nothing: each states what its definitions mean.
ghost use Rattle.std.specs.Prelude.{◌≡◌, [], Ok, true, false};
ghost use Rattle.std.specs.Bool.{Decides};
ghost use Rattle.eb_schema.specs.Schemas.{Types};
ghost use Rattle.eb_scene.specs.declared.keys.Key.{Key};
ghost use Rattle.eb_scene.specs.declared.edits.Edit.{Edit};
ghost use Rattle.eb_scene.specs.Projects.{Content, IsAscending};
ghost use Rattle.eb_scene.specs.Edits.{edited};
ghost use Rattle.eb_scene.specs.Touched.{touched};
ghost use Rattle.eb_scene.specs.Answers.{answer, same_key, has_key, has_scene_of, has_object_of};

/// The law that a key that an edit doesn't touch answers after it as before. It holds of the keys of a scene that is
/// there after the edit, and of assets. Of an object that the edit makes one key answers otherwise without being
/// touched: that of its parent, which therefore asks for an object that was there.
pub fn edits_touch_what_they_change()
    ensures { (g h : Content) (e : Edit) (k : Key) → IsAscending g → edited g e ≡ Ok h → has_scene_of h k ≡ true → has_object_of g k ≡ true
        → has_key (touched g e) k ≡ false → answer h k ≡ answer g k }
{}

/// The law that all lists of a project ascend: they do where nothing is there, and an edit leaves them so.
pub fn lists_ascend()
    ensures empty { (types : Types) → IsAscending (record { schema = types; scenes = []; assets = [] }) }
    ensures edited { (g h : Content) (e : Edit) → IsAscending g → edited g e ≡ Ok h → IsAscending h }
{}

/// The law that the test of equal keys holds exactly where they are equal.
pub fn keys_are_told_apart()
    ensures { (j k : Key) → Decides (same_key j k) (j ≡ k) }
{}
