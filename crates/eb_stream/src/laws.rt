// Laws of loading and unloading, which the layers above cite.
ghost use Rattle.std.specs.Prelude.{◌≡◌, Some, Contains};
ghost use Rattle.std.specs.FinMap as finite;
ghost use Rattle.eb_base.specs.declared.names.Name.{Name};
ghost use Rattle.eb_base.specs.declared.names.Place.{Place};
ghost use Rattle.eb_file.specs.declared.images.Image.{Image};
ghost use Rattle.eb_file.specs.Images.{names_of};
ghost use Rattle.eb_world.specs.Worlds.{Live, Living};
ghost use Rattle.eb_stream.specs.Loading.{AllOf, HasNumbersAlone, loaded, unloaded};

/// Where every entity came from a section, nothing lives once it is unloaded.
pub fn nothing_else_lives()
    ensures { (live : Live) (place : Place) → AllOf (Some place) live → unloaded live place ≡ finite.empty }
{}

/// What lives in an empty world once an image is loaded is one of the image's rows, tagged with its place.
pub fn rows_alone_live()
    ensures { (image : Image) (name : Name) (l : Living) → HasNumbersAlone image → finite.get (loaded finite.empty image) name ≡ Some l → (l.tag ≡ Some image.place) × Contains (names_of image.rows) name }
{}
