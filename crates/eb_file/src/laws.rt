// What holds of spellings as such: laws that the definitions obey.
ghost use Rattle.std.specs.Prelude.{◌≡◌, ℕ, List, [], ◌++◌};
ghost use Rattle.eb_schema.specs.Schemas.{Types};
ghost use Rattle.eb_file.specs.declared.images.Image.{Image};
ghost use Rattle.eb_file.specs.Images.{IsValid, IsPlain};
ghost use Rattle.eb_file.specs.Spelling.{Spells, spelling};

/// Two texts that spell one image are equal. Does nothing.
pub fn one_spelling()
    ensures { (types : Types) (a b : List ℕ) (image : Image)
        → Spells types a image → Spells types b image → a ≡ b }
{}

/// Each image has a spelling. Does nothing.
pub fn has_spelling()
    ensures { (types : Types) (image : Image) → Spells types (spelling types image) image }
{}

/// Two images that one text spells are equal. Does nothing.
pub fn images_apart()
    ensures { (types : Types) (text : List ℕ) (a b : Image)
        → IsValid types a → IsPlain types a → IsValid types b → IsPlain types b
        → Spells types text a → Spells types text b → a ≡ b }
{}

/// No spelling goes on where another ends. Does nothing.
pub fn spellings_end()
    ensures { (types : Types) (text rest : List ℕ) (a b : Image)
        → IsValid types a → IsPlain types a → IsValid types b → IsPlain types b
        → Spells types text a → Spells types (text ++ rest) b → rest ≡ [] }
{}
