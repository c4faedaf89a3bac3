// The words that name an edit in its document.
ghost use Rattle.std.specs.Prelude.{◌≡◌};
ghost use Rattle.eb_scene_text.specs.Words.{scene_word, value_word, word_of};

/// What an edit's member `do` can say.
#[derive(Clone, Copy)]
pub enum Word {
    AddScene,
    RemoveScene,
    AddObject,
    RemoveObject,
    SetParent,
    SetSection,
    PutComponent,
    RemoveComponent,
    SetField,
    PutAsset,
    RemoveAsset,
    SetAssetField,
}

/// A word of scenes and objects.
fn scene_word(text: &str) -> Option<Word>
    ensures { result ≡ scene_word text.now }
{
    if text == "add_scene" {
        Some(Word::AddScene)
    } else if text == "remove_scene" {
        Some(Word::RemoveScene)
    } else if text == "add_object" {
        Some(Word::AddObject)
    } else if text == "remove_object" {
        Some(Word::RemoveObject)
    } else if text == "set_parent" {
        Some(Word::SetParent)
    } else if text == "set_section" {
        Some(Word::SetSection)
    } else {
        None
    }
}

/// A word of components and assets.
fn value_word(text: &str) -> Option<Word>
    ensures { result ≡ value_word text.now }
{
    if text == "put_component" {
        Some(Word::PutComponent)
    } else if text == "remove_component" {
        Some(Word::RemoveComponent)
    } else if text == "set_field" {
        Some(Word::SetField)
    } else if text == "put_asset" {
        Some(Word::PutAsset)
    } else if text == "remove_asset" {
        Some(Word::RemoveAsset)
    } else if text == "set_asset_field" {
        Some(Word::SetAssetField)
    } else {
        None
    }
}

/// The word that a text is; none exactly where it names no edit. Takes no memory.
#[tactic(auto, unfolding(crate::specs::Words::word_of))]
pub fn word_of(text: &str) -> Option<Word>
    ensures { result ≡ word_of text.now }
{
    match scene_word(text) {
        Some(word) => Some(word),
        None => value_word(text),
    }
}
