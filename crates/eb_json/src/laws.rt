// A law of documents. It does nothing: it states what a definition means.
ghost use Rattle.std.specs.Prelude.{◌≡◌, ℕ, List, bytes_eq, is_some, true};
ghost use Rattle.std.specs.List.{list_any, IsDistinct};
ghost use Rattle.serde_json.specs.Data.{Data};
ghost use Rattle.serde_json.specs.Find.{get};
ghost use Rattle.eb_json.specs.Documents.{has_keys};

/// The law that a document that has these keys, which differ from each other, has a member for each of them and
/// no other member.
pub fn keys_are_exact()
    ensures { (keys : List (List ℕ)) (d : Data) (q : List ℕ) → IsDistinct bytes_eq keys → has_keys keys d ≡ true → is_some (get q d) ≡ list_any (bytes_eq q) keys }
{}
