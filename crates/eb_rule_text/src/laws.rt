// What holds of tokens, and that the reader and the grammar are one.
ghost use Rattle.std.specs.Prelude.{◌≡◌, ◌<◌, [], ℕ, List, length, Ok};
ghost use Rattle.eb_base.specs.TypeNames.{is_reserved};
ghost use Rattle.eb_rule_text.specs.Blocks as spec;
ghost use Rattle.eb_rule_text.specs.Counts.{FindsSpan, ReadsSpan, TargetsSpan};
ghost use Rattle.eb_rule_text.specs.OneToken.{TakesLongest};
ghost use Rattle.eb_rule_text.specs.Tokens.{cut, is_found, keyword};
ghost use Rattle.eb_rule_text.specs.Grammar.{IsJob, IsRules};
ghost use Rattle.eb_rule_text.specs.Input.{Input};
ghost use Rattle.eb_rule_text.specs.Passes.{placed, read_text};
ghost use Rattle.eb_rule_text.specs.Printing.{job_text, rules_text};
ghost use Rattle.eb_rule_text.specs.Refusing.{NoneGoesOn};
ghost use Rattle.eb_rule_text.specs.declared.errors.ReadError.TheVariants.{Depth, Syntax};
ghost use Rattle.eb_rule_text.specs.declared.trees.JobTree.{JobTree};
ghost use Rattle.eb_rule_text.specs.declared.trees.RulesTree.{RulesTree};

/// The law that what is read is in the grammar, with the tree that was read.
pub fn read_is_in_grammar()
    ensures rules { (i j : Input) (x : RulesTree) → spec.rules i ≡ Ok (x, j) → IsRules i x }
    ensures job { (i j : Input) (x : JobTree) → spec.job i ≡ Ok (x, j) → IsJob i x }
{}

/// The law that what is in the grammar is read, as that tree. So a list of tokens has at most one tree, and what is refused has none.
pub fn grammar_is_read()
    ensures rules { (i : Input) (x : RulesTree) → IsRules i x → spec.rules i ≡ Ok (x, []) }
    ensures job { (i : Input) (x : JobTree) → IsJob i x → spec.job i ≡ Ok (x, []) }
{}

/// The law that a tree that was read from a text is read again from the text that it is printed as.
pub fn printed_reads_back()
    ensures rules { (text : List ℕ) (x : RulesTree) (places : List ℕ) → read_text spec.rules text ≡ Ok (placed x places)
        → (more : List ℕ) × (read_text spec.rules (rules_text x) ≡ Ok (placed x more)) }
    ensures job { (text : List ℕ) (x : JobTree) (places : List ℕ) → read_text spec.job text ≡ Ok (placed x places)
        → (more : List ℕ) × (read_text spec.job (job_text x) ≡ Ok (placed x more)) }
{}

/// The law that the words that tokens keep are those that no type or field may have as its name.
pub fn words_are_reserved()
    ensures { (word : List ℕ) → is_reserved word ≡ is_found (keyword word) }
{}

/// The law that the longest token is taken: where a token is cut from the front of a text, it is one word, number or sign, and no
/// longer front of the text is one. Where none is cut, as at a blank, a comment or a byte that begins nothing, no front is one.
pub fn the_longest_token_is_taken()
    ensures { (z : List ℕ) → 0 < length z → TakesLongest (cut z) z }
{}

/// The law that between the tokens from a read or a target on and those behind it stand as many as it is spelled with.
pub fn tokens_are_counted()
    ensures reads { ReadsSpan }
    ensures finds { FindsSpan }
    ensures targets { TargetsSpan }
{}

/// The law that where a token is refused, nothing in the grammar begins with the tokens before it and with that one.
pub fn refused_tokens_follow_nowhere()
    ensures rules { NoneGoesOn Syntax spec.rules IsRules × NoneGoesOn Depth spec.rules IsRules }
    ensures job { NoneGoesOn Syntax spec.job IsJob × NoneGoesOn Depth spec.job IsJob }
{}
