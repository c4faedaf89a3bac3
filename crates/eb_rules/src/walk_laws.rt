// What the walk over a tree says of its tokens.
ghost use Rattle.std.specs.Prelude.{ℕ, List, []};
ghost use Rattle.eb_rule_text.specs.Grammar.{IsJob, IsLevel, IsRules};
ghost use Rattle.eb_rule_text.specs.Input.{Input};
ghost use Rattle.eb_rule_text.specs.declared.trees.Expr.{Expr};
ghost use Rattle.eb_rule_text.specs.declared.trees.JobTree.{JobTree};
ghost use Rattle.eb_rule_text.specs.declared.trees.RulesTree.{RulesTree};
ghost use Rattle.eb_rules.specs.Following.{Follows};
ghost use Rattle.eb_rules.specs.Jobs.{job_typed};
ghost use Rattle.eb_rules.specs.Meanings.{expr_meant, job_meant, rules_plan};
ghost use Rattle.eb_rules.specs.Queries.{no_rules, rules_typed};
ghost use Rattle.eb_rules.specs.Scopes.{Where};
ghost use Rattle.eb_rules.specs.Typing.{typed};
ghost use Rattle.eb_schema.specs.Schemas.{Types};

/// The law that the walk over a tree whose tokens are in the grammar answers what the tree means apart from places, and ends exactly
/// behind its tokens; or that the tree means nothing, and the refusal's place is that of the token that it means.
pub fn walks_follow_their_tokens()
    ensures expr { (w : Where) (n d : ℕ) (i j : Input) (x : Expr) (p : List ℕ) → IsLevel w.context n d i x j → Follows (typed w x p) (expr_meant w x) i j p }
    ensures rules { (types : Types) (tree : RulesTree) (i : Input) (p : List ℕ) → IsRules i tree → Follows (rules_typed types tree.rules no_rules p) (rules_plan types tree) i [] p }
    ensures job { (types : Types) (tree : JobTree) (i : Input) (p : List ℕ) → IsJob i tree → Follows (job_typed types tree p) (job_meant types tree) i [] p }
{}
