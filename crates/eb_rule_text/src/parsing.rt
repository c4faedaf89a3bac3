// The trees of whole lists of tokens.
ghost use Rattle.std.specs.Prelude.{[]};
ghost use Rattle.eb_rule_text.specs.Blocks as spec;
ghost use Rattle.eb_rule_text.specs.Input.{Reads};

use crate::cursor::Tokens;
use crate::errors::ReadError;
use crate::jobs::one_job;
use crate::lexemes::Lexeme;
use crate::queries::rule_list;
use crate::trees::{JobTree, RulesTree};
use std::alloc::Global;

/// The tree of a text of rules. `Syntax` at the first token that can't follow those before it, `Depth` at one that would open the
/// 33rd level. Takes time linear in the number of tokens. `docs/rules.md`, "Grammar".
#[tactic(auto, unfolding(crate::specs::Blocks::rules))]
pub fn parse_rules(alloc: Global, lexemes: &[Lexeme]) -> Result<RulesTree, ReadError>
    ensures { Reads (spec.rules lexemes.now) result [] }
{
    let mut tokens = Tokens::new(lexemes);
    let rules = rule_list(alloc, &mut tokens)?;
    tokens.end()?;
    Ok(RulesTree { rules })
}

/// The tree of a text of a job, and the same refusals.
#[tactic(auto, unfolding(crate::specs::Blocks::job))]
pub fn parse_job(alloc: Global, lexemes: &[Lexeme]) -> Result<JobTree, ReadError>
    ensures { Reads (spec.job lexemes.now) result [] }
{
    let mut tokens = Tokens::new(lexemes);
    let tree = one_job(alloc, &mut tokens)?;
    tokens.end()?;
    Ok(tree)
}
