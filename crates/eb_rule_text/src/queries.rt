// Queries, bakers, systems, and a whole text of rules.
ghost use Rattle.std.specs.Prelude.{◌≡◌, [], ◌∷◌, true};
ghost use Rattle.eb_rule_text.specs.Blocks as spec;
ghost use Rattle.eb_rule_text.specs.Input.{Reads};

use crate::blocks::block;
use crate::cursor::Tokens;
use crate::errors::ReadError;
use crate::marks::Mark;
use crate::trees::{Baker, Context, Query, Rule, System};
use eb_base::Text;
use sqlite_items::Items;
use std::alloc::Global;

/// How many levels may be open at once.
pub const LEVELS: u8 = 32;

// All names that come next.
fn names_from(alloc: Global, tokens: &mut Tokens<'_>, first: Text) -> Result<Items<Text>, ReadError>
    ensures { Reads (spec.names_from (first ∷ []) tokens.old) result tokens.new }
{
    let mut done = Items::new(alloc);
    done.push(first)?;
    'names: while tokens.sees_name() {
        let name = tokens.name(alloc)?;
        done.push(name)?;
    }
    Ok(done)
}

// One name at least.
fn some_names(alloc: Global, tokens: &mut Tokens<'_>) -> Result<Items<Text>, ReadError>
    ensures { Reads (spec.names_where true tokens.old) result tokens.new }
{
    let first = tokens.name(alloc)?;
    names_from(alloc, tokens, first)
}

// A word and the names behind it, or nothing.
#[tactic(auto, unfolding(crate::specs::Blocks::names))]
fn names(alloc: Global, tokens: &mut Tokens<'_>, word: Mark) -> Result<Items<Text>, ReadError>
    ensures { Reads (spec.names word tokens.old) result tokens.new }
{
    if tokens.eat(word) {
        return some_names(alloc, tokens);
    }
    Ok(Items::new(alloc))
}

/// The three lists of a query.
#[tactic(auto, unfolding(crate::specs::Blocks::query))]
pub fn query(alloc: Global, tokens: &mut Tokens<'_>) -> Result<Query, ReadError>
    ensures { Reads (spec.query tokens.old) result tokens.new }
{
    let all = names(alloc, tokens, Mark::All)?;
    let any = names(alloc, tokens, Mark::Any)?;
    let none = names(alloc, tokens, Mark::None)?;
    Ok(Query { all, any, none })
}

#[tactic(auto, unfolding(crate::specs::Blocks::baker))]
fn baker(alloc: Global, tokens: &mut Tokens<'_>) -> Result<Rule, ReadError>
    ensures { Reads (spec.baker tokens.old) result tokens.new }
{
    tokens.expect(Mark::Baker)?;
    let number = tokens.int()?;
    tokens.expect(Mark::On)?;
    let authoring = tokens.name(alloc)?;
    let body = block(alloc, tokens, Context::Baker, LEVELS)?;
    Ok(Rule::Baker(Baker {
        number,
        authoring,
        body,
    }))
}

#[tactic(auto, unfolding(crate::specs::Blocks::system))]
fn system(alloc: Global, tokens: &mut Tokens<'_>) -> Result<Rule, ReadError>
    ensures { Reads (spec.system tokens.old) result tokens.new }
{
    tokens.expect(Mark::System)?;
    let number = tokens.int()?;
    let query = query(alloc, tokens)?;
    let body = block(alloc, tokens, Context::System, LEVELS)?;
    Ok(Rule::System(System {
        number,
        query,
        body,
    }))
}

#[tactic(auto, unfolding(crate::specs::Blocks::rule))]
fn rule(alloc: Global, tokens: &mut Tokens<'_>) -> Result<Rule, ReadError>
    ensures { Reads (spec.rule tokens.old) result tokens.new }
{
    match tokens.mark() {
        Some(Mark::Baker) => baker(alloc, tokens),
        Some(Mark::System) => system(alloc, tokens),
        _ => Err(tokens.refuse()),
    }
}

/// All rules up to the end.
#[tactic(auto, unfolding(crate::specs::Blocks::rule_list))]
pub fn rule_list(alloc: Global, tokens: &mut Tokens<'_>) -> Result<Items<Rule>, ReadError>
    ensures { Reads (spec.rule_list tokens.old) result tokens.new }
{
    let mut done = Items::new(alloc);
    for _turn in 0..tokens.left() {
        if tokens.left() == 0 {
            return Ok(done);
        }
        let one = rule(alloc, tokens)?;
        done.push(one)?;
    }
    Ok(done)
}
