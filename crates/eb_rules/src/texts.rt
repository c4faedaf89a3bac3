// Rules of a text.
ghost use Rattle.std.specs.Prelude.{◌≡◌, ◌≤◌, ℕ, List, length, true, Some, MatchResult, Ok, Err, IfOk};
ghost use Rattle.eb_rule_text.specs.Printing as printing;
ghost use Rattle.eb_rule_text.specs.declared.trees.RulesTree.{RulesTree};
ghost use Rattle.eb_rules.specs.Bakers.{numbers_on};
ghost use Rattle.eb_rules.specs.Holds.{rules_hold};
ghost use Rattle.eb_rules.specs.declared.plans.RulesPlan.{RulesPlan};
ghost use Rattle.eb_rules.specs.Meanings.{AreWellTyped, rules_plan};
ghost use Rattle.eb_rules.specs.Queries as spec;
ghost use Rattle.eb_rules.specs.Says.{SaysRules, AreReadAs};
ghost use Rattle.eb_schema.specs.Schemas.{Types};

use crate::bakers::bakers_by_type;
use crate::faults::{Refusal, RuleFault, RuleKind};
use crate::plans::RulesPlan;
use crate::rules::rules_typed;
use crate::walking::WalkError;
use eb_base::{AuthorNo, Items, Memory, Text};
use eb_rule_text::{RulesTree, TextError, print_rules, read_rules};
use eb_schema::Schema;
use std::alloc::Global;
use std::marker::Model;

/// The rules of a project: a tree whose names are there and whose types fit, the tree that evaluation walks, and the schema
/// that both are about. Contracts see the schema and the first tree, and know that some text says it, so that the second one is
/// `rules_plan` of the two.
#[derive(Drop)]
pub struct Rules {
    schema: Schema,
    tree: RulesTree,
    plan: RulesPlan,
    // For each authoring type the numbers of its bakers.
    by_type: Vec<Items<u8>>,
}

impl Model for Rules {
    ghost use Rattle.std.specs.Prelude.{◌≡◌, ℕ, List, Some};
    ghost use Rattle.eb_rules.specs.Bakers.{AreByType};
    ghost use Rattle.eb_rules.specs.Kept.{Kept, coded_kept};
    ghost use Rattle.eb_rules.specs.Meanings.{rules_plan};
    ghost use Rattle.eb_rules.specs.Says.{SaysRules};

    ghost Value = { Kept };

    ghost coded = { coded_kept };

    ghost view = { λ r. record { schema = r.schema; tree = r.tree } };

    ghost invariant = { λ r. ((text : List ℕ) × SaysRules r.schema text r.tree)
        × ((rules_plan r.schema r.tree ≡ Some r.plan) × AreByType r.by_type.items r.plan.bakers) };
}

fn capped(at: usize) -> u32
    ensures { result ≡ spec.capped at }
{
    if at <= 4294967295 {
        at as u32
    } else {
        4294967295
    }
}

fn told(refusal: Refusal) -> RuleFault
    ensures { result ≡ RuleFault.At (spec.capped refusal.at) refusal.kind }
{
    RuleFault::At {
        at: capped(refusal.at),
        kind: refusal.kind,
    }
}

pub fn of_text(e: TextError) -> RuleFault
    ensures { spec.OfText e result }
{
    match e {
        TextError::Memory => RuleFault::Memory,
        TextError::Token(at) => RuleFault::At {
            at: capped(at),
            kind: RuleKind::Token,
        },
        TextError::Syntax(at) => RuleFault::At {
            at: capped(at),
            kind: RuleKind::Syntax,
        },
        TextError::Depth(at) => RuleFault::At {
            at: capped(at),
            kind: RuleKind::Depth,
        },
    }
}

pub fn of_walk(e: WalkError) -> RuleFault
    ensures { spec.OfWalk e result }
{
    match e {
        WalkError::Memory => RuleFault::Memory,
        WalkError::Refused(refusal) => told(refusal),
    }
}

// Rules with all that they keep.
fn kept(alloc: Global, schema: &Schema, tree: RulesTree, plan: RulesPlan) -> Result<Rules, Memory>
    requires said { (text : List ℕ) × SaysRules schema.now text tree }
    requires plan { rules_plan schema.now tree ≡ Some plan }
    requires many { length plan.bakers ≤ 64 }
    ensures { IfOk result (λ r. r ≡ record { schema = schema.now; tree = tree }) }
{
    let schema = schema.copy(alloc)?;
    let by_type = bakers_by_type(alloc, plan.bakers.items())?;
    Ok(Rules {
        schema,
        tree,
        plan,
        by_type,
    })
}

// The rules of a text, by the three passes.
#[tactic(auto, unfolding(crate::specs::Queries::rules_of))]
fn rules_in(alloc: Global, text: &[u8], schema: &Schema) -> Result<Rules, RuleFault>
    ensures told { MatchResult result (λ r. spec.rules_of schema.now text.now ≡ Ok r.tree) (λ e. spec.Tells (spec.rules_of schema.now text.now) e) }
    ensures schema { IfOk result (λ r. r.schema ≡ schema.now) }
{
    match read_rules(alloc, text) {
        Err(e) => Err(of_text(e)),
        Ok(placed) => {
            match rules_typed(
                alloc,
                schema,
                placed.tree.rules.as_slice(),
                placed.places.items(),
            ) {
                Err(e) => Err(of_walk(e)),
                Ok((plan, _)) => match kept(alloc, schema, placed.tree, plan) {
                    Err(_) => Err(RuleFault::Memory),
                    Ok(rules) => Ok(rules),
                },
            }
        }
    }
}

impl Rules {
    /// The rules of a text, or the first refusal of the first pass that has one: tokens, then syntax, then names and types. A text
    /// is accepted exactly where it is in the grammar and its tree is well typed. `docs/rules.md`, "Refusals".
    pub fn read(alloc: Global, text: &[u8], schema: &Schema) -> Result<Self, RuleFault>
        ensures told { MatchResult result (λ r. spec.rules_of schema.now text.now ≡ Ok r.tree) (λ e. spec.Tells (spec.rules_of schema.now text.now) e) }
        ensures says { IfOk result (λ r. SaysRules schema.now text.now r.tree) }
        ensures accepts { (tree : RulesTree) → SaysRules schema.now text.now tree → AreReadAs result tree }
        ensures schema { IfOk result (λ r. r.schema ≡ schema.now) }
        ensures holds { IfOk result (λ r. (plan : RulesPlan) → rules_plan r.schema r.tree ≡ Some plan → rules_hold plan ≡ true) }
    {
        rules_in(alloc, text, schema)
    }

    /// The schema that the rules were read with. Takes no memory.
    pub fn schema(&self) -> &Schema
        ensures { result.now ≡ self.now.schema }
    {
        &self.schema
    }

    /// The tree of the rules. Takes no memory.
    pub fn tree(&self) -> &RulesTree
        ensures tree { result.now ≡ self.now.tree }
        ensures typed { AreWellTyped self.now.schema result.now }
    {
        &self.tree
    }

    /// The tree that evaluation walks, with numbers, places and kinds for names. `docs/rules.md`, "Resolved trees". Takes no memory.
    pub fn resolved(&self) -> &RulesPlan
        ensures plan { rules_plan self.now.schema self.now.tree ≡ Some result.now }
        ensures holds { rules_hold result.now ≡ true }
    {
        &self.plan
    }

    /// The numbers of the bakers on an authoring type, ascending: `resolved().baker(number)` is the baker of each. Takes no memory.
    pub fn bakers_of(&self, authoring: AuthorNo) -> &[u8]
        ensures { (plan : RulesPlan) → rules_plan self.now.schema self.now.tree ≡ Some plan → result.now ≡ numbers_on authoring plan.bakers }
    {
        match self.by_type.get(authoring.number() as usize - 1) {
            Some(numbers) => numbers.items(),
            None => &[],
        }
    }
}

/// The text of rules. It says the same rules again over their schema, and over each other one in which they are well typed. `docs/rules.md`, "Printing".
pub fn rules_text(alloc: Global, rules: &Rules) -> Result<Text, Memory>
    ensures text { IfOk result (λ text. text ≡ printing.rules_text rules.now.tree) }
    ensures again { IfOk result (λ text. (types : Types) → AreWellTyped types rules.now.tree → SaysRules types text rules.now.tree) }
    ensures same { IfOk result (λ text. SaysRules rules.now.schema text rules.now.tree) }
{
    let text = print_rules(alloc, &rules.tree)?;
    Ok(text)
}
