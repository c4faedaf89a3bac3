// Jobs of a text.
ghost use Rattle.std.specs.Prelude.{◌≡◌, true, Some, MatchResult, Ok, Err, IfOk, [], drop};
ghost use Rattle.eb_rule_text.specs.declared.trees.JobTree.{JobTree};
ghost use Rattle.eb_rules.specs.Holds.{job_holds};
ghost use Rattle.eb_rules.specs.declared.plans.JobPlan.{JobPlan};
ghost use Rattle.eb_rules.specs.Jobs as spec;
ghost use Rattle.eb_rules.specs.Meanings.{job_meant, query_meant};
ghost use Rattle.eb_rules.specs.Queries as queries;
ghost use Rattle.eb_rules.specs.Says.{SaysJob, IsReadAs};
ghost use Rattle.eb_rules.specs.Statements.{fitted};
ghost use Rattle.eb_rules.specs.Typing.{Walks};

use crate::commands::{commands_typed, job_scope};
use crate::faults::RuleFault;
use crate::fields::past;
use crate::inits::fitted;
use crate::plans::{JobPlan, Term};
use crate::queries::{Query3, query_typed};
use crate::shapes::Shape;
use crate::texts::{of_text, of_walk};
use crate::walking::WalkError;
use eb_base::{Memory, TypeNo};
use eb_rule_names::VisibleNames;
use eb_rule_text::{Expr, JobTree, read_job};
use eb_schema::Schema;
use std::alloc::Global;
use std::marker::Model;

/// A job: a tree whose names are there and whose types fit, the tree that evaluation walks, and the schema that both are about.
/// Contracts see the schema and the first tree, and know that some text says it, so that the second one is `job_meant` of the two.
#[derive(Drop)]
pub struct Job {
    schema: Schema,
    tree: JobTree,
    plan: JobPlan,
}

impl Model for Job {
    ghost use Rattle.std.specs.Prelude.{◌≡◌, ℕ, List, Some};
    ghost use Rattle.eb_rules.specs.Kept.{KeptJob, coded_job};
    ghost use Rattle.eb_rules.specs.Meanings.{job_meant};
    ghost use Rattle.eb_rules.specs.Says.{SaysJob};

    ghost Value = { KeptJob };

    ghost coded = { coded_job };

    ghost view = { λ j. record { schema = j.schema; tree = j.tree } };

    ghost invariant = { λ j. ((text : List ℕ) × SaysJob j.schema text j.tree) × (job_meant j.schema j.tree ≡ Some j.plan) };
}

// The key, which is a whole number.
fn key_typed<'p>(
    alloc: Global,
    schema: &Schema,
    all: &[TypeNo],
    key: &Expr,
    places: &'p [usize],
) -> Result<(Term, &'p [usize]), WalkError>
    ensures { Walks (fitted (spec.job_scope schema.now all.now []) (Some Shape.Int) key.now places.now) (λ q. (q.0, q.1.now)) result }
{
    let known = VisibleNames::new(alloc);
    let (key, rest) = fitted(
        alloc,
        &job_scope(schema, all, &known),
        Some(Shape::Int),
        key,
        places,
    )?;
    Ok((key, rest))
}

// The query, then the key, then the commands.
fn job_typed<'p>(
    alloc: Global,
    schema: &Schema,
    tree: &JobTree,
    places: &'p [usize],
) -> Result<(JobPlan, &'p [usize]), WalkError>
    ensures { Walks (spec.job_typed schema.now tree.now places.now) (λ q. (q.0, q.1.now)) result }
{
    let (query, rest) = query_typed(alloc, schema, &tree.query, past(places, 1))?;
    let (key, rest) = key_typed(alloc, schema, query.all.items(), &tree.key, past(rest, 1))?;
    let (orders, rest) = commands_typed(
        alloc,
        schema,
        query.all.items(),
        tree.commands.as_slice(),
        past(rest, 1),
    )?;
    Ok((JobPlan { query, key, orders }, past(rest, 1)))
}

// A job with all that it keeps.
fn kept(alloc: Global, schema: &Schema, tree: JobTree, plan: JobPlan) -> Result<Job, Memory>
    requires said { (text : _) × SaysJob schema.now text tree }
    requires plan { job_meant schema.now tree ≡ Some plan }
    ensures { IfOk result (λ j. j ≡ record { schema = schema.now; tree = tree }) }
{
    let schema = schema.copy(alloc)?;
    Ok(Job { schema, tree, plan })
}

// The job of a text, by the three passes.
#[tactic(auto, unfolding(crate::specs::Jobs::job_of))]
fn job_in(alloc: Global, text: &[u8], schema: &Schema) -> Result<Job, RuleFault>
    ensures told { MatchResult result (λ j. spec.job_of schema.now text.now ≡ Ok j.tree) (λ e. queries.Tells (spec.job_of schema.now text.now) e) }
    ensures schema { IfOk result (λ j. j.schema ≡ schema.now) }
{
    match read_job(alloc, text) {
        Err(e) => Err(of_text(e)),
        Ok(placed) => match job_typed(alloc, schema, &placed.tree, placed.places.items()) {
            Err(e) => Err(of_walk(e)),
            Ok((plan, _)) => match kept(alloc, schema, placed.tree, plan) {
                Err(_) => Err(RuleFault::Memory),
                Ok(job) => Ok(job),
            },
        },
    }
}

impl Job {
    /// The job of a text, or the first refusal of the first pass that has one. A text is accepted exactly where it is in the grammar
    /// and its tree is well typed. `docs/rules.md`, "Refusals".
    pub fn read(alloc: Global, text: &[u8], schema: &Schema) -> Result<Self, RuleFault>
        ensures told { MatchResult result (λ j. spec.job_of schema.now text.now ≡ Ok j.tree) (λ e. queries.Tells (spec.job_of schema.now text.now) e) }
        ensures says { IfOk result (λ j. SaysJob schema.now text.now j.tree) }
        ensures accepts { (tree : JobTree) → SaysJob schema.now text.now tree → IsReadAs result tree }
        ensures schema { IfOk result (λ j. j.schema ≡ schema.now) }
        ensures holds { IfOk result (λ j. (plan : JobPlan) → job_meant j.schema j.tree ≡ Some plan → job_holds plan ≡ true) }
    {
        job_in(alloc, text, schema)
    }

    /// The schema that the job was read with. Takes no memory.
    pub fn schema(&self) -> &Schema
        ensures { result.now ≡ self.now.schema }
    {
        &self.schema
    }

    /// The types of the job's query. Takes no memory.
    pub fn query(&self) -> &Query3
        ensures { query_meant self.now.schema self.now.tree.query ≡ Some result.now }
    {
        &self.plan.query
    }

    /// The tree that evaluation walks, with numbers, places and kinds for names. `docs/rules.md`, "Resolved trees". Takes no memory.
    pub fn resolved(&self) -> &JobPlan
        ensures plan { job_meant self.now.schema self.now.tree ≡ Some result.now }
        ensures holds { job_holds result.now ≡ true }
    {
        &self.plan
    }

    /// The tree of the job. Takes no memory.
    pub fn tree(&self) -> &JobTree
        ensures { result.now ≡ self.now.tree }
    {
        &self.tree
    }
}
