// From the files of a folder to a schema, rules and a project.
ghost use Rattle.std.specs.Prelude.{◌≡◌, codes, option_map, IfOk};
ghost use Rattle.serde_json.specs.View.{view};
ghost use Rattle.eb_session.specs.Opening as opening;
ghost use Rattle.eb_session.specs.Opening.{ReadsAs, IsLine, or_refused, read_rules};
ghost use Rattle.eb_session.specs.Refusals.{refused_line, schema_refusal, rules_refusal, project_refusal};
ghost use Rattle.eb_rules.specs.Queries.{rules_of};
ghost use Rattle.eb_schema.specs.SchemaTests as schema_tests;
ghost use Rattle.eb_scene_text.specs.ProjectForm as project_form;

use crate::errors::Refusal;
use crate::refusals::{of_project, of_rules, of_schema, refused};
use eb_json::document;
use eb_rules::{RuleFault, Rules};
use eb_scene::Project;
use eb_scene_text::{ProjectFault, project_read};
use eb_schema::{Schema, SchemaFault};
use serde_json::Value;
use std::alloc::Global;

/// The file of the schema.
pub const SCHEMA_FILE: &str = "schema.json";
/// The file of the rules.
pub const RULES_FILE: &str = "bake.rules";
/// The file of the project.
pub const PROJECT_FILE: &str = "project.json";

/// The refusal of a file.
fn refusal(alloc: Global, file: &str, why: &str) -> Refusal
    ensures { IsLine result (refused_line file.now why.now) }
{
    match refused(alloc, file, why) {
        Ok(line) => Refusal::Line { line },
        Err(_) => Refusal::Memory,
    }
}

/// The document of a file.
fn document_in(alloc: Global, file: &str, found: Option<Vec<u8>>) -> Result<Value, Refusal>
    ensures { ReadsAs (λ v. view v) result (opening.document_in file.now (option_map (λ v. v.items) found)) }
{
    let Some(bytes) = found else {
        return Err(refusal(alloc, file, "Missing"));
    };
    match document(alloc, bytes.as_slice())? {
        Some(value) => Ok(value),
        None => Err(refusal(alloc, file, "BadJson")),
    }
}

/// The refusal of a document that is no schema.
fn schema_refused(alloc: Global, fault: SchemaFault) -> Refusal
    ensures memory { fault ≡ SchemaFault.Memory → result ≡ Refusal.Memory }
    ensures line { IsLine result (refused_line (codes "schema.json") (schema_refusal fault)) }
{
    if matches!(fault, SchemaFault::Memory) {
        return Refusal::Memory;
    }
    match of_schema(alloc, fault) {
        Ok(why) => refusal(alloc, SCHEMA_FILE, why.as_str()),
        Err(_) => Refusal::Memory,
    }
}

/// The schema that a document is.
fn schema_of(alloc: Global, document: &Value) -> Result<Schema, Refusal>
    ensures { ReadsAs (λ s. s) result (or_refused (codes "schema.json") schema_refusal (schema_tests.schema_of (view document.now))) }
{
    match Schema::read(alloc, document) {
        Ok(schema) => Ok(schema),
        Err(fault) => Err(schema_refused(alloc, fault)),
    }
}

/// The schema that the bytes of `schema.json` are, or the line that refuses it.
#[tactic(auto, unfolding(crate::specs::Opening::schema_in))]
pub fn schema_in(alloc: Global, found: Option<Vec<u8>>) -> Result<Schema, Refusal>
    ensures { ReadsAs (λ s. s) result (opening.schema_in (option_map (λ v. v.items) found)) }
{
    let document = document_in(alloc, SCHEMA_FILE, found)?;
    schema_of(alloc, &document)
}

/// The refusal of a text that is no rules.
fn rules_refused(alloc: Global, fault: RuleFault) -> Refusal
    ensures memory { fault ≡ RuleFault.Memory → result ≡ Refusal.Memory }
    ensures line { IsLine result (refused_line (codes "bake.rules") (rules_refusal fault)) }
{
    if matches!(fault, RuleFault::Memory) {
        return Refusal::Memory;
    }
    match of_rules(alloc, fault) {
        Ok(why) => refusal(alloc, RULES_FILE, why.as_str()),
        Err(_) => Refusal::Memory,
    }
}

/// The rules that a text is.
fn rules_of_text(alloc: Global, schema: &Schema, text: &[u8]) -> Result<Rules, Refusal>
    ensures read { ReadsAs (λ r. r) result (read_rules schema.now (rules_of schema.now text.now)) }
    ensures schema { IfOk result (λ r. r.schema ≡ schema.now) }
{
    match Rules::read(alloc, text, schema) {
        Ok(rules) => Ok(rules),
        Err(fault) => Err(rules_refused(alloc, fault)),
    }
}

/// The rules that the bytes of `bake.rules` are, or the line that refuses it.
#[tactic(auto, unfolding(crate::specs::Opening::rules_in))]
pub fn rules_in(alloc: Global, schema: &Schema, found: Option<Vec<u8>>) -> Result<Rules, Refusal>
    ensures read { ReadsAs (λ r. r) result (opening.rules_in schema.now (option_map (λ v. v.items) found)) }
    ensures schema { IfOk result (λ r. r.schema ≡ schema.now) }
{
    let Some(text) = found else {
        return Err(refusal(alloc, RULES_FILE, "Missing"));
    };
    let rules = rules_of_text(alloc, schema, text.as_slice())?;
    Ok(rules)
}

/// The refusal of a document that is no project.
fn project_refused(alloc: Global, fault: ProjectFault) -> Refusal
    ensures memory { fault ≡ ProjectFault.Memory → result ≡ Refusal.Memory }
    ensures line { IsLine result (refused_line (codes "project.json") (project_refusal fault)) }
{
    if matches!(fault, ProjectFault::Memory) {
        return Refusal::Memory;
    }
    match of_project(alloc, fault) {
        Ok(why) => refusal(alloc, PROJECT_FILE, why.as_str()),
        Err(_) => Refusal::Memory,
    }
}

/// The project that a document is.
fn project_of(alloc: Global, document: &Value, schema: &Schema) -> Result<Project, Refusal>
    ensures { ReadsAs (λ p. p) result (or_refused (codes "project.json") project_refusal (project_form.project_of schema.now (view document.now))) }
{
    match project_read(alloc, document, schema) {
        Ok(project) => Ok(project),
        Err(fault) => Err(project_refused(alloc, fault)),
    }
}

/// The project that the bytes of `project.json` are, or the line that refuses it.
#[tactic(auto, unfolding(crate::specs::Opening::project_in))]
pub fn project_in(
    alloc: Global,
    schema: &Schema,
    found: Option<Vec<u8>>,
) -> Result<Project, Refusal>
    ensures read { ReadsAs (λ p. p) result (opening.project_in schema.now (option_map (λ v. v.items) found)) }
    ensures schema { IfOk result (λ p. p.schema ≡ schema.now) }
{
    let document = document_in(alloc, PROJECT_FILE, found)?;
    project_of(alloc, &document, schema)
}
