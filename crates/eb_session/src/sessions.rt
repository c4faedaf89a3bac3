// A session: the project as it stands, what of it is published, and the world that it runs in.
ghost use Rattle.std.specs.Prelude.{◌≡◌, ◌≢◌, ◌<◌, ◌≤◌, ◌+◌, ◌^◌, Some, Ok, false, codes, length, option_map, IfOk, IfSome, IsErrOf, OnOk, string_bytes};
ghost use Rattle.eb_outside.specs.Causes.{Rose};
ghost use Rattle.eb_outside.specs.Shelves.{Files, KeepsOthers};
ghost use Rattle.eb_session.specs.Images.{image_in};
ghost use Rattle.eb_session.specs.Machine.{State, step, bytes_of, section_name, published, published_as, edit_step, issues_step, project_step, dumped, performed, answered, evaluated, request_evaluates, line_evaluates, IsSection};
ghost use Rattle.eb_session.specs.Machine as machine;
ghost use Rattle.eb_session.specs.Opening.{opened, with_schema, with_rules, Opens, OpensAs};
ghost use Rattle.eb_session.specs.Folders.{state_in};
ghost use Rattle.eb_session.specs.Opening as opening;
ghost use Rattle.std.specs.FinMap.{get};
ghost use Rattle.eb_scene.specs.Edits.{edited};
ghost use Rattle.eb_scene.specs.Validity.{IsEdit};
ghost use Rattle.eb_eval.specs.Runs.{runs_of};
ghost use Rattle.eb_session.specs.Requests.{request_of, IsRequest};
ghost use Rattle.eb_session.specs.declared.requests.Request.TheVariants.{Publish};

use crate::errors::{OpenEnd, SessionEnd};
use crate::imaging::image;
use crate::opening::{PROJECT_FILE, RULES_FILE, SCHEMA_FILE, project_in, rules_in, schema_in};
use crate::replies;
use crate::replies::Reply;
use crate::requests::{LineMode, Request, RequestFault, read_request};
use crate::sections::{
    Published, bring_in, is_new, new_world, take_out, take_over, times_loaded, world_text,
};
use eb_bake::{Baker, BakerFault};
use eb_base::{Memory, Steps};
use eb_file::encode;
use eb_outside::Shelf;
use eb_rules::Rules;
use eb_scene::{Edit, Project};
use eb_scene_text::project_text;
use eb_schema::Schema;
use eb_world::World;
use std::alloc::{AllocError, Global};
use std::marker::Model;
use std::sync::ledger::Ledger;

/// A session over a folder. Contracts see it as a state of the machine.
#[derive(Drop)]
pub struct Session {
    alloc: Global,
    baker: Baker,
    generation: u64,
    published: Option<Published>,
    is_loaded: bool,
    world: World,
}

impl Model for Session {
    ghost use Rattle.std.specs.Prelude.{◌≡◌, option_map, IfSome};
    ghost use Rattle.eb_session.specs.Machine.{State, IsKept, bytes_of, state_code};
    ghost use Rattle.std.specs.Coded.{coded_list};
    ghost use Rattle.eb_scene.specs.contracts.projects.Project as content;
    ghost use Rattle.eb_schema.specs.contracts.rows.Cell as cell;
    ghost use Rattle.eb_file.specs.contracts.images.Image as image;

    ghost Value = { State };

    ghost coded = { state_code content.the_row.coded (coded_list cell.the_row.coded) image.the_row.coded };

    ghost view = { λ s. record {
      rules = s.baker.rules;
      project = s.baker.project;
      generation = s.generation;
      published = option_map (λ p. p.image) s.published;
      is_loaded = s.is_loaded;
      live = s.world.live;
      made = s.world.made;
    } };

    ghost invariant = { λ s. (s.world.types ≡ s.baker.project.schema) × IfSome s.published (λ p. p.bytes.items ≡ bytes_of s.baker.project.schema p.image)
        × IsKept (record { rules = s.baker.rules; project = s.baker.project; generation = s.generation; published = option_map (λ p. p.image) s.published; is_loaded = s.is_loaded; live = s.world.live; made = s.world.made }) };
}

/// The name of the section file that a publication of this generation writes.
#[tactic(auto, unfolding(crate::specs::Machine::section_name))]
fn section_file(alloc: Global, generation: u64) -> Result<String, AllocError>
    ensures { IfOk result (λ name. string_bytes name ≡ section_name generation) }
{
    format!(in alloc; "g{generation}-1-0.sec")
}

/// The section that a publication of the project would write; none where the project isn't published yet.
#[tactic(auto, unfolding(crate::specs::Machine::bytes_of))]
fn baked(alloc: Global, baker: &Baker) -> Result<Option<Published>, Memory>
    requires { baker.now.spent ≡ false }
    ensures image { IfOk result (λ found. option_map (λ p. p.image) found ≡ image_in baker.now.rules baker.now.project) }
    ensures bytes { IfOk result (λ found. IfSome found (λ p. p.bytes.items ≡ bytes_of baker.now.project.schema p.image)) }
    ensures section { IfOk result (λ found. IfSome found (λ p. IsSection baker.now.project.schema p.image)) }
{
    match image(alloc, baker)? {
        Some(image) => {
            let bytes = encode(alloc, baker.project().schema(), &image)?;
            Ok(Some(Published { image, bytes }))
        }
        None => Ok(None),
    }
}

/// The schema of the folder.
fn read_schema<H: Shelf>(alloc: Global, shelf: &mut H) -> Result<Schema, OpenEnd>
    ensures schema { IfSome (H.files shelf.old) (λ files. Opens (λ s. s) result (opening.schema_in (get files (codes "schema.json")))) }
    ensures files { H.files shelf.new ≡ H.files shelf.old }
    ensures later { H.faults shelf.old ≤ H.faults shelf.new }
    ensures cause { IsErrOf result OpenEnd.Shelf → Rose (H.faults shelf.old) (H.faults shelf.new) }
{
    let found = shelf.read(SCHEMA_FILE)?;
    let schema = schema_in(alloc, found)?;
    Ok(schema)
}

/// The rules of the folder, under its schema.
fn read_rules<H: Shelf>(alloc: Global, schema: &Schema, shelf: &mut H) -> Result<Rules, OpenEnd>
    ensures rules { IfSome (H.files shelf.old) (λ files. Opens (λ r. r) result (opening.rules_in schema.now (get files (codes "bake.rules")))) }
    ensures schema { IfOk result (λ r. r.schema ≡ schema.now) }
    ensures files { H.files shelf.new ≡ H.files shelf.old }
    ensures later { H.faults shelf.old ≤ H.faults shelf.new }
    ensures cause { IsErrOf result OpenEnd.Shelf → Rose (H.faults shelf.old) (H.faults shelf.new) }
{
    let found = shelf.read(RULES_FILE)?;
    let rules = rules_in(alloc, schema, found)?;
    Ok(rules)
}

/// The project of the folder, under its schema.
fn read_project<H: Shelf>(alloc: Global, schema: &Schema, shelf: &mut H) -> Result<Project, OpenEnd>
    ensures project { IfSome (H.files shelf.old) (λ files. Opens (λ p. p) result (opening.project_in schema.now (get files (codes "project.json")))) }
    ensures schema { IfOk result (λ p. p.schema ≡ schema.now) }
    ensures files { H.files shelf.new ≡ H.files shelf.old }
    ensures later { H.faults shelf.old ≤ H.faults shelf.new }
    ensures cause { IsErrOf result OpenEnd.Shelf → Rose (H.faults shelf.old) (H.faults shelf.new) }
{
    let found = shelf.read(PROJECT_FILE)?;
    let project = project_in(alloc, schema, found)?;
    Ok(project)
}

/// What the files of a folder say.
#[derive(Drop)]
pub struct Folder {
    /// The rules, read under the folder's schema.
    pub rules: Rules,
    /// The project, under the same schema.
    pub project: Project,
}

/// What the folder says under its schema and these rules.
fn read_under_rules<H: Shelf>(
    alloc: Global,
    schema: &Schema,
    rules: Rules,
    shelf: &mut H,
) -> Result<Folder, OpenEnd>
    requires { rules.schema ≡ schema.now }
    ensures opened { IfSome (H.files shelf.old) (λ files. Opens state_in result (with_rules schema.now files rules)) }
    ensures same { IfOk result (λ folder. folder.rules.schema ≡ folder.project.schema) }
    ensures files { H.files shelf.new ≡ H.files shelf.old }
    ensures later { H.faults shelf.old ≤ H.faults shelf.new }
    ensures cause { IsErrOf result OpenEnd.Shelf → Rose (H.faults shelf.old) (H.faults shelf.new) }
{
    match read_project(alloc, schema, shelf) {
        Ok(project) => Ok(Folder { rules, project }),
        Err(end) => Err(end),
    }
}

/// What the folder says under its schema.
fn read_under_schema<H: Shelf>(
    alloc: Global,
    schema: &Schema,
    shelf: &mut H,
) -> Result<Folder, OpenEnd>
    ensures opened { IfSome (H.files shelf.old) (λ files. Opens state_in result (with_schema files schema.now)) }
    ensures same { IfOk result (λ folder. folder.rules.schema ≡ folder.project.schema) }
    ensures files { H.files shelf.new ≡ H.files shelf.old }
    ensures later { H.faults shelf.old ≤ H.faults shelf.new }
    ensures cause { IsErrOf result OpenEnd.Shelf → Rose (H.faults shelf.old) (H.faults shelf.new) }
{
    match read_rules(alloc, schema, shelf) {
        Ok(rules) => read_under_rules(alloc, schema, rules, shelf),
        Err(end) => Err(end),
    }
}

/// What the files of the folder say.
fn read_folder<H: Shelf>(alloc: Global, shelf: &mut H) -> Result<Folder, OpenEnd>
    ensures opened { IfSome (H.files shelf.old) (λ files. Opens state_in result (opened files)) }
    ensures same { IfOk result (λ folder. folder.rules.schema ≡ folder.project.schema) }
    ensures files { H.files shelf.new ≡ H.files shelf.old }
    ensures later { H.faults shelf.old ≤ H.faults shelf.new }
    ensures cause { IsErrOf result OpenEnd.Shelf → Rose (H.faults shelf.old) (H.faults shelf.new) }
{
    match read_schema(alloc, shelf) {
        Ok(schema) => read_under_schema(alloc, &schema, shelf),
        Err(end) => Err(end),
    }
}

impl Session {
    /// Opens a session on the folder: reads `schema.json`, then `bake.rules`, and then `project.json`, and bakes the
    /// project: each run of a baker is one of `steps`. `docs/formats.md`, "The folder".
    pub fn open<H: Shelf, L: Ledger>(
        alloc: Global,
        shelf: &mut H,
        steps: &mut Steps<L>,
    ) -> Result<Self, OpenEnd>
        ensures opened { IfSome (H.files shelf.old) (λ files. OpensAs result (opened files)) }
        ensures first { IfOk result (λ session. session.generation ≡ 0) }
        ensures empty { IfOk result (λ session. session.made ≡ 0) }
        ensures steps { IfOk result (λ session. steps.new ≡ steps.old + length (runs_of session.rules session.project)) }
        ensures files { H.files shelf.new ≡ H.files shelf.old }
        ensures later { H.faults shelf.old ≤ H.faults shelf.new }
        ensures cause { IsErrOf result OpenEnd.Shelf → Rose (H.faults shelf.old) (H.faults shelf.new) }
    {
        let folder = read_folder(alloc, shelf)?;
        let world = new_world(alloc, folder.project.schema())?;
        let baker = Baker::open(alloc, folder.rules, folder.project, steps)?;
        Ok(Session {
            alloc,
            baker,
            generation: 0,
            published: None,
            is_loaded: false,
            world,
        })
    }

    /// Lets the session go, with all that it holds. A run that is through ends with this, so that what a session is made
    /// of is known here alone.
    pub fn close(self) {}

    /// Publishes the project as it stands.
    #[tactic(auto, unfolding(crate::specs::Machine::published))]
    fn publish<H: Shelf>(&mut self, shelf: &mut H) -> Result<Reply, SessionEnd>
        requires generation { self.old.generation < 2 ^ 62 }
        requires made { self.old.made + 65536 < 2 ^ 62 }
        ensures step { IfOk result (λ reply. option_map (published self.old) (H.files shelf.old) ≡ option_map (step reply.text self.new) (H.files shelf.new)) }
        ensures others { KeepsOthers (H.files shelf.old) (H.files shelf.new) (section_name (self.old.generation + 1)) }
        ensures count { OnOk result (self.new.generation ≤ self.old.generation + 1) }
        ensures made { OnOk result (self.new.made ≤ self.old.made + 65536) }
        ensures later { H.faults shelf.old ≤ H.faults shelf.new }
        ensures cause { IsErrOf result SessionEnd.Shelf → Rose (H.faults shelf.old) (H.faults shelf.new) }
    {
        if self.baker.spent() {
            return Err(SessionEnd::Memory);
        }
        match baked(self.alloc, &self.baker)? {
            Some(next) => self.publish_section(next, shelf),
            None => Ok(replies::not_yet(self.alloc)?),
        }
    }

    /// Publishes the section, which baking the project as it stands has made.
    fn publish_section<H: Shelf>(
        &mut self,
        next: Published,
        shelf: &mut H,
    ) -> Result<Reply, SessionEnd>
        requires generation { self.old.generation < 2 ^ 62 }
        requires made { self.old.made + 65536 < 2 ^ 62 }
        requires bytes { next.bytes.items ≡ bytes_of self.old.project.schema next.image }
        requires section { IsSection self.old.project.schema next.image }
        ensures step { IfOk result (λ reply. option_map (published_as (Some next.image) self.old) (H.files shelf.old) ≡ option_map (step reply.text self.new) (H.files shelf.new)) }
        ensures others { KeepsOthers (H.files shelf.old) (H.files shelf.new) (section_name (self.old.generation + 1)) }
        ensures count { OnOk result (self.new.generation ≤ self.old.generation + 1) }
        ensures made { OnOk result (self.new.made ≤ self.old.made + 65536) }
        ensures later { H.faults shelf.old ≤ H.faults shelf.new }
        ensures cause { IsErrOf result SessionEnd.Shelf → Rose (H.faults shelf.old) (H.faults shelf.new) }
    {
        let alloc = self.alloc;
        let generation = self.generation + 1;
        let schema = self.baker.project().schema();
        if !is_new(schema, &self.published, next.bytes.as_slice()) {
            let reply = replies::published(alloc, generation, 0, 0)?;
            self.generation = generation;
            return Ok(reply);
        }
        let reply = replies::published(alloc, generation, 1, times_loaded(self.is_loaded))?;
        let name = section_file(alloc, generation)?;
        shelf.write(name.as_str(), next.bytes.as_slice())?;
        take_over(
            alloc,
            &mut self.published,
            &mut self.world,
            self.is_loaded,
            next,
        )?;
        self.generation = generation;
        Ok(reply)
    }

    /// Changes the project, or refuses to.
    fn edit<L: Ledger>(&mut self, edit: &Edit, steps: &mut Steps<L>) -> Result<Reply, Memory>
        requires { IsEdit edit.now }
        ensures step { IfOk result (λ reply. (files : Files) → edit_step edit.now self.old files ≡ step reply.text self.new files) }
        ensures steps { OnOk result (steps.new ≡ steps.old + evaluated self.old.rules self.old.project edit.now (edited self.old.project edit.now)) }
        ensures count { OnOk result (self.new.generation ≡ self.old.generation) }
        ensures made { OnOk result (self.new.made ≡ self.old.made) }
    {
        if self.baker.spent() {
            return Err(Memory);
        }
        match self.baker.edit(edit, steps) {
            Ok(done) => replies::rebaked(self.alloc, done.rerun, done.runs),
            Err(BakerFault::Memory) => Err(Memory),
            Err(BakerFault::Edit(fault)) => replies::edit_refused(self.alloc, fault),
        }
    }

    /// Prints what baking left out.
    fn issues(&self) -> Result<Reply, Memory>
        ensures { IfOk result (λ reply. (files : Files) → issues_step self.now files ≡ step reply.text self.now files) }
    {
        if self.baker.spent() {
            return Err(Memory);
        }
        let lines = self.baker.issues_text()?;
        replies::issues(self.alloc, lines, self.baker.issue_count())
    }

    /// Prints the project.
    fn print(&self) -> Result<Reply, Memory>
        ensures { IfOk result (λ reply. (files : Files) → project_step self.now files ≡ step reply.text self.now files) }
    {
        replies::project(project_text(self.alloc, self.baker.project())?)
    }

    /// Loads a section as it was last published.
    fn load(&mut self, scene: u8, section: u8) -> Result<Reply, Memory>
        requires { self.old.made + 65536 < 2 ^ 62 }
        ensures step { IfOk result (λ reply. (files : Files) → machine.load_step scene section self.old files ≡ step reply.text self.new files) }
        ensures count { OnOk result (self.new.generation ≡ self.old.generation) }
        ensures made { OnOk result (self.new.made ≤ self.old.made + 65536) }
    {
        if scene != 1 || section != 0 {
            return replies::no_section(self.alloc);
        }
        self.load_published()
    }

    /// Loads the section as it was last published.
    fn load_published(&mut self) -> Result<Reply, Memory>
        requires { self.old.made + 65536 < 2 ^ 62 }
        ensures step { IfOk result (λ reply. (files : Files) → machine.load self.old.published self.old.is_loaded self.old files ≡ step reply.text self.new files) }
        ensures count { OnOk result (self.new.generation ≡ self.old.generation) }
        ensures made { OnOk result (self.new.made ≤ self.old.made + 65536) }
    {
        let alloc = self.alloc;
        let Some(published) = &self.published else {
            return replies::no_section(alloc);
        };
        if self.is_loaded {
            return replies::already_loaded(alloc);
        }
        let reply = replies::loaded(alloc, published.image.rows.items().len() as u32)?;
        bring_in(
            alloc,
            &mut self.world,
            &mut self.is_loaded,
            &published.image,
        )?;
        Ok(reply)
    }

    /// Unloads a section.
    fn unload(&mut self, scene: u8, section: u8) -> Result<Reply, Memory>
        ensures step { IfOk result (λ reply. (files : Files) → machine.unload_step scene section self.old files ≡ step reply.text self.new files) }
        ensures count { OnOk result (self.new.generation ≡ self.old.generation) }
        ensures made { OnOk result (self.new.made ≡ self.old.made) }
    {
        if scene != 1 || section != 0 {
            return replies::no_section(self.alloc);
        }
        self.unload_published()
    }

    /// Unloads the section.
    fn unload_published(&mut self) -> Result<Reply, Memory>
        ensures step { IfOk result (λ reply. (files : Files) → machine.unload self.old.published self.old.is_loaded self.old files ≡ step reply.text self.new files) }
        ensures count { OnOk result (self.new.generation ≡ self.old.generation) }
        ensures made { OnOk result (self.new.made ≡ self.old.made) }
    {
        if self.published.is_none() {
            return replies::no_section(self.alloc);
        }
        if !self.is_loaded {
            return replies::not_loaded(self.alloc);
        }
        let count = take_out(&mut self.world, &mut self.is_loaded);
        replies::unloaded(self.alloc, count)
    }

    /// Prints every entity of the world.
    fn dump(&self) -> Result<Reply, Memory>
        ensures { IfOk result (λ reply. (files : Files) → dumped self.now files ≡ step reply.text self.now files) }
    {
        let schema = self.baker.project().schema();
        let entities = world_text(self.alloc, &self.world, schema)?;
        replies::dumped(self.alloc, entities, self.world.live())
    }

    /// Does what a line asks for. The shelf can end the session where that is a publication, and nowhere else.
    fn perform<H: Shelf, L: Ledger>(
        &mut self,
        request: &Request,
        shelf: &mut H,
        steps: &mut Steps<L>,
    ) -> Result<Reply, SessionEnd>
        requires generation { self.old.generation < 2 ^ 62 }
        requires made { self.old.made + 65536 < 2 ^ 62 }
        requires edit { IsRequest request.now }
        ensures step { IfOk result (λ reply. option_map (performed request.now self.old) (H.files shelf.old) ≡ option_map (step reply.text self.new) (H.files shelf.new)) }
        ensures apart { request.now ≢ Publish → IfOk result (λ reply. (files : Files) → performed request.now self.old files ≡ step reply.text self.new files) }
        ensures still { request.now ≢ Publish → H.files shelf.new ≡ H.files shelf.old }
        ensures others { KeepsOthers (H.files shelf.old) (H.files shelf.new) (section_name (self.old.generation + 1)) }
        ensures steps { OnOk result (steps.new ≡ steps.old + request_evaluates request.now self.old) }
        ensures count { OnOk result (self.new.generation ≤ self.old.generation + 1) }
        ensures made { OnOk result (self.new.made ≤ self.old.made + 65536) }
        ensures later { H.faults shelf.old ≤ H.faults shelf.new }
        ensures cause { IsErrOf result SessionEnd.Shelf → Rose (H.faults shelf.old) (H.faults shelf.new) }
        ensures publishes { IsErrOf result SessionEnd.Shelf → request.now ≡ Publish }
    {
        match request {
            Request::Publish => self.publish(shelf),
            Request::Edit(edit) => Ok(self.edit(edit, steps)?),
            Request::Dump => Ok(self.dump()?),
            Request::Issues => Ok(self.issues()?),
            Request::Project => Ok(self.print()?),
            Request::Load { scene, section } => Ok(self.load(*scene, *section)?),
            Request::Unload { scene, section } => Ok(self.unload(*scene, *section)?),
        }
    }

    /// Answers one line, without its line feed. The shelf can end the session where the line asks for a
    /// publication, and nowhere else. Each run of a baker that an edit makes anew is one of `steps`.
    #[tactic(auto, unfolding(crate::specs::Machine::answered, crate::specs::Machine::line_evaluates))]
    pub fn line<H: Shelf, L: Ledger>(
        &mut self,
        _mode: LineMode,
        line: &[u8],
        shelf: &mut H,
        steps: &mut Steps<L>,
    ) -> Result<Reply, SessionEnd>
        requires generation { self.old.generation < 2 ^ 62 }
        requires made { self.old.made + 65536 < 2 ^ 62 }
        ensures step { IfOk result (λ reply. option_map (answered line.now self.old) (H.files shelf.old) ≡ option_map (step reply.text self.new) (H.files shelf.new)) }
        ensures apart { request_of line.now ≢ Ok Publish → IfOk result (λ reply. (files : Files) → answered line.now self.old files ≡ step reply.text self.new files) }
        ensures still { request_of line.now ≢ Ok Publish → H.files shelf.new ≡ H.files shelf.old }
        ensures others { KeepsOthers (H.files shelf.old) (H.files shelf.new) (section_name (self.old.generation + 1)) }
        ensures steps { OnOk result (steps.new ≡ steps.old + line_evaluates line.now self.old) }
        ensures count { OnOk result (self.new.generation ≤ self.old.generation + 1) }
        ensures made { OnOk result (self.new.made ≤ self.old.made + 65536) }
        ensures later { H.faults shelf.old ≤ H.faults shelf.new }
        ensures cause { IsErrOf result SessionEnd.Shelf → Rose (H.faults shelf.old) (H.faults shelf.new) }
        ensures publishes { IsErrOf result SessionEnd.Shelf → request_of line.now ≡ Ok Publish }
    {
        match read_request(self.alloc, line) {
            Ok(request) => self.perform(&request, shelf, steps),
            Err(RequestFault::Memory) => Err(SessionEnd::Memory),
            Err(fault) => Ok(replies::no_request(self.alloc, fault)?),
        }
    }
}
