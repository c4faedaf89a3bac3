// A project with its rules, and what they make of it.
ghost use Rattle.std.specs.Prelude.{◌≡◌, ◌+◌, IfOk, OnOk, false, length};
ghost use Rattle.eb_scene.specs.Validity.{IsEdit};
ghost use Rattle.eb_eval.specs.Runs.{runs_of};
ghost use Rattle.eb_bake.specs.Baking.{Counts, bakery, fault_of, is_memory, staged_of, issues_of, Rebakes};
ghost use Rattle.eb_bake.specs.IssueTexts.{issue_lines};

use crate::issue_texts::issue_lines;
use crate::renewing::{Bake, Rebaked, fresh, renew};
use eb_base::{Memory, Steps, Text};
use eb_rerun::{renewals_are_exact, scene_gone};
use eb_rules::Rules;
use eb_scene::{Edit, EditFault, Project};
use eb_schema::Baked;
use std::alloc::Global;
use std::marker::Model;
use std::sync::ledger::Ledger;

/// Why an edit isn't done.
#[derive(Clone, Copy)]
pub enum BakerFault {
    /// There is no memory. The baker is spent.
    Memory,
    /// The first rule that the edit breaks; never its want of memory. The baker is as it was.
    Edit(EditFault),
}

/// A project with its rules, and what they make of it. Contracts see rules and project, and whether the baker is spent.
#[derive(Drop)]
pub struct Baker {
    rules: Rules,
    project: Project,
    bake: Bake,
    spent: bool,
    alloc: Global,
}

impl Model for Baker {
    ghost use Rattle.std.specs.Prelude.{◌≡◌, false};
    ghost use Rattle.eb_bake.specs.Baking.{Bakery, IsBake, coded_bakery};

    ghost Value = { Bakery };

    ghost coded = { coded_bakery };

    ghost view = { λ b. record { rules = b.rules; project = b.project; spent = b.spent } };

    ghost invariant = { λ b. b.spent ≡ false → IsBake b.rules b.project b.bake };
}

/// Whether an edit lacked memory.
fn is_memory(fault: EditFault) -> bool
    ensures { result ≡ is_memory fault }
{
    match fault {
        EditFault::Memory => true,
        _ => false,
    }
}

/// Why a baker doesn't do an edit that its project refuses.
fn fault_of(fault: EditFault) -> BakerFault
    ensures { result ≡ fault_of fault }
{
    match fault {
        EditFault::Memory => BakerFault::Memory,
        _ => BakerFault::Edit(fault),
    }
}

impl Baker {
    /// The baker of a project under these rules: each run is evaluated once. `docs/baking.md`.
    pub fn open<L: Ledger>(
        alloc: Global,
        rules: Rules,
        project: Project,
        steps: &mut Steps<L>,
    ) -> Result<Self, Memory>
        requires { rules.schema ≡ project.schema }
        ensures baker { IfOk result (λ b. b ≡ bakery rules project) }
        ensures steps { OnOk result (steps.new ≡ steps.old + length (runs_of rules project)) }
    {
        let bake = fresh(alloc, &rules, &project, steps)?;
        Ok(Baker {
            rules,
            project,
            bake,
            spent: false,
            alloc,
        })
    }

    /// Does an edit, and tells what it made anew; or the first rule that it breaks, and then nothing changes. Where there
    /// is no memory, the baker is spent. Each run that the edit made anew is evaluated once, and no other. `docs/baking.md`,
    /// "Edits".
    pub fn edit<L: Ledger>(
        &mut self,
        edit: &Edit,
        steps: &mut Steps<L>,
    ) -> Result<Rebaked, BakerFault>
        requires fits { IsEdit edit.now }
        requires live { self.old.spent ≡ false }
        ensures rebaked { Rebakes result self.old self.new edit.now }
        ensures steps { Counts result steps.old steps.new }
        ensures rules { self.new.rules ≡ self.old.rules }
        ensures schema { self.new.project.schema ≡ self.old.project.schema }
    {
        // (for what they tell alone: a law, and that the project is valid)
        renewals_are_exact();
        self.project.schema();
        let Ok(gone) = scene_gone(self.alloc, &self.project, edit) else {
            self.spent = true;
            return Err(BakerFault::Memory);
        };
        match self.project.edit(edit) {
            Ok(touched) => {
                let Baker {
                    rules,
                    project,
                    bake,
                    ..
                } = self;
                project.schema();
                match renew(
                    bake,
                    self.alloc,
                    rules,
                    project,
                    gone.items(),
                    touched.as_slice(),
                    steps,
                ) {
                    Ok(done) => Ok(done),
                    Err(Memory) => {
                        self.spent = true;
                        Err(BakerFault::Memory)
                    }
                }
            }
            Err(fault) => {
                self.spent = is_memory(fault);
                Err(fault_of(fault))
            }
        }
    }

    /// Whether an edit has wanted memory: then nothing but this and the project may be asked. Takes no memory.
    pub fn spent(&self) -> bool
        ensures { result ≡ self.now.spent }
    {
        self.spent
    }

    /// The project. Takes no memory.
    pub fn project(&self) -> &Project
        ensures { result.now ≡ self.now.project }
    {
        &self.project
    }

    /// The entities after all systems. Takes no memory. `docs/baking.md`, "Systems".
    pub fn baked(&self) -> &Baked
        requires { self.now.spent ≡ false }
        ensures { result.now ≡ (staged_of self.now.rules self.now.project).entities }
    {
        self.bake.stages.last()
    }

    /// How many issues there are. Takes no memory. `docs/baking.md`, "Issues".
    pub fn issue_count(&self) -> usize
        requires { self.now.spent ≡ false }
        ensures { result ≡ length (issues_of self.now.rules self.now.project) }
    {
        self.bake.issues.len()
    }

    /// A line for each issue. `docs/baking.md`, "Issues".
    pub fn issues_text(&self) -> Result<Text, Memory>
        requires { self.now.spent ≡ false }
        ensures { IfOk result (λ text. text ≡ issue_lines self.now.project.schema (issues_of self.now.rules self.now.project)) }
    {
        let text = issue_lines(self.alloc, self.project.schema(), self.bake.issues.items())?;
        Ok(text)
    }
}
