// What runs gave and read, each under its name, with an index from keys to the runs that looked at them.
ghost use Rattle.std.specs.Prelude.{◌≡◌, None, IfOk, OnOk, OnErr, option_copied, is_some};
ghost use Rattle.std.specs.FinMap as map;
ghost use Rattle.eb_record.specs.Readers.{IsIndex, found_in, reads, with_looks, without_looks};
ghost use Rattle.eb_record.specs.Records.{readers_of, run_name};

use crate::looks::Looks;
use crate::naming::run_name;
use eb_base::{Items, Memory, NameMap};
use eb_eval::{Run, RunId};
use eb_scene::Key;
use std::alloc::Global;
use std::marker::Model;

/// What runs gave and read. Contracts see a finite map from the names of runs.
#[derive(Drop)]
pub struct Record {
    runs: NameMap<Run>,
    looks: Looks,
}

impl Model for Record {
    ghost use Rattle.std.specs.FinMap as map;
    ghost use Rattle.eb_base.specs.Names.{coded_name};
    ghost use Rattle.eb_eval.specs.Ran.{coded_ran};
    ghost use Rattle.eb_record.specs.Readers.{IsIndex};
    ghost use Rattle.eb_record.specs.Records.{Kept};

    ghost Value = { Kept };

    ghost coded = { map.code coded_name coded_ran };

    ghost view = { λ r. r.runs };

    ghost invariant = { λ r. IsIndex r.looks r.runs };
}

/// Takes a run and its looks away, and tells whether it was there.
fn take_run(runs: &mut NameMap<Run>, looks: &mut Looks, id: RunId) -> bool
    requires { IsIndex looks.old runs.old }
    ensures index { IsIndex looks.new runs.new }
    ensures told { result ≡ is_some (map.get runs.old (run_name id)) }
    ensures taken { runs.new ≡ map.remove runs.old (run_name id) }
{
    match runs.take(&run_name(id)) {
        Some(run) => {
            looks.take_all(id, run.keys());
            true
        }
        None => false,
    }
}

/// Puts the looks of a run, if it is there. Where there is no memory for all, none of them is there.
fn put_looks(runs: &NameMap<Run>, looks: &mut Looks, id: RunId) -> Result<(), Memory>
    ensures ok { OnOk result (looks.new ≡ with_looks id looks.old (reads (map.get runs.now (run_name id)))) }
    ensures err { OnErr result (looks.new ≡ without_looks id looks.old (reads (map.get runs.now (run_name id)))) }
{
    match runs.get(&run_name(id)) {
        Some(run) => looks.put_all(id, run.keys()),
        None => Ok(()),
    }
}

/// Puts a run that isn't there, and its looks. Where there is no memory for them, the runs are as they were.
fn put_run(runs: &mut NameMap<Run>, looks: &mut Looks, id: RunId, run: Run) -> Result<(), Memory>
    requires index { IsIndex looks.old runs.old }
    requires new { map.get runs.old (run_name id) ≡ None }
    ensures index { IsIndex looks.new runs.new }
    ensures ok { OnOk result (runs.new ≡ map.insert runs.old (run_name id) run) }
    ensures err { OnErr result (runs.new ≡ runs.old) }
{
    runs.put(run_name(id), run)?;
    match put_looks(runs, looks, id) {
        Ok(()) => Ok(()),
        Err(_) => {
            runs.take(&run_name(id));
            Err(Memory)
        }
    }
}

/// The runs that looked at one of these keys, each under its name.
fn find(looks: &Looks, alloc: Global, keys: &[Key]) -> Result<NameMap<RunId>, Memory>
    ensures { IfOk result (λ found. found ≡ found_in looks.now keys.now) }
{
    let mut found = NameMap::new(alloc);
    for key in keys {
        looks.put_readers(&mut found, key)?;
    }
    Ok(found)
}

/// The runs that were found, in order.
fn listed(alloc: Global, found: &NameMap<RunId>) -> Result<Items<RunId>, Memory>
    ensures { IfOk result (λ ids. ids ≡ map.values found.now) }
{
    let mut ids = Items::new(alloc);
    for (_name, id) in found.iter() {
        ids.push(*id)?;
    }
    Ok(ids)
}

impl Record {
    /// No run. Takes no memory.
    pub fn open(alloc: Global) -> Self
        ensures { result ≡ map.empty }
    {
        Record {
            runs: NameMap::new(alloc),
            looks: Looks::new(alloc),
        }
    }

    /// Keeps a run, in place of the one of its id. After want of memory none of that id is kept.
    pub fn put(&mut self, id: RunId, run: Run) -> Result<(), Memory>
        ensures ok { OnOk result (self.new ≡ map.insert self.old (run_name id) run) }
        ensures err { OnErr result (self.new ≡ map.remove self.old (run_name id)) }
    {
        take_run(&mut self.runs, &mut self.looks, id);
        put_run(&mut self.runs, &mut self.looks, id, run)?;
        Ok(())
    }

    /// Takes the run of an id away, and tells whether there was one. Takes no memory.
    pub fn undo(&mut self, id: RunId) -> bool
        ensures told { result ≡ is_some (map.get self.old (run_name id)) }
        ensures taken { self.new ≡ map.remove self.old (run_name id) }
    {
        take_run(&mut self.runs, &mut self.looks, id)
    }

    /// The run of an id, if it is kept. Takes no memory.
    pub fn run(&self, id: RunId) -> Option<&Run>
        ensures { option_copied result ≡ map.get self.now (run_name id) }
    {
        self.runs.get(&run_name(id))
    }

    /// How many runs are kept. Takes no memory.
    pub fn len(&self) -> usize
        ensures { result ≡ map.len self.now }
    {
        self.runs.len()
    }

    /// The runs that looked at one of these keys, ascending by scene, object and baker, each once.
    pub fn runs_of(&self, alloc: Global, keys: &[Key]) -> Result<Items<RunId>, Memory>
        ensures { IfOk result (λ ids. ids ≡ readers_of self.now keys.now) }
    {
        let found = find(&self.looks, alloc, keys)?;
        let ids = listed(alloc, &found)?;
        Ok(ids)
    }
}
