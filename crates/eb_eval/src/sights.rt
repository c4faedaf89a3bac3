// The reads of a baker, answered over a project.
ghost use Rattle.std.specs.Prelude.{◌≡◌, [], ◌∷◌, ◌++◌, OnOk, IfOk};
ghost use Rattle.eb_scene.specs.declared.keys.Key.TheVariants as key;
ghost use Rattle.eb_scene.specs.Answers.{answer};
ghost use Rattle.eb_meaning.specs.Asks.{Goes, run};
ghost use Rattle.eb_eval.specs.Entities.{own_entity, extra_entity, link_where};
ghost use Rattle.eb_eval.specs.Sights.{held_at, numbers_of, sum_found, count_found, best_found, asset_field, referred, run_sight};

use crate::entities::{extra_entity, link_where, own_entity};
use crate::fields::{held_at, number_in, value_as, value_at};
use crate::ids::RunId;
use crate::sums::{Extreme, best_value, count_value, sum_value};
use crate::walks::{Sought, field_of, gathered, levels_of, most_levels, nearest};
use eb_base::{AuthorNo, Items, Memory};
use eb_meaning::{Link, Reads, Stop, Value};
use eb_rule_text::Reach;
use eb_rules::{AuthoredField, FieldPlace, FindTerm, ReadTerm};
use eb_scene::{Given, Key, Project};
use std::alloc::Global;

/// A run over a project: what its baker reads. What a read means is a function of the run and the baker's own type
/// alone, and the project is looked at by keys.
#[derive(Drop)]
pub struct RunReads<'a> {
    /// Where memory is taken of.
    pub alloc: Global,
    /// The project.
    pub project: &'a Project,
    /// The run.
    pub id: RunId,
    /// The authoring type of its baker.
    pub own: AuthorNo,
}

impl<'a> RunReads<'a> {
    // What the run's own component holds in a field.
    fn held(&self, noted: &mut Items<Key>, field: &FieldPlace) -> Result<Option<Given>, Memory>
        ensures noted { OnOk result (noted.new ≡ noted.old ++ key.Comp self.now.id.scene self.now.id.object self.now.own ∷ []) }
        ensures held { IfOk result (λ x. x ≡ held_at field.now (answer self.now.project.now (key.Comp self.now.id.scene self.now.id.object self.now.own))) }
    {
        let RunId { scene, object, .. } = self.id;
        let kind = self.own;
        noted.push(Key::Comp {
            scene,
            object,
            kind,
        })?;
        match self.project.component(scene, object, kind) {
            Some(part) => Ok(held_at(field.place, part.values.items())),
            None => Ok(None),
        }
    }

    // The numbers in a field of the children, or of all objects below, that have the type.
    fn numbers(
        &self,
        noted: &mut Items<Key>,
        reach: &Reach,
        kind: AuthorNo,
        place: usize,
    ) -> Result<Items<i64>, Stop>
        ensures { Goes (run (answer self.now.project.now) (numbers_of self.now.id reach.now kind place) noted.old) result noted.new }
    {
        let scene = self.id.scene;
        let sought = Sought { scene, kind, place };
        let mut have = Items::new(self.alloc);
        gathered(
            self.project,
            noted,
            &sought,
            levels_of(reach),
            self.id.object,
            &mut have,
        )?;
        Ok(have)
    }

    // The least or the greatest of these numbers.
    fn best(
        &self,
        noted: &mut Items<Key>,
        extreme: Extreme,
        reach: &Reach,
        sought: &AuthoredField,
    ) -> Result<Option<Value>, Stop>
        ensures { Goes (run (answer self.now.project.now) (best_found self.now.id extreme reach.now sought.now) noted.old) result noted.new }
    {
        let numbers = self.numbers(noted, reach, sought.kind, sought.field.place)?;
        Ok(best_value(extreme, sought.field.kind, numbers.items()))
    }

    // Their sum.
    fn sum(
        &self,
        noted: &mut Items<Key>,
        reach: &Reach,
        sought: &AuthoredField,
    ) -> Result<Value, Stop>
        ensures { Goes (run (answer self.now.project.now) (sum_found self.now.id reach.now sought.now) noted.old) result noted.new }
    {
        let numbers = self.numbers(noted, reach, sought.kind, sought.field.place)?;
        let sum = sum_value(sought.field.kind, numbers.items())?;
        Ok(sum)
    }

    // How many they are.
    fn count(&self, noted: &mut Items<Key>, reach: &Reach, kind: AuthorNo) -> Result<Value, Stop>
        ensures { Goes (run (answer self.now.project.now) (count_found self.now.id reach.now kind) noted.old) result noted.new }
    {
        let numbers = self.numbers(noted, reach, kind, 0)?;
        Ok(count_value(numbers.items()))
    }

    // A reference to an object of the scene.
    fn referred(&self, noted: &mut Items<Key>, held: Option<Given>) -> Result<Value, Stop>
        ensures { Goes (run (answer self.now.project.now) (referred self.now.id.scene held) noted.old) result noted.new }
    {
        match held {
            Some(Given::Object(object)) => {
                let scene = self.id.scene;
                noted.push(Key::Exists { scene, object })?;
                let there = self.project.object(scene, object).is_some();
                Ok(Value::Link(link_where(there, scene, object)))
            }
            _ => Ok(Value::Link(Link::Null)),
        }
    }

    // A field of the asset that a value names.
    fn asset_field(
        &self,
        noted: &mut Items<Key>,
        held: Option<Given>,
        field: &FieldPlace,
    ) -> Result<Option<Value>, Stop>
        ensures { Goes (run (answer self.now.project.now) (asset_field field.now held) noted.old) result noted.new }
    {
        match held {
            Some(Given::Asset(asset)) => {
                noted.push(Key::Asset { asset })?;
                match self.project.asset(asset) {
                    Some(values) => Ok(Some(value_at(field, values))),
                    None => Ok(None),
                }
            }
            _ => Ok(None),
        }
    }
}

impl<'a> Reads for RunReads<'a> {
    ghost answers = { λ s. answer s.project.now };

    ghost sight = { λ s. run_sight s.id s.own };

    fn read(&self, noted: &mut Items<Key>, term: &ReadTerm) -> Result<Value, Stop> {
        match term {
            ReadTerm::This(field) => {
                let held = self.held(noted, field)?;
                Ok(value_as(field.kind, number_in(held)))
            }
            ReadTerm::Sum(reach, sought) => {
                let sum = self.sum(noted, reach, sought)?;
                Ok(sum)
            }
            ReadTerm::Count(reach, kind) => {
                let count = self.count(noted, reach, *kind)?;
                Ok(count)
            }
            ReadTerm::Entity => {
                let own = own_entity(self.id.scene, self.id.object);
                Ok(Value::Link(Link::To(own)))
            }
            ReadTerm::EntityAt(field) => {
                let held = self.held(noted, field)?;
                let link = self.referred(noted, held)?;
                Ok(link)
            }
            _ => Ok(Value::Int(0)),
        }
    }

    fn find(&self, noted: &mut Items<Key>, term: &FindTerm) -> Result<Option<Value>, Stop> {
        let RunId { scene, object, .. } = self.id;
        match term {
            FindTerm::Own(sought) => {
                let found = field_of(self.project, noted, scene, object, sought)?;
                Ok(found)
            }
            FindTerm::Parent(sought) => {
                let found = nearest(self.project, noted, most_levels(), scene, object, sought)?;
                Ok(found)
            }
            FindTerm::Asset(asset, field) => {
                let held = self.held(noted, asset)?;
                let found = self.asset_field(noted, held, field)?;
                Ok(found)
            }
            FindTerm::Min(reach, sought) => {
                let found = self.best(noted, Extreme::Least, reach, sought)?;
                Ok(found)
            }
            FindTerm::Max(reach, sought) => {
                let found = self.best(noted, Extreme::Greatest, reach, sought)?;
                Ok(found)
            }
            _ => Ok(None),
        }
    }

    fn extra(&self, number: usize) -> Value {
        Value::Link(Link::To(extra_entity(self.id, number)))
    }
}
