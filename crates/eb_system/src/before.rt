// The entities as they were before a system.
ghost use Rattle.std.specs.Prelude.{◌≡◌, IfOk, OnOk, option_copied, option_map};
ghost use Rattle.std.specs.FinMap as map;
ghost use Rattle.eb_system.specs.Totals.{numbers, total_of};

use crate::totals::{SceneTotals, Total, scene_totals};
use crate::wanted::{Summed, body_wants};
use eb_base::{Memory, Name};
use eb_rules::Step;
use eb_schema::{Baked, Row};
use std::alloc::Global;
use std::collections::BTreeMap;
use std::marker::Model;

/// The entities as they were before a system, and beside them the totals that its statements ask after, each computed once.
/// Contracts see the entities.
#[derive(Drop)]
pub struct Before<'a> {
    entities: &'a Baked,
    totals: BTreeMap<Summed, SceneTotals>,
    alloc: Global,
}

impl<'a> Model for Before<'a> {
    ghost use Rattle.std.specs.FinMap as map;
    ghost use Rattle.eb_base.specs.Names.{coded_name};
    ghost use Rattle.eb_schema.specs.BakedEntities.{Entities};
    ghost use Rattle.eb_schema.specs.contracts.baked.BakedEntity as entity;
    ghost use Rattle.eb_system.specs.Tables.{AreKept};

    ghost Value = { Entities };

    ghost coded = { map.code coded_name entity.the_row.coded };

    ghost view = { λ b. b.entities.now };

    ghost invariant = { λ b. AreKept b.entities.now b.totals };
}

impl<'a> Before<'a> {
    /// These entities, with the totals that the statements ask after.
    pub fn of(alloc: Global, entities: &'a Baked, body: &[Step]) -> Result<Before<'a>, Memory>
        ensures { IfOk result (λ before. before ≡ entities.now) }
    {
        let wanted = body_wants(alloc, body)?;
        let mut before = Before {
            entities,
            totals: BTreeMap::new(alloc),
            alloc,
        };
        for summed in wanted.items() {
            before.keep(summed)?;
        }
        Ok(before)
    }

    /// Computes the totals of a field, unless they are kept.
    fn keep(&mut self, summed: &Summed) -> Result<(), Memory>
        ensures { self.new ≡ self.old }
    {
        if !self.totals.contains_key(summed) {
            let totals = scene_totals(self.alloc, self.entities, summed)?;
            self.totals.insert(*summed, totals)?;
        }
        Ok(())
    }

    /// The row of an entity, if there is one of the name. Takes no memory.
    pub fn row(&self, name: &Name) -> Option<&Row>
        ensures { option_copied result ≡ option_map (λ e. e.row) (map.get self.now name.now) }
    {
        match self.entities.get(name) {
            Some((_, row)) => Some(row),
            None => None,
        }
    }

    /// The total of a field over the entities of a scene. One that no statement asks after is computed here.
    pub fn total(&self, scene: u32, summed: &Summed) -> Result<Total, Memory>
        ensures { IfOk result (λ total. total ≡ total_of (numbers self.now scene summed.now.kind summed.now.place)) }
    {
        match self.totals.get(summed) {
            Some(totals) => Ok(totals.at(scene)),
            None => {
                let totals = scene_totals(self.alloc, self.entities, summed)?;
                Ok(totals.at(scene))
            }
        }
    }
}
