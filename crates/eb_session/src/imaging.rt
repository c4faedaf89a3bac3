// The image of section 0 of scene 1, from what is baked.
ghost use Rattle.std.specs.Prelude.{◌≡◌, IfOk, IfSome, false, option_map, map};
ghost use Rattle.std.specs.List.{list_all, list_any};
ghost use Rattle.std.specs.FinMap.{entries, len};
ghost use Rattle.eb_schema.specs.Schemas.{component_of};
ghost use Rattle.eb_file.specs.Images.{IsPlain};
ghost use Rattle.eb_session.specs.Images as images;
ghost use Rattle.eb_session.specs.Images.{stored_of, all_rows, row_where, other_scenes, guarded_image, image_in};
ghost use Rattle.eb_session.specs.Machine.{IsSection};

use eb_bake::Baker;
use eb_base::{Items, Memory, Name, Place, TypeNo};
use eb_file::{Image, ImageRow, Link, Stored, StoredCell};
use eb_scene::Project;
use eb_schema::{Baked, BakedEntity, Cell, Component, Field, Kind, Mode, Row, Schema, Val};
use std::alloc::Global;

/// The section that is published.
pub const THE_PLACE: Place = Place {
    scene: 1,
    section: 0,
};

/// The most entities that a section has.
const MOST_ROWS: usize = 65536;

/// A value as it is stored.
fn stored_value(value: &Val) -> Stored
    ensures { result ≡ stored_of value.now }
{
    match value {
        Val::Num(number) => Stored::Num(*number),
        Val::To(_) | Val::Null | Val::Gone => Stored::Link(Link::Null),
    }
}

/// A cell as it is stored.
fn stored_cell(alloc: Global, cell: &Cell) -> Result<StoredCell, Memory>
    ensures { IfOk result (λ stored. stored ≡ images.stored_cell cell.now) }
{
    let given = cell.values.items();
    let mut values = Vec::with_capacity(alloc, given.len())?;
    for value in given {
        values.push(stored_value(value))?;
    }
    Ok(StoredCell {
        kind: cell.kind,
        values: Items::of(values),
    })
}

/// The cells of a row as they are stored.
fn stored_cells(alloc: Global, row: &Row) -> Result<Items<StoredCell>, Memory>
    ensures { IfOk result (λ cells. cells ≡ map images.stored_cell row.now) }
{
    let given = row.cells();
    let mut cells = Vec::with_capacity(alloc, given.len())?;
    for cell in given {
        cells.push(stored_cell(alloc, cell)?)?;
    }
    Ok(Items::of(cells))
}

/// Whether a field of this kind holds whole numbers of 64 bits.
fn is_whole_number(kind: Kind) -> bool
    ensures { result ≡ images.is_whole_number kind }
{
    matches!(kind, Kind::I64)
}

/// Whether components of the mode are stored.
fn is_stored(mode: Mode) -> bool
    ensures { result ≡ images.is_stored mode }
{
    matches!(mode, Mode::Stored)
}

/// Whether all fields hold whole numbers of 64 bits.
fn are_whole_numbers(fields: &[Field]) -> bool
    ensures { result ≡ list_all (λ f. images.is_whole_number f.kind) fields.now }
{
    fields.iter().all(|field| is_whole_number(field.kind))
}

/// Whether a component type is stored and has whole numbers alone.
fn is_plain_type(component: &Component) -> bool
    ensures { result ≡ images.is_plain_type component.now }
{
    is_stored(component.mode) && are_whole_numbers(component.fields.items())
}

/// Whether a value is a whole number.
fn is_whole(value: &Val) -> bool
    ensures { result ≡ images.is_whole value.now }
{
    match value {
        Val::Num(number) => {
            let _number = *number;
            true
        }
        Val::To(_) | Val::Null | Val::Gone => false,
    }
}

/// Whether all values are whole numbers.
fn are_whole(values: &[Val]) -> bool
    ensures { result ≡ list_all images.is_whole values.now }
{
    values.iter().all(is_whole)
}

/// Whether values are one whole number for each field of component type 1, which is stored and has whole numbers alone.
fn is_plain_cell(schema: &Schema, values: &[Val]) -> bool
    ensures { result ≡ images.is_plain_cell (component_of schema.now 1) values.now }
{
    match schema.component(TypeNo::FIRST) {
        Some(component) => {
            is_plain_type(component)
                && (values.len() == component.fields.items().len() && are_whole(values))
        }
        None => false,
    }
}

/// Whether a row has just one cell, of type 1, which is stored and has whole numbers alone.
fn is_plain_row(schema: &Schema, row: &Row) -> bool
    ensures { result ≡ images.is_plain_row schema.now row.now }
{
    match row.cells() {
        [] => false,
        [cell] => cell.kind.number() == 1 && is_plain_cell(schema, cell.values.items()),
        [_, _, ..] => false,
    }
}

/// Whether a name is one that baking gives in scene 1.
fn is_baked_name(name: &Name) -> bool
    ensures { result ≡ images.is_baked_name name.now }
{
    (name.play == 0 && name.scene == 1)
        && (name.object != 0 && (name.extra == 0 || (17 <= name.extra && name.extra <= 1040)))
}

/// Whether a place is the section that is published.
fn is_the_place(place: Place) -> bool
    ensures { result ≡ images.is_the_place place }
{
    place.scene == 1 && place.section == 0
}

/// Whether an entity is in the section and its row is plain.
fn is_plain_entity(schema: &Schema, name: &Name, entity: &BakedEntity) -> bool
    ensures { result ≡ images.is_plain_entity schema.now (name.now, entity.now) }
{
    is_baked_name(name) && (is_the_place(entity.place) && is_plain_row(schema, &entity.row))
}

/// The stored row of an entity; none where it isn't in the section, or its row isn't plain.
fn plain_row(
    alloc: Global,
    schema: &Schema,
    name: &Name,
    entity: &BakedEntity,
) -> Result<Option<ImageRow>, Memory>
    ensures { IfOk result (λ row. row ≡ row_where (images.is_plain_entity schema.now (name.now, entity.now)) (name.now, entity.now)) }
{
    if !is_plain_entity(schema, name, entity) {
        return Ok(None);
    }
    Ok(Some(ImageRow {
        name: *name,
        cells: stored_cells(alloc, &entity.row)?,
    }))
}

/// The stored rows of all entities; none where one of them has none.
fn plain_rows(
    alloc: Global,
    schema: &Schema,
    baked: &Baked,
) -> Result<Option<Vec<ImageRow>>, Memory>
    ensures { IfOk result (λ rows. option_map (λ r. r.items) rows ≡ all_rows schema.now (entries baked.now)) }
{
    let mut rows = Vec::with_capacity(alloc, baked.len())?;
    for (name, entity) in baked.iter() {
        match plain_row(alloc, schema, name, entity)? {
            Some(row) => rows.push(row)?,
            None => return Ok(None),
        }
    }
    Ok(Some(rows))
}

/// The numbers of all scenes but 1.
const OTHER_SCENES: [u8; 15] = [2, 3, 4, 5, 6, 7, 8, 9, 10, 11, 12, 13, 14, 15, 16];

/// Whether there is another scene than 1.
fn has_other_scene(project: &Project) -> bool
    ensures { result ≡ list_any (images.has_scene project.now) other_scenes }
{
    OTHER_SCENES.iter().any(|scene| project.has_scene(*scene))
}

/// Whether scene 1 is there, and no other one.
fn has_scene_one_alone(project: &Project) -> bool
    ensures { result ≡ images.has_scene_one_alone project.now }
{
    project.has_scene(1) && !has_other_scene(project)
}

/// The image of section 1:0 as a publication of these entities writes it; none where the project isn't published yet:
/// another scene or section is there, or an entity that hasn't just one component, of type 1, stored and of whole
/// numbers alone, or more than 65,536 entities.
fn image_of(alloc: Global, project: &Project, baked: &Baked) -> Result<Option<Image>, Memory>
    ensures image { IfOk result (λ found. found ≡ guarded_image project.now baked.now) }
    ensures section { IfOk result (λ found. IfSome found (IsSection project.now.schema)) }
    ensures plain { IfOk result (λ found. IfSome found (IsPlain project.now.schema)) }
{
    if baked.len() > MOST_ROWS || !has_scene_one_alone(project) {
        return Ok(None);
    }
    match plain_rows(alloc, project.schema(), baked)? {
        Some(rows) => Ok(Some(Image {
            place: THE_PLACE,
            rows: Items::of(rows),
        })),
        None => Ok(None),
    }
}

/// The image of section 1:0 as a publication writes it, none where the project isn't published yet.
#[tactic(auto, unfolding(crate::specs::Images::image_in))]
pub fn image(alloc: Global, baker: &Baker) -> Result<Option<Image>, Memory>
    requires { baker.now.spent ≡ false }
    ensures image { IfOk result (λ found. found ≡ image_in baker.now.rules baker.now.project) }
    ensures section { IfOk result (λ found. IfSome found (IsSection baker.now.project.schema)) }
    ensures plain { IfOk result (λ found. IfSome found (IsPlain baker.now.project.schema)) }
{
    let found = image_of(alloc, baker.project(), baker.baked())?;
    Ok(found)
}
