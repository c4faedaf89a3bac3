// What each draft stands for, or why it stands for nothing.
ghost use Rattle.std.specs.Prelude.{◌≡◌, bytes_eq, find, take};
ghost use Rattle.std.specs.Option.{option_copied};
ghost use Rattle.std.specs.List.{list_any};
ghost use Rattle.eb_schema.specs.SchemaFaults.{Tells};
ghost use Rattle.eb_schema.specs.SchemaForm.{placed};
ghost use Rattle.eb_schema.specs.SchemaTests.{allows, allowed_kind, kind_of, field_from, fields_from, component_from, authoring_from, same_field, same_fields, authoring_with, copy_from, copy_named, copied_to, each_within, lists_from};

use crate::authoring_drafts::AuthoringDrafts;
use crate::drafts::{Draft, DraftAuthoring, DraftComponent, DraftField, Holder, Lists, Placed};
use crate::faults::SchemaFault;
use crate::kinds::{Authoring, Component, Field, Kind};
use crate::making::{Maker, make_each};
use crate::tables::Table;
use eb_base::{Items, Text, TypeNo};
use std::alloc::Global;

// The most fields of a type, or of assets.
const MOST_FIELDS: usize = 16;

// The most types of a list.
const MOST_TYPES: usize = 128;

/// The kind that a text names.
#[tactic(auto, unfolding(crate::specs::SchemaTests::kind_of))]
fn kind_named(text: &[u8]) -> Option<Kind>
    ensures { result ≡ kind_of text.now }
{
    if text == b"i8".as_slice() {
        Some(Kind::I8)
    } else if text == b"i16".as_slice() {
        Some(Kind::I16)
    } else if text == b"i32".as_slice() {
        Some(Kind::I32)
    } else if text == b"i64".as_slice() {
        Some(Kind::I64)
    } else if text == b"fix".as_slice() {
        Some(Kind::Fix)
    } else if text == b"ref".as_slice() {
        Some(Kind::Ref)
    } else if text == b"asset".as_slice() {
        Some(Kind::Asset)
    } else {
        None
    }
}

/// Whether fields of this kind are allowed there.
fn is_allowed(holder: Holder, kind: Kind) -> bool
    ensures { result ≡ allows holder kind }
{
    match holder {
        Holder::OfAssets => match kind {
            Kind::Ref | Kind::Asset => false,
            _ => true,
        },
        Holder::OfAuthoring => true,
        Holder::OfComponent => match kind {
            Kind::Asset => false,
            _ => true,
        },
    }
}

/// The kind that a text at this place names, if it is allowed there.
fn kind(holder: Holder, text: &Placed<Text>) -> Result<Kind, SchemaFault>
    ensures { Tells result (allowed_kind holder text.now.place (kind_of text.now.value)) }
{
    match kind_named(text.value.bytes()) {
        Some(kind) => {
            if is_allowed(holder, kind) {
                Ok(kind)
            } else {
                Err(SchemaFault::BadKind { place: text.place })
            }
        }
        None => Err(SchemaFault::BadKind { place: text.place }),
    }
}

/// Makes fields.
#[derive(Drop)]
struct FieldMaker<'a> {
    holder: Holder,
    drafts: &'a [DraftField],
}

impl<'a> Maker for FieldMaker<'a> {
    type Draft = DraftField;

    type Made = Field;

    ghost makes = { λ m. field_from m.holder };

    ghost listed = { λ m. m.drafts.now };

    fn drafts(&self) -> &[DraftField] {
        self.drafts
    }

    #[tactic(auto, unfolding(crate::specs::SchemaTests::field_from))]
    fn make(&self, alloc: Global, index: usize, draft: &DraftField) -> Result<Field, SchemaFault> {
        if is_field_name(&self.drafts[..index], draft.name.value.bytes()) {
            return Err(SchemaFault::NameTaken {
                place: draft.name.place,
            });
        }
        let kind = kind(self.holder, &draft.kind)?;
        Ok(Field {
            name: draft.name.value.copy(alloc)?,
            kind,
        })
    }
}

/// Whether one of the fields, at most 16, has this name.
fn is_field_name(fields: &[DraftField], name: &[u8]) -> bool
    ensures { result ≡ list_any (λ f. bytes_eq f.name.value name.now) fields.now }
{
    fields.iter().any(|field| field.name.value.bytes() == name)
}

/// Makes a list of at most 16 fields.
fn fields(
    alloc: Global,
    holder: Holder,
    drafts: &Placed<Items<DraftField>>,
) -> Result<Items<Field>, SchemaFault>
    ensures { Tells result (fields_from holder drafts.now) }
{
    let maker = FieldMaker {
        holder,
        drafts: drafts.value.items(),
    };
    let fields = make_each(alloc, &maker, MOST_FIELDS, drafts.place)?;
    Ok(fields)
}

/// Makes component types.
#[derive(Drop)]
struct ComponentMaker<'a> {
    components: &'a Table<DraftComponent>,
}

impl<'a> Maker for ComponentMaker<'a> {
    type Draft = DraftComponent;

    type Made = Component;

    ghost makes = { λ _. component_from };

    ghost listed = { λ m. m.components.now };

    fn drafts(&self) -> &[DraftComponent] {
        self.components.items()
    }

    #[tactic(auto, unfolding(crate::specs::SchemaTests::component_from))]
    fn make(
        &self,
        alloc: Global,
        index: usize,
        draft: &DraftComponent,
    ) -> Result<Component, SchemaFault> {
        let fields = fields(alloc, Holder::OfComponent, &draft.fields)?;
        if self
            .components
            .has_name_before(index, draft.name.value.bytes())
        {
            return Err(SchemaFault::NameTaken {
                place: draft.name.place,
            });
        }
        if self
            .components
            .has_number_before(index, draft.number.value.number())
        {
            return Err(SchemaFault::NumberTaken {
                place: draft.number.place,
            });
        }
        Ok(Component {
            number: draft.number.value,
            name: draft.name.value.copy(alloc)?,
            mode: draft.mode,
            fields,
        })
    }
}

/// Makes authoring types, which may be copied to these component types.
#[derive(Drop)]
struct AuthoringMaker<'a> {
    authoring: &'a AuthoringDrafts,
    components: &'a Table<DraftComponent>,
}

impl<'a> Maker for AuthoringMaker<'a> {
    type Draft = DraftAuthoring;

    type Made = Authoring;

    ghost makes = { λ m. authoring_from m.components.now };

    ghost listed = { λ m. m.authoring.now };

    fn drafts(&self) -> &[DraftAuthoring] {
        self.authoring.table().items()
    }

    #[tactic(auto, unfolding(crate::specs::SchemaTests::authoring_from))]
    fn make(
        &self,
        alloc: Global,
        index: usize,
        draft: &DraftAuthoring,
    ) -> Result<Authoring, SchemaFault> {
        let copy = copy(self.components, self.authoring, index, draft)?;
        let fields = fields(alloc, Holder::OfAuthoring, &draft.fields)?;
        authoring_with(alloc, self.authoring.table(), index, draft, copy, fields)
    }
}

/// The authoring type of this draft, copy and fields, behind these others.
#[tactic(auto, unfolding(crate::specs::SchemaTests::authoring_with))]
fn authoring_with(
    alloc: Global,
    table: &Table<DraftAuthoring>,
    index: usize,
    draft: &DraftAuthoring,
    copy: Option<TypeNo>,
    fields: Items<Field>,
) -> Result<Authoring, SchemaFault>
    ensures { Tells result (authoring_with (take index table.now) draft.now copy fields) }
{
    if table.has_name_before(index, draft.name.value.bytes()) {
        return Err(SchemaFault::NameTaken {
            place: draft.name.place,
        });
    }
    if table.has_number_before(index, draft.number.value.number()) {
        return Err(SchemaFault::NumberTaken {
            place: draft.number.place,
        });
    }
    Ok(Authoring {
        number: draft.number.value,
        name: draft.name.value.copy(alloc)?,
        copy,
        fields,
    })
}

/// The component type that an authoring type is copied to, behind those before it.
#[tactic(auto, unfolding(crate::specs::SchemaTests::copy_from))]
fn copy(
    components: &Table<DraftComponent>,
    authoring: &AuthoringDrafts,
    index: usize,
    draft: &DraftAuthoring,
) -> Result<Option<TypeNo>, SchemaFault>
    ensures { Tells result (copy_from components.now (take index authoring.now) draft.now) }
{
    match &draft.copy.value {
        Some(name) => copy_named(components, authoring, index, draft, name.bytes()),
        None => Ok(None),
    }
}

/// The component type of the name, which has the draft's fields and to which none of those before it is copied.
#[tactic(auto, unfolding(crate::specs::SchemaTests::copy_named))]
fn copy_named(
    components: &Table<DraftComponent>,
    authoring: &AuthoringDrafts,
    index: usize,
    draft: &DraftAuthoring,
    name: &[u8],
) -> Result<Option<TypeNo>, SchemaFault>
    ensures { Tells result (copy_named components.now (take index authoring.now) draft.now.copy.place draft.now.fields.value name.now) }
{
    let place = draft.copy.place;
    if authoring.is_copied_before(index, name) {
        return Err(SchemaFault::CopyMismatch { place });
    }
    copied_to(
        place,
        draft.fields.value.items(),
        first_named(components, name),
    )
}

/// The number of the component type, which has these fields, if there is one.
fn copied_to(
    place: u32,
    fields: &[DraftField],
    component: Option<&DraftComponent>,
) -> Result<Option<TypeNo>, SchemaFault>
    ensures { Tells result (copied_to place fields.now (option_copied component.entry)) }
{
    match component {
        Some(component) if same_fields(component.fields.value.items(), fields) => {
            Ok(Some(component.number.value))
        }
        _ => Err(SchemaFault::CopyMismatch { place }),
    }
}

/// The first component type of this name.
fn first_named<'a>(components: &'a Table<DraftComponent>, name: &[u8]) -> Option<&'a DraftComponent>
    ensures { option_copied result ≡ find (λ c. bytes_eq c.name.value name.now) components.now }
{
    components.named(name)
}

/// Whether the fields have the same names and kinds, in the same order.
fn same_fields(left: &[DraftField], right: &[DraftField]) -> bool
    ensures { result ≡ same_fields left.now right.now }
{
    if left.len() != right.len() {
        return false;
    }
    for index in 0..left.len() {
        if !is_same(&left[index], &right[index]) {
            return false;
        }
    }
    true
}

/// Whether two fields have the same name and kind.
fn is_same(one: &DraftField, other: &DraftField) -> bool
    ensures { result ≡ same_field one.now other.now }
{
    one.name.value.bytes() == other.name.value.bytes()
        && one.kind.value.bytes() == other.kind.value.bytes()
}

/// The lists of a draft.
#[tactic(auto, unfolding(crate::specs::SchemaTests::lists_from))]
pub fn lists(alloc: Global, draft: Draft) -> Result<Lists, SchemaFault>
    ensures { Tells result (lists_from draft) }
{
    let Draft {
        assets,
        authoring,
        components,
    } = draft;
    let assets = fields(alloc, Holder::OfAssets, &assets)?;
    let table = Table::of(alloc, components.value)?;
    let drafts = AuthoringDrafts::of(alloc, authoring.value)?;
    let authoring = authoring_types(alloc, &drafts, authoring.place, &table)?;
    let components = component_types(alloc, &table, components.place)?;
    Ok(Lists {
        assets,
        authoring,
        components,
    })
}

/// Makes a list of at most 128 authoring types, which stands at this place.
fn authoring_types(
    alloc: Global,
    authoring: &AuthoringDrafts,
    place: u32,
    components: &Table<DraftComponent>,
) -> Result<Items<Authoring>, SchemaFault>
    ensures { Tells result (each_within 128 (authoring_from components.now) (placed place authoring.now)) }
{
    let maker = AuthoringMaker {
        authoring,
        components,
    };
    let authoring = make_each(alloc, &maker, MOST_TYPES, place)?;
    Ok(authoring)
}

/// Makes a list of at most 128 component types, which stands at this place.
fn component_types(
    alloc: Global,
    components: &Table<DraftComponent>,
    place: u32,
) -> Result<Items<Component>, SchemaFault>
    ensures { Tells result (each_within 128 component_from (placed place components.now)) }
{
    let components = make_each(alloc, &ComponentMaker { components }, MOST_TYPES, place)?;
    Ok(components)
}
