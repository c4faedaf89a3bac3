// The schema as a whole.
ghost use Rattle.std.specs.Prelude.{◌≡◌, [], ◌∷◌, IfOk};
ghost use Rattle.std.specs.Option.{option_copied};
ghost use Rattle.serde_json.specs.View.{view};
ghost use Rattle.eb_schema.specs.SchemaFaults.{Tells};
ghost use Rattle.eb_schema.specs.SchemaTests.{types_of, schema_of};
ghost use Rattle.eb_schema.specs.SoundSchemas.{IsSchema};
ghost use Rattle.eb_schema.specs.Schemas.{plain_field, plain_types, component_of, component_named, authoring_of, authoring_named};

use crate::copies::copies_of;
use crate::drafts::Lists;
use crate::faults::SchemaFault;
use crate::kinds::{Authoring, Component, Field, Kind, Mode};
use crate::reading::DraftForm;
use crate::tables::Table;
use crate::testing::lists;
use eb_base::{AuthorNo, Items, Memory, Text, TypeNo};
use eb_json::Form;
use serde_json::Value;
use std::alloc::Global;
use std::marker::Model;

/// The schema of a project. Contracts see its three lists, which are within their limits, with names and numbers
/// that differ and copies that match.
#[derive(Drop)]
pub struct Schema {
    assets: Items<Field>,
    authoring: Table<Authoring>,
    components: Table<Component>,
}

impl Model for Schema {
    ghost use Rattle.eb_schema.specs.Schemas.{Types};
    ghost use Rattle.eb_schema.specs.SoundSchemas.{IsSchema};

    ghost Value = { Types };

    ghost view = { λ s. record { assets = s.assets; authoring = s.authoring; components = s.components } };

    ghost invariant = { λ s. IsSchema (record { assets = s.assets; authoring = s.authoring; components = s.components }) };
}

/// The one field of the plain schema's types, as a list.
#[tactic(auto, unfolding(crate::specs::Schemas::plain_types))]
fn plain_fields(alloc: Global) -> Result<Items<Field>, Memory>
    ensures { IfOk result (λ fields. fields ≡ plain_field ∷ []) }
{
    let field = Field {
        name: Text::of(alloc, b"v")?,
        kind: Kind::I64,
    };
    let mut fields = Vec::new(alloc);
    fields.push(field)?;
    Ok(Items::of(fields))
}

/// The lists of the plain schema.
#[tactic(auto, unfolding(crate::specs::Schemas::plain_types))]
fn plain_lists(alloc: Global) -> Result<Lists, Memory>
    ensures { IfOk result (λ lists. types_of lists ≡ plain_types) }
{
    let mut authoring = Vec::new(alloc);
    authoring.push(Authoring {
        number: AuthorNo::FIRST,
        name: Text::of(alloc, b"Value")?,
        copy: Some(TypeNo::FIRST),
        fields: plain_fields(alloc)?,
    })?;
    let mut components = Vec::new(alloc);
    components.push(Component {
        number: TypeNo::FIRST,
        name: Text::of(alloc, b"Value")?,
        mode: Mode::Stored,
        fields: plain_fields(alloc)?,
    })?;
    Ok(Lists {
        assets: Items::new(alloc),
        authoring: Items::of(authoring),
        components: Items::of(components),
    })
}

impl Schema {
    /// The schema of these lists.
    fn of(alloc: Global, lists: Lists) -> Result<Self, Memory>
        requires { IsSchema (types_of lists) }
        ensures { IfOk result (λ schema. schema ≡ types_of lists) }
    {
        Ok(Schema {
            assets: lists.assets,
            authoring: Table::of(alloc, lists.authoring)?,
            components: Table::of(alloc, lists.components)?,
        })
    }

    /// The schema of the first projects: component type 1 `Value` with one field `v`, a whole number of
    /// 64 bits, stored, and authoring type 1 `Value` copied to it.
    pub fn plain(alloc: Global) -> Result<Self, Memory>
        ensures { IfOk result (λ schema. schema ≡ plain_types) }
    {
        let lists = plain_lists(alloc)?;
        let schema = Schema::of(alloc, lists)?;
        Ok(schema)
    }

    /// The schema that a document is. Its form is tested first, over the whole document; among the other
    /// refusals the one of the least place is given.
    #[tactic(auto, unfolding(crate::specs::SchemaTests::schema_of))]
    pub fn read(alloc: Global, document: &Value) -> Result<Self, SchemaFault>
        ensures { Tells result (schema_of (view document.now)) }
    {
        let draft = DraftForm.read(alloc, 0, document)?;
        let lists = lists(alloc, draft)?;
        let schema = Schema::of(alloc, lists)?;
        Ok(schema)
    }

    /// The component type of this number. Takes no memory, and time by the logarithm of their count.
    pub fn component(&self, kind: TypeNo) -> Option<&Component>
        ensures { option_copied result ≡ component_of self.now kind }
    {
        self.components.numbered(kind.number())
    }

    /// The number of the component type of this name. Takes no memory, and time by the logarithm of their count.
    pub fn component_named(&self, name: &[u8]) -> Option<TypeNo>
        ensures { result ≡ component_named self.now name.now }
    {
        match self.components.named(name) {
            Some(component) => Some(component.number),
            None => None,
        }
    }

    /// The authoring type of this number. Takes no memory, and time by the logarithm of their count.
    pub fn authoring(&self, kind: AuthorNo) -> Option<&Authoring>
        ensures { option_copied result ≡ authoring_of self.now kind }
    {
        self.authoring.numbered(kind.number())
    }

    /// The number of the authoring type of this name. Takes no memory, and time by the logarithm of their count.
    pub fn authoring_named(&self, name: &[u8]) -> Option<AuthorNo>
        ensures { result ≡ authoring_named self.now name.now }
    {
        match self.authoring.named(name) {
            Some(authoring) => Some(authoring.number),
            None => None,
        }
    }

    /// The fields of an asset. Takes no memory.
    pub fn asset_fields(&self) -> &[Field]
        ensures fields { result.now ≡ self.now.assets }
        ensures sound { IsSchema self.now }
    {
        self.assets.items()
    }

    /// The component types, in the order of the document. Takes no memory.
    pub fn components(&self) -> &[Component]
        ensures types { result.now ≡ self.now.components }
        ensures sound { IsSchema self.now }
    {
        self.components.items()
    }

    /// The authoring types, in the order of the document. Takes no memory.
    pub fn authoring_types(&self) -> &[Authoring]
        ensures types { result.now ≡ self.now.authoring }
        ensures sound { IsSchema self.now }
    {
        self.authoring.items()
    }

    /// An equal schema.
    pub fn copy(&self, alloc: Global) -> Result<Self, Memory>
        ensures { IfOk result (λ schema. schema ≡ self.now) }
    {
        Ok(Schema {
            assets: copies_of(alloc, self.assets.items())?,
            authoring: Table::of(alloc, copies_of(alloc, self.authoring.items())?)?,
            components: Table::of(alloc, copies_of(alloc, self.components.items())?)?,
        })
    }
}
