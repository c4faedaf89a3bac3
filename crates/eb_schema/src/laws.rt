// Laws of schemas, rows and sets of types. They do nothing: each states what its definitions mean.
ghost use Rattle.std.specs.Prelude.{◌≡◌, ◌==◌, ℕ, List, cond, is_some};
ghost use Rattle.std.specs.List.{AllByRecursion, list_any};
ghost use Rattle.std.specs.List.Sorted.{IsStrictlySortedBy};
ghost use Rattle.std.specs.Ordering.{nat_cmp};
ghost use Rattle.eb_schema.specs.declared.rows.Cell.{Cell};
ghost use Rattle.eb_schema.specs.Schemas.{Types, component_of, component_named, authoring_of, authoring_named};
ghost use Rattle.eb_schema.specs.SoundSchemas.{IsSchema};
ghost use Rattle.eb_schema.specs.Rows.{kinds_of, cell_of, with_cell, type_set, IsRow};

/// The law that each type of a schema is found by its number, and by its name.
pub fn types_are_found()
    ensures components { (types : Types) → IsSchema types → AllByRecursion (λ c. component_of types c.number ≡ Some c) types.components }
    ensures component_names { (types : Types) → IsSchema types → AllByRecursion (λ c. component_named types c.name ≡ Some c.number) types.components }
    ensures authoring { (types : Types) → IsSchema types → AllByRecursion (λ a. authoring_of types a.number ≡ Some a) types.authoring }
    ensures authoring_names { (types : Types) → IsSchema types → AllByRecursion (λ a. authoring_named types a.name ≡ Some a.number) types.authoring }
{}

/// The law that a cell that was put into a row is found by its type, that all other cells stay, and that a row
/// has the types of its cells.
pub fn rows_hold_their_cells()
    ensures put { (row : List Cell) (c : Cell) (kind : ℕ) → cell_of (with_cell row c) kind ≡ cond (c.kind == kind) (Some c) (cell_of row kind) }
    ensures types { (row : List Cell) (kind : ℕ) → list_any (λ k. k == kind) (kinds_of row) ≡ is_some (cell_of row kind) }
{}

/// The law that a set of types ascends, and has just the types of the list that it is made of.
pub fn sets_hold_their_types()
    ensures order { (kinds : List ℕ) → IsStrictlySortedBy nat_cmp (type_set kinds) }
    ensures types { (kinds : List ℕ) (kind : ℕ) → list_any (λ k. k == kind) (type_set kinds) ≡ list_any (λ k. k == kind) kinds }
{}
