// Laws on what stands.
ghost use Rattle.std.specs.Prelude.{◌≡◌, ℕ, List, option_map};
ghost use Rattle.eb_schema.specs.Rows.{cell_of};
ghost use Rattle.eb_merge.specs.Objects.{IdRun, given_cells, own_standing};
ghost use Rattle.eb_merge.specs.Standing.{standing_at};

/// The law that of each type the component stands that is given first: where the runs are ascending by baker, the lowest baker's.
pub fn the_lowest_stands()
    ensures { (runs : List IdRun) (kind : ℕ) → option_map (λ x. x.cell) (standing_at (own_standing runs) kind) ≡ cell_of (given_cells runs) kind }
{}
