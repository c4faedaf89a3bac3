// Which entities a query matches.
ghost use Rattle.std.specs.Prelude.{◌≡◌};
ghost use Rattle.std.specs.List.{list_all, list_any};
ghost use Rattle.eb_system.specs.Matching as spec;

use eb_base::TypeNo;
use eb_rules::Query3;
use eb_schema::Row;

fn has(row: &Row, kind: TypeNo) -> bool
    ensures { result ≡ spec.has row.now kind }
{
    row.cell(kind).is_some()
}

fn has_all(row: &Row, kinds: &[TypeNo]) -> bool
    ensures { result ≡ list_all (spec.has row.now) kinds.now }
{
    for kind in kinds {
        if !has(row, *kind) {
            return false;
        }
    }
    true
}

fn has_any(row: &Row, kinds: &[TypeNo]) -> bool
    ensures { result ≡ list_any (spec.has row.now) kinds.now }
{
    for kind in kinds {
        if has(row, *kind) {
            return true;
        }
    }
    false
}

fn has_one(row: &Row, kinds: &[TypeNo]) -> bool
    ensures { result ≡ spec.has_one row.now kinds.now }
{
    kinds.is_empty() || has_any(row, kinds)
}

/// Whether an entity with this row has all of the query's first types, one of the second unless there are none, and none of
/// the third. Takes no memory, and time by the types and the logarithm of the row.
pub fn matches(query: &Query3, row: &Row) -> bool
    ensures { result ≡ spec.matches query.now row.now }
{
    has_all(row, query.all.items())
        && (has_one(row, query.any.items()) && !has_any(row, query.none.items()))
}
