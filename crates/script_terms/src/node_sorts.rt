//! Sorts of nodes.

ghost use Rattle.std.specs.Prelude.{◌≡◌};
ghost use Rattle.smt_values.specs.SortIds.{sort_at, IsSortId};
ghost use Rattle.term_table.specs.Formulas.{tree, IsNode, IsTable};
ghost use Rattle.script_terms.specs.Read.{has_sort};

use smt_terms::{NodeId, SortId};
use term_table::Table;

/// Whether a node's term has this sort.
pub fn has_sort(table: &Table, node: NodeId, sort: SortId) -> bool
    requires node { IsNode table.now node }
    requires sort { IsSortId table.now.sorts sort }
    ensures answer { result ≡ has_sort (sort_at table.now.sorts sort) (tree table.now node) }
    ensures table { IsTable table.now }
{
    table.sort_of(node) == sort
}
