//! Whether formulas are the same.

ghost use Rattle.std.specs.Prelude.{◌≡◌};
ghost use Rattle.smt_terms.specs.Equal.{term_eq};
ghost use Rattle.term_table.specs.Formulas.{tree, IsNode};

use smt_terms::NodeId;
use term_table::Table;
use term_table::laws::equal_formulas_have_one_number;

/// Whether two nodes name the same term.
pub fn are_same(table: &Table, a: NodeId, b: NodeId) -> bool
    requires a { IsNode table.now a }
    requires b { IsNode table.now b }
    ensures { result ≡ term_eq (tree table.now a) (tree table.now b) }
{
    equal_formulas_have_one_number(table);
    a.0 == b.0
}
