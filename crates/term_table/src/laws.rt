//! What holds of every table, as the contract of a function that changes nothing.

ghost use Rattle.std.specs.Prelude.{◌≡◌, ◌↔◌};
ghost use Rattle.smt_terms.specs.Rank.{IsWellSorted};
ghost use Rattle.smt_terms.specs.declared.ids.NodeId.{NodeId};
ghost use Rattle.smt_terms.specs.declared.ids.SymId.{SymId};
ghost use Rattle.smt_terms.specs.declared.ids.SortId.{SortId};
ghost use Rattle.smt_values.specs.SortIds.{sort_at, IsSortId};
ghost use Rattle.term_table.specs.Formulas.{tree, symbol_at, IsNode, IsSymbol, IsTable};

use crate::table::Table;

/// What holds of every table, for a proof that has to know it.
pub fn know_table(table: &Table)
    ensures { IsTable table.now }
{
    let _ = table.len();
}

/// Two nodes have one number exactly where their formulas are equal, and so have two symbols and two sorts. Each
/// formula is well sorted.
pub fn equal_formulas_have_one_number(table: &Table)
    ensures nodes { (i j : NodeId) → IsNode table.now i → IsNode table.now j → (i ≡ j) ↔ (tree table.now i ≡ tree table.now j) }
    ensures symbols { (f g : SymId) → IsSymbol table.now f → IsSymbol table.now g → (f ≡ g) ↔ (symbol_at table.now f ≡ symbol_at table.now g) }
    ensures sorts { (s t : SortId) → IsSortId table.now.sorts s → IsSortId table.now.sorts t → (s ≡ t) ↔ (sort_at table.now.sorts s ≡ sort_at table.now.sorts t) }
    ensures sorted { (i : NodeId) → IsNode table.now i → IsWellSorted (tree table.now i) }
{
    know_table(table);
}
