//! Tables whose symbols have names of one byte, which no supply gives.

ghost use Rattle.std.specs.Prelude.{◌≡◌, true};
ghost use Rattle.smt_terms.specs.Free.{names_of};
ghost use Rattle.smt_terms.specs.Fresh.{Supply};
ghost use Rattle.smt_terms.specs.SubstLaws.{GivesNone};
ghost use Rattle.term_table.specs.Formulas.{tree, IsNode};
ghost use Rattle.term_walk.specs.FreeLists.{own_symbols};
ghost use Rattle.term_subst.specs.Building.{AreSpared};

use smt_terms::NodeId;
use smt_values::Op;
use term_table::Table;

// Whether the symbol of a node, where it has one, has a name of one byte.
#[tactic(auto, unfolding(term_table::specs::Formulas::kind))]
fn is_short(table: &Table, id: NodeId) -> bool
    requires { IsNode table.now id }
    ensures { (s : Supply) → result ≡ true → GivesNone s (names_of (own_symbols (tree table.now id))) }
{
    match table.op(id) {
        Op::Sym(symbol) => table.symbol_name(symbol).len() == 1,
        _ => true,
    }
}

/// Whether all names in the terms of a table have one byte.
pub(crate) fn are_spared(table: &Table) -> bool
    ensures { (s : Supply) → result ≡ true → AreSpared s table.now }
{
    for number in 0..table.len() {
        let id = NodeId(number);
        let _ = table.kids(id);
        if !is_short(table, id) {
            return false;
        }
    }
    true
}
