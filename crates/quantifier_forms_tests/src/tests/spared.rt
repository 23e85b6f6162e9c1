//! Formulas whose symbols and variables have names of one byte, which no supply gives.

ghost use Rattle.std.specs.Prelude.{◌≡◌, false, true, get_or, All, IfOk};
ghost use Rattle.smt_terms.specs.declared.ids.NodeId.{NodeId};
ghost use Rattle.smt_terms.specs.Free.{names_of};
ghost use Rattle.smt_terms.specs.Fresh.{Supply};
ghost use Rattle.smt_terms.specs.SubstLaws.{GivesNone, names_within};
ghost use Rattle.term_table.specs.Formulas.{tree, IsNode};
ghost use Rattle.term_walk.specs.FreeLists.{own_symbols};

use smt_terms::NodeId;
use smt_values::Op;
use std::alloc::{AllocError, Global};
use term_table::Table;

// Whether the symbol of a node, where it has one, has a name of one byte.
#[tactic(auto, unfolding(term_table::specs::Formulas::kind))]
fn is_short(table: &Table, id: NodeId) -> bool
    requires { IsNode table.now id }
    ensures { (s : Supply) → result ≡ true → GivesNone s (names_of (own_symbols (tree table.now id))) }
{
    match table.op(id) {
        Op::Sym(symbol) => table.symbol_name(symbol).len() == 1,
        _ => true,
    }
}

// Whether a node is marked.
fn is_marked(marks: &[bool], id: NodeId) -> bool
    ensures { result ≡ true → get_or marks.now id.0 false ≡ true }
{
    marks.get(id.0 as usize) == Some(&true)
}

// Whether these nodes are marked.
fn are_marked(marks: &[bool], kids: &[NodeId]) -> bool
    ensures { result ≡ true → All (λ k. get_or marks.now k.0 false ≡ true) kids.now }
{
    for kid in kids {
        if !is_marked(marks, *kid) {
            return false;
        }
    }
    true
}

// Whether all names in a node have one byte, where marked nodes have no others.
fn is_spared_over(table: &Table, marks: &[bool], id: NodeId) -> bool
    requires node { IsNode table.now id }
    requires marks { (s : Supply) (k : NodeId) → get_or marks.now k.0 false ≡ true → GivesNone s (names_within (tree table.now k)) }
    ensures { (s : Supply) → result ≡ true → GivesNone s (names_within (tree table.now id)) }
{
    let kids = table.kids(id);
    is_short(table, id) && are_marked(marks, kids)
}

/// Whether all names in a formula have one byte.
pub(crate) fn is_spared(alloc: Global, table: &Table, root: NodeId) -> Result<bool, AllocError>
    requires { IsNode table.now root }
    ensures { (s : Supply) → IfOk result (λ spared. spared ≡ true → GivesNone s (names_within (tree table.now root))) }
{
    let mut marks = Vec::new(alloc);
    for number in 0..table.len() {
        let mark = is_spared_over(table, &marks, NodeId(number));
        marks.push(mark)?;
    }
    Ok(is_marked(&marks, root))
}
