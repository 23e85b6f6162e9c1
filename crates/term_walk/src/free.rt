//! The symbols that occur free.

ghost use Rattle.std.specs.Prelude.{Vec, ◌≡◌, suc, ℕ, ◌<◌, ◌≤◌, ◌+◌, ◌++◌, ◌∷◌, [], List, All, Bool, IfOk, OnOk, IfSome, Some, None, true, false, not, filter, length, option_to_list, reverse};
ghost use Rattle.std.specs.Global.{Global};
ghost use Rattle.smt_terms.specs.declared.ids.NodeId.{NodeId};
ghost use Rattle.smt_terms.specs.Free.{with_more, free, is_among};
ghost use Rattle.smt_terms.specs.Sorts.{Symbol};
ghost use Rattle.term_table.specs.Formulas.{symbol_at, tree, trees_at, operands, IsNode, AreNodes, IsSymbol};
ghost use Rattle.term_walk.specs.Marks.{is_marked};
ghost use Rattle.term_walk.specs.Places.{result_at};
ghost use Rattle.term_walk.specs.FreeLists.{named, has_own, Opens, EachOnce, own_symbols, AreFree, has_node, with_node, operands_left, Lists, HaveLists, IsReached};
ghost use Rattle.term_walk.specs.Binders.{is_quantified};

use crate::binders::is_binder;
use crate::count::mark_subterms;
use crate::kept::Kept;
use crate::meeting::meet;
use indexmap::IndexSet;
use smt_terms::NodeId;
use smt_values::{Op, SymId};
use std::alloc::{AllocError, Global};
use term_table::{Table, know_table};

// The symbol that a node applies.
#[tactic(auto, unfolding(term_table::specs::Formulas::kind))]
fn own_symbol(table: &Table, id: NodeId) -> Option<SymId>
    requires { IsNode table.now id }
    ensures symbol { named table.now (option_to_list result) ≡ own_symbols (tree table.now id) }
    ensures within { IfSome result (λ f. IsSymbol table.now f) }
{
    match table.op(id) {
        Op::Sym(symbol) => Some(symbol),
        _ => None,
    }
}

// Lists a symbol last, where it isn't listed.
fn list(table: &Table, listed: &mut IndexSet<SymId>, symbol: SymId) -> Result<(), AllocError>
    requires symbol { IsSymbol table.now symbol }
    requires listed { All (IsSymbol table.now) listed.old.keys }
    ensures names { OnOk result (named table.now listed.new.keys ≡ with_more (named table.now listed.old.keys) (symbol_at table.now symbol ∷ [])) }
    ensures symbols { OnOk result (All (IsSymbol table.now) listed.new.keys) }
{
    know_table(table);
    listed.insert(symbol)?;
    Ok(())
}

// Lets these nodes wait before the others, in their order.
fn wait_for(waiting: &mut Vec<NodeId>, ids: &[NodeId]) -> Result<(), AllocError>
    ensures order { OnOk result (reverse waiting.new.items ≡ ids.now ++ reverse waiting.old.items) }
    ensures len { OnOk result (length waiting.new.items ≡ length ids.now + length waiting.old.items) }
{
    for place in (0..ids.len()).rev() {
        waiting.push(ids[place])?;
    }
    Ok(())
}

// Lists these symbols, in their order.
fn list_all(
    table: &Table,
    listed: &mut IndexSet<SymId>,
    symbols: &[SymId],
) -> Result<(), AllocError>
    requires symbols { All (IsSymbol table.now) symbols.now }
    requires once { EachOnce (named table.now symbols.now) }
    requires listed { All (IsSymbol table.now) listed.old.keys }
    ensures names { OnOk result (named table.now listed.new.keys ≡ with_more (named table.now listed.old.keys) (named table.now symbols.now)) }
    ensures symbols { OnOk result (All (IsSymbol table.now) listed.new.keys) }
{
    for symbol in symbols {
        list(table, listed, *symbol)?;
    }
    Ok(())
}

// Lists the symbol that a node applies.
fn list_own(table: &Table, listed: &mut IndexSet<SymId>, id: NodeId) -> Result<(), AllocError>
    requires node { IsNode table.now id }
    requires listed { All (IsSymbol table.now) listed.old.keys }
    ensures names { OnOk result (named table.now listed.new.keys ≡ with_more (named table.now listed.old.keys) (own_symbols (tree table.now id))) }
    ensures symbols { OnOk result (All (IsSymbol table.now) listed.new.keys) }
{
    match own_symbol(table, id) {
        Some(symbol) => {
            list(table, listed, symbol)?;
            Ok(())
        }
        None => Ok(()),
    }
}

// Lists what a node says that is met for the first time, and lets its operands wait. A node with a list of its own has no
// operands to wait for.
fn open(
    table: &Table,
    lists: &Kept<Vec<SymId>>,
    waiting: &mut Vec<NodeId>,
    listed: &mut IndexSet<SymId>,
    id: NodeId,
) -> Result<(), AllocError>
    requires node { IsNode table.now id }
    requires lists { (r : Vec SymId Global) → result_at lists.now id.0 ≡ Some r → AreFree table.now (tree table.now id) r.items }
    requires applied { result_at lists.now id.0 ≡ None → is_quantified (tree table.now id) ≡ false }
    requires listed { All (IsSymbol table.now) listed.old.keys }
    ensures { OnOk result (Opens table.now id (reverse waiting.old.items) (reverse waiting.new.items) listed.old.keys listed.new.keys) }
{
    match lists.get(id) {
        Some(list) => {
            list_all(table, listed, list.as_slice())?;
            Ok(())
        }
        None => {
            list_own(table, listed, id)?;
            wait_for(waiting, table.kids(id))?;
            Ok(())
        }
    }
}

// Opens a node that was taken off those that wait, where it is met for the first time.
fn take_off(
    table: &Table,
    lists: &Kept<Vec<SymId>>,
    waiting: &mut Vec<NodeId>,
    met: &mut IndexSet<NodeId>,
    listed: &mut IndexSet<SymId>,
    id: NodeId,
) -> Result<(), AllocError>
    requires node { IsNode table.now id }
    requires lists { (r : Vec SymId Global) → result_at lists.now id.0 ≡ Some r → AreFree table.now (tree table.now id) r.items }
    requires applied { result_at lists.now id.0 ≡ None → is_quantified (tree table.now id) ≡ false }
    requires listed { All (IsSymbol table.now) listed.old.keys }
    ensures leads { (ms : List Bool) (n : ℕ) (fs : List Symbol) → HaveLists table.now lists.now ms n → Lists table.now (IsReached ms n) fs (id ∷ reverse waiting.old.items) met.old.keys listed.old.keys → OnOk result (Lists table.now (IsReached ms n) fs (reverse waiting.new.items) met.new.keys listed.new.keys) }
    ensures nearer { (n : ℕ) → id.0 < n → OnOk result (operands_left table.now met.new.keys n + length waiting.new.items ≤ operands_left table.now met.old.keys n + length waiting.old.items) }
{
    know_table(table);
    if meet(met, id)? {
        open(table, lists, waiting, listed, id)?;
        return Ok(());
    }
    Ok(())
}

// The free symbols of a node, where each quantified node in it has its list.
fn scope(
    alloc: Global,
    table: &Table,
    lists: &Kept<Vec<SymId>>,
    root: NodeId,
) -> Result<IndexSet<SymId>, AllocError>
    requires node { IsNode table.now root }
    requires lists { (ms : List Bool) × (n : ℕ) × HaveLists table.now lists.now ms n × IsReached ms n root }
    ensures { IfOk result (λ s. AreFree table.now (tree table.now root) s.keys) }
{
    let mut waiting = Vec::new(alloc);
    waiting.push(root)?;
    let mut met = IndexSet::new(alloc);
    let mut listed = IndexSet::new(alloc);
    while let Some(id) = waiting.pop() {
        take_off(table, lists, &mut waiting, &mut met, &mut listed, id)?;
    }
    Ok(listed)
}

// Lists the symbols that these nodes apply.
fn own_symbols(alloc: Global, table: &Table, ids: &[NodeId]) -> Result<IndexSet<SymId>, AllocError>
    requires { AreNodes table.now ids.now }
    ensures names { IfOk result (λ s. (f : Symbol) → is_among (named table.now s.keys) f ≡ has_own (trees_at table.now ids.now) f) }
    ensures symbols { IfOk result (λ s. All (IsSymbol table.now) s.keys) }
{
    let mut listed = IndexSet::new(alloc);
    for id in ids {
        list_own(table, &mut listed, *id)?;
    }
    Ok(listed)
}

// The symbols that aren't among those that are bound.
fn unbound(
    alloc: Global,
    table: &Table,
    symbols: &[SymId],
    bound: &IndexSet<SymId>,
) -> Result<Vec<SymId>, AllocError>
    requires symbols { All (IsSymbol table.now) symbols.now }
    requires bound { All (IsSymbol table.now) bound.now.keys }
    ensures names { IfOk result (λ s. named table.now s.items ≡ filter (λ f. not (is_among (named table.now bound.now.keys) f)) (named table.now symbols.now)) }
    ensures symbols { IfOk result (λ s. All (IsSymbol table.now) s.items) }
{
    know_table(table);
    let mut free = Vec::new(alloc);
    for symbol in symbols {
        keep_unbound(table, &mut free, *symbol, bound)?;
    }
    Ok(free)
}

fn keep_unbound(
    table: &Table,
    free: &mut Vec<SymId>,
    symbol: SymId,
    bound: &IndexSet<SymId>,
) -> Result<(), AllocError>
    requires symbol { IsSymbol table.now symbol }
    requires free { All (IsSymbol table.now) free.old.items }
    requires bound { All (IsSymbol table.now) bound.now.keys }
    ensures names { OnOk result (named table.now free.new.items ≡ named table.now free.old.items ++ filter (λ f. not (is_among (named table.now bound.now.keys) f)) (symbol_at table.now symbol ∷ [])) }
    ensures symbols { OnOk result (All (IsSymbol table.now) free.new.items) }
{
    know_table(table);
    if bound.contains(&symbol) {
        return Ok(());
    }
    free.push(symbol)?;
    Ok(())
}

// The free symbols of a quantified node, where each quantified node in its body has its list.
fn binder_list(
    alloc: Global,
    table: &Table,
    lists: &Kept<Vec<SymId>>,
    id: NodeId,
) -> Result<Vec<SymId>, AllocError>
    requires node { IsNode table.now id }
    requires binder { is_quantified (tree table.now id) ≡ true }
    requires lists { (ms : List Bool) × HaveLists table.now lists.now ms id.0 × (is_marked ms id.0 ≡ true) }
    ensures { IfOk result (λ s. AreFree table.now (tree table.now id) s.items) }
{
    let Some((body, variables)) = table.kids(id).split_last() else {
        return Ok(Vec::new(alloc));
    };
    let symbols = scope(alloc, table, lists, *body)?;
    let bound = own_symbols(alloc, table, variables)?;
    let free = unbound(alloc, table, symbols.as_slice(), &bound)?;
    Ok(free)
}

// Gives a node its list, where it has a mark and is quantified.
fn give_list(
    alloc: Global,
    table: &Table,
    marks: &[bool],
    lists: &mut Kept<Vec<SymId>>,
    id: NodeId,
) -> Result<(), AllocError>
    requires node { IsNode table.now id }
    requires mark { id.0 < length marks.now }
    requires lists { HaveLists table.now lists.old marks.now id.0 }
    ensures { OnOk result (HaveLists table.now lists.new marks.now (suc id.0)) }
{
    if !marks[id.0 as usize] {
        return Ok(());
    }
    if !is_binder(table, id) {
        return Ok(());
    }
    let list = binder_list(alloc, table, lists, id)?;
    lists.put(id, list)?;
    Ok(())
}

/// The symbols that occur free in a node, each once, in the order of their first occurrences; a symbol stands before its
/// operands. It takes time and memory up to the number of the node, and for each quantified subterm up to the size of its
/// body as nodes.
pub fn free_symbols(alloc: Global, table: &Table, root: NodeId) -> Result<Vec<SymId>, AllocError>
    requires { IsNode table.now root }
    ensures { IfOk result (λ s. AreFree table.now (tree table.now root) s.items) }
{
    let marked = mark_subterms(alloc, table, &[root])?;
    let marks = marked.as_slice();
    let mut lists = Kept::new(alloc);
    for number in 0..marks.len() {
        give_list(alloc, table, marks, &mut lists, NodeId(number as u64))?;
    }
    let listed = scope(alloc, table, &lists, root)?;
    let symbols = Vec::from_slice(alloc, listed.as_slice())?;
    Ok(symbols)
}
