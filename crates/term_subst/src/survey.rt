//! The free symbols of a node, found together with those of the quantified nodes below it, by a walk with a stack of its own:
//! each node is visited once in each scope, and each scope once. It takes time and memory for these nodes alone.

ghost use Rattle.std.specs.Prelude.{◌≡◌, ◌<◌, ◌++◌, ◌∷◌, [], All, IfOk, OnOk, List, filter, map, not};
ghost use Rattle.smt_terms.specs.Free.{is_among, with_more};
ghost use Rattle.smt_terms.specs.Sorts.{Symbol};
ghost use Rattle.smt_terms.specs.Term.{constant_of};
ghost use Rattle.term_table.specs.Formulas.{tree, symbol_at, IsNode, IsSymbol};
ghost use Rattle.term_walk.specs.FreeLists.{named, own_symbols, AreFree, EachOnce};
ghost use Rattle.term_subst.specs.declared.survey.Task.TheVariants.{Visit, Leave, Close};
ghost use Rattle.term_subst.specs.State.{AreLists, AreVariables, variables_at};
ghost use Rattle.term_subst.specs.Steps.{load};
ghost use Rattle.term_subst.specs.Surveying.{Surveys, tasks_at};

use crate::by_node::ByNode;
use crate::nodes::{split, symbol_of};
use indexmap::IndexSet;
use smt_terms::{NodeId, SymId};
use smt_values::Op;
use std::alloc::{AllocError, Global};
use std::mem;
use term_table::{Table, know_table};
use term_walk::{Stack, is_binder};

// What is listed in one scope: the free symbols that were met, in order, and the nodes all of whose symbols are among them.
#[derive(Drop)]
struct Scope {
    symbols: IndexSet<SymId>,
    nodes: IndexSet<NodeId>,
}

// The scope of a quantified node's body, and the one outside.
#[derive(Drop)]
struct Inner {
    node: NodeId,
    outer: Scope,
}

#[derive(Drop)]
enum Task {
    // List the free symbols of a node.
    Visit(NodeId),
    // Note that they are listed.
    Leave(NodeId),
    // Leave the scope of a quantified node's body, and list there what is free in the node.
    Close(Inner),
}

#[derive(Drop)]
struct Survey {
    alloc: Global,
    scope: Scope,
    tasks: Stack<Task>,
}

// Lists a symbol last, where it isn't listed.
fn list(table: &Table, listed: &mut IndexSet<SymId>, symbol: SymId) -> Result<(), AllocError>
    requires symbol { IsSymbol table.now symbol }
    requires listed { All (IsSymbol table.now) listed.old.keys }
    ensures names { OnOk result (named table.now listed.new.keys ≡ with_more (named table.now listed.old.keys) (symbol_at table.now symbol ∷ [])) }
    ensures symbols { OnOk result (All (IsSymbol table.now) listed.new.keys) }
{
    know_table(table);
    listed.insert(symbol)?;
    Ok(())
}

// Lists these symbols, in their order.
fn list_all(
    table: &Table,
    listed: &mut IndexSet<SymId>,
    symbols: &[SymId],
) -> Result<(), AllocError>
    requires symbols { All (IsSymbol table.now) symbols.now }
    requires once { EachOnce (named table.now symbols.now) }
    requires listed { All (IsSymbol table.now) listed.old.keys }
    ensures names { OnOk result (named table.now listed.new.keys ≡ with_more (named table.now listed.old.keys) (named table.now symbols.now)) }
    ensures symbols { OnOk result (All (IsSymbol table.now) listed.new.keys) }
{
    for symbol in symbols {
        list(table, listed, *symbol)?;
    }
    Ok(())
}

// Lists the symbol that a node applies.
#[tactic(auto, unfolding(term_table::specs::Formulas::kind))]
fn list_own(table: &Table, listed: &mut IndexSet<SymId>, node: NodeId) -> Result<(), AllocError>
    requires node { IsNode table.now node }
    requires listed { All (IsSymbol table.now) listed.old.keys }
    ensures names { OnOk result (named table.now listed.new.keys ≡ with_more (named table.now listed.old.keys) (own_symbols (tree table.now node))) }
    ensures symbols { OnOk result (All (IsSymbol table.now) listed.new.keys) }
{
    match table.op(node) {
        Op::Sym(f) => {
            list(table, listed, f)?;
            Ok(())
        }
        _ => Ok(()),
    }
}

// The symbols that these variables bind.
fn bound_symbols(
    alloc: Global,
    table: &Table,
    variables: &[NodeId],
) -> Result<IndexSet<SymId>, AllocError>
    requires { AreVariables table.now variables.now }
    ensures names { IfOk result (λ s. (f : Symbol) → is_among (named table.now s.keys) f ≡ is_among (map constant_of (variables_at table.now variables.now)) f) }
    ensures symbols { IfOk result (λ s. All (IsSymbol table.now) s.keys) }
{
    let mut bound = IndexSet::new(alloc);
    for variable in variables {
        list(table, &mut bound, symbol_of(table, *variable))?;
    }
    Ok(bound)
}

fn keep_unbound(
    table: &Table,
    free: &mut Vec<SymId>,
    symbol: SymId,
    bound: &IndexSet<SymId>,
) -> Result<(), AllocError>
    requires symbol { IsSymbol table.now symbol }
    requires free { All (IsSymbol table.now) free.old.items }
    requires bound { All (IsSymbol table.now) bound.now.keys }
    ensures names { OnOk result (named table.now free.new.items ≡ named table.now free.old.items ++ filter (λ f. not (is_among (named table.now bound.now.keys) f)) (symbol_at table.now symbol ∷ [])) }
    ensures symbols { OnOk result (All (IsSymbol table.now) free.new.items) }
{
    know_table(table);
    if bound.contains(&symbol) {
        return Ok(());
    }
    free.push(symbol)?;
    Ok(())
}

// The symbols that aren't among those that are bound.
fn unbound(
    alloc: Global,
    table: &Table,
    symbols: &[SymId],
    bound: &IndexSet<SymId>,
) -> Result<Vec<SymId>, AllocError>
    requires symbols { All (IsSymbol table.now) symbols.now }
    requires bound { All (IsSymbol table.now) bound.now.keys }
    ensures names { IfOk result (λ s. named table.now s.items ≡ filter (λ f. not (is_among (named table.now bound.now.keys) f)) (named table.now symbols.now)) }
    ensures symbols { IfOk result (λ s. All (IsSymbol table.now) s.items) }
{
    let mut free = Vec::new(alloc);
    for symbol in symbols {
        keep_unbound(table, &mut free, *symbol, bound)?;
    }
    Ok(free)
}

// Puts visits of these nodes before the other tasks, in their order.
fn push_visits(tasks: &mut Stack<Task>, nodes: &[NodeId]) -> Result<(), AllocError>
    ensures { OnOk result (tasks.new ≡ map Visit nodes.now ++ tasks.old) }
{
    for place in (0..nodes.len()).rev() {
        tasks.push(Task::Visit(nodes[place]))?;
    }
    Ok(())
}

impl Survey {
    // Lists the free symbols of a node, or puts what there is to do for it before the rest.
    fn visit(
        &mut self,
        table: &Table,
        lists: &ByNode<Vec<SymId>>,
        node: NodeId,
    ) -> Result<(), AllocError>
        requires lists { AreLists table.now lists.now }
        requires surveys { (goal : List Symbol) × Surveys table.now self.old.scope (Visit node ∷ self.old.tasks) goal }
        ensures surveys { (goal : List Symbol) → Surveys table.now self.old.scope (Visit node ∷ self.old.tasks) goal → OnOk result (Surveys table.now self.new.scope self.new.tasks goal) }
        ensures nearer { OnOk result (load (tasks_at table.now self.new.tasks) < load (tasks_at table.now (Visit node ∷ self.old.tasks))) }
    {
        if self.scope.nodes.contains(&node) {
            return Ok(());
        }
        match lists.get(node) {
            Some(symbols) => {
                list_all(table, &mut self.scope.symbols, symbols.as_slice())?;
                Ok(())
            }
            None => {
                self.descend(table, node)?;
                Ok(())
            }
        }
    }

    fn descend(&mut self, table: &Table, node: NodeId) -> Result<(), AllocError>
        requires surveys { (goal : List Symbol) × Surveys table.now self.old.scope (Visit node ∷ self.old.tasks) goal }
        ensures surveys { (goal : List Symbol) → Surveys table.now self.old.scope (Visit node ∷ self.old.tasks) goal → OnOk result (Surveys table.now self.new.scope self.new.tasks goal) }
        ensures nearer { OnOk result (load (tasks_at table.now self.new.tasks) < load (tasks_at table.now (Visit node ∷ self.old.tasks))) }
    {
        if is_binder(table, node) {
            let (_, body) = split(table, node);
            let inner = Scope {
                symbols: IndexSet::new(self.alloc),
                nodes: IndexSet::new(self.alloc),
            };
            let outer = mem::replace(&mut self.scope, inner);
            self.tasks.push(Task::Close(Inner { node, outer }))?;
            self.tasks.push(Task::Visit(body))?;
            return Ok(());
        }
        list_own(table, &mut self.scope.symbols, node)?;
        self.tasks.push(Task::Leave(node))?;
        push_visits(&mut self.tasks, table.kids(node))?;
        Ok(())
    }

    fn leave(&mut self, table: &Table, node: NodeId) -> Result<(), AllocError>
        requires surveys { (goal : List Symbol) × Surveys table.now self.old.scope (Leave node ∷ self.old.tasks) goal }
        ensures surveys { (goal : List Symbol) → Surveys table.now self.old.scope (Leave node ∷ self.old.tasks) goal → OnOk result (Surveys table.now self.new.scope self.new.tasks goal) }
        ensures tasks { self.new.tasks ≡ self.old.tasks }
    {
        self.scope.nodes.insert(node)?;
        Ok(())
    }

    // Goes back to the scope outside a quantified node, and gives the node its list.
    fn close(
        &mut self,
        table: &Table,
        lists: &mut ByNode<Vec<SymId>>,
        inner: Inner,
    ) -> Result<(), AllocError>
        requires lists { AreLists table.now lists.old }
        requires surveys { (goal : List Symbol) × Surveys table.now self.old.scope (Close inner ∷ self.old.tasks) goal }
        ensures lists { OnOk result (AreLists table.now lists.new) }
        ensures surveys { (goal : List Symbol) → Surveys table.now self.old.scope (Close inner ∷ self.old.tasks) goal → OnOk result (Surveys table.now self.new.scope self.new.tasks goal) }
        ensures tasks { self.new.tasks ≡ self.old.tasks }
    {
        let Inner { node, outer } = inner;
        let (variables, _) = split(table, node);
        let bound = bound_symbols(self.alloc, table, variables)?;
        let free = unbound(self.alloc, table, self.scope.symbols.as_slice(), &bound)?;
        self.scope = outer;
        list_all(table, &mut self.scope.symbols, &free)?;
        lists.put(node, free)?;
        Ok(())
    }

    fn turn(
        &mut self,
        table: &Table,
        lists: &mut ByNode<Vec<SymId>>,
        task: Task,
    ) -> Result<(), AllocError>
        requires lists { AreLists table.now lists.old }
        requires surveys { (goal : List Symbol) × Surveys table.now self.old.scope (task ∷ self.old.tasks) goal }
        ensures lists { OnOk result (AreLists table.now lists.new) }
        ensures surveys { (goal : List Symbol) → Surveys table.now self.old.scope (task ∷ self.old.tasks) goal → OnOk result (Surveys table.now self.new.scope self.new.tasks goal) }
        ensures nearer { OnOk result (load (tasks_at table.now self.new.tasks) < load (tasks_at table.now (task ∷ self.old.tasks))) }
    {
        match task {
            Task::Visit(node) => {
                self.visit(table, lists, node)?;
                Ok(())
            }
            Task::Leave(node) => {
                self.leave(table, node)?;
                Ok(())
            }
            Task::Close(inner) => {
                self.close(table, lists, inner)?;
                Ok(())
            }
        }
    }
}

// The free symbols of a node, in order. What is found of quantified nodes goes into the lists.
pub(crate) fn list_free(
    alloc: Global,
    table: &Table,
    lists: &mut ByNode<Vec<SymId>>,
    root: NodeId,
) -> Result<Vec<SymId>, AllocError>
    requires root { IsNode table.now root }
    requires lists { AreLists table.now lists.old }
    ensures lists { OnOk result (AreLists table.now lists.new) }
    ensures free { IfOk result (λ s. AreFree table.now (tree table.now root) s.items) }
{
    let mut survey = Survey {
        alloc,
        scope: Scope {
            symbols: IndexSet::new(alloc),
            nodes: IndexSet::new(alloc),
        },
        tasks: Stack::new(alloc),
    };
    survey.tasks.push(Task::Visit(root))?;
    while let Some(task) = survey.tasks.pop() {
        survey.turn(table, lists, task)?;
    }
    let symbols = Vec::from_slice(alloc, survey.scope.symbols.as_slice())?;
    Ok(symbols)
}
