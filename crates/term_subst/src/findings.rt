//! What a substitution finds out of nodes, each once.

ghost use Rattle.std.specs.Prelude.{◌≡◌, All, IfOk, IfSome, IsSome, OnOk};
ghost use Rattle.smt_terms.specs.Free.{free, name_among, names_of};
ghost use Rattle.smt_terms.specs.Sorts.{Name};
ghost use Rattle.term_table.specs.Formulas.{Formulas, tree, IsNode, IsSymbol};
ghost use Rattle.term_walk.specs.FreeLists.{named};
ghost use Rattle.term_subst.specs.ByNode.{found_in};
ghost use Rattle.term_subst.specs.State.{AreFindings};

use crate::NameSet;
use crate::by_node::ByNode;
use crate::survey::list_free;
use smt_terms::{NodeId, SymId};
use std::alloc::{AllocError, Global};
use term_table::Table;

// The free symbols of some nodes, in order, and the names that are free in some.
#[derive(Drop)]
pub(crate) struct Findings {
    alloc: Global,
    lists: ByNode<Vec<SymId>>,
    names: ByNode<NameSet>,
}

impl Findings {
    pub(crate) fn new(alloc: Global) -> Findings
        ensures { (t : Formulas) → AreFindings t result }
    {
        Findings {
            alloc,
            lists: ByNode::new(alloc),
            names: ByNode::new(alloc),
        }
    }

    // Finds the free symbols of a node, where they aren't found yet.
    pub(crate) fn find(&mut self, table: &Table, node: NodeId) -> Result<(), AllocError>
        requires node { IsNode table.now node }
        requires fits { AreFindings table.now self.old }
        ensures fits { OnOk result (AreFindings table.now self.new) }
        ensures found { OnOk result (IsSome (found_in self.new.lists node)) }
    {
        if self.lists.get(node).is_some() {
            return Ok(());
        }
        let symbols = list_free(self.alloc, table, &mut self.lists, node)?;
        self.lists.put(node, symbols)?;
        Ok(())
    }

    // The free symbols of a node of which they are found.
    pub(crate) fn symbols(&self, node: NodeId) -> &[SymId]
        requires { IsSome (found_in self.now.lists node) }
        ensures { IfSome (found_in self.now.lists node) (λ fs. result.now ≡ fs.items) }
    {
        self.lists.get(node).unwrap().as_slice()
    }

    // Whether a name is that of a free symbol of a node.
    pub(crate) fn is_free(
        &mut self,
        table: &Table,
        node: NodeId,
        name: &[u8],
    ) -> Result<bool, AllocError>
        requires node { IsNode table.now node }
        requires fits { AreFindings table.now self.old }
        ensures fits { OnOk result (AreFindings table.now self.new) }
        ensures free { IfOk result (λ b. b ≡ name_among (names_of (free (tree table.now node))) name.now) }
    {
        if let Some(names) = self.names.get(node) {
            return Ok(names.has(name));
        }
        self.find(table, node)?;
        let names = names_of(self.alloc, table, self.symbols(node))?;
        let free = names.has(name);
        self.names.put(node, names)?;
        Ok(free)
    }
}

// The names of these symbols.
fn names_of(alloc: Global, table: &Table, symbols: &[SymId]) -> Result<NameSet, AllocError>
    requires { All (IsSymbol table.now) symbols.now }
    ensures { IfOk result (λ s. (n : Name) → name_among s n ≡ name_among (names_of (named table.now symbols.now)) n) }
{
    let mut names = NameSet::new(alloc);
    for symbol in symbols {
        names.add(table.symbol_name(*symbol))?;
    }
    Ok(names)
}
