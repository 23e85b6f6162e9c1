//! The table itself.

ghost use Rattle.std.specs.Prelude.{◌≡◌, ◌<◌, ◌≤◌, ◌+◌, [], length, map, IfOk, MatchOption, OnOk, OnErr, IsOk, All, Ok, Some, false};
ghost use Rattle.smt_terms.specs.Sorts.{int, array, free_sort};
ghost use Rattle.smt_terms.specs.Made.{minus};
ghost use Rattle.smt_terms.specs.Rank.{sort_of, is_array};
ghost use Rattle.smt_values.specs.SortIds.{sort_at, IsSortId, IsPlain, AddsSort};

use crate::hashing::BuildNodeHasher;
use indexmap::{IndexMap, IndexSet};
use smallvec::SmallVec;
use smt_terms::{BuildNameHasher, NodeId};
use smt_values::{Op, SortId, SortTable, SymId};
use std::alloc::{AllocError, Global};
use std::hash::{Hash, Hasher};
use std::marker::Model;

/// A node: its operator and its operands.
#[derive(Debug, Drop)]
struct Node {
    op: Op,
    kids: SmallVec<NodeId, 4>,
}

impl PartialEq for Node {
    ghost use Rattle.term_table.specs.SameNodes.{are_same, partial_sameness};

    ghost eq = { are_same };

    ghost laws = { partial_sameness };

    // Out of line, as most nodes that are looked up meet none that may be the same.
    #[inline(never)]
    fn eq(&self, other: &Node) -> bool {
        self.op == other.op && self.kids == other.kids
    }
}

impl Eq for Node {
    ghost use Rattle.term_table.specs.SameNodes.{sameness};

    ghost laws = { sameness };
}

impl Hash for Node {
    ghost use Rattle.term_table.specs.Hashing.{node_writes, node_writes_alike};

    ghost hash_input = { node_writes };

    ghost respects_eq = { node_writes_alike };

    fn hash<H: Hasher>(&self, state: &mut H) {
        self.op.hash(state);
        NodeId::hash_slice(self.kids.as_slice(), state);
    }
}

// These operands as a node holds them. At most four take no memory.
fn operands(alloc: Global, kids: &[NodeId]) -> Result<SmallVec<NodeId, 4>, AllocError>
    ensures items { IfOk result (λ list. list.items ≡ kids.now) }
    ensures few { length kids.now ≤ 4 → IsOk result }
{
    let none = NodeId(0);
    match kids {
        [] => Ok(SmallVec::new(alloc)),
        [a] => Ok(SmallVec::from_buf_and_len(alloc, [*a, none, none, none], 1)),
        [a, b] => Ok(SmallVec::from_buf_and_len(alloc, [*a, *b, none, none], 2)),
        [a, b, c] => Ok(SmallVec::from_buf_and_len(alloc, [*a, *b, *c, none], 3)),
        _ => SmallVec::from_slice(alloc, kids),
    }
}

/// A symbol: its name and its rank.
#[derive(Debug, PartialEq, Eq, Hash, Drop)]
struct Entry {
    name: SmallVec<u8, 24>,
    args: Vec<SortId>,
    to: SortId,
}

/// A table of formulas, and of the symbols and sorts that they are over. The numbers of nodes, symbols and sorts are
/// their places, in the order in which they were made, and stay valid as the table grows. Equal formulas have one
/// number, and so have equal symbols and equal sorts.
#[derive(Drop)]
pub struct Table {
    alloc: Global,
    sorts: SortTable,
    symbols: IndexSet<Entry, BuildNameHasher>,
    nodes: IndexMap<Node, SortId, BuildNodeHasher>,
}

impl Model for Table {
    ghost use Rattle.term_table.specs.Formulas.{Formulas, coded_formulas};
    ghost use Rattle.indexmap.specs.IndexMap.{spare};

    ghost Value = { Formulas };

    ghost coded = { coded_formulas };

    ghost use Rattle.term_table.specs.View.{formulas_of, IsKept};

    ghost view = { λ t. formulas_of t.sorts t.symbols.keys t.nodes.entries (spare t.nodes) };

    ghost invariant = { λ t. IsKept t.sorts t.symbols.keys t.nodes.entries };
}

impl Table {
    ghost use Rattle.term_table.specs.Formulas.{Formulas, tree, trees_at, symbol_at, symbol_over, term_over, rank_over, operands, IsNode, AreNodes, IsSymbol, IsOpOf, Makes, IsNodeOf, Adds, GrowsByOne, IsUnchanged, IsTable};
    ghost use Rattle.smt_terms.specs.declared.ids.NodeId.{NodeId};
    ghost use Rattle.term_table.specs.View.{row_of, IsRowAt, symbol_of, FitsEntry};

    /// The empty table. It takes no memory.
    pub fn new(alloc: Global) -> Table
        ensures symbols { result.symbols ≡ [] }
        ensures sorts { result.sorts ≡ [] }
        ensures trees { result.trees ≡ [] }
    {
        Table {
            alloc,
            sorts: SortTable::new(alloc),
            symbols: IndexSet::with_hasher(alloc, BuildNameHasher::new()),
            nodes: IndexMap::with_hasher(alloc, BuildNodeHasher),
        }
    }

    /// The sorts of the table.
    pub fn sorts(&self) -> &SortTable
        ensures { result.now ≡ self.now.sorts }
    {
        &self.sorts
    }

    /// The number of nodes.
    pub fn len(&self) -> u64
        ensures value { result ≡ length self.now.trees }
        ensures table { IsTable self.now }
    {
        self.nodes.len() as u64
    }

    /// The operator of a node.
    pub fn op(&self, id: NodeId) -> Op
        requires { IsNode self.now id }
        ensures term { tree self.now id ≡ term_over self.now result (operands (tree self.now id)) }
        ensures numbers { IsOpOf self.now result }
        ensures table { IsTable self.now }
    {
        let (node, _) = self.entry(id);
        node.op
    }

    /// The operands of a node, each with a smaller number than the node.
    pub fn kids(&self, id: NodeId) -> &[NodeId]
        requires { IsNode self.now id }
        ensures terms { trees_at self.now result.now ≡ operands (tree self.now id) }
        ensures below { All (λ k. k.0 < id.0) result.now }
        ensures table { IsTable self.now }
    {
        let (node, _) = self.entry(id);
        node.kids.as_slice()
    }

    /// The sort of a node.
    pub fn sort_of(&self, id: NodeId) -> SortId
        requires { IsNode self.now id }
        ensures sort { sort_of (tree self.now id) ≡ Some (sort_at self.now.sorts result) }
        ensures within { IsSortId self.now.sorts result }
        ensures table { IsTable self.now }
    {
        let (_, sort) = self.entry(id);
        *sort
    }

    fn entry(&self, id: NodeId) -> (&Node, &SortId)
        requires { IsNode self.now id }
        ensures row { IsRowAt self.now.symbols self.now.sorts self.now.trees id.0 (row_of (result.0.now, result.1.now)) }
        ensures table { IsTable self.now }
    {
        self.nodes.get_index(id.0 as usize).unwrap()
    }

    /// The node of this operator over these operands, or None exactly where the table has none. For at most four
    /// operands it takes no memory.
    pub fn find(&self, op: Op, kids: &[NodeId]) -> Result<Option<NodeId>, AllocError>
        requires kids { AreNodes self.now kids.now }
        requires numbers { IsOpOf self.now op }
        ensures found { IfOk result (λ found. MatchOption found ((k : NodeId) → IsNodeOf self.now op kids.now k → ⊥) (λ k. IsNodeOf self.now op kids.now k)) }
        ensures few { length kids.now ≤ 4 → IsOk result }
    {
        let node = Node {
            op,
            kids: operands(self.alloc, kids)?,
        };
        Ok(self.place(&node))
    }

    fn place(&self, node: &Node) -> Option<NodeId>
        requires kids { AreNodes self.now node.now.kids.items }
        requires numbers { IsOpOf self.now node.now.op }
        ensures { MatchOption result ((k : NodeId) → IsNodeOf self.now node.now.op node.now.kids.items k → ⊥) (λ k. IsNodeOf self.now node.now.op node.now.kids.items k) }
    {
        match self.nodes.get_index_of(node) {
            Some(place) => Some(NodeId(place as u64)),
            None => None,
        }
    }

    /// The node of this operator over these operands, made last where the table hasn't got it. The operator has a rank
    /// over them, and it is no unary minus over an integer constant.
    pub fn intern(&mut self, op: Op, kids: &[NodeId]) -> Result<NodeId, AllocError>
        requires { Makes self.old op kids.now }
        ensures node { IfOk result (λ k. IsNode self.new k) }
        ensures term { IfOk result (λ k. tree self.new k ≡ term_over self.old op (trees_at self.old kids.now)) }
        ensures grows { GrowsByOne self.old.trees self.new.trees }
        ensures added { Adds self.old.trees self.new.trees (term_over self.old op (trees_at self.old kids.now)) }
        ensures symbols { self.new.symbols ≡ self.old.symbols }
        ensures sorts { self.new.sorts ≡ self.old.sorts }
        ensures spare { self.old.spare ≤ self.new.spare + 1 }
        ensures err { OnErr result (IsUnchanged self.old self.new) }
    {
        let sort = self.made_sort(op, kids);
        self.intern_of_sort(op, kids, sort)
    }

    // The sort of the node that this operator makes of these operands.
    fn made_sort(&self, op: Op, kids: &[NodeId]) -> SortId
        requires { Makes self.now op kids.now }
        ensures rank { rank_over self.now op (trees_at self.now kids.now) ≡ Ok (sort_at self.now.sorts result) }
        ensures sort { IsSortId self.now.sorts result }
    {
        // That of a quantifier is known without its rank, which compares each variable's name with those of all before it.
        match op {
            Op::Forall | Op::Exists => SortId::BOOL,
            _ => self.rank(op, kids).unwrap(),
        }
    }

    /// As `intern`, where the sort of the node is known.
    pub fn intern_of_sort(
        &mut self,
        op: Op,
        kids: &[NodeId],
        sort: SortId,
    ) -> Result<NodeId, AllocError>
        requires makes { Makes self.old op kids.now }
        requires rank { rank_over self.old op (trees_at self.old kids.now) ≡ Ok (sort_at self.old.sorts sort) }
        requires sort { IsSortId self.old.sorts sort }
        ensures node { IfOk result (λ k. IsNode self.new k) }
        ensures term { IfOk result (λ k. tree self.new k ≡ term_over self.old op (trees_at self.old kids.now)) }
        ensures grows { GrowsByOne self.old.trees self.new.trees }
        ensures added { Adds self.old.trees self.new.trees (term_over self.old op (trees_at self.old kids.now)) }
        ensures symbols { self.new.symbols ≡ self.old.symbols }
        ensures sorts { self.new.sorts ≡ self.old.sorts }
        ensures spare { self.old.spare ≤ self.new.spare + 1 }
        ensures err { OnErr result (IsUnchanged self.old self.new) }
    {
        let node = Node {
            op,
            kids: operands(self.alloc, kids)?,
        };
        let id = self.intern_node(node, sort)?;
        Ok(id)
    }

    fn intern_node(&mut self, node: Node, sort: SortId) -> Result<NodeId, AllocError>
        requires makes { Makes self.old node.op node.kids.items }
        requires rank { rank_over self.old node.op (trees_at self.old node.kids.items) ≡ Ok (sort_at self.old.sorts sort) }
        requires sort { IsSortId self.old.sorts sort }
        ensures node { IfOk result (λ k. IsNode self.new k) }
        ensures term { IfOk result (λ k. tree self.new k ≡ term_over self.old node.op (trees_at self.old node.kids.items)) }
        ensures grows { GrowsByOne self.old.trees self.new.trees }
        ensures added { Adds self.old.trees self.new.trees (term_over self.old node.op (trees_at self.old node.kids.items)) }
        ensures symbols { self.new.symbols ≡ self.old.symbols }
        ensures sorts { self.new.sorts ≡ self.old.sorts }
        ensures spare { self.old.spare ≤ self.new.spare + 1 }
        ensures succeeds { 0 < self.old.spare → IsOk result }
        ensures err { OnErr result (IsUnchanged self.old self.new) }
    {
        let (place, _) = self.nodes.insert_full(node, sort)?;
        Ok(NodeId(place as u64))
    }

    /// Makes room for n nodes more, which then take no memory.
    pub fn reserve(&mut self, n: usize) -> Result<(), AllocError>
        ensures ok { OnOk result (n ≤ self.new.spare) }
        ensures unchanged { IsUnchanged self.old self.new }
        ensures spare { self.old.spare ≤ self.new.spare }
    {
        self.nodes.reserve(n)?;
        Ok(())
    }

    /// As `intern`, for at most four operands and where there is room for a node. It takes no memory.
    pub fn intern_reserved(&mut self, op: Op, kids: &[NodeId]) -> NodeId
        requires makes { Makes self.old op kids.now }
        requires few { length kids.now ≤ 4 }
        requires room { 0 < self.old.spare }
        ensures node { IsNode self.new result }
        ensures term { tree self.new result ≡ term_over self.old op (trees_at self.old kids.now) }
        ensures grows { GrowsByOne self.old.trees self.new.trees }
        ensures added { Adds self.old.trees self.new.trees (term_over self.old op (trees_at self.old kids.now)) }
        ensures symbols { self.new.symbols ≡ self.old.symbols }
        ensures sorts { self.new.sorts ≡ self.old.sorts }
        ensures spare { self.old.spare ≤ self.new.spare + 1 }
    {
        let sort = self.made_sort(op, kids);
        let node = Node {
            op,
            kids: operands(self.alloc, kids).unwrap(),
        };
        self.intern_node(node, sort).unwrap()
    }

    /// The unary minus of an integer node, or the constant of the other sign where the node is a constant.
    #[tactic(auto, unfolding(crate::specs::Formulas::kind))]
    pub fn minus(&mut self, kid: NodeId) -> Result<NodeId, AllocError>
        requires node { IsNode self.old kid }
        requires whole { sort_of (tree self.old kid) ≡ Some int }
        ensures node { IfOk result (λ k. IsNode self.new k) }
        ensures term { IfOk result (λ k. tree self.new k ≡ minus (tree self.old kid)) }
        ensures grows { GrowsByOne self.old.trees self.new.trees }
        ensures added { Adds self.old.trees self.new.trees (minus (tree self.old kid)) }
        ensures symbols { self.new.symbols ≡ self.old.symbols }
        ensures sorts { self.new.sorts ≡ self.old.sorts }
        ensures spare { self.old.spare ≤ self.new.spare + 1 }
        ensures err { OnErr result (IsUnchanged self.old self.new) }
    {
        match self.op(kid) {
            Op::Whole(n) => self.intern(Op::Whole(-n), &[]),
            _ => self.intern(Op::Neg, &[kid]),
        }
    }

    /// The number of the array sort of this index, which is no array, and this element. It is made last where the table
    /// hasn't got it.
    pub fn array_sort(&mut self, index: SortId, element: SortId) -> Result<SortId, AllocError>
        requires index { IsSortId self.old.sorts index }
        requires element { IsSortId self.old.sorts element }
        requires no_array { is_array (sort_at self.old.sorts index) ≡ false }
        ensures within { IfOk result (λ s. IsSortId self.new.sorts s) }
        ensures sort { IfOk result (λ s. sort_at self.new.sorts s ≡ array (sort_at self.old.sorts index) (sort_at self.old.sorts element)) }
        ensures grows { AddsSort self.old.sorts self.new.sorts (array (sort_at self.old.sorts index) (sort_at self.old.sorts element)) }
        ensures symbols { self.new.symbols ≡ self.old.symbols }
        ensures trees { self.new.trees ≡ self.old.trees }
        ensures spare { self.new.spare ≡ self.old.spare }
        ensures err { OnErr result (self.new ≡ self.old) }
    {
        let sort = self.sorts.array(index, element)?;
        Ok(sort)
    }

    /// The number of the free sort of this name, which has neither `|` nor `\`. It is made last where the table hasn't
    /// got it.
    pub fn declared_sort(&mut self, name: &[u8]) -> Result<SortId, AllocError>
        requires { IsPlain name.now }
        ensures within { IfOk result (λ s. IsSortId self.new.sorts s) }
        ensures sort { IfOk result (λ s. sort_at self.new.sorts s ≡ free_sort name.now) }
        ensures grows { AddsSort self.old.sorts self.new.sorts (free_sort name.now) }
        ensures symbols { self.new.symbols ≡ self.old.symbols }
        ensures trees { self.new.trees ≡ self.old.trees }
        ensures spare { self.new.spare ≡ self.old.spare }
        ensures err { OnErr result (self.new ≡ self.old) }
    {
        let sort = self.sorts.declared(name)?;
        Ok(sort)
    }

    /// The number of the symbol of this name and rank, which is made last where the table hasn't got it. The name has
    /// neither `|` nor `\`.
    pub fn symbol(&mut self, name: &[u8], args: &[SortId], to: SortId) -> Result<SymId, AllocError>
        requires name { IsPlain name.now }
        requires args { All (IsSortId self.old.sorts) args.now }
        requires to { IsSortId self.old.sorts to }
        ensures within { IfOk result (λ f. IsSymbol self.new f) }
        ensures symbol { IfOk result (λ f. symbol_at self.new f ≡ symbol_over self.old.sorts name.now args.now to) }
        ensures added { Adds self.old.symbols self.new.symbols (symbol_over self.old.sorts name.now args.now to) }
        ensures grows { GrowsByOne self.old.symbols self.new.symbols }
        ensures sorts { self.new.sorts ≡ self.old.sorts }
        ensures trees { self.new.trees ≡ self.old.trees }
        ensures spare { self.new.spare ≡ self.old.spare }
        ensures err { OnErr result (self.new ≡ self.old) }
    {
        let entry = Entry {
            name: SmallVec::from_slice(self.alloc, name)?,
            args: Vec::from_slice(self.alloc, args)?,
            to,
        };
        let symbol = self.add_symbol(entry)?;
        Ok(symbol)
    }

    fn add_symbol(&mut self, entry: Entry) -> Result<SymId, AllocError>
        requires { FitsEntry self.old.sorts entry }
        ensures within { IfOk result (λ f. IsSymbol self.new f) }
        ensures symbol { IfOk result (λ f. symbol_at self.new f ≡ symbol_of self.old.sorts entry) }
        ensures added { Adds self.old.symbols self.new.symbols (symbol_of self.old.sorts entry) }
        ensures grows { GrowsByOne self.old.symbols self.new.symbols }
        ensures sorts { self.new.sorts ≡ self.old.sorts }
        ensures trees { self.new.trees ≡ self.old.trees }
        ensures spare { self.new.spare ≡ self.old.spare }
        ensures err { OnErr result (self.new ≡ self.old) }
    {
        let (place, _) = self.symbols.insert_full(entry)?;
        Ok(SymId(place as u64))
    }

    /// The name of a symbol, without bars.
    pub fn symbol_name(&self, f: SymId) -> &[u8]
        requires { IsSymbol self.now f }
        ensures name { result.now ≡ (symbol_at self.now f).name }
        ensures plain { IsPlain result.now }
    {
        let entry = self.symbol_entry(f);
        entry.name.as_slice()
    }

    /// The sorts of a symbol's arguments, and that of its result.
    pub fn symbol_rank(&self, f: SymId) -> (&[SortId], SortId)
        requires { IsSymbol self.now f }
        ensures args { map (sort_at self.now.sorts) result.0.now ≡ (symbol_at self.now f).args }
        ensures to { sort_at self.now.sorts result.1 ≡ (symbol_at self.now f).result }
        ensures args_within { All (IsSortId self.now.sorts) result.0.now }
        ensures to_within { IsSortId self.now.sorts result.1 }
        ensures table { IsTable self.now }
    {
        let entry = self.symbol_entry(f);
        (entry.args.as_slice(), entry.to)
    }

    fn symbol_entry(&self, f: SymId) -> &Entry
        requires { IsSymbol self.now f }
        ensures symbol { symbol_at self.now f ≡ symbol_of self.now.sorts result.now }
        ensures fits { FitsEntry self.now.sorts result.now }
        ensures table { IsTable self.now }
    {
        self.symbols.get_index(f.0 as usize).unwrap()
    }
}
