//! Books whose rules all answer, or none of them, and how often a rule is asked. Expected formulas were worked out by hand.

ghost use Rattle.std.specs.Prelude.{◌≡◌, ◌<◌, [], ◌∷◌, List, false, length, codes, IfSome, IsTrue};
ghost use Rattle.smt_terms.specs.declared.op.Op.TheVariants.{Xor};
ghost use Rattle.smt_terms.specs.Rank.{is_minus};
ghost use Rattle.smt_terms.specs.Sorts.{Sort};
ghost use Rattle.smt_terms.specs.Term.{Term};
ghost use Rattle.term_table.specs.Formulas.{AreNodes, IsOpOf};
ghost use Rattle.rule_book.specs.Operands.{cells_at};
ghost use Rattle.rule_book.specs.Seen.{Shows, view_seen, template_seen, answer_seen};
ghost use Rattle.rule_book.specs.Template.{hole, applied};
ghost use Rattle.rule_book.specs.Told.{IsRuleAnswer};

use rule_book::{Cell, Parts, Piece, Rule, RuleBook, Tmpl, View, apply};
use smt_terms::NodeId;
use smt_values::{Op, SortId};
use std::alloc::{AllocError, Global};
use std::marker::Brand;
use std::process::Abort;
use std::sync::Arc;
use std::sync::atomic::{AtomicU64, Ordering};
use std::sync::ledger::{Blank, Ledger};
use std::test::Fail;
use term_table::Table;
use term_walk::{Kept, Steps};

// The operands of an exclusive or of two formulas that aren't shown.
fn operands(view: &View) -> Option<(Cell, Cell)>
    ensures root { IfSome result (λ _. view.now.root ≡ Xor) }
    ensures operands { IfSome result (λ p. cells_at 0 view.now.cells ≡ p.0 ∷ p.1 ∷ []) }
{
    if !view.root.is(Op::Xor) || view.cells.len() != 2 {
        return None;
    }
    let first = view.cells.get(0);
    let second = view.cells.get(1);
    if first.up != 0 || second.up != 0 {
        return None;
    }
    Some((first, second))
}

// The operator over what stands in two cells.
fn over(op: Op, first: Cell, second: Cell) -> Tmpl
    ensures { template_seen result ≡ hole first.hole ∷ hole second.hole ∷ applied op 2 ∷ [] }
{
    let mut pieces = Parts::new();
    pieces.push(Piece::Hole(first.hole));
    pieces.push(Piece::Hole(second.hole));
    pieces.push(Piece::Apply(op, 2));
    Tmpl { pieces }
}

// An exclusive or with its operands changed over.
fn swap(view: &View) -> Option<Tmpl>
    ensures { (ss : List Sort) (t : Term) → Shows ss t view.now → IsRuleAnswer (codes "swap") (view_seen ss view.now) (answer_seen result) }
{
    let (first, second) = operands(view)?;
    Some(over(Op::Xor, second, first))
}

// An exclusive or as a `distinct`.
fn differ(view: &View) -> Option<Tmpl>
    ensures { (ss : List Sort) (t : Term) → Shows ss t view.now → IsRuleAnswer (codes "differ") (view_seen ss view.now) (answer_seen result) }
{
    let (first, second) = operands(view)?;
    Some(over(Op::Distinct, first, second))
}

// Whether these are nodes of the table.
fn are_nodes(table: &Table, ids: &[NodeId]) -> bool
    ensures { IsTrue result → AreNodes table.now ids.now }
{
    for id in ids {
        if id.0 >= table.len() {
            return false;
        }
    }
    true
}

// The node of an operator over operands that it has a rank over.
fn made(rt: &impl Abort, table: &mut Table, op: Op, kids: &[NodeId]) -> Result<NodeId, AllocError>
    requires numbers { IsOpOf table.old op }
    requires other { is_minus op ≡ false }
{
    if !are_nodes(table, kids) {
        panic!(rt; "an operand is no node of the table");
    }
    match table.rank(op, kids) {
        Ok(_) => table.intern(op, kids),
        Err(fault) => panic!(rt; "{fault:?}"),
    }
}

// The constant of sort Bool with this letter for its name.
#[tactic(auto, unfolding(term_table::specs::Formulas::kind, smt_terms::specs::Rank::is_minus))]
fn constant(rt: &impl Abort, table: &mut Table, letter: u8) -> Result<NodeId, AllocError> {
    assert!(rt; letter != b'|' && letter != b'\\');
    let symbol = table.symbol(&[letter], &[], SortId::BOOL)?;
    made(rt, table, Op::Sym(symbol), &[])
}

#[tactic(auto, unfolding(term_table::specs::Formulas::kind, smt_terms::specs::Rank::is_minus))]
fn exclusive(rt: &impl Abort, table: &mut Table, kids: &[NodeId]) -> Result<NodeId, AllocError> {
    made(rt, table, Op::Xor, kids)
}

#[tactic(auto, unfolding(term_table::specs::Formulas::kind, smt_terms::specs::Rank::is_minus))]
fn distinct(rt: &impl Abort, table: &mut Table, kids: &[NodeId]) -> Result<NodeId, AllocError> {
    made(rt, table, Op::Distinct, kids)
}

// What a book makes of a node, with a count of its own.
fn rewritten<L: Ledger>(
    rt: &impl Abort,
    alloc: Global,
    table: &mut Table,
    book: &RuleBook,
    id: NodeId,
    blank: Blank,
) -> Result<NodeId, AllocError>
    requires name { blank.name ≡ L.name }
    requires parts { blank.parts ≡ L.parts }
    requires some { 0 < L.parts }
{
    assert!(rt; id.0 < table.len());
    let mut kept = Kept::new(alloc);
    let mut steps = Steps::<L>::new(blank);
    apply(alloc, table, book, id, &mut kept, &mut steps)
}

// What a book makes of a node.
fn ruled(
    rt: &impl Abort,
    alloc: Global,
    table: &mut Table,
    book: &RuleBook,
    id: NodeId,
) -> Result<NodeId, AllocError> {
    rewritten::<Brand>(rt, alloc, table, book, id, Blank::new(1))
}

// Puts a rule behind those of a book.
fn add(rt: &impl Abort, book: &mut RuleBook, rule: Rule) {
    if book.add(rule).is_err() {
        panic!(rt; "no memory for a rule");
    }
}

#[test]
fn a_book_without_rules_changes_nothing(rt: HostRuntime) -> Result<(), Fail> {
    let mut table = Table::new(rt.alloc());
    changes_nothing(&rt, rt.alloc(), &mut table)?;
    Ok(())
}

fn changes_nothing(rt: &impl Abort, alloc: Global, table: &mut Table) -> Result<(), AllocError> {
    let a = constant(rt, table, b'a')?;
    let b = constant(rt, table, b'b')?;
    let node = exclusive(rt, table, &[a, b])?;
    let book = RuleBook::new(alloc);
    assert!(rt; ruled(rt, alloc, table, &book, node)? == node);
    Ok(())
}

#[test]
fn the_first_rule_that_answers_counts(rt: HostRuntime) -> Result<(), Fail> {
    let mut table = Table::new(rt.alloc());
    first_counts(&rt, rt.alloc(), &mut table)?;
    Ok(())
}

fn first_counts(rt: &impl Abort, alloc: Global, table: &mut Table) -> Result<(), AllocError> {
    let a = constant(rt, table, b'a')?;
    let b = constant(rt, table, b'b')?;
    let node = exclusive(rt, table, &[a, b])?;
    let swapped = swapped_first(rt, alloc, table, node)?;
    assert!(rt; swapped == exclusive(rt, table, &[b, a])?);
    let differing = differing_first(rt, alloc, table, node)?;
    assert!(rt; differing == distinct(rt, table, &[a, b])?);
    Ok(())
}

fn swapped_first(
    rt: &impl Abort,
    alloc: Global,
    table: &mut Table,
    id: NodeId,
) -> Result<NodeId, AllocError> {
    let mut book = RuleBook::new(alloc);
    add(rt, &mut book, Rule::new("swap", Box::new(alloc, swap)?));
    add(rt, &mut book, Rule::new("differ", Box::new(alloc, differ)?));
    ruled(rt, alloc, table, &book, id)
}

fn differing_first(
    rt: &impl Abort,
    alloc: Global,
    table: &mut Table,
    id: NodeId,
) -> Result<NodeId, AllocError> {
    let mut book = RuleBook::new(alloc);
    add(rt, &mut book, Rule::new("differ", Box::new(alloc, differ)?));
    add(rt, &mut book, Rule::new("swap", Box::new(alloc, swap)?));
    ruled(rt, alloc, table, &book, id)
}

#[test]
fn a_rule_is_asked_once_for_each_subterm(rt: HostRuntime) -> Result<(), Fail> {
    let mut table = Table::new(rt.alloc());
    is_asked_once(&rt, rt.alloc(), &mut table)?;
    Ok(())
}

fn is_asked_once(rt: &impl Abort, alloc: Global, table: &mut Table) -> Result<(), AllocError> {
    let mut node = constant(rt, table, b'a')?;
    for _ in 0..100 {
        node = exclusive(rt, table, &[node, node])?;
    }
    let calls = Arc::new(alloc, AtomicU64::new(0))?;
    let counted = Arc::try_clone(&calls)?;
    let count = move |_view: &View| {
        counted.fetch_add(1, Ordering::SeqCst);
        None
    };
    let mut book = RuleBook::new(alloc);
    add(rt, &mut book, Rule::new("count", Box::new(alloc, count)?));
    assert!(rt; ruled(rt, alloc, table, &book, node)? == node);
    assert!(rt; calls.load(Ordering::SeqCst) == 100);
    Ok(())
}
