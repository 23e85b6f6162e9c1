//! Each public call once. Expected values were worked out by hand.

ghost use Rattle.std.specs.Prelude.{◌≡◌, ◌<◌, ◌≤◌, ◌+◌, false, length, IfOk, IsTrue};
ghost use Rattle.smt_terms.specs.Rank.{is_minus};
ghost use Rattle.smt_values.specs.Meaning.{IsScalar};
ghost use Rattle.smt_values.specs.SortIds.{IsSortId, IsPlain};
ghost use Rattle.term_table.specs.Formulas.{IsNode, AreNodes, IsOpOf, GrowsByOne};

use smt_terms::NodeId;
use smt_values::{Op, Scalar, SortId};
use std::alloc::{AllocError, Global};
use std::process::Abort;
use std::test::Fail;
use term_table::rank::fits;
use term_table::{RankFault, Table, scalar_text, sort_text};

// The node of an operator other than the unary minus, which has a rank over these operands.
fn made(rt: &impl Abort, table: &mut Table, op: Op, kids: &[NodeId]) -> Result<NodeId, AllocError>
    requires kids { AreNodes table.old kids.now }
    requires numbers { IsOpOf table.old op }
    requires other { is_minus op ≡ false }
    ensures node { IfOk result (λ k. IsNode table.new k) }
    ensures grows { GrowsByOne table.old.trees table.new.trees }
    ensures sorts { table.new.sorts ≡ table.old.sorts }
{
    match table.rank(op, kids) {
        Ok(_) => table.intern(op, kids),
        Err(fault) => panic!(rt; "{fault:?}"),
    }
}

// The same where there is room for a node.
fn made_in_room(rt: &impl Abort, table: &mut Table, op: Op, kids: &[NodeId]) -> NodeId
    requires kids { AreNodes table.old kids.now }
    requires few { length kids.now ≤ 4 }
    requires numbers { IsOpOf table.old op }
    requires other { is_minus op ≡ false }
    requires room { 0 < table.old.spare }
    ensures node { IsNode table.new result }
    ensures grows { GrowsByOne table.old.trees table.new.trees }
    ensures spare { table.old.spare ≤ table.new.spare + 1 }
{
    match table.rank(op, kids) {
        Ok(_) => table.intern_reserved(op, kids),
        Err(fault) => panic!(rt; "{fault:?}"),
    }
}

// A constant of this name and sort.
#[tactic(auto, unfolding(term_table::specs::Formulas::kind, smt_terms::specs::Rank::is_minus))]
fn constant(
    rt: &impl Abort,
    table: &mut Table,
    name: &[u8],
    sort: SortId,
) -> Result<NodeId, AllocError>
    requires name { IsPlain name.now }
    requires sort { IsSortId table.old.sorts sort }
    ensures node { IfOk result (λ k. IsNode table.new k) }
    ensures grows { GrowsByOne table.old.trees table.new.trees }
    ensures sorts { table.new.sorts ≡ table.old.sorts }
{
    let symbol = table.symbol(name, &[], sort)?;
    let node = made(rt, table, Op::Sym(symbol), &[])?;
    Ok(node)
}

// The node of `true`.
#[tactic(auto, unfolding(term_table::specs::Formulas::kind, smt_terms::specs::Rank::is_minus))]
fn truth(rt: &impl Abort, table: &mut Table) -> Result<NodeId, AllocError>
    ensures node { IfOk result (λ k. IsNode table.new k) }
    ensures grows { GrowsByOne table.old.trees table.new.trees }
{
    let node = made(rt, table, Op::Truth(true), &[])?;
    Ok(node)
}

// The negation of a node.
#[tactic(auto, unfolding(term_table::specs::Formulas::kind, smt_terms::specs::Rank::is_minus))]
fn negated(rt: &impl Abort, table: &mut Table, kid: NodeId) -> Result<NodeId, AllocError>
    requires { IsNode table.old kid }
    ensures node { IfOk result (λ k. IsNode table.new k) }
    ensures grows { GrowsByOne table.old.trees table.new.trees }
{
    let node = made(rt, table, Op::Not, &[kid])?;
    Ok(node)
}

// The negation of a node, where the table has it.
#[tactic(auto, unfolding(term_table::specs::Formulas::kind))]
fn negation_found(table: &Table, kid: NodeId) -> Result<Option<NodeId>, AllocError>
    requires { IsNode table.now kid }
{
    let found = table.find(Op::Not, &[kid])?;
    Ok(found)
}

// Whether the only operand of a node is this one.
fn is_over(table: &Table, node: NodeId, kid: NodeId) -> bool
    requires { IsNode table.now node }
{
    table.kids(node) == [kid].as_slice()
}

#[test]
fn equal_nodes_are_one(rt: HostRuntime) -> Result<(), Fail> {
    let mut table = Table::new(rt.alloc());
    let yes = truth(&rt, &mut table)?;
    let no = negated(&rt, &mut table, yes)?;
    let again = negated(&rt, &mut table, yes)?;
    assert!(rt; again == no);
    assert!(rt; table.len() == 2);
    assert!(rt; is_over(&table, no, yes));
    assert!(rt; table.sort_of(no) == SortId::BOOL);
    Ok(())
}

#[test]
fn a_node_is_found_where_it_is_there(rt: HostRuntime) -> Result<(), Fail> {
    let mut table = Table::new(rt.alloc());
    let yes = truth(&rt, &mut table)?;
    let no = negated(&rt, &mut table, yes)?;
    assert!(rt; negation_found(&table, yes)? == Some(no));
    assert!(rt; negation_found(&table, no)?.is_none());
    Ok(())
}

#[test]
#[tactic(auto, unfolding(term_table::specs::Formulas::kind, smt_terms::specs::Rank::is_minus))]
fn nodes_are_made_in_room(rt: HostRuntime) -> Result<(), Fail> {
    let mut table = Table::new(rt.alloc());
    table.reserve(2)?;
    let yes = made_in_room(&rt, &mut table, Op::Truth(true), &[]);
    let no = made_in_room(&rt, &mut table, Op::Not, &[yes]);
    let again = made(&rt, &mut table, Op::Truth(true), &[])?;
    assert!(rt; again == yes);
    assert!(rt; no != yes);
    assert!(rt; table.len() == 2);
    Ok(())
}

// The unary minus of a node, which has to be of sort Int.
fn minus_of(rt: &impl Abort, table: &mut Table, kid: NodeId) -> Result<NodeId, AllocError>
    requires { IsNode table.old kid }
    ensures node { IfOk result (λ k. IsNode table.new k) }
    ensures grows { GrowsByOne table.old.trees table.new.trees }
    ensures sorts { table.new.sorts ≡ table.old.sorts }
{
    assert!(rt; table.sort_of(kid).0 == 1);
    let node = table.minus(kid)?;
    Ok(node)
}

#[test]
#[tactic(auto, unfolding(term_table::specs::Formulas::kind, smt_terms::specs::Rank::is_minus))]
fn the_minus_of_a_constant_is_a_constant(rt: HostRuntime) -> Result<(), Fail> {
    let mut table = Table::new(rt.alloc());
    let five = made(&rt, &mut table, Op::Whole(5), &[])?;
    let less = minus_of(&rt, &mut table, five)?;
    let back = minus_of(&rt, &mut table, less)?;
    assert!(rt; table.op(less) == Op::Whole(-5));
    assert!(rt; back == five);
    assert!(rt; table.len() == 2);
    Ok(())
}

#[test]
fn the_minus_of_another_node_is_made(rt: HostRuntime) -> Result<(), Fail> {
    let mut table = Table::new(rt.alloc());
    let x = constant(&rt, &mut table, b"x", SortId::INT)?;
    let opposite = minus_of(&rt, &mut table, x)?;
    assert!(rt; table.op(opposite) == Op::Neg);
    assert!(rt; table.kids(opposite) == [x].as_slice());
    Ok(())
}

fn wrong_sort(arg: u64, have: u64, want: u64) -> Result<SortId, RankFault> {
    Err(RankFault::WrongSort {
        arg,
        have: SortId(have),
        want: SortId(want),
    })
}

// The ranks over a truth value and over bit vectors of widths 65 and 64.
#[tactic(auto, unfolding(term_table::specs::Formulas::kind))]
fn assert_ranks(rt: &impl Abort, table: &Table, p: NodeId, u: NodeId, v: NodeId)
    requires p { IsNode table.now p }
    requires u { IsNode table.now u }
    requires v { IsNode table.now v }
{
    assert!(rt; table.rank(Op::Concat, &[u, v]) == Err(RankFault::WidthLimit));
    assert!(rt; table.rank(Op::Concat, &[v, v]) == Ok(SortId(129)));
    assert!(rt; table.rank(Op::Not, &[u, v]) == Err(RankFault::WrongArity));
    assert!(rt; table.rank(Op::BvAdd, &[u, v]) == wrong_sort(1, 65, 66));
    assert!(rt; table.rank(Op::Ite, &[p, u, v]) == wrong_sort(2, 65, 66));
    assert!(rt; table.rank(Op::Select, &[u, v]) == wrong_sort(0, 66, 66));
    assert!(rt; table.rank(Op::RotL(64), &[v]) == Err(RankFault::BadIndex));
}

#[test]
fn ranks_tell_the_first_fault(rt: HostRuntime) -> Result<(), Fail> {
    let mut table = Table::new(rt.alloc());
    let p = constant(&rt, &mut table, b"p", SortId::BOOL)?;
    let u = constant(&rt, &mut table, b"u", SortId(66))?;
    let v = constant(&rt, &mut table, b"v", SortId(65))?;
    assert_ranks(&rt, &table, p, u, v);
    Ok(())
}

fn written_sort(alloc: Global, table: &Table, sort: SortId) -> Result<Vec<u8>, AllocError>
    requires { IsSortId table.now.sorts sort }
{
    let mut text = Vec::new(alloc);
    sort_text(alloc, table, sort, &mut text)?;
    Ok(text)
}

#[test]
fn sorts_are_written(rt: HostRuntime) -> Result<(), Fail> {
    let alloc = rt.alloc();
    let mut table = Table::new(alloc);
    let free = table.declared_sort(b"a b")?;
    let inner = table.array_sort(SortId::BOOL, free)?;
    let outer = table.array_sort(SortId::INT, inner)?;
    let text = written_sort(alloc, &table, outer)?;
    assert!(rt; text.as_slice() == b"(Array Int (Array Bool |a b|))".as_slice());
    let text = written_sort(alloc, &table, SortId::BIT)?;
    assert!(rt; text.as_slice() == b"(_ BitVec 1)".as_slice());
    Ok(())
}

// Whether the scalar is in range.
fn is_valid(scalar: Scalar) -> bool
    ensures { IsTrue result → IsScalar scalar }
{
    match scalar {
        Scalar::Truth(_) => true,
        Scalar::Whole(n) => n != i128::MIN,
        Scalar::Bits { width, bits } => width >= 1 && width <= 128 && fits(bits, width),
    }
}

fn written_scalar(rt: &impl Abort, alloc: Global, scalar: Scalar) -> Result<Vec<u8>, AllocError> {
    assert!(rt; is_valid(scalar));
    let mut text = Vec::new(alloc);
    scalar_text(alloc, scalar, &mut text)?;
    Ok(text)
}

#[test]
fn scalars_are_written(rt: HostRuntime) -> Result<(), Fail> {
    let table = [
        (Scalar::Truth(true), b"true".as_slice()),
        (Scalar::Whole(-5), b"(- 5)".as_slice()),
        (
            Scalar::Whole(i128::MAX),
            b"170141183460469231731687303715884105727".as_slice(),
        ),
        (
            Scalar::Whole(-i128::MAX),
            b"(- 170141183460469231731687303715884105727)".as_slice(),
        ),
        (
            Scalar::Bits {
                width: 12,
                bits: 10,
            },
            b"#x00a".as_slice(),
        ),
        (Scalar::Bits { width: 3, bits: 5 }, b"#b101".as_slice()),
    ];
    for (scalar, want) in table {
        let text = written_scalar(&rt, rt.alloc(), scalar)?;
        assert!(rt; text.as_slice() == want);
    }
    Ok(())
}
