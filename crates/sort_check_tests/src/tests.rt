//! The written operators over small operands. What is wanted was written by hand from the declarations of the theories.

ghost use Rattle.std.specs.Prelude.{◌<◌, ◌^◌, ◌↔◌, All, IsTrue};
ghost use Rattle.term_table.specs.Formulas.{AreNodes};

use smt_terms::{NodeId, Op, SortId};
use sort_check::{MakeFault, form_named, make, make_form};
use std::alloc::Global;
use std::test::Fail;
use term_table::{RankFault, Table};

const BYTE: SortId = SortId(9);

// The operands by their places: two truth values, three integers, two bytes, and vectors of 64 and of 65 bits.
const LEAVES: [Op; 9] = [
    Op::Truth(true),
    Op::Truth(false),
    Op::Whole(1),
    Op::Whole(2),
    Op::Whole(3),
    Op::Bits { width: 8, bits: 1 },
    Op::Bits { width: 8, bits: 2 },
    Op::Bits { width: 64, bits: 0 },
    Op::Bits { width: 65, bits: 0 },
];

// A name, indices and the places of the operands; the operator and the places of the operands that are wanted. What a line
// makes has the next place, from 9 on.
const MADE: [(&[u8], &[u128], &[usize], Op, &[usize]); 43] = [
    (b"not", &[], &[0], Op::Not, &[0]),
    (b"and", &[], &[1], Op::Truth(false), &[]),
    (b"and", &[], &[0, 1, 0], Op::And, &[0, 1, 0]),
    (b"xor", &[], &[0, 1], Op::Xor, &[0, 1]),
    (b"xor", &[], &[0, 1, 0], Op::Xor, &[12, 0]),
    (b"=>", &[], &[1, 0], Op::Implies, &[1, 0]),
    (b"=>", &[], &[0, 1, 0], Op::Implies, &[0, 14]),
    (b"=", &[], &[2, 3], Op::Equal, &[2, 3]),
    (b"=", &[], &[3, 4], Op::Equal, &[3, 4]),
    (b"=", &[], &[2, 3, 4], Op::And, &[16, 17]),
    (b"distinct", &[], &[2, 3, 4], Op::Distinct, &[2, 3, 4]),
    (b"ite", &[], &[0, 5, 6], Op::Ite, &[0, 5, 6]),
    (b"+", &[], &[4], Op::Whole(3), &[]),
    (b"*", &[], &[2, 3, 4], Op::Mul, &[2, 3, 4]),
    (b"abs", &[], &[2], Op::Abs, &[2]),
    (b"-", &[], &[4], Op::Whole(-3), &[]),
    (b"-", &[], &[23], Op::Neg, &[23]),
    (b"-", &[], &[2, 3], Op::Sub, &[2, 3]),
    (b"-", &[], &[2, 3, 4], Op::Sub, &[26, 4]),
    (b"div", &[], &[2, 3], Op::Div, &[2, 3]),
    (b"<=", &[], &[3, 2], Op::Le, &[3, 2]),
    (b"<=", &[], &[4, 3], Op::Le, &[4, 3]),
    (b">=", &[], &[2, 3, 4], Op::And, &[29, 30]),
    (b">", &[], &[2, 3], Op::Lt, &[3, 2]),
    (b"mod", &[], &[2, 4], Op::Mod, &[2, 4]),
    (b"-", &[], &[2, 2], Op::Sub, &[2, 2]),
    (b"concat", &[], &[7, 7], Op::Concat, &[7, 7]),
    (b"concat", &[], &[5, 5], Op::Concat, &[5, 5]),
    (b"repeat", &[3], &[5], Op::Concat, &[5, 36]),
    (b"repeat", &[1], &[6], Op::Bits { width: 8, bits: 2 }, &[]),
    (
        b"extract",
        &[7, 4],
        &[5],
        Op::Extract { high: 7, low: 4 },
        &[5],
    ),
    (b"bvand", &[], &[5, 6], Op::BvAnd, &[5, 6]),
    (b"bvnand", &[], &[5, 6], Op::BvNot, &[40]),
    (b"bvadd", &[], &[5, 6], Op::BvAdd, &[5, 6]),
    (b"bvadd", &[], &[5, 6, 5], Op::BvAdd, &[42, 5]),
    (b"bvsub", &[], &[5, 6], Op::BvSub, &[5, 6]),
    (b"bvcomp", &[], &[5, 6], Op::BvComp, &[5, 6]),
    (b"bvsge", &[], &[5, 6], Op::BvSle, &[6, 5]),
    (b"zero_extend", &[120], &[5], Op::ZeroExt(120), &[5]),
    (b"sign_extend", &[0], &[5], Op::SignExt(0), &[5]),
    (b"rotate_left", &[11], &[5], Op::RotL(3), &[5]),
    (b"rotate_right", &[8], &[5], Op::RotR(0), &[5]),
    (b"rotate_left", &[1 << 126], &[5], Op::RotL(0), &[5]),
];

const REFUSED: [(&[u8], &[u128], &[usize], RankFault); 18] = [
    (b"not", &[], &[], RankFault::WrongArity),
    (b"and", &[], &[], RankFault::WrongArity),
    (b"=>", &[], &[0], RankFault::WrongArity),
    (b"bvugt", &[], &[5, 5, 5], RankFault::WrongArity),
    (b"divisible", &[0], &[2, 2], RankFault::WrongArity),
    (
        b"and",
        &[],
        &[2],
        RankFault::WrongSort {
            arg: 0,
            have: SortId::INT,
            want: SortId::BOOL,
        },
    ),
    (
        b"+",
        &[],
        &[2, 2, 0],
        RankFault::WrongSort {
            arg: 2,
            have: SortId::BOOL,
            want: SortId::INT,
        },
    ),
    (
        b"=",
        &[],
        &[5, 5, 2, 0],
        RankFault::WrongSort {
            arg: 2,
            have: SortId::INT,
            want: BYTE,
        },
    ),
    (
        b"xor",
        &[],
        &[0, 5, 2],
        RankFault::WrongSort {
            arg: 1,
            have: BYTE,
            want: SortId::BOOL,
        },
    ),
    (
        b"bvadd",
        &[],
        &[2, 0],
        RankFault::WrongSort {
            arg: 0,
            have: SortId::INT,
            want: SortId::BIT,
        },
    ),
    (
        b"repeat",
        &[0],
        &[2],
        RankFault::WrongSort {
            arg: 0,
            have: SortId::INT,
            want: SortId::BIT,
        },
    ),
    (b"repeat", &[0], &[5], RankFault::BadIndex),
    (b"divisible", &[0], &[2], RankFault::BadIndex),
    (b"extract", &[8, 0], &[5], RankFault::BadIndex),
    (b"extract", &[3, 1 << 100], &[5], RankFault::BadIndex),
    (b"concat", &[], &[8, 7], RankFault::WidthLimit),
    (b"repeat", &[17], &[5], RankFault::WidthLimit),
    (b"zero_extend", &[1 << 126], &[5], RankFault::WidthLimit),
];

// The node of a constant, and no node's number for another operator.
#[tactic(auto, unfolding(term_table::specs::Formulas::kind))]
fn leaf(alloc: Global, table: &mut Table, op: Op) -> NodeId {
    let made = match op {
        Op::Truth(truth) => make(alloc, table, Op::Truth(truth), &[]),
        Op::Whole(n) => make(alloc, table, Op::Whole(n), &[]),
        Op::Bits { width, bits } => make(alloc, table, Op::Bits { width, bits }, &[]),
        _ => Err(MakeFault::Memory),
    };
    made.unwrap_or(NodeId(u64::MAX))
}

fn leaves(alloc: Global, table: &mut Table) -> Result<Vec<NodeId>, Fail> {
    let mut nodes = Vec::new(alloc);
    for op in LEAVES {
        nodes.push(leaf(alloc, table, op))?;
    }
    Ok(nodes)
}

fn at_places(alloc: Global, nodes: &[NodeId], places: &[usize]) -> Result<Vec<NodeId>, Fail> {
    let mut picked = Vec::new(alloc);
    for place in places {
        if let Some(node) = nodes.get(*place) {
            picked.push(*node)?;
        }
    }
    Ok(picked)
}

fn are_nodes(table: &Table, kids: &[NodeId]) -> bool
    ensures { IsTrue result ↔ AreNodes table.now kids.now }
{
    let len = table.len();
    kids.iter().all(|kid| kid.0 < len)
}

fn are_indices(indices: &[u128]) -> bool
    ensures { IsTrue result ↔ All (λ i. i < 2 ^ 127) indices.now }
{
    indices.iter().all(|index| *index < 1 << 127)
}

// The written operator over operands, where that is one.
fn formed(
    alloc: Global,
    table: &mut Table,
    name: &[u8],
    indices: &[u128],
    kids: &[NodeId],
) -> Option<Result<NodeId, MakeFault>> {
    let form = form_named(name)?;
    if form.index_count() != indices.len() {
        return None;
    }
    if !are_indices(indices) {
        return None;
    }
    if !are_nodes(table, kids) {
        return None;
    }
    let operator = form.at_indices(indices);
    Some(make_form(alloc, table, operator, kids))
}

// Whether the answer is the node of this operator over these operands.
fn is_made(
    table: &Table,
    made: Option<Result<NodeId, MakeFault>>,
    op: Op,
    kids: &[NodeId],
) -> bool {
    let Some(Ok(node)) = made else {
        return false;
    };
    if node.0 >= table.len() {
        return false;
    }
    table.op(node).is(op) && table.kids(node) == kids
}

fn node_of(made: Option<Result<NodeId, MakeFault>>) -> NodeId {
    match made {
        Some(Ok(node)) => node,
        _ => NodeId(u64::MAX),
    }
}

// The place of the first line that isn't made as it is wanted.
fn first_unmade(
    alloc: Global,
    lines: &[(&[u8], &[u128], &[usize], Op, &[usize])],
) -> Result<Option<usize>, Fail> {
    let mut table = Table::new(alloc);
    let mut nodes = leaves(alloc, &mut table)?;
    for (place, line) in lines.iter().enumerate() {
        let kids = at_places(alloc, &nodes, line.2)?;
        let made = formed(alloc, &mut table, line.0, line.1, &kids);
        let want = at_places(alloc, &nodes, line.4)?;
        if !is_made(&table, made, line.3, &want) {
            return Ok(Some(place));
        }
        nodes.push(node_of(made))?;
    }
    Ok(None)
}

// The place of the first line that isn't refused with its fault, or that leaves a node.
fn first_unrefused(
    alloc: Global,
    lines: &[(&[u8], &[u128], &[usize], RankFault)],
) -> Result<Option<usize>, Fail> {
    let mut table = Table::new(alloc);
    let nodes = leaves(alloc, &mut table)?;
    let before = table.len();
    for (place, line) in lines.iter().enumerate() {
        let kids = at_places(alloc, &nodes, line.2)?;
        let made = formed(alloc, &mut table, line.0, line.1, &kids);
        if made != Some(Err(MakeFault::Rank(line.3))) || table.len() != before {
            return Ok(Some(place));
        }
    }
    Ok(None)
}

#[test]
fn makes_what_a_written_operator_stands_for(rt: HostRuntime) -> Result<(), Fail> {
    assert_eq!(rt; first_unmade(rt.alloc(), &MADE)?, None);
    Ok(())
}

#[test]
fn refuses_with_the_first_fault(rt: HostRuntime) -> Result<(), Fail> {
    assert_eq!(rt; first_unrefused(rt.alloc(), &REFUSED)?, None);
    Ok(())
}

#[test]
fn takes_many_operands(rt: HostRuntime) -> Result<(), Fail> {
    let alloc = rt.alloc();
    let mut table = Table::new(alloc);
    let mut kids = Vec::new(alloc);
    for n in 0..20_000u32 {
        kids.push(leaf(alloc, &mut table, Op::Whole(n as i128)))?;
    }
    let sum = formed(alloc, &mut table, b"+", &[], &kids);
    assert!(rt; is_made(&table, sum, Op::Add, &kids));
    let chain = formed(alloc, &mut table, b"<=", &[], &kids);
    assert!(rt; matches!(chain, Some(Ok(_))));
    Ok(())
}
