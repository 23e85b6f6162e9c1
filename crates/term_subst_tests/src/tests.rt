//! Names that are drawn, and substitution in small formulas and in deep ones. Expected values were worked out by hand.

mod spared;
mod terms;

use smt_terms::{NodeId, SymId};
use smt_values::SortId;
use std::alloc::{AllocError, Global};
use std::process::Abort;
use std::test::Fail;
use term_subst::{Fresh, SymMap, SymPairs};
use term_table::Table;
use terms::{gives, supply_but};

// Puts the name that is drawn next behind a text, and a blank.
fn draw(table: &mut Table, fresh: &mut Fresh, text: &mut Vec<u8>) -> Result<(), AllocError> {
    let symbol = fresh.next(table, SortId(0))?;
    text.extend_from_slice(table.symbol_name(symbol))?;
    text.push(b' ')?;
    Ok(())
}

// Asserts that so many names are drawn next, which are these with a blank behind each.
fn draws(
    rt: &impl Abort,
    alloc: Global,
    table: &mut Table,
    fresh: &mut Fresh,
    count: usize,
    names: &[u8],
) -> Result<(), AllocError> {
    let mut text = Vec::new(alloc);
    for _ in 0..count {
        draw(table, fresh, &mut text)?;
    }
    assert!(rt; text.as_slice() == names);
    Ok(())
}

// Asserts that both supplies draw FV3 to FV9 and FV11.
fn draw_alike(
    rt: &impl Abort,
    alloc: Global,
    table: &mut Table,
    first: &mut Fresh,
    second: &mut Fresh,
) -> Result<(), AllocError> {
    let names = b"FV3 FV4 FV5 FV6 FV7 FV8 FV9 FV11 ";
    draws(rt, alloc, table, first, 8, names)?;
    draws(rt, alloc, table, second, 8, names)
}

// Asserts that a supply without FV1 and FV10 draws the others in order, and its copy the same ones.
fn draws_in_order(
    rt: &impl Abort,
    alloc: Global,
    table: &mut Table,
    fresh: &mut Fresh,
) -> Result<(), AllocError> {
    draws(rt, alloc, table, fresh, 2, b"FV0 FV2 ")?;
    let mut copy = fresh.copy()?;
    draw_alike(rt, alloc, table, fresh, &mut copy)
}

// Asserts what `draws_in_order` does, in a new table.
fn draws_anew(rt: &impl Abort, alloc: Global, fresh: &mut Fresh) -> Result<(), AllocError> {
    let mut table = Table::new(alloc);
    draws_in_order(rt, alloc, &mut table, fresh)
}

#[test]
fn names_are_drawn_in_order(rt: HostRuntime) -> Result<(), Fail> {
    let mut fresh = supply_but(rt.alloc(), b"FV1", b"FV10")?;
    draws_anew(&rt, rt.alloc(), &mut fresh)?;
    Ok(())
}

#[test]
fn the_last_image_is_kept(rt: HostRuntime) -> Result<(), Fail> {
    let mut map = SymMap::new(rt.alloc());
    map.set(SymId(1), NodeId(7))?;
    map.set(SymId(1), NodeId(9))?;
    assert!(rt; map.get(SymId(1)) == Some(NodeId(9)));
    Ok(())
}

#[test]
fn pairs_are_kept(rt: HostRuntime) -> Result<(), Fail> {
    let mut pairs = SymPairs::new(rt.alloc());
    pairs.push((SymId(1), NodeId(7)))?;
    assert!(rt; pairs.get(0) == (SymId(1), NodeId(7)));
    Ok(())
}

#[test]
fn captures_are_avoided_two_binders_deep(rt: HostRuntime) -> Result<(), Fail> {
    let texts = [
        (b"yza".as_slice(), 1),
        (b"zzyoxoAyzzyoxoAyazzyoxoAaEozzyoxoAo", 1),
    ];
    let wanted = [(b"00yoyzaoA2332oyzaoA2a332oyzaoAaEo00yoyzaoAo".as_slice(), 1)];
    gives(&rt, rt.alloc(), &texts, &wanted, 14)
}

#[test]
fn a_minus_over_a_constant_is_the_constant(rt: HostRuntime) -> Result<(), Fail> {
    let texts = [(b"f".as_slice(), 1), (b"iimp", 1)];
    gives(&rt, rt.alloc(), &texts, &[(b"fgp", 1)], 2)
}

#[test]
fn shared_levels_are_substituted_once(rt: HostRuntime) -> Result<(), Fail> {
    let texts = [(b"yx".as_slice(), 1), (b"da", 100)];
    let wanted = [(b"y".as_slice(), 1), (b"da", 100)];
    gives(&rt, rt.alloc(), &texts, &wanted, 100)
}

#[test]
fn a_million_nested_terms(rt: HostRuntime) -> Result<(), Fail> {
    let texts = [(b"yx".as_slice(), 1), (b"n", 1_000_000)];
    let wanted = [(b"y".as_slice(), 1), (b"n", 1_000_000)];
    gives(&rt, rt.alloc(), &texts, &wanted, 1_000_000)
}

#[test]
fn nested_quantifiers(rt: HostRuntime) -> Result<(), Fail> {
    let texts = [
        (b"y".as_slice(), 1),
        (b"z", 10_000),
        (b"x", 1),
        (b"A", 10_000),
    ];
    let wanted = [(b"z".as_slice(), 10_000), (b"y", 1), (b"A", 10_000)];
    gives(&rt, rt.alloc(), &texts, &wanted, 10_000)
}
