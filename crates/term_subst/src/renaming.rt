//! Bound variables that get fresh names where an image has theirs free.

ghost use Rattle.std.specs.Prelude.{◌≡◌, IfOk, OnOk};
ghost use Rattle.smt_terms.specs.Free.{name_among};
ghost use Rattle.smt_terms.specs.Subst.{names_in};
ghost use Rattle.smt_terms.specs.Term.{variable};
ghost use Rattle.term_table.specs.Formulas.{tree, variable_of, IsNode};
ghost use Rattle.term_subst.specs.Maps.{map_at};
ghost use Rattle.term_subst.specs.Renaming.{Binds, Renames};
ghost use Rattle.term_subst.specs.State.{AreFindings, AreVariables, Gains, SameImages};
ghost use Rattle.term_subst.specs.Substituting.{IsMap};

use crate::findings::Findings;
use crate::nodes::symbol_of;
use crate::{Fresh, SymMap};
use smt_terms::{NodeId, SymId};
use smt_values::Op;
use std::alloc::{AllocError, Global};
use term_table::{Table, know_table};

// Whether a name is free in an image of a map.
fn is_captured(
    findings: &mut Findings,
    table: &Table,
    cut: &[(SymId, NodeId)],
    name: &[u8],
) -> Result<bool, AllocError>
    requires cut { IsMap table.now cut.now }
    requires findings { AreFindings table.now findings.old }
    ensures findings { OnOk result (AreFindings table.now findings.new) }
    ensures captured { IfOk result (λ b. b ≡ name_among (names_in (map_at table.now cut.now)) name.now) }
{
    for (_, image) in cut {
        if findings.is_free(table, *image, name)? {
            return Ok(true);
        }
    }
    Ok(false)
}

// The variable that is bound in the place of this one, which is mapped to it where it is another.
fn bind(
    table: &mut Table,
    given: NodeId,
    captured: bool,
    map: &mut SymMap,
    fresh: &mut Fresh,
) -> Result<NodeId, AllocError>
    requires node { IsNode table.old given }
    requires variable { tree table.old given ≡ variable (variable_of (tree table.old given)) }
    requires map { IsMap table.old map.old }
    ensures bound { IfOk result (λ k. Binds table.old table.new captured (variable_of (tree table.old given)) k map.old map.new fresh.old fresh.new) }
    ensures gains { Gains table.old table.new fresh.old fresh.new }
{
    if !captured {
        return Ok(given);
    }
    let symbol = symbol_of(table, given);
    let sort = table.sort_of(given);
    let drawn = fresh.next(table, sort)?;
    let renamed = table.intern(Op::Sym(drawn), &[])?;
    know_table(table);
    map.set(symbol, renamed)?;
    Ok(renamed)
}

// The same, where it is to be found out whether an image of the cut map has the name free.
fn rename_one(
    findings: &mut Findings,
    table: &mut Table,
    cut: &[(SymId, NodeId)],
    given: NodeId,
    map: &mut SymMap,
    fresh: &mut Fresh,
) -> Result<NodeId, AllocError>
    requires node { IsNode table.old given }
    requires variable { tree table.old given ≡ variable (variable_of (tree table.old given)) }
    requires cut { IsMap table.old cut.now }
    requires map { IsMap table.old map.old }
    requires findings { AreFindings table.old findings.old }
    ensures findings { OnOk result (AreFindings table.new findings.new) }
    ensures bound { IfOk result (λ k. let x = variable_of (tree table.old given) in Binds table.old table.new (name_among (names_in (map_at table.old cut.now)) x.name) x k map.old map.new fresh.old fresh.new) }
    ensures gains { Gains table.old table.new fresh.old fresh.new }
{
    let symbol = symbol_of(table, given);
    let captured = is_captured(findings, table, cut, table.symbol_name(symbol))?;
    let bound = bind(table, given, captured, map, fresh)?;
    Ok(bound)
}

// The variables of a quantifier after renaming, from left to right.
pub(crate) fn rename(
    alloc: Global,
    findings: &mut Findings,
    table: &mut Table,
    cut: &[(SymId, NodeId)],
    variables: &[NodeId],
    map: &mut SymMap,
    fresh: &mut Fresh,
) -> Result<Vec<NodeId>, AllocError>
    requires variables { AreVariables table.old variables.now }
    requires cut { IsMap table.old cut.now }
    requires map { IsMap table.old map.old }
    requires images { SameImages table.old map.old (map_at table.old cut.now) }
    requires findings { AreFindings table.old findings.old }
    ensures findings { OnOk result (AreFindings table.new findings.new) }
    ensures renamed { IfOk result (λ ys. Renames table.old table.new cut.now variables.now ys.items map.new fresh.old fresh.new) }
    ensures gains { Gains table.old table.new fresh.old fresh.new }
{
    let mut renamed = Vec::new(alloc);
    for variable in variables {
        let bound = rename_one(findings, table, cut, *variable, map, fresh)?;
        renamed.push(bound)?;
    }
    Ok(renamed)
}
