//! Substitution of terms for constants, and definitions expanded by it: `subst f t`, the term t after all replacements of
//! the map f, with the names that are left.

ghost use Rattle.std.specs.Prelude.{◌≡◌, map, zip, length, IfOk, OnOk};
ghost use Rattle.smt_terms.specs.Rank.{sort_of};
ghost use Rattle.smt_terms.specs.Subst.{subst, expand as expanded};
ghost use Rattle.smt_terms.specs.SubstLaws.{GivesNone, names_within};
ghost use Rattle.term_table.specs.Formulas.{tree, trees_at, symbol_at, IsNode};
ghost use Rattle.term_walk.specs.Walking.{GrowsTo};
ghost use Rattle.term_subst.specs.Maps.{map_at};
ghost use Rattle.term_subst.specs.Substituting.{IsMap, IsLater, NeverGivesGained};

use crate::cut::as_map;
use crate::machine::run;
use crate::{Definition, Fresh, SymMap};
use smt_terms::{NodeId, SymId};
use std::alloc::{AllocError, Global};
use term_table::{Syms, Table, know_table};

/// Replaces free constants of a node by terms of their sorts, all at once and without capture (SMT-LIB 2.6, section 5.3):
/// a bound name that is free in the image of a symbol that is free below its quantifier becomes a fresh one. One
/// quantified term gets one choice of names for each map that is cut down to its free symbols. A unary minus over what
/// becomes a constant becomes the constant.
///
/// Each replaced symbol has no arguments, and an image of its sort; the names can't give the name of a symbol or of a
/// variable in the node. The table only gains nodes and symbols, and no name is drawn twice, also where memory is wanting.
pub fn substitute(
    alloc: Global,
    table: &mut Table,
    map: &SymMap,
    root: NodeId,
    fresh: &mut Fresh,
) -> Result<NodeId, AllocError>
    requires root { IsNode table.old root }
    requires map { IsMap table.old map.now }
    requires names { GivesNone fresh.old (names_within (tree table.old root)) }
    ensures node { IfOk result (λ k. IsNode table.new k) }
    ensures term { IfOk result (λ k. tree table.new k ≡ (subst (map_at table.old map.now) (tree table.old root) fresh.old).0) }
    ensures left { OnOk result (fresh.new ≡ (subst (map_at table.old map.now) (tree table.old root) fresh.old).1) }
    ensures sort { IfOk result (λ k. sort_of (tree table.new k) ≡ sort_of (tree table.old root)) }
    ensures later { IsLater fresh.old fresh.new }
    ensures drawn { NeverGivesGained fresh.new table.old.symbols table.new.symbols }
    ensures grows { GrowsTo table.old table.new }
    ensures sorts { table.new.sorts ≡ table.old.sorts }
{
    let copy = map.copy()?;
    run(alloc, table, copy, root, fresh)
}

/// The body of a definition with arguments for its parameters, by substitution. The parameters are symbols without
/// arguments, as many as the arguments and of their sorts; of a parameter that stands there twice the first argument
/// counts. The names can't give the name of a symbol or of a variable in the body. The table only gains nodes and symbols,
/// and no name is drawn twice, also where memory is wanting.
pub fn expand(
    alloc: Global,
    table: &mut Table,
    definition: &Definition,
    arguments: &[NodeId],
    fresh: &mut Fresh,
) -> Result<NodeId, AllocError>
    requires body { IsNode table.old definition.now.body }
    requires number { length arguments.now ≡ length definition.now.params }
    requires map { IsMap table.old (zip definition.now.params arguments.now) }
    requires names { GivesNone fresh.old (names_within (tree table.old definition.now.body)) }
    ensures node { IfOk result (λ k. IsNode table.new k) }
    ensures term { IfOk result (λ k. tree table.new k ≡ (expanded (map (symbol_at table.old) definition.now.params) (tree table.old definition.now.body) (trees_at table.old arguments.now) fresh.old).0) }
    ensures left { OnOk result (fresh.new ≡ (expanded (map (symbol_at table.old) definition.now.params) (tree table.old definition.now.body) (trees_at table.old arguments.now) fresh.old).1) }
    ensures sort { IfOk result (λ k. sort_of (tree table.new k) ≡ sort_of (tree table.old definition.now.body)) }
    ensures later { IsLater fresh.old fresh.new }
    ensures drawn { NeverGivesGained fresh.new table.old.symbols table.new.symbols }
    ensures grows { GrowsTo table.old table.new }
    ensures sorts { table.new.sorts ≡ table.old.sorts }
{
    let pairs = paired(alloc, &definition.params, arguments)?;
    let map = as_map(alloc, &pairs)?;
    know_table(table);
    let result = run(alloc, table, map, definition.body, fresh)?;
    Ok(result)
}

// Parameters with their arguments.
fn paired(
    alloc: Global,
    params: &Syms,
    arguments: &[NodeId],
) -> Result<Vec<(SymId, NodeId)>, AllocError>
    requires { length arguments.now ≡ length params.now }
    ensures { IfOk result (λ ps. ps.items ≡ zip params.now arguments.now) }
{
    let mut pairs = Vec::with_capacity(alloc, arguments.len())?;
    for (i, argument) in arguments.iter().enumerate() {
        pairs.push((params.get(i), *argument))?;
    }
    Ok(pairs)
}
