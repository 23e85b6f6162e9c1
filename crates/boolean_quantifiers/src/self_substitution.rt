//! Self-substitution: `selfsub t`, the formula without quantified truth values, from below and everywhere. Over the rewritten
//! body b, the Bool variables of a quantifier are taken from the last to the first: `exists x` b is b with b[true] for x, and
//! `forall x` b is b with b[false] for x. Bit-vector variables stay.

ghost use Rattle.std.specs.Prelude.{◌≡◌, List, [], ◌∷◌, true, false, None, IsTrue, IfOk, OnOk, is_some};
ghost use Rattle.smt_terms.specs.Fresh.{Supply};
ghost use Rattle.smt_terms.specs.Shapes.{no_bool_quantifier};
ghost use Rattle.smt_terms.specs.Sorts.{Variable};
ghost use Rattle.smt_terms.specs.Subst.{subst};
ghost use Rattle.smt_terms.specs.SubstLaws.{GivesNone, names_within};
ghost use Rattle.smt_terms.specs.Term.{constant_of};
ghost use Rattle.term_table.specs.Formulas.{tree, variable_of, IsNode};
ghost use Rattle.term_walk.specs.Walking.{GrowsTo};
ghost use Rattle.term_subst.specs.Substituting.{IsLater, NeverGivesGained};
ghost use Rattle.normal_forms.specs.Quantifiers as plain;
ghost use Rattle.normal_forms.specs.Nodes.{IsFormula};
ghost use Rattle.normal_forms.specs.Shape.{quantifier_seen};
ghost use Rattle.term_walk.specs.Binders.{is_quantified};
ghost use Rattle.quantifier_forms.specs.Memos.{result_in};
ghost use Rattle.quantifier_forms.specs.Variables.{AreVariables};
ghost use Rattle.boolean_quantifiers.specs.Solving.{step, solved_over, MayStand, AllMayStand, IsTold, AreTold, IsSolved, AreOperandsKnown};
ghost use Rattle.boolean_quantifiers.specs.Working.{IsTruthVariable, IsVariable, IsWork};

use crate::truths::{at_truth, quantified_truths};
use crate::work::{Case, Work};
use normal_forms::binding::is_universal;
use normal_forms::shapes::is_formula;
use quantifier_forms::listing::list_all;
use quantifier_forms::memo::Memo;
use quantifier_forms::quantifying::{quantify, symbol_of, variables_below, without_truths};
use quantifier_forms::rebuilding::{body_below, rebuilt};
use smt_terms::NodeId;
use std::alloc::{AllocError, Global};
use term_subst::{Fresh, SymMap, substitute};
use term_table::{Table, know_table};
use term_walk::is_binder;

// The formula with another one for a Bool variable.
fn substituted(
    alloc: Global,
    table: &mut Table,
    work: &mut Work,
    fresh: &mut Fresh,
    variable: NodeId,
    image: NodeId,
    body: NodeId,
) -> Result<NodeId, AllocError>
    requires variable { IsTruthVariable table.old variable }
    requires image { IsFormula table.old image }
    requires body { IsFormula table.old body }
    requires work { IsWork table.old work.old }
    requires names { GivesNone fresh.old (names_within (tree table.old body)) }
    ensures formula { IfOk result (IsFormula table.new) }
    ensures term { IfOk result (λ k. tree table.new k ≡ (subst ((constant_of (variable_of (tree table.old variable)), tree table.old image) ∷ []) (tree table.old body) fresh.old).0) }
    ensures left { OnOk result (fresh.new ≡ (subst ((constant_of (variable_of (tree table.old variable)), tree table.old image) ∷ []) (tree table.old body) fresh.old).1) }
    ensures later { IsLater fresh.old fresh.new }
    ensures drawn { NeverGivesGained fresh.new table.old.symbols table.new.symbols }
    ensures work { OnOk result (IsWork table.new work.new) }
    ensures grows { GrowsTo table.old table.new }
{
    if work.is_plain(table, body)? {
        let result = work.put(alloc, table, Case { variable, image }, body)?;
        return Ok(result);
    }
    let mut map = SymMap::new(alloc);
    map.set(symbol_of(table, variable), image)?;
    let result = substitute(alloc, table, &map, body, fresh)?;
    Ok(result)
}

// What a quantifier over one variable says of the formula.
fn substitute_bool(
    alloc: Global,
    table: &mut Table,
    work: &mut Work,
    fresh: &mut Fresh,
    universal: bool,
    variable: NodeId,
    body: NodeId,
) -> Result<NodeId, AllocError>
    requires variable { IsVariable table.old variable }
    requires body { IsFormula table.old body }
    requires work { IsWork table.old work.old }
    requires names { GivesNone fresh.old (names_within (tree table.old body)) }
    ensures formula { IfOk result (IsFormula table.new) }
    ensures term { (x : Variable) → variable_of (tree table.old variable) ≡ x → IfOk result (λ k. (tree table.new k, fresh.new) ≡ plain.substitute_bool x.sort (quantifier_seen universal) x (tree table.old body, fresh.old)) }
    ensures names { IfOk result (λ k. GivesNone fresh.new (names_within (tree table.new k))) }
    ensures later { IsLater fresh.old fresh.new }
    ensures drawn { NeverGivesGained fresh.new table.old.symbols table.new.symbols }
    ensures work { OnOk result (IsWork table.new work.new) }
    ensures grows { GrowsTo table.old table.new }
{
    if is_formula(table, variable) {
        let witness = at_truth(alloc, table, work, !universal, variable, body)?;
        let form = substituted(alloc, table, work, fresh, variable, witness, body)?;
        return Ok(form);
    }
    Ok(body)
}

// Takes the Bool variables, the last first.
fn substitute_each(
    alloc: Global,
    table: &mut Table,
    work: &mut Work,
    fresh: &mut Fresh,
    universal: bool,
    variables: &[NodeId],
    body: NodeId,
) -> Result<NodeId, AllocError>
    requires variables { (xs : List Variable) × AreVariables table.old variables.now xs }
    requires body { IsFormula table.old body }
    requires work { IsWork table.old work.old }
    requires names { GivesNone fresh.old (names_within (tree table.old body)) }
    ensures formula { IfOk result (IsFormula table.new) }
    ensures term { (xs : List Variable) → AreVariables table.old variables.now xs → IfOk result (λ k. (tree table.new k, fresh.new) ≡ plain.substitute_each (quantifier_seen universal) xs (tree table.old body, fresh.old)) }
    ensures names { IfOk result (λ k. GivesNone fresh.new (names_within (tree table.new k))) }
    ensures later { IsLater fresh.old fresh.new }
    ensures drawn { NeverGivesGained fresh.new table.old.symbols table.new.symbols }
    ensures work { OnOk result (IsWork table.new work.new) }
    ensures grows { GrowsTo table.old table.new }
{
    let mut form = body;
    for place in (0..variables.len()).rev() {
        form = substitute_bool(alloc, table, work, fresh, universal, variables[place], form)?;
    }
    Ok(form)
}

// The result of a quantified node, whose body has this result.
fn solve_quantified(
    alloc: Global,
    table: &mut Table,
    work: &mut Work,
    fresh: &mut Fresh,
    id: NodeId,
    body: NodeId,
) -> Result<NodeId, AllocError>
    requires node { IsNode table.old id }
    requires quantified { is_quantified (tree table.old id) ≡ true }
    requires body { IsFormula table.old body }
    requires work { IsWork table.old work.old }
    requires names { GivesNone fresh.old (names_within (tree table.old id)) }
    requires spared { GivesNone fresh.old (names_within (tree table.old body)) }
    ensures formula { IfOk result (IsFormula table.new) }
    ensures term { IfOk result (λ k. (tree table.new k, fresh.new) ≡ solved_over (tree table.old id) (tree table.old body) fresh.old) }
    ensures names { IfOk result (λ k. GivesNone fresh.new (names_within (tree table.new k))) }
    ensures later { IsLater fresh.old fresh.new }
    ensures drawn { NeverGivesGained fresh.new table.old.symbols table.new.symbols }
    ensures work { OnOk result (IsWork table.new work.new) }
    ensures grows { GrowsTo table.old table.new }
{
    know_table(table);
    let variables = variables_below(alloc, table, id)?;
    let universal = is_universal(table, id);
    let form = substitute_each(alloc, table, work, fresh, universal, &variables, body)?;
    let left = without_truths(alloc, table, &variables)?;
    if left.is_empty() {
        return Ok(form);
    }
    let result = quantify(alloc, table, universal, &left, form)?;
    Ok(result)
}

// The result of a node that isn't quantified, whose operands have results.
fn solve_applied(
    alloc: Global,
    table: &mut Table,
    results: &Memo,
    id: NodeId,
) -> Result<NodeId, AllocError>
    requires node { IsNode table.old id }
    requires applied { is_quantified (tree table.old id) ≡ false }
    requires ready { AreOperandsKnown table.old results.now id }
    requires stand { (left : Supply) × AllMayStand table.old left results.now }
    ensures stands { (left : Supply) → AllMayStand table.old left results.now → GivesNone left (names_within (tree table.old id)) → IfOk result (MayStand table.new left id) }
    ensures told { (es : List plain.Solved) → AreTold table.old es results.now → IfOk result (IsTold table.old table.new es id) }
    ensures grows { GrowsTo table.old table.new }
    ensures symbols { table.new.symbols ≡ table.old.symbols }
{
    let kids = results.known_all(alloc, 0, table.kids(id))?;
    let result = rebuilt(table, id, &kids)?;
    Ok(result)
}

// The result of a node whose operands have results.
fn solve(
    alloc: Global,
    table: &mut Table,
    work: &mut Work,
    results: &Memo,
    fresh: &mut Fresh,
    id: NodeId,
) -> Result<NodeId, AllocError>
    requires node { IsNode table.old id }
    requires ready { AreOperandsKnown table.old results.now id }
    requires stand { AllMayStand table.old fresh.old results.now }
    requires names { GivesNone fresh.old (names_within (tree table.old id)) }
    requires work { IsWork table.old work.old }
    ensures stands { IfOk result (MayStand table.new fresh.new id) }
    ensures solved { (s : plain.Solving) → s.names ≡ fresh.old → AreTold table.old s.solved results.now → IfOk result (IsSolved table.old table.new s fresh.new id) }
    ensures later { IsLater fresh.old fresh.new }
    ensures drawn { NeverGivesGained fresh.new table.old.symbols table.new.symbols }
    ensures work { OnOk result (IsWork table.new work.new) }
    ensures grows { GrowsTo table.old table.new }
{
    know_table(table);
    if is_binder(table, id) {
        let body = results.known(0, body_below(table, id));
        let result = solve_quantified(alloc, table, work, fresh, id, body)?;
        return Ok(result);
    }
    let result = solve_applied(alloc, table, results, id)?;
    Ok(result)
}

// Keeps the result of a node whose operands have results.
fn settle(
    alloc: Global,
    table: &mut Table,
    work: &mut Work,
    results: &mut Memo,
    fresh: &mut Fresh,
    id: NodeId,
) -> Result<(), AllocError>
    requires node { IsNode table.old id }
    requires ready { AreOperandsKnown table.old results.old id }
    requires stand { AllMayStand table.old fresh.old results.old }
    requires names { GivesNone fresh.old (names_within (tree table.old id)) }
    requires work { IsWork table.old work.old }
    ensures stand { OnOk result (AllMayStand table.new fresh.new results.new) }
    ensures told { (s : plain.Solving) → s.names ≡ fresh.old → AreTold table.old s.solved results.old → plain.solved_for s.solved (tree table.old id) ≡ None → OnOk result (AreTold table.new (step (tree table.old id) s).solved results.new) }
    ensures left { (s : plain.Solving) → s.names ≡ fresh.old → AreTold table.old s.solved results.old → OnOk result ((step (tree table.old id) s).names ≡ fresh.new) }
    ensures done { OnOk result (is_some (result_in results.new 0 id) ≡ true) }
    ensures stay { OnOk result ((k : NodeId) → is_some (result_in results.old 0 k) ≡ true → is_some (result_in results.new 0 k) ≡ true) }
    ensures later { IsLater fresh.old fresh.new }
    ensures drawn { NeverGivesGained fresh.new table.old.symbols table.new.symbols }
    ensures work { OnOk result (IsWork table.new work.new) }
    ensures grows { GrowsTo table.old table.new }
{
    let result = solve(alloc, table, work, results, fresh, id)?;
    results.set(0, id, result)?;
    Ok(())
}

/// The formula after self-substitution, which says the same: `normal_forms::laws::selfsub_keeps_values`. Bound names that
/// would capture become fresh ones; the names can't give the name of a symbol or of a variable in the formula. The result
/// may be exponentially larger than the formula. No name is drawn twice, also where memory is wanting.
pub fn self_subst(
    alloc: Global,
    table: &mut Table,
    id: NodeId,
    fresh: &mut Fresh,
) -> Result<NodeId, AllocError>
    requires formula { IsFormula table.old id }
    requires names { GivesNone fresh.old (names_within (tree table.old id)) }
    ensures formula { IfOk result (IsFormula table.new) }
    ensures term { IfOk result (λ k. tree table.new k ≡ (plain.selfsub (tree table.old id) fresh.old).0) }
    ensures left { OnOk result (fresh.new ≡ (plain.selfsub (tree table.old id) fresh.old).1) }
    ensures shape { IfOk result (λ k. IsTrue (no_bool_quantifier (tree table.new k))) }
    ensures later { IsLater fresh.old fresh.new }
    ensures drawn { NeverGivesGained fresh.new table.old.symbols table.new.symbols }
    ensures grows { GrowsTo table.old table.new }
{
    let order = list_all(alloc, table, id)?;
    let truths = quantified_truths(alloc, table, &order)?;
    let mut work = Work::new(alloc, truths);
    let mut results = Memo::new(alloc);
    for node in &order {
        settle(alloc, table, &mut work, &mut results, fresh, *node)?;
    }
    Ok(results.known(0, id))
}
