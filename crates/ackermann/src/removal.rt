//! Applications removed from a formula, over the nodes of a table, behind those that are live. Every application outside
//! quantifiers that has no constant gets a new one. With R for what all constants make of a term, the group is, for each new
//! application `(f t1 .. tn)` with its constant v, in order, and each `(f s1 .. sn)` with its constant u before it,
//!
//! - `(=> (and (= R(s1) R(t1)) .. (= R(sn) R(tn))) (= u v))`, of one operand `(=> (= R(s1) R(t1)) (= u v))`,
//!
//! and last R of the formula. R of an application is its constant, R of another `(f t ..)` is `(f R(t) ..)`, and R of a quantified
//! formula is the formula itself.

ghost use Rattle.std.specs.Prelude.{◌≡◌, ◌∷◌, ◌++◌, [], length, take, IfOk, OnOk};
ghost use Rattle.normal_forms.specs.Nodes.{IsFormula};
ghost use Rattle.term_groups.specs.Seen.{IsGroup};
ghost use Rattle.term_subst.specs.Substituting.{IsLater, NeverGivesGained};
ghost use Rattle.term_table.specs.Formulas.{tree};
ghost use Rattle.term_walk.specs.Walking.{GrowsTo};
ghost use Rattle.ackermann.specs.Ackermann as plain;
ghost use Rattle.ackermann.specs.LiveUses.{named_uses, AreUsesIn};

use crate::applications::new_uses;
use crate::entering::enter_all;
use crate::replacing::replace_uses;
use crate::uses::LiveUses;
use smt_terms::NodeId;
use std::alloc::{AllocError, Global};
use term_groups::constants::draw_constants;
use term_groups::parts::{Outside, parts};
use term_subst::{Fresh, Group};
use term_table::{Table, know_table};

/// The group in the place of a formula without applications: the new constants, each with the application that it stands for, and
/// the assertions. The new applications become live; where memory is wanting, some of them may.
pub(crate) fn remove_applications(
    alloc: Global,
    table: &mut Table,
    uses: &mut LiveUses,
    id: NodeId,
    fresh: &mut Fresh,
) -> Result<Group, AllocError>
    requires formula { IsFormula table.old id }
    requires live { AreUsesIn table.old uses.old }
    ensures group { IfOk result (λ g. IsGroup table.new g (plain.ack (tree table.old id) (named_uses table.old uses.old ∷ []) fresh.old).group) }
    ensures named { OnOk result (named_uses table.new uses.new ≡ named_uses table.old uses.old ++ (plain.ack (tree table.old id) (named_uses table.old uses.old ∷ []) fresh.old).group.symbols) }
    ensures live { OnOk result (AreUsesIn table.new uses.new) }
    ensures kept { take (length uses.old) uses.new ≡ uses.old }
    ensures left { OnOk result (fresh.new ≡ (plain.ack (tree table.old id) (named_uses table.old uses.old ∷ []) fresh.old).names) }
    ensures later { IsLater fresh.old fresh.new }
    ensures drawn { NeverGivesGained fresh.new table.old.symbols table.new.symbols }
    ensures grows { GrowsTo table.old table.new }
{
    let order = parts(alloc, table, &Outside, id)?;
    let new = new_uses(alloc, table, uses, &order)?;
    let constants = draw_constants(alloc, table, &new, fresh)?;
    know_table(table);
    let memo = replace_uses(alloc, table, &order, uses, &constants)?;
    let mut asserts = enter_all(alloc, table, uses, &memo, &constants)?;
    asserts.push(memo.known(0, id))?;
    Ok(Group {
        symbols: constants.symbols,
        asserts,
    })
}
