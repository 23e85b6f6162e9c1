//! The heads of terms.

ghost use Rattle.std.specs.Prelude.{◌≡◌, ◌++◌, List, OnOk, IfNone, IfSome, map, true, false};
ghost use Rattle.smt_lex.specs.FormText.{form_text};
ghost use Rattle.smt_terms.specs.Sorts.{Variable};
ghost use Rattle.smt_terms.specs.Term.{variable};
ghost use Rattle.smt_values.specs.declared.scalar.Scalar.{Scalar};
ghost use Rattle.smt_values.specs.Meaning.{IsScalar};
ghost use Rattle.smt_values.specs.SortIds.{sort_at, IsSortId};
ghost use Rattle.term_table.specs.Formulas.{tree, trees_at, IsNode, AreNodes, IsOpOf, IsTable};
ghost use Rattle.term_table.specs.WrittenForms.{list_form, constant_array_form, variable_form};
ghost use Rattle.smt_print.specs.NodeForms.{written, constant_op, first_form, opening, Binds};
ghost use Rattle.term_walk.specs.Binders.{is_quantified};

use crate::names::Printed;
use crate::numbers::{push_indexed, push_separator};
use crate::page::Page;
use smt_terms::NodeId;
use smt_values::{Op, Scalar, SortId};
use std::alloc::{AllocError, Global};

// Appends what an operator is written as: a constant, a name, or the first part of its list.
#[tactic(auto, unfolding(term_table::specs::Formulas::kind, crate::specs::TermForms::operator_form))]
fn push_operator(alloc: Global, table: &Printed, op: Op, out: &mut Page) -> Result<(), AllocError>
    requires numbers { IsOpOf table.now op }
    requires scalar { (s : Scalar) → constant_op s ≡ op → IsScalar s }
    ensures { OnOk result (out.new ≡ out.old ++ form_text (written table.now op)) }
{
    match op {
        Op::Truth(b) => out.push_scalar(alloc, Scalar::Truth(b)),
        Op::Whole(n) => out.push_scalar(alloc, Scalar::Whole(n)),
        Op::Bits { width, bits } => out.push_scalar(alloc, Scalar::Bits { width, bits }),
        Op::Sym(f) => table.push_symbol(alloc, f, out),
        Op::ConstArray(sort) => push_constant_array(alloc, table, sort, out),
        Op::Forall => out.push_short(b"forall"),
        Op::Exists => out.push_short(b"exists"),
        Op::Not => out.push_short(b"not"),
        Op::And => out.push_short(b"and"),
        Op::Or => out.push_short(b"or"),
        Op::Xor => out.push_short(b"xor"),
        Op::Implies => out.push_short(b"=>"),
        Op::Equal => out.push_short(b"="),
        Op::Distinct => out.push_short(b"distinct"),
        Op::Ite => out.push_short(b"ite"),
        Op::Neg | Op::Sub => out.push_short(b"-"),
        Op::Add => out.push_short(b"+"),
        Op::Mul => out.push_short(b"*"),
        Op::Div => out.push_short(b"div"),
        Op::Mod => out.push_short(b"mod"),
        Op::Abs => out.push_short(b"abs"),
        Op::Le => out.push_short(b"<="),
        Op::Lt => out.push_short(b"<"),
        Op::Concat => out.push_short(b"concat"),
        Op::Extract { high, low } => push_indexed(b"extract", &[high, low], out),
        Op::BvNot => out.push_short(b"bvnot"),
        Op::BvNeg => out.push_short(b"bvneg"),
        Op::BvAnd => out.push_short(b"bvand"),
        Op::BvOr => out.push_short(b"bvor"),
        Op::BvXor => out.push_short(b"bvxor"),
        Op::BvAdd => out.push_short(b"bvadd"),
        Op::BvMul => out.push_short(b"bvmul"),
        Op::BvSub => out.push_short(b"bvsub"),
        Op::BvUdiv => out.push_short(b"bvudiv"),
        Op::BvUrem => out.push_short(b"bvurem"),
        Op::BvSdiv => out.push_short(b"bvsdiv"),
        Op::BvSrem => out.push_short(b"bvsrem"),
        Op::BvSmod => out.push_short(b"bvsmod"),
        Op::BvShl => out.push_short(b"bvshl"),
        Op::BvLshr => out.push_short(b"bvlshr"),
        Op::BvAshr => out.push_short(b"bvashr"),
        Op::BvComp => out.push_short(b"bvcomp"),
        Op::BvUlt => out.push_short(b"bvult"),
        Op::BvUle => out.push_short(b"bvule"),
        Op::BvSlt => out.push_short(b"bvslt"),
        Op::BvSle => out.push_short(b"bvsle"),
        Op::ZeroExt(by) => push_indexed(b"zero_extend", &[by], out),
        Op::SignExt(by) => push_indexed(b"sign_extend", &[by], out),
        Op::RotL(by) => push_indexed(b"rotate_left", &[by], out),
        Op::RotR(by) => push_indexed(b"rotate_right", &[by], out),
        Op::Select => out.push_short(b"select"),
        Op::Store => out.push_short(b"store"),
    }
}

// Appends `(as const SORT)`.
fn push_constant_array(
    alloc: Global,
    table: &Printed,
    sort: SortId,
    out: &mut Page,
) -> Result<(), AllocError>
    requires { IsSortId table.now.sorts sort }
    ensures { OnOk result (out.new ≡ out.old ++ form_text (constant_array_form (sort_at table.now.sorts sort))) }
{
    out.push_short(b"(as const ")?;
    table.push_sort(alloc, sort, out)?;
    out.push(b')')?;
    Ok(())
}

// Appends what a node is written with, before its operands.
pub(crate) fn push_head(
    alloc: Global,
    table: &Printed,
    id: NodeId,
    out: &mut Page,
) -> Result<(), AllocError>
    requires { IsNode table.now id }
    ensures { OnOk result (out.new ≡ out.old ++ form_text (first_form (tree table.now id))) }
{
    push_operator(alloc, table, table.op(id), out)?;
    Ok(())
}

// The variables and the body of a quantified node.
#[tactic(auto, unfolding(term_table::specs::Formulas::kind))]
pub(crate) fn binding<'t>(table: &'t Printed, id: NodeId) -> Option<(&'t [NodeId], NodeId)>
    requires { IsNode table.now id }
    ensures none { IfNone result (is_quantified (tree table.now id) ≡ false) }
    ensures some { IfSome result (λ p. Binds table.now (tree table.now id) p.0.now p.1) }
    ensures table { IsTable table.now }
{
    match table.op(id) {
        Op::Forall | Op::Exists => {
            let (body, variables) = table.kids(id).split_last()?;
            Some((variables, *body))
        }
        _ => None,
    }
}

// Appends `(x SORT)`.
fn push_variable(
    alloc: Global,
    table: &Printed,
    id: NodeId,
    out: &mut Page,
) -> Result<(), AllocError>
    requires { IsNode table.now id }
    ensures { (x : Variable) → tree table.now id ≡ variable x → OnOk result (out.new ≡ out.old ++ form_text (variable_form x)) }
{
    out.push(b'(')?;
    push_head(alloc, table, id, out)?;
    out.push(b' ')?;
    table.push_sort(alloc, table.sort_of(id), out)?;
    out.push(b')')?;
    Ok(())
}

// Appends `((x SORT) ..)`.
fn push_variables(
    alloc: Global,
    table: &Printed,
    ids: &[NodeId],
    out: &mut Page,
) -> Result<(), AllocError>
    requires { AreNodes table.now ids.now }
    ensures { (xs : List Variable) → trees_at table.now ids.now ≡ map variable xs → OnOk result (out.new ≡ out.old ++ form_text (list_form (map variable_form xs))) }
{
    out.push(b'(')?;
    for (place, id) in ids.iter().enumerate() {
        push_separator(place, out)?;
        push_variable(alloc, table, *id, out)?;
    }
    out.push(b')')?;
    Ok(())
}

// Appends the beginning of the list of an application: its head.
pub(crate) fn push_application(
    alloc: Global,
    table: &Printed,
    id: NodeId,
    out: &mut Page,
) -> Result<(), AllocError>
    requires node { IsNode table.now id }
    requires applied { is_quantified (tree table.now id) ≡ false }
    ensures { OnOk result (out.new ≡ out.old ++ opening (tree table.now id)) }
{
    out.push(b'(')?;
    push_head(alloc, table, id, out)?;
    Ok(())
}

// Appends the beginning of the list of a quantified node: its head, and the variables that it binds.
pub(crate) fn push_binder(
    alloc: Global,
    table: &Printed,
    id: NodeId,
    out: &mut Page,
) -> Result<(), AllocError>
    requires node { IsNode table.now id }
    requires quantified { is_quantified (tree table.now id) ≡ true }
    ensures { OnOk result (out.new ≡ out.old ++ opening (tree table.now id)) }
{
    let (variables, _) = binding(table, id).unwrap();
    out.push(b'(')?;
    push_head(alloc, table, id, out)?;
    out.push(b' ')?;
    push_variables(alloc, table, variables, out)?;
    Ok(())
}
